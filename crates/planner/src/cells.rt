// The cells that a plan starts from, as they stand or cleared, and which of them are wrong.
ghost use Rattle.std.specs.Prelude.{◌≡◌};
ghost use Rattle.planner.specs.Fonts.{wrong_cell};
ghost use Rattle.planner.specs.Clear.{start_of};

use condition::Condition;

// The codes of the cells; cleared, each is 20h.
pub fn codes_at(c: Condition, clear: bool) -> [u8; Condition::CELLS]
    ensures { result ≡ (start_of clear c).codes }
{
    if clear {
        [0x20; Condition::CELLS]
    } else {
        c.codes
    }
}

// The fonts of the cells; cleared, each is the selected one.
pub fn fonts_at(c: Condition, clear: bool) -> [u8; Condition::CELLS]
    ensures { result ≡ (start_of clear c).fonts }
{
    if clear {
        [c.font; Condition::CELLS]
    } else {
        c.fonts
    }
}

// A cell has another code or another font than the wanted one.
pub(crate) fn differs(code: u8, font: u8, wanted: u8, face: u8) -> bool
    ensures { result ≡ wrong_cell code font wanted face }
{
    code != wanted || font != face
}
