// The length of a plan, counted and not put.
ghost use Rattle.std.specs.Prelude.{◌≡◌, length};
ghost use Rattle.planner.specs.Fonts.{switch, fonts_plan};
ghost use Rattle.planner.specs.Clear.{clear_wins, fonts_by, either_fonts_plan};

use crate::cells::{codes_at, differs, fonts_at};
use crate::task::Task;

// The byte that clears.
pub(crate) const CLEAR: u8 = 0x0e;

// The length of the switch from a font to another.
fn switch_length(euro: bool, from: u8, to: u8) -> u8
    ensures { result ≡ length (switch euro from to) }
{
    if from == to {
        0
    } else if to == 1 || !euro {
        1
    } else {
        2
    }
}

impl Task<'_> {
    // The length of the plan, with the clear or without it. It counts, and `put_by` puts: they do different things at a wrong cell,
    // and one walk that is given what to do there would be longer than the two.
    fn count_by(self, clear: bool) -> u8
        ensures { let t = self.entry in result ≡ length (fonts_by clear t.start.now t.codes.now t.fonts.now t.cursor) }
    {
        let c = self.start;
        let codes = codes_at(*c, clear);
        let standing = fonts_at(*c, clear);
        let euro = c.euro;
        let fonts = self.fonts;
        let mut p = c.cursor;
        let mut selected = c.font;
        let mut n = u8::from(clear);
        for (j, code) in self.codes.iter().enumerate() {
            let font = fonts[j];
            if differs(codes[j], standing[j], *code, font) {
                let i = j as u8;
                n += moves::number(p, i) + switch_length(euro, selected, font) + 1;
                p = moves::next(i);
                selected = font;
            }
        }
        n + moves::number(p, self.cursor)
    }

    // The plan with the clear is shorter, and no user character sits on 0Eh.
    pub fn clear_wins(self) -> bool
        ensures { let t = self.entry in result ≡ clear_wins (λ d. fonts_plan d t.codes.now t.fonts.now t.cursor) t.start.now }
    {
        !self.start.users.list().is_user(CLEAR) && self.count_by(true) < self.count_by(false)
    }

    // The length of the plan: of the shorter one, and without the clear where a user character sits on 0Eh.
    pub fn count(self) -> u8
        ensures { let t = self.entry in result ≡ length (either_fonts_plan t.start.now t.codes.now t.fonts.now t.cursor) }
    {
        let plain = self.count_by(false);
        if self.start.users.list().is_user(CLEAR) {
            return plain;
        }
        plain.min(self.count_by(true))
    }
}
