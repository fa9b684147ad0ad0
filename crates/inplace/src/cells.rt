// The 40 cells: their codes, then their fonts. A cell is written in the selected font.
ghost use Rattle.std.specs.Prelude.{◌≡◌};
ghost use Rattle.condition.specs.Set.{with_cell};
ghost use Rattle.condition.specs.Bytes.{scroll_of, clear_of};
ghost use Rattle.layout.specs.Layout.{condition_in};
ghost use Rattle.inplace.specs.InPlace.{shift_of, blank_of};

use layout::{CODES, CURSOR, FONT, FONTS, PACKED, SCROLLING, USERS};

pub(crate) fn put(s: &mut [u8; PACKED], at: u8, b: u8)
    ensures { condition_in s.new ≡ with_cell (condition_in s.old) at b }
{
    let font = s[FONT];
    row::put(&mut s[CODES..FONTS], at, b);
    row::put(&mut s[FONTS..USERS], at, font);
}

pub(crate) fn scroll(s: &mut [u8; PACKED])
    ensures { condition_in s.new ≡ scroll_of (condition_in s.old) }
{
    let font = s[FONT];
    row::scroll(&mut s[CODES..FONTS], 0x20);
    row::scroll(&mut s[FONTS..USERS], font);
}

// The cursor's line shifts left one, and b comes to its column 19.
pub(crate) fn shift(s: &mut [u8; PACKED], b: u8)
    ensures { condition_in s.new ≡ shift_of (condition_in s.old) b }
{
    let at = s[CURSOR];
    let font = s[FONT];
    row::shift(&mut s[CODES..FONTS], at, b);
    row::shift(&mut s[FONTS..USERS], at, font);
}

// Every cell is 20h in a font.
pub(crate) fn blank(s: &mut [u8; PACKED], font: u8)
    ensures { condition_in s.new ≡ blank_of (condition_in s.old) font }
{
    s[CODES..FONTS].fill(0x20);
    s[FONTS..USERS].fill(font);
}

// 0Eh and 0Fh. The cursor stays.
pub(crate) fn clear(s: &mut [u8; PACKED])
    ensures { condition_in s.new ≡ clear_of (condition_in s.old) }
{
    let font = s[FONT];
    blank(s, font);
    s[SCROLLING] = 0;
}
