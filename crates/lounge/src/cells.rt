// The 40 cells: their codes and their marks move together, by the same methods. And the cursor.
ghost use Rattle.std.specs.Prelude.{◌≡◌};
ghost use Rattle.row.specs.Row.{line_start, shifted, cleared_line};
ghost use Rattle.lounge.specs.Set.{with_cells, with_cell, go_to};
ghost use Rattle.lounge.specs.Pairs.{scroll_of};

use crate::Lounge;

impl Lounge {
    // The cursor goes to x, and scroll-on ends: a position that is taken, 0Dh, 09h at column 19, a line reset.
    pub(crate) fn go_to(&mut self, x: u8)
        ensures { self.new ≡ go_to self.old x }
    {
        self.cursor = x;
        self.scrolling = false; // scroll-on ends
    }

    // A new character at a place has no mark.
    pub(crate) fn put(&mut self, at: u8, b: u8)
        ensures { self.new ≡ with_cell self.old at b }
    {
        row::put(&mut self.codes, at, b);
        row::put(&mut self.marks, at, 0);
    }

    // Top takes bottom, and the bottom line is cleared.
    pub(crate) fn scroll(&mut self)
        ensures { self.new ≡ scroll_of self.old }
    {
        row::scroll(&mut self.codes, 0x20);
        row::scroll(&mut self.marks, 0);
    }

    // The line of the place `at` shifts left one, and b comes to its column 19.
    pub(crate) fn shift(&mut self, at: u8, b: u8)
        ensures { self.new
            ≡ with_cells self.old (shifted (line_start at) b self.old.codes) (shifted (line_start at) 0 self.old.marks) }
    {
        row::shift(&mut self.codes, at, b);
        row::shift(&mut self.marks, at, 0);
    }

    // The line of the place `at` is cleared.
    pub(crate) fn clear_line(&mut self, at: u8)
        ensures { self.new
            ≡ with_cells self.old (cleared_line (line_start at) 0x20 self.old.codes) (cleared_line (line_start at) 0 self.old.marks) }
    {
        row::clear_line(&mut self.codes, at, 0x20);
        row::clear_line(&mut self.marks, at, 0);
    }
}
