// Characters, control codes and commands: what moves the cursor and the cells.
ghost use Rattle.std.specs.Prelude.{◌≡◌, ◌<◌};
ghost use Rattle.row.specs.Row.{line_start};
ghost use Rattle.lounge.specs.Pairs.{tab_of, return_of, mode_of, push_of, write_of, marking_of, control_of, line_reset_of, command_of};

use crate::marking::cancel;
use crate::{Lounge, Pending};

impl Lounge {
    // A character in DC2 at column 19.
    fn push(&mut self, b: u8)
        ensures { self.new ≡ push_of self.old b }
    {
        if self.scrolling {
            self.shift(self.cursor, b);
        } else {
            self.put(self.cursor, b);
            self.scrolling = true;
        }
    }

    // A character is written.
    pub(crate) fn write(&mut self, b: u8)
        requires { self.old.cursor < 40 }
        ensures { self.new ≡ write_of self.old b }
    {
        if (self.mode == Lounge::DC2) & (self.cursor % Lounge::COLUMNS == Lounge::LAST_COLUMN) {
            self.push(b);
            return;
        }
        self.put(self.cursor, b);
        if self.cursor == Lounge::LAST_PLACE {
            self.cursor = 0;
        } else {
            self.cursor += 1;
        }
    }

    // 09h.
    fn tab(&mut self)
        requires { self.old.cursor < 40 }
        ensures { self.new ≡ tab_of self.old }
    {
        if self.cursor % Lounge::COLUMNS < Lounge::LAST_COLUMN {
            self.cursor += 1;
            return;
        }
        if self.cursor == Lounge::LAST_COLUMN {
            self.go_to(Lounge::COLUMNS);
            return;
        }
        self.scroll();
        self.go_to(Lounge::COLUMNS); // the bottom line's first place
    }

    // 0Dh.
    fn carriage_return(&mut self)
        ensures { self.new ≡ return_of self.old }
    {
        self.go_to(row::line_start(self.cursor));
    }

    // 11h, 12h: DC1, DC2; they end scroll-on.
    fn select(&mut self, mode: u8)
        ensures { self.new ≡ mode_of self.old mode }
    {
        self.mode = mode;
        self.scrolling = false;
    }

    // 17h to 1Dh: area codes, their cancels, and ESC. Any other code is ignored.
    fn marking(&mut self, b: u8)
        ensures { self.new ≡ marking_of self.old b }
    {
        match b {
            0x17 => self.pending = Pending::First(Lounge::LUMINANCE),
            0x18 => {
                cancel(&mut self.marks, Lounge::BRIGHT_MARK);
                self.dimming = false;
            }
            0x19 => self.pending = Pending::First(Lounge::BLINK),
            0x1a => cancel(&mut self.marks, Lounge::BLINK_MARK),
            0x1b => self.pending = Pending::Escape,
            0x1c => self.pending = Pending::First(Lounge::UNDERLINE),
            0x1d => cancel(&mut self.marks, Lounge::UNDERLINE_MARK),
            _ => {}
        }
    }

    // A data write that is no character and continues nothing.
    pub(crate) fn control(&mut self, b: u8)
        requires { self.old.cursor < 40 }
        ensures { self.new ≡ control_of self.old b }
    {
        match b {
            0x09 => self.tab(),
            0x0d => self.carriage_return(),
            0x11 => self.select(Lounge::DC1),
            0x12 => self.select(Lounge::DC2),
            _ => self.marking(b),
        }
    }

    // 40h and 41h: the line of `start` is cleared, and the cursor goes to its start if it is in that line.
    fn reset_line(&mut self, start: u8)
        requires { line_start start ≡ start }
        ensures { self.new ≡ line_reset_of self.old start }
    {
        self.clear_line(start);
        if row::line_start(self.cursor) == start {
            self.go_to(start);
        }
    }

    // A command write.
    pub(crate) fn command(&mut self, b: u8)
        ensures { self.new ≡ command_of self.old b }
    {
        match b {
            0..=Lounge::LAST_PLACE => self.go_to(b),
            0x40 => self.reset_line(0),
            0x41 => self.reset_line(Lounge::COLUMNS),
            _ => {}
        }
    }
}
