// A pair, and then pairs in turn.
ghost use Rattle.std.specs.Prelude.{◌≡◌, true, ◌<◌};
ghost use Rattle.lounge.specs.Condition.{well_formed};
ghost use Rattle.lounge.specs.Pairs.{is_char, written_of, step_of, run_of};

use crate::{Lounge, Pending};

impl Lounge {
    // A byte is written as a character: a user code, or a code from 20h up, which are the most and told first.
    fn is_char(&self, b: u8) -> bool
        ensures { result ≡ is_char self.now b }
    {
        (0x20 <= b) || self.user_list().is_user(b)
    }

    // A data write.
    fn data(&mut self, b: u8)
        requires { self.old.cursor < 40 }
        ensures { self.new ≡ written_of self.old b }
    {
        match self.pending {
            Pending::Nothing => {
                if self.is_char(b) {
                    self.write(b);
                } else {
                    self.control(b);
                }
            }
            Pending::Escape => self.pending = Pending::UserData(b, 0),
            Pending::UserData(code, n) => self.user_data(code, n, b),
            Pending::First(code) => self.pending = Pending::Second(code, b),
            Pending::Second(code, first) => {
                self.pending = Pending::Nothing;
                self.area(code, first, b);
            }
        }
    }

    // What a pair does.
    fn step(&mut self, kind: u8, b: u8)
        requires { self.old.cursor < 40 }
        ensures { self.new ≡ step_of self.old kind b }
    {
        self.last = b;
        if kind == Lounge::COMMAND {
            self.command(b);
        } else {
            self.data(b);
        }
    }

    // What pairs do, in turn.
    pub(crate) fn run_in(&mut self, pairs: &[u8])
        requires { well_formed self.old ≡ true }
        ensures { self.new ≡ run_of self.old pairs.now }
    {
        for pair in pairs.chunks_exact(2) {
            self.step(pair[0], pair[1]);
        }
    }
}
