// The data writes that continue what is half received: user characters and areas.
ghost use Rattle.std.specs.Prelude.{◌≡◌};
ghost use Rattle.lounge.specs.Pairs.{area_of, data_of};

use crate::marking::{is_pair, mark, mark_of};
use crate::{Lounge, Pending};

impl Lounge {
    // One of the five data bytes. The top five bits of the fifth are dropped.
    pub(crate) fn user_data(&mut self, code: u8, n: u8, d: u8)
        ensures { self.new ≡ data_of self.old code n d }
    {
        if (n as usize) < Lounge::HELD {
            self.held[n as usize] = d;
            self.pending = Pending::UserData(code, n + 1);
            return;
        }
        self.count = users::define(
            &mut self.users,
            self.count,
            code,
            self.held,
            d % Lounge::FIFTH,
        );
        self.held = [0; Lounge::HELD];
        self.pending = Pending::Nothing;
    }

    // The second of the two positions of an area code: an accepted 17h pair turns dimming on.
    pub(crate) fn area(&mut self, code: u8, first: u8, second: u8)
        ensures { self.new ≡ area_of self.old code first second }
    {
        if is_pair(first, second) {
            mark(&mut self.marks, mark_of(code), first, second);
            self.dimming |= code == Lounge::LUMINANCE;
        }
    }
}
