// A byte, and then bytes in turn, on the packed bytes.
ghost use Rattle.std.specs.Prelude.{◌≡◌, true, ◌≤◌, ◌<◌, length, get_or};
ghost use Rattle.condition.specs.Condition.{well_formed};
ghost use Rattle.condition.specs.Bytes.{write_of, step_of};
ghost use Rattle.condition.specs.Busy.{write_busy, quick_figure};
ghost use Rattle.layout.specs.Layout.{condition_in};
ghost use Rattle.inplace.specs.InPlace.{LentIndex, Stepped, Carried};

use crate::Spent;
use crate::busy::{continued_busy, control_busy, figures, write_busy};
use crate::characters::{alters, is_user, reindex};
use crate::commands::{control, write};
use crate::parameters::continued;
use condition::Figures;
use layout::{CODE, FLICKERLESS, HOLDS, KIND, PACKED};

// A character is written; the answer is its quick busy figure.
fn character(s: &mut [u8; PACKED], b: u8) -> u8
    requires { get_or s.old 3 0 < 40 }
    ensures { (condition_in s.new ≡ write_of (condition_in s.old) b)
        × (result ≡ write_busy (condition_in s.old)) }
{
    let figure = write_busy(s);
    write(s, b);
    figure
}

// What a byte that continues a half-received command does; the answer is its quick busy figure. The entries are built anew only
// where it may change the user characters.
fn parameter(s: &mut [u8; PACKED], index: &mut [u8], b: u8) -> u8
    requires { (0 < get_or s.old 13 0) × LentIndex index.old (condition_in s.old) }
    ensures { (condition_in s.new ≡ step_of (condition_in s.old) b)
        × (result ≡ quick_figure (condition_in s.old) b)
        × LentIndex index.new (condition_in s.new) }
{
    let half = layout::pending_in(s[KIND], s[CODE], s[HOLDS]);
    continued(s, half, b);
    let figure = continued_busy(half, b);
    if alters(half, b) {
        reindex(s, index);
    }
    figure
}

// What a byte does; the answer is its busy figures. Whether flickerless is on is looked at before the byte is carried out, which
// may change it. Printable bytes are told first: they are the most. So the kind's byte alone is looked at here, and no `Pending` is
// made of it.
fn step(s: &mut [u8; PACKED], index: &mut [u8], b: u8) -> Figures
    requires { (get_or s.old 3 0 < 40) × LentIndex index.old (condition_in s.old) }
    ensures { Stepped (condition_in s.old) b (condition_in s.new) result
        × LentIndex index.new (condition_in s.new) }
{
    let on = s[FLICKERLESS] == 1;
    let kind = s[KIND];
    if kind != 0 {
        return figures(parameter(s, index, b), on);
    }
    if 0x20 <= b {
        return figures(character(s, b), on);
    }
    if is_user(s, index, b) {
        return figures(character(s, b), on);
    }
    let quick = control_busy(s, b);
    control(s, b);
    figures(quick, on)
}

// What bytes do, in turn. The entries stay those of the list.
pub(crate) fn run_in(s: &mut [u8; PACKED], index: &mut [u8], bytes: &[u8]) -> Spent
    requires { (well_formed (condition_in s.old) ≡ true) × (length bytes.now ≤ 32768)
        × LentIndex index.old (condition_in s.old) }
    ensures { Carried (condition_in s.old) bytes.now
        (condition_in s.new) result
        × LentIndex index.new (condition_in s.new) }
{
    let mut spent = Spent {
        busy: 0,
        flickerless: 0,
        worst: 0,
    };
    for b in bytes {
        spent.flickerless += u32::from(s[FLICKERLESS] == 1);
        let took = step(s, index, *b);
        spent.busy += u32::from(took.quick);
        spent.worst += u32::from(took.worst);
    }
    spent
}
