// What bytes do to a condition, worked out in place on the condition packed in 200 bytes, with the index of its user codes lent
// beside them.
#![tactic(auto)]

ghost use Rattle.std.specs.Prelude.{◌≡◌};
ghost use Rattle.inplace.specs.Carry.{after, after_of};

use characters::reindex;
use condition::Condition;
use refusals::Refusal;
use run::run_in;

mod busy;
mod cells;
mod characters;
mod commands;
mod fields;
mod parameters;
mod run;

// The most bytes that are taken.
const MOST_BYTES: usize = 32768;

// What bytes add to the tally beside their number: their busy time, how many come while flickerless is on, their worst busy time.
#[derive(Clone, Copy)]
pub struct Spent {
    pub busy: u32,
    pub flickerless: u32,
    pub worst: u32,
}

// Where bytes that were carried out leave a condition, and what they spend.
#[derive(Clone, Copy)]
pub struct After {
    pub condition: Condition,
    pub spent: Spent,
}

// The bytes are carried out in turn. Refused as out of range for a condition that is not well formed, as too long for more than
// 32,768 bytes. Well-formedness is tested in the packed bytes, and the condition's index against the one that is built for the
// run. (By `row::same`: `==` is compiled to a call that takes the entries one by one.)
pub fn carry(c: Condition, bytes: &[u8]) -> Result<After, Refusal>
    ensures { after c result ≡ after_of c bytes.now }
{
    let mut s = layout::packed(c);
    let mut index = [0u8; index::ENTRIES];
    reindex(&s, &mut index);
    if !layout::is_formed(&s) || !row::same(&c.index, &index) {
        return Err(Refusal::OutOfRange);
    }
    if MOST_BYTES < bytes.len() {
        return Err(Refusal::TooLong);
    }
    let spent = run_in(&mut s, &mut index, bytes);
    Ok(After {
        condition: layout::unpacked(&s),
        spent,
    })
}
