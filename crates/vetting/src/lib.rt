// Vetting: does a string of other people's bytes use only the planner's steps in reading order, and give the wanted picture and
// cursor? Yes or why not; and how much longer it is than the plan.
#![tactic(auto)]

ghost use Rattle.std.specs.Prelude.{◌≡◌, ◌&&◌, ltb, leb, IfOk};
ghost use Rattle.refusals.specs.Refusals.{refusal_in};
ghost use Rattle.vetting.specs.Verdicts.{verdict};
ghost use Rattle.vetting.specs.Vetting.{long_refusal, Vets, VetsBlock};

use condition::Condition;
use refusals::Refusal;

mod judging;
mod steps;

// The most bytes of a string.
pub const MOST: usize = 32768;

// What is said of a string that is not refused.
#[derive(Clone, Copy)]
pub enum Verdict {
    // no: the earliest byte, counted from 0, at which it stops being permitted steps in rising order; of a bad or cut jump its 1Bh
    Byte(u32),
    // no: the lowest cell that is wrong after it
    Cell(u8),
    // no: the cursor is not where it was asked for
    Cursor,
    // yes, and so many bytes more than the shortest
    Yes(u32),
}

// What the planner refuses by comes before 4, for a string that is too long: 1 to 3 do.
fn is_before_length(planned: Result<u8, Refusal>) -> bool
    ensures { result ≡ (ltb 0 (refusal_in planned) && leb (refusal_in planned) 3) }
{
    matches!(
        planned,
        Err(Refusal::WrongLength | Refusal::Damaged | Refusal::OutOfRange)
    )
}

// The length of the plan, or what the string is refused by, by how long it is.
fn checked(planned: Result<u8, Refusal>, size: usize) -> Result<u8, Refusal>
    ensures number { refusal_in result ≡ long_refusal (refusal_in planned) size }
    ensures same { IfOk result (λ length. planned ≡ Ok length) }
{
    if is_before_length(planned) {
        return planned;
    }
    if MOST < size {
        return Err(Refusal::TooLong);
    }
    planned
}

// Yes exactly when the string gives the wanted codes in the selected font and the asked cursor, by the planner's steps alone.
pub fn vet(c: Condition, wanted: &[u8], asked: u32, string: &[u8]) -> Result<Verdict, Refusal>
    ensures { Vets c wanted.now asked string.now (verdict result) }
{
    let least = checked(planner::count(c, wanted, asked), string.len())?;
    Ok(judging::judge(c, wanted, asked as u8, string, least))
}

// The same for the condition that stands in a block.
pub fn vet_block(block: &[u8], wanted: &[u8], asked: u32, string: &[u8]) -> Result<Verdict, Refusal>
    ensures { VetsBlock block.now wanted.now asked string.now (verdict result) }
{
    if wanted.len() != Condition::CELLS {
        return Err(Refusal::WrongLength);
    }
    let c = host::opened(block)?;
    vet(c, wanted, asked, string)
}
