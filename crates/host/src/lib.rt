// What the calls of the C host program on a block share: opening it, and an answer with its refusal as one number.
#![tactic(auto)]

ghost use Rattle.std.specs.Prelude.{◌≡◌, ◌≤◌};
ghost use Rattle.condition.specs.Condition.{outcome};
ghost use Rattle.host.specs.Host.{opened_of, base_of, host_answer, answer_number};

use condition::Condition;
use refusals::Refusal;

// The base of the refusals in an answer: above the longest plan, or above what a question can answer.
#[derive(Clone, Copy)]
pub enum Base {
    Plan,
    Question,
}

// The condition that stands in a block, well formed or not, or what the block is refused for whatever stands in it. So a call
// looks at a block once: what it then has the library do refuses by 3 where the condition is not well formed.
pub fn opened(block: &[u8]) -> Result<Condition, Refusal>
    ensures { outcome result ≡ opened_of block.now }
{
    if let Some(damage) = block::damage(block) {
        return Err(damage);
    }
    Ok(layout::unpacked(block))
}

// The same by the refusal's number, 0 for none, with a condition also where the block is refused: power-up for font 0.
pub fn opened_by_number(block: &[u8]) -> (u32, Condition)
    ensures { record { refusal = result.0; condition = result.1 } ≡ opened_of block.now }
{
    match opened(block) {
        Ok(c) => (0, c),
        Err(damage) => (u32::from(damage), Condition::powered(0)),
    }
}

fn base_of(base: Base) -> u32
    ensures { (result ≡ base_of base) × (result ≤ 65536) }
{
    match base {
        Base::Plan => 256,
        Base::Question => 65536,
    }
}

// An answer by its refusal number, any byte and 0 for none, as one number: the value, or a base plus the refusal.
pub fn answer_by(base: Base, refusal: u8, value: u32) -> u32
    ensures { result ≡ host_answer base refusal value }
{
    if refusal != 0 {
        return base_of(base) + u32::from(refusal);
    }
    value
}

// The same of an answer of the library, which is refused by one of 1 to 11.
pub fn answer(base: Base, answer: Result<u32, Refusal>) -> u32
    ensures { result ≡ answer_number base answer }
{
    match answer {
        Ok(value) => value,
        Err(refusal) => base_of(base) + u32::from(refusal),
    }
}
