// A run: what bytes do to a condition and to the tally.
#![tactic(auto)]

ghost use Rattle.std.specs.Prelude.{◌≡◌};
ghost use Rattle.interpreter.specs.Run.{within_limit, zero_tally, run_answer, ran, ran_on, RunPromise, LentPromise};

use condition::Condition;
use inplace::After;
use refusals::Refusal;

// What a run adds to: bytes, busy microseconds, bytes received while flickerless was already on, busy microseconds at the worst.
#[derive(Clone, Copy)]
pub struct Tally {
    pub bytes: u32,
    pub busy: u32,
    pub flickerless: u32,
    pub worst: u32,
}

impl Tally {
    // The most that each may be.
    pub const LIMIT: u32 = 4000000000;

    // The tally before any run.
    pub fn zero() -> Tally
        ensures { result ≡ zero_tally }
    {
        Tally {
            bytes: 0,
            busy: 0,
            flickerless: 0,
            worst: 0,
        }
    }

    #[tactic(auto, unfolding(crate::specs::Run::within_limit))]
    fn is_within_limit(self) -> bool
        ensures { result ≡ within_limit self }
    {
        self.bytes <= Tally::LIMIT
            && self.busy <= Tally::LIMIT
            && self.flickerless <= Tally::LIMIT
            && self.worst <= Tally::LIMIT
    }
}

// The condition and the tally after a run.
#[derive(Clone, Copy)]
pub struct Ran {
    pub condition: Condition,
    pub tally: Tally,
}

// The bytes are carried out in turn on the condition that is lent, and the tally that is lent is brought up to date. Refused as out
// of range for a condition that is not well formed or a tally above its limit, as too long for more than 32,768 bytes, as a full
// tally where a number of it would pass its limit; what is lent stays as it is then.
pub fn run_on(c: &mut Condition, t: &mut Tally, bytes: &[u8]) -> Result<(), Refusal>
    ensures { ran_on result c.new t.new ≡ run_answer c.old t.old bytes.now }
{
    if !t.is_within_limit() {
        return Err(Refusal::OutOfRange);
    }
    let After { condition, spent } = inplace::carry(*c, bytes)?;
    let tally = Tally {
        bytes: t.bytes + bytes.len() as u32,
        busy: t.busy + spent.busy,
        flickerless: t.flickerless + spent.flickerless,
        worst: t.worst + spent.worst,
    };
    if !tally.is_within_limit() {
        return Err(Refusal::TallyFull);
    }
    *c = condition;
    *t = tally;
    Ok(())
}

// The same of a condition and a tally by value.
pub fn run(mut c: Condition, mut t: Tally, bytes: &[u8]) -> Result<Ran, Refusal>
    ensures { RunPromise c t bytes.now (ran c t result) }
{
    run_on(&mut c, &mut t, bytes)?;
    Ok(Ran {
        condition: c,
        tally: t,
    })
}

// The same with the tally lent: its numbers are brought up to date there.
pub fn run_lent(t: &mut Tally, mut c: Condition, bytes: &[u8]) -> Result<Ran, Refusal>
    ensures { LentPromise c t.old bytes.now (ran c t.old result) t.new }
{
    run_on(&mut c, t, bytes)?;
    Ok(Ran {
        condition: c,
        tally: *t,
    })
}
