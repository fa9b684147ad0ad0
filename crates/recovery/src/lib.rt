// The bytes that bring a module back to power-up, whatever half a command it has; and when no bytes at all do.
#![tactic(auto)]

ghost use Rattle.std.specs.Prelude.{◌≡◌};
ghost use Rattle.refusals.specs.Refusals.{refusal_in};
ghost use Rattle.planner.specs.Answer.{planned};
ghost use Rattle.recovery.specs.Recovery.{makes_escape, lost, recover_refusal, Recovers};

use condition::{Condition, Pending};
use refusals::Refusal;

// ESC: the byte that begins an ESC command.
const ESCAPE: u8 = 0x1b;

// The bytes are always eight.
pub const ROOM: usize = 8;

// User data for ESC is awaited.
fn makes_escape(p: Pending) -> bool
    ensures { result ≡ makes_escape p }
{
    matches!(p, Pending::UserData(ESCAPE, _))
}

// ESC is a user character, or is just being made one. Then no ESC command can begin any more, so nothing helps.
fn is_lost(c: &Condition) -> bool
    ensures { result ≡ lost c.now }
{
    c.users.list().is_user(ESCAPE) || makes_escape(c.pending)
}

// What `recover` refuses by, with so much room in its output.
fn check(c: &Condition, room: usize) -> Result<(), Refusal>
    ensures { refusal_in result ≡ recover_refusal c.now room }
{
    if !c.is_well_formed() {
        return Err(Refusal::OutOfRange);
    }
    if is_lost(c) {
        return Err(Refusal::Lost);
    }
    if room < ROOM {
        return Err(Refusal::NoRoom);
    }
    Ok(())
}

// The eight bytes at the start of out, and their number; or a refusal, and nothing changes. Six 00h end any command that is half
// received: the longest wait is for a user character's code and its five bytes. Then comes Initialise.
pub fn recover(c: Condition, out: &mut [u8]) -> Result<u8, Refusal>
    ensures { Recovers c out.old out.new (planned result) }
{
    check(&c, out.len())?;
    row::copy(out, &[0x00, 0x00, 0x00, 0x00, 0x00, 0x00, ESCAPE, 0x49]);
    Ok(ROOM as u8)
}
