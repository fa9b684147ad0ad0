// The C host program's entry points: numbers and byte slices only.
#![tactic(auto)]

ghost use Rattle.std.specs.Prelude.{◌≡◌, ◌+◌, ◌≤◌, length};
ghost use Rattle.refusals.specs.Refusals.{refusal_in};
ghost use Rattle.reel.specs.Reel.{stopped, reeled};
ghost use Rattle.vetting.specs.Verdicts.{verdict, unrefused};
ghost use Rattle.vetting.specs.Vetting.{excess_in};
ghost use Rattle.host.specs.Host.{answer_number};
ghost use Rattle.questions.specs.Questions.{host_view, host_dot, host_underline, host_lit};
ghost use Rattle.sign.specs.Calls.{number_at, tally_at, tally_bytes, reel_number, ReelsIn, vet_number};
ghost use Rattle.sign.specs.Calls.{HostRun, HostPlan, HostFonts, HostReel, HostVet, HostRecovers, HostPowerUp};

use condition::Condition;
use host::Base;
use interpreter::Tally;
use reel::{Reeled, Stop};
use refusals::Refusal;
use vetting::Verdict;

// The host's tally: four four-byte numbers.
const TALLY: usize = 16;

// Four bytes, low byte first.
fn number_at(s: &[u8], at: usize) -> u32
    requires { at + 4 ≤ length s.now }
    ensures { result ≡ number_at s.now at }
{
    u32::from_le_bytes([s[at], s[at + 1], s[at + 2], s[at + 3]])
}

fn tally_at(s: &[u8]) -> Tally
    requires { length s.now ≡ 16 }
    ensures { result ≡ tally_at s.now }
{
    Tally {
        bytes: number_at(s, 0),
        busy: number_at(s, 4),
        flickerless: number_at(s, 8),
        worst: number_at(s, 12),
    }
}

fn tally_bytes(t: Tally) -> [u8; TALLY]
    ensures { result ≡ tally_bytes t }
{
    let mut s = [0; TALLY];
    s[0..4].copy_from_slice(&t.bytes.to_le_bytes());
    s[4..8].copy_from_slice(&t.busy.to_le_bytes());
    s[8..12].copy_from_slice(&t.flickerless.to_le_bytes());
    s[12..16].copy_from_slice(&t.worst.to_le_bytes());
    s
}

// 0 for what was done, or the refusal.
fn done_number(done: Result<(), Refusal>) -> u32
    ensures { result ≡ refusal_in done }
{
    done.err().map_or(0, u32::from)
}

fn run(block: &mut [u8], tally: &mut [u8], bytes: &[u8]) -> Result<(), Refusal>
    ensures { HostRun block.old tally.old bytes.now (refusal_in result) block.new tally.new }
{
    if tally.len() != TALLY {
        return Err(Refusal::WrongLength);
    }
    let c = host::opened(block)?;
    let t = tally_at(tally);
    let ran = interpreter::run(c, t, bytes)?;
    block::put(ran.condition, block);
    tally.copy_from_slice(&tally_bytes(ran.tally));
    Ok(())
}

// Runs bytes on the block and the tally that are lent; answers 0 or the refusal.
#[unsafe(no_mangle)]
pub extern "C" fn sign_run(block: &mut [u8], tally: &mut [u8], bytes: &[u8]) -> u32
    ensures { HostRun block.old tally.old bytes.now result block.new tally.new }
{
    done_number(run(block, tally, bytes))
}

fn plan(block: &[u8], codes: &[u8], cursor: u32, out: &mut [u8]) -> Result<u32, Refusal>
    ensures { HostPlan block.now codes.now cursor out.old (answer_number Base.Plan result) out.new }
{
    if codes.len() != Condition::CELLS {
        return Err(Refusal::WrongLength);
    }
    let c = host::opened(block)?;
    let length = planner::plan(c, codes, cursor, out)?;
    Ok(u32::from(length))
}

// Plans in the selected font on the block that is lent; answers the plan's length, or 256 plus the refusal.
#[unsafe(no_mangle)]
pub extern "C" fn sign_plan(block: &[u8], codes: &[u8], cursor: u32, out: &mut [u8]) -> u32
    ensures { HostPlan block.now codes.now cursor out.old result out.new }
{
    host::answer(Base::Plan, plan(block, codes, cursor, out))
}

fn plan_fonts(
    block: &[u8],
    codes: &[u8],
    fonts: &[u8],
    cursor: u32,
    out: &mut [u8],
) -> Result<u32, Refusal>
    ensures { HostFonts block.now codes.now fonts.now cursor out.old (answer_number Base.Plan result) out.new }
{
    if codes.len() != Condition::CELLS || fonts.len() != Condition::CELLS {
        return Err(Refusal::WrongLength);
    }
    let c = host::opened(block)?;
    let length = planner::plan_fonts(c, codes, fonts, cursor, out)?;
    Ok(u32::from(length))
}

// Plans in two fonts on the block that is lent; answers the plan's length, or 256 plus the refusal.
#[unsafe(no_mangle)]
pub extern "C" fn sign_plan_fonts(
    block: &[u8],
    codes: &[u8],
    fonts: &[u8],
    cursor: u32,
    out: &mut [u8],
) -> u32
    ensures { HostFonts block.now codes.now fonts.now cursor out.old result out.new }
{
    host::answer(Base::Plan, plan_fonts(block, codes, fonts, cursor, out))
}

// A reel on the block that is lent, with the refusals of the block.
fn reel(block: &[u8], codes: &[u8], cursors: &[u8], out: &mut [u8]) -> Result<Reeled, Stop>
    ensures { ReelsIn block.now codes.now cursors.now out.old out.new (reeled result) }
{
    if !reel::matched(codes, cursors) {
        return Err(Stop::from(Refusal::WrongLength));
    }
    let start = host::opened(block)?;
    reel::reel(start, codes, cursors, out)
}

// Where a reel is refused, as one number.
fn stop_number(stop: Stop) -> u32
    ensures { result ≡ reel_number (stopped stop) 0 }
{
    65536 + 256 * u32::from(stop.picture) + u32::from(stop.refusal)
}

// Plans a reel in the selected font on the block that is lent; answers all bytes together, or 65,536 plus 256 times the picture
// plus the refusal.
#[unsafe(no_mangle)]
pub extern "C" fn sign_reel(
    block: &[u8],
    codes: &[u8],
    cursors: &[u8],
    lengths: &mut [u8],
    out: &mut [u8],
) -> u32
    ensures { HostReel block.now codes.now cursors.now lengths.old
        out.old result lengths.new out.new }
{
    if lengths.len() != reel::MOST {
        return stop_number(Stop::from(Refusal::WrongLength));
    }
    match reel(block, codes, cursors, out) {
        Ok(reeled) => {
            row::copy(lengths, &reeled.lengths);
            reeled.bytes
        }
        Err(stop) => {
            lengths.fill(0);
            stop_number(stop)
        }
    }
}

// A verdict as one number: 0 for no, 1 plus the excess for yes.
fn yes_number(verdict: Verdict) -> u32
    requires { excess_in (unrefused verdict) ≤ 32768 }
    ensures { result ≡ vet_number (unrefused verdict) }
{
    match verdict {
        Verdict::Yes(excess) => 1 + excess,
        Verdict::Byte(_) | Verdict::Cell(_) | Verdict::Cursor => 0,
    }
}

fn vet_number(said: Result<Verdict, Refusal>) -> u32
    requires { excess_in (verdict said) ≤ 32768 }
    ensures { result ≡ vet_number (verdict said) }
{
    match said {
        Ok(verdict) => yes_number(verdict),
        Err(refusal) => 65536 + u32::from(refusal),
    }
}

// Vets a string for the block that is lent; answers 0 for no, 1 plus the excess for yes, or 65,536 plus the refusal.
#[unsafe(no_mangle)]
pub extern "C" fn sign_vet(block: &[u8], codes: &[u8], cursor: u32, bytes: &[u8]) -> u32
    ensures { HostVet block.now codes.now cursor bytes.now result }
{
    vet_number(vetting::vet_block(block, codes, cursor, bytes))
}

fn recover(block: &[u8], out: &mut [u8]) -> Result<u32, Refusal>
    ensures { HostRecovers block.now out.old (answer_number Base.Plan result) out.new }
{
    let c = host::opened(block)?;
    let length = recovery::recover(c, out)?;
    Ok(u32::from(length))
}

// The bytes that bring the module back to power-up, for the block that is lent; answers 8, or 256 plus the refusal.
#[unsafe(no_mangle)]
pub extern "C" fn sign_recover(block: &[u8], out: &mut [u8]) -> u32
    ensures { HostRecovers block.now out.old result out.new }
{
    host::answer(Base::Plan, recover(block, out))
}

fn power_up(font: u32, block: &mut [u8]) -> Result<(), Refusal>
    ensures { HostPowerUp font block.old (refusal_in result) block.new }
{
    let start = Condition::power_up(font)?;
    block::write(start, block)?;
    Ok(())
}

// Writes the power-up block for a default font; answers 0 or the refusal.
#[unsafe(no_mangle)]
pub extern "C" fn sign_power_up(font: u32, block: &mut [u8]) -> u32
    ensures { HostPowerUp font block.old result block.new }
{
    done_number(power_up(font, block))
}

// What the cell at a position of the block that is lent shows.
#[unsafe(no_mangle)]
pub extern "C" fn sign_view(block: &[u8], position: u32) -> u32
    ensures { result ≡ host_view block.now position }
{
    questions::view(block, position)
}

// Dot k of a user character of the block that is lent, asked by its code.
#[unsafe(no_mangle)]
pub extern "C" fn sign_dot(block: &[u8], code: u32, k: u32) -> u32
    ensures { result ≡ host_dot block.now code k }
{
    questions::dot(block, code, k)
}

// The underline of a user character of the block that is lent, asked by its code.
#[unsafe(no_mangle)]
pub extern "C" fn sign_underline(block: &[u8], code: u32) -> u32
    ensures { result ≡ host_underline block.now code }
{
    questions::underline(block, code)
}

// How many of its 35 dots a user character of the block that is lent lights, asked by its code.
#[unsafe(no_mangle)]
pub extern "C" fn sign_lit(block: &[u8], code: u32) -> u32
    ensures { result ≡ host_lit block.now code }
{
    questions::lit(block, code)
}
