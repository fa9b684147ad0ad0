// A reel: pictures in turn, each planned from where the one before leaves the module.
#![tactic(auto)]

ghost use Rattle.std.specs.Prelude.{◌≡◌, ◌+◌, ◌*◌, ◌≤◌, ◌<◌, Ok, length, take, drop};
ghost use mathlib.Core.List.{flatten};
ghost use Rattle.refusals.specs.Refusals.{number_of, refusal_in};
ghost use Rattle.planner.specs.Plan.{at_start, pictured};
ghost use Rattle.reel.specs.Reel.{pictures_of, plans_of, naming64, first_refused, whole_refusal, stop_of};
ghost use Rattle.reel.specs.Reel.{matching, reeled_by, stopped, stop_in, reeled, Reels};

use condition::Condition;
pub use numbers::{naming_64, refused};
use refusals::Refusal;

pub mod numbers;

// The most pictures of a reel. This number is named where the whole call is refused.
pub const MOST: usize = 64;

// Where a reel is refused: the picture, and why.
#[derive(Clone, Copy)]
pub struct Stop {
    pub picture: u8,
    pub refusal: Refusal,
}

// What is refused of the whole call names 64.
impl From<Refusal> for Stop {
    ghost from_gives = { λ refusal stop. stopped stop ≡ naming64 (number_of refusal) };

    fn from(refusal: Refusal) -> Stop {
        Stop {
            picture: MOST as u8,
            refusal,
        }
    }
}

// What is put of a reel: all its bytes together, and the length of each plan, 0 beyond the pictures.
#[derive(Clone, Copy)]
pub struct Reeled {
    pub bytes: u32,
    pub lengths: [u8; MOST],
}

// There are 40 codes for each asked cursor. (Their number times 40 might not fit.)
pub fn matched(codes: &[u8], cursors: &[u8]) -> bool
    ensures { result ≡ matching codes.now cursors.now }
{
    let n = codes.len();
    n % Condition::CELLS == 0 && n / Condition::CELLS == cursors.len()
}

// What the whole call is refused by. (44 times the number of cursors might not fit.)
fn check_whole(c: &Condition, codes: &[u8], cursors: &[u8], room: usize) -> Result<(), Refusal>
    ensures { refusal_in result ≡ whole_refusal c.now codes.now cursors.now room }
{
    let n = cursors.len();
    if !matched(codes, cursors) {
        return Err(Refusal::WrongLength);
    }
    if MOST < n {
        return Err(Refusal::OutOfRange);
    }
    if !c.is_well_formed() {
        return Err(Refusal::OutOfRange);
    }
    if room / planner::ROOM < n {
        return Err(Refusal::NoRoom);
    }
    Ok(())
}

// The codes of picture k.
fn codes_of(codes: &[u8], k: usize) -> &[u8]
    requires { (k < 64) × (k * 40 + 40 ≤ length codes.now) }
    ensures { result.now ≡ take 40 (drop (k * 40) codes.now) }
{
    let from = k * Condition::CELLS;
    &codes[from..from + Condition::CELLS]
}

// The first picture that the planner refuses. What a plan leaves is refused what its start is refused, so every picture is asked
// for from the start.
fn check_pictures(c: Condition, codes: &[u8], cursors: &[u8]) -> Result<(), Stop>
    requires { (length codes.now ≡ 40 * length cursors.now) × (length cursors.now ≤ 64) }
    ensures { stop_in result ≡ first_refused 0 c (pictures_of codes.now cursors.now) }
{
    for (k, cursor) in cursors.iter().enumerate() {
        let wanted = codes_of(codes, k);
        if let Some(refusal) = planner::refusal(c, wanted, u32::from(*cursor), planner::ROOM) {
            return Err(Stop {
                picture: k as u8,
                refusal,
            });
        }
    }
    Ok(())
}

// Where the reel is refused: the whole call, or the first picture.
fn check(c: Condition, codes: &[u8], cursors: &[u8], room: usize) -> Result<(), Stop>
    ensures { stop_in result ≡ stop_of c codes.now cursors.now room }
{
    check_whole(&c, codes, cursors, room)?;
    check_pictures(c, codes, cursors)
}

// The condition that a plan of a reel leaves, by the start of the reel: no plan changes more than the cells and the cursor.
fn left_by(c: &Condition, wanted: &[u8], asked: u8) -> Condition
    requires { length wanted.now ≡ 40 }
    ensures { result ≡ pictured c.now wanted.now asked }
{
    let mut codes = [0; Condition::CELLS];
    codes.copy_from_slice(wanted);
    Condition {
        codes,
        fonts: [c.font; Condition::CELLS],
        cursor: asked,
        ..*c
    }
}

// Puts the plans of a reel that is not refused end to end at the start of out.
fn put_plans(c: &Condition, codes: &[u8], cursors: &[u8], out: &mut [u8]) -> Reeled
    requires { (stop_of c.now codes.now cursors.now (length out.old)).refusal ≡ 0 }
    ensures { (reeled (Ok result) ≡ reeled_by (naming64 0) (plans_of c.now (pictures_of codes.now cursors.now)))
        × (out.new
        ≡ at_start (flatten (plans_of c.now (pictures_of codes.now cursors.now))) out.old) }
{
    let mut lengths = [0; MOST];
    let mut left = *c;
    let mut at = 0;
    for (k, cursor) in cursors.iter().enumerate() {
        let wanted = codes_of(codes, k);
        let asked = *cursor;
        let length = planner::plan(left, wanted, u32::from(asked), &mut out[at..]).unwrap();
        lengths[k] = length;
        at += length as usize;
        left = left_by(c, wanted, asked);
    }
    Reeled {
        bytes: at as u32,
        lengths,
    }
}

// The plans of the pictures in turn, 40 codes and a cursor each, end to end at the start of out; or a refusal, and nothing
// changes. Nothing is put before every picture is known to be planned.
pub fn reel(c: Condition, codes: &[u8], cursors: &[u8], out: &mut [u8]) -> Result<Reeled, Stop>
    ensures { Reels c codes.now cursors.now out.old out.new (reeled result) }
{
    check(c, codes, cursors, out.len())?;
    Ok(put_plans(&c, codes, cursors, out))
}
