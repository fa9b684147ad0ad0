// The lounge module from C, for the tests of the compiled code: a condition in four slices, its head of 13 bytes, its codes, its
// marks and its user characters. No host is given this.
#![tactic(auto)]

ghost use Rattle.std.specs.Prelude.{◌≡◌, cond, ◌≤◌, length};
ghost use Rattle.refusals.specs.Refusals.{refusal_in};
ghost use Rattle.lounge.specs.Head.{head_of};
ghost use Rattle.lounge.specs.Shows.{seen};
ghost use Rattle.lounge_entry.specs.Entry.{sizes_right, condition_in, seen_in, shows_number, level_number, seen_number, view_number, RunIn};

use lounge::{Level, Lounge, Seen, Shows, heads};
use refusals::Refusal;

// What a refused view is answered by, with its number added.
const REFUSED: u32 = 65536;

fn sizes_right(head: &[u8], codes: &[u8], marks: &[u8], users: &[u8]) -> bool
    ensures { result ≡ sizes_right head.now codes.now marks.now users.now }
{
    (head.len() == heads::BYTES)
        & (codes.len() == Lounge::CELLS)
        & (marks.len() == Lounge::CELLS)
        & (users.len() == Lounge::USERS)
}

// The condition that stands in the four slices, if each has the length of its part.
fn condition_in(head: &[u8], codes: &[u8], marks: &[u8], users: &[u8]) -> Result<Lounge, Refusal>
    ensures { result ≡ condition_in head.now codes.now marks.now users.now }
{
    if !sizes_right(head, codes, marks, users) {
        return Err(Refusal::WrongLength);
    }
    let mut h = [0; heads::BYTES];
    let mut c = [0; Lounge::CELLS];
    let mut m = [0; Lounge::CELLS];
    let mut u = [0; Lounge::USERS];
    h.copy_from_slice(head);
    c.copy_from_slice(codes);
    m.copy_from_slice(marks);
    u.copy_from_slice(users);
    Ok(heads::whole(h, c, m, u))
}

// The four slices hold the condition.
fn put(head: &mut [u8], codes: &mut [u8], marks: &mut [u8], users: &mut [u8], c: Lounge)
    requires { (length head.old ≡ 13) × (length codes.old ≡ 40) × (length marks.old ≡ 40) × (length users.old ≡ 48) }
    ensures { (head.new ≡ head_of c) × (codes.new ≡ c.codes) × (marks.new ≡ c.marks)
        × (users.new ≡ c.users) }
{
    head.copy_from_slice(&heads::head(c));
    codes.copy_from_slice(&c.codes);
    marks.copy_from_slice(&c.marks);
    users.copy_from_slice(&c.users);
}

fn run(
    head: &mut [u8],
    codes: &mut [u8],
    marks: &mut [u8],
    users: &mut [u8],
    pairs: &[u8],
) -> Result<(), Refusal>
    ensures { RunIn head.old codes.old marks.old users.old pairs.now
        head.new codes.new marks.new users.new (refusal_in result) }
{
    let c = condition_in(head, codes, marks, users)?;
    let after = lounge::run(c, pairs)?;
    put(head, codes, marks, users, after);
    Ok(())
}

// A run: its refusal number, 0 when accepted. The slices hold the condition after it.
#[unsafe(no_mangle)]
pub extern "C" fn lounge_run(
    head: &mut [u8],
    codes: &mut [u8],
    marks: &mut [u8],
    users: &mut [u8],
    pairs: &[u8],
) -> u32
    ensures { RunIn head.old codes.old marks.old users.old pairs.now
        head.new codes.new marks.new users.new result }
{
    match run(head, codes, marks, users, pairs) {
        Ok(()) => 0,
        Err(refusal) => u32::from(refusal),
    }
}

fn shows_number(s: Shows) -> u32
    ensures { (result ≡ shows_number s) × (result ≤ 1023) }
{
    match s {
        Shows::Blank => 0,
        Shows::User(code) => 256 + u32::from(code),
        Shows::BuiltIn(code) => 768 + u32::from(code),
    }
}

fn level_number(l: Level) -> u32
    ensures { (result ≡ level_number l) × (result ≤ 4096) }
{
    match l {
        Level::A => 0,
        Level::B => 4096,
    }
}

fn bit(on: bool, n: u32) -> u32
    ensures { (result ≡ cond on n 0) × (result ≤ n) }
{
    if on { n } else { 0 }
}

fn seen_number(answer: Result<Seen, Refusal>) -> u32
    ensures { result ≡ seen_number (seen answer) }
{
    match answer {
        Ok(s) => shows_number(s.shows)
            + level_number(s.level)
            + bit(s.blinking, 8192)
            + bit(s.underlined, 16384),
        Err(refusal) => REFUSED + u32::from(refusal),
    }
}

fn view(
    head: &[u8],
    codes: &[u8],
    marks: &[u8],
    users: &[u8],
    position: u32,
) -> Result<Seen, Refusal>
    ensures { seen result ≡ seen_in head.now codes.now marks.now users.now position }
{
    lounge::view(condition_in(head, codes, marks, users)?, position)
}

// What is seen of the cell at a position, as a number.
#[unsafe(no_mangle)]
pub extern "C" fn lounge_view(
    head: &[u8],
    codes: &[u8],
    marks: &[u8],
    users: &[u8],
    position: u32,
) -> u32
    ensures { result
        ≡ view_number head.now codes.now marks.now users.now position }
{
    seen_number(view(head, codes, marks, users, position))
}
