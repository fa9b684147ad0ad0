// Runs standard input, pairs of a kind and a byte, on the lounge module from reset, and prints the codes, the marks, the cursor
// and the user characters.
#![tactic(auto)]

ghost use Rattle.std.specs.Prelude.{◌≡◌, true, ◌++◌, ◌*◌, ◌≤◌, length, take};
ghost use Rattle.lines.specs.Lines.{Adds, text, each, hex_line};
ghost use Rattle.lounge.specs.Condition.{well_formed, reset_of};
ghost use Rattle.lounge.specs.Run.{ran};
ghost use Rattle.show_lounge.specs.Rest.{RanAll, Keeps, ReadBeyond, known};
ghost use Rattle.show_lounge.specs.Report.{mark_line, mark_lines, place_line, user_line, report_of, ShownAll};

use lines::Text;
use lounge::Lounge;
use refusals::Refusal;
use std::io::Read;
use users::Users;

// What is kept of the input beyond the pairs that a run may have, if there is any: whether its length is odd, and whether a kind
// is above 1.
#[derive(Clone, Copy)]
struct Rest {
    odd: bool,
    wrong: bool,
}

// As many bytes as a run may have, in 32,768 pairs; what is beyond is read in pieces of as many.
const MOST: usize = 65536;

const LINE: usize = 20;

fn more(rest: Option<Rest>, piece: &[u8]) -> Option<Rest>
    ensures { Keeps (known rest) piece.now (known result) }
{
    let odd = piece.len() % 2 == 1;
    let wrong = !lounge::kinds_formed(piece);
    match rest {
        None => {
            if piece.is_empty() {
                None
            } else {
                Some(Rest { odd, wrong })
            }
        }
        Some(rest) => Some(Rest {
            odd,
            wrong: rest.wrong | wrong,
        }),
    }
}

// A run from reset of the first bytes and the rest.
fn ran(first: &[u8], rest: Option<Rest>) -> Result<Lounge, Refusal>
    ensures { RanAll first.now (known rest) (ran reset_of result) }
{
    let Some(rest) = rest else {
        return lounge::run(Lounge::reset(), first);
    };
    if rest.odd {
        return Err(Refusal::WrongLength);
    }
    if rest.wrong | !lounge::kinds_formed(first) {
        return Err(Refusal::OutOfRange);
    }
    Err(Refusal::TooLong)
}

// The marks of a line, a hex digit each with nothing between, and a new line.
fn add_marks(out: &mut Text<'_>, marks: &[u8])
    ensures { Adds out.old (mark_line marks.now) out.new }
{
    for mark in marks {
        out.digit(*mark);
    }
    out.word(b"\n");
}

// The marks by line.
fn add_mark_lines(out: &mut Text<'_>, marks: &[u8; Lounge::CELLS])
    ensures { Adds out.old (mark_lines marks.now) out.new }
{
    add_marks(out, &marks[..LINE]);
    add_marks(out, &marks[LINE..]);
}

fn add_place(out: &mut Text<'_>, c: &Lounge)
    ensures { Adds out.old (place_line c.now) out.new }
{
    out.number(b"cursor ", u64::from(c.cursor));
    out.number(b" mode ", u64::from(c.mode));
    out.number(b" scroll ", u64::from(c.scrolling));
    out.number(b" dimming ", u64::from(c.dimming));
    out.hex(b" last ", c.last);
    out.word(b"\n");
}

// A user character, by the six bytes of its place.
fn add_user(out: &mut Text<'_>, place: &[u8])
    ensures { Adds out.old (text "user " ++ hex_line place.now) out.new }
{
    out.word(b"user ");
    out.codes(place);
}

// The first n user characters.
fn add_users(out: &mut Text<'_>, users: &[u8], n: usize)
    requires { n * 6 ≤ length users.now }
    ensures { Adds out.old (each (user_line users.now) n) out.new }
{
    for k in 0..n {
        let from = k * Users::PLACE;
        add_user(out, &users[from..from + Users::PLACE]);
    }
}

// The report of a condition.
fn add_report(out: &mut Text<'_>, c: &Lounge)
    requires { well_formed c.now ≡ true }
    ensures { Adds out.old (report_of c.now) out.new }
{
    out.cells(&c.codes);
    add_mark_lines(out, &c.marks);
    add_place(out, c);
    add_users(out, &c.users, c.count as usize);
}

// What is shown of an input, of its first bytes and the rest: the report of the run, or its refusal alone.
fn show<'a>(out: &'a mut [u8], first: &[u8], rest: Option<Rest>) -> Text<'a>
    requires { 512 ≤ length out.old }
    ensures { (ShownAll first.now (known rest) (take result.size result.out.now))
        × (result.size ≤ length result.out.now) }
{
    let mut text = Text::new(out);
    match ran(first, rest) {
        Ok(c) => add_report(&mut text, &c),
        Err(refusal) => text.refused(u32::from(refusal)),
    }
    text
}

// What is beyond the first n bytes, if these are as many as a run may have: it is read until the input ends. (Any program ends, so
// the pieces are counted; no input has so many.)
fn read_rest<R: Read>(from: &mut R, n: usize) -> Option<Rest>
    ensures { ReadBeyond n (known result) }
{
    let mut rest = None;
    let mut piece = [0u8; MOST];
    let mut size = n;
    // no `for`: how many pieces there are is known when one is not full
    let mut left: u64 = 0xFFFFFFFFFFFFFFFF;
    while (size == MOST) & (0 < left) {
        let (more_read, _) = lines::read_full(from, &mut piece);
        size = more_read;
        rest = more(rest, &piece[..size]);
        left -= 1;
    }
    rest
}

fn main(rt: HostRuntime) {
    let mut from = rt.stdin();
    let mut input = [0u8; MOST];
    let (n, _) = lines::read_full(&mut from, &mut input);
    let rest = read_rest(&mut from, n);
    let mut out = [0u8; 512];
    let text = show(&mut out, &input[..n], rest);
    let _ = rt.write_all(text.written());
}
