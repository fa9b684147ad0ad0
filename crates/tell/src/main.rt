// Runs standard input from power-up font 0 with a zero tally that is lent, and tells what each cell shows, what each user character
// looks like, and the tally.
#![tactic(auto)]

ghost use Rattle.std.specs.Prelude.{◌≡◌, ◌≤◌, min, length, take};
ghost use Rattle.condition.specs.declared.Condition.{Condition};
ghost use Rattle.interpreter.specs.declared.Tally.{Tally};
ghost use Rattle.interpreter.specs.Run.{ran, RunPromise};
ghost use Rattle.lines.specs.Lines.{Adds, each, run_from_start};
ghost use Rattle.tell.specs.Report.{shows_text, cell_line, dot_text, user_line, user_at, told_of};

use condition::Condition;
use glass::Shows;
use interpreter::{Ran, Tally};
use lines::Text;
use refusals::Refusal;
use users::Users;

// How many cells there are, as wide as a place in a question.
const CELLS: u32 = Condition::CELLS as u32;

// A run with the tally lent: the tally that is told is what the run left there.
fn run(c: Condition, mut t: Tally, bytes: &[u8]) -> Result<Ran, Refusal>
    ensures { RunPromise c t bytes.now (ran c t result) }
{
    let ran = interpreter::run_lent(&mut t, c, bytes)?;
    Ok(Ran {
        condition: ran.condition,
        tally: t,
    })
}

// What a cell shows.
fn shows(text: &mut Text<'_>, s: Shows)
    ensures { Adds text.old (shows_text s) text.new }
{
    match s {
        Shows::Blank => text.word(b" blank"),
        Shows::User(x) => text.hex(b" user ", x),
        Shows::Euro => text.word(b" euro"),
        Shows::BuiltIn(x, f) => {
            text.hex(b" code ", x);
            text.number(b" font ", f as u64);
        }
    }
}

// A cell; a refused query shows a blank.
fn cell(text: &mut Text<'_>, c: &Condition, p: u32)
    ensures { Adds text.old (cell_line c.now p) text.new }
{
    let seen = glass::view(*c, p).unwrap_or(Shows::Blank);
    text.number(b"cell ", p as u64);
    shows(text, seen);
    text.word(b"\n");
}

fn cells(text: &mut Text<'_>, c: &Condition)
    ensures { Adds text.old (each (cell_line c.now) 40) text.new }
{
    for p in 0..CELLS {
        cell(text, c, p);
    }
}

// The dots P1 to P35, 1 where it is lit, else 0.
fn dots(text: &mut Text<'_>, c: &Condition, code: u8)
    ensures { Adds text.old (each (dot_text c.now code) 35) text.new }
{
    for i in 0..35 {
        let dot = glass::dot(*c, code as u32, i + 1).unwrap_or(0);
        text.number(b"", dot as u64);
    }
}

// A user character, asked for by its code.
fn user(text: &mut Text<'_>, c: &Condition, code: u8)
    ensures { Adds text.old (user_line c.now code) text.new }
{
    let underline = glass::underline(*c, code as u32).unwrap_or(0);
    let lit = glass::lit(*c, code as u32).unwrap_or(0);
    text.hex(b"user ", code);
    text.word(b" ");
    dots(text, c, code);
    text.number(b" underline ", underline as u64);
    text.number(b" lit ", lit as u64);
    text.word(b"\n");
}

// The user characters that are held; a condition that a run leaves has at most 16.
fn users(text: &mut Text<'_>, c: &Condition)
    ensures { Adds text.old (each (user_at c.now) (min c.now.users.count 16)) text.new }
{
    let n = c.users.count.min(Condition::MOST_USERS) as usize;
    for i in 0..n {
        user(text, c, c.users.bytes[i * Users::PLACE]);
    }
}

// What is told of a run: its cells and user characters and the tally, or its refusal alone.
fn told(text: &mut Text<'_>, run: Result<Ran, Refusal>)
    requires { (text.old.size ≡ 0) × (16384 ≤ length text.old.out.now) }
    ensures { (c : Condition) (t : Tally) → (take text.new.size text.new.out.now ≡ told_of (ran c t run))
        × (text.new.size ≤ length text.new.out.now) }
{
    match run {
        Ok(ran) => {
            cells(text, &ran.condition);
            users(text, &ran.condition);
            text.end(run);
        }
        Err(_) => text.end(run),
    }
}

// What is told of an input.
fn tell<'a>(out: &'a mut [u8], input: &[u8]) -> Text<'a>
    requires { 16384 ≤ length out.old }
    ensures { (take result.size result.out.now ≡ told_of (run_from_start input.now))
        × (result.size ≤ length result.out.now) }
{
    let run = run(Condition::powered(0), Tally::zero(), input);
    let mut text = Text::new(out);
    told(&mut text, run);
    text
}

fn main(rt: HostRuntime) {
    let mut input = [0u8; 32769];
    let (n, _) = lines::read_full(&mut rt.stdin(), &mut input);
    let mut out = [0u8; 16384];
    let text = tell(&mut out, &input[..n]);
    let _ = rt.write_all(text.written());
}
