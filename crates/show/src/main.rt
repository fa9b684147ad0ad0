// Runs standard input from power-up font 0 with a zero tally, and prints the codes, the cursor and the tally.
#![tactic(auto)]

ghost use Rattle.std.specs.Prelude.{◌≡◌, ◌≤◌, length, take};
ghost use Rattle.condition.specs.declared.Condition.{Condition};
ghost use Rattle.interpreter.specs.declared.Tally.{Tally};
ghost use Rattle.interpreter.specs.Run.{ran};
ghost use Rattle.lines.specs.Lines.{Adds, run_from_start};
ghost use Rattle.show.specs.Report.{place_line, shown_of};

use condition::Condition;
use interpreter::{Ran, Tally};
use lines::Text;
use refusals::Refusal;

fn place(text: &mut Text<'_>, c: &Condition)
    ensures { Adds text.old (place_line c.now) text.new }
{
    text.number(b"cursor ", c.cursor as u64);
    text.number(b" mode ", c.mode as u64);
    text.number(b" font ", c.font as u64);
    text.word(b"\n");
}

// What is printed of a run: its four lines, or its refusal alone.
fn shown(text: &mut Text<'_>, run: Result<Ran, Refusal>)
    requires { (text.old.size ≡ 0) × (313 ≤ length text.old.out.now) }
    ensures { (c : Condition) (t : Tally) → (take text.new.size text.new.out.now ≡ shown_of (ran c t run))
        × (text.new.size ≤ length text.new.out.now) }
{
    match run {
        Ok(ran) => {
            // (by value: what is lent to a call that is not written out the compiler keeps whole on the stack)
            let codes = ran.condition.codes;
            text.cells(&codes);
            place(text, &ran.condition);
            text.end(run);
        }
        Err(_) => text.end(run),
    }
}

// What is shown of an input.
fn show<'a>(out: &'a mut [u8], input: &[u8]) -> Text<'a>
    requires { 313 ≤ length out.old }
    ensures { (take result.size result.out.now ≡ shown_of (run_from_start input.now))
        × (result.size ≤ length result.out.now) }
{
    let run = interpreter::run(Condition::powered(0), Tally::zero(), input);
    let mut text = Text::new(out);
    shown(&mut text, run);
    text
}

fn main(rt: HostRuntime) {
    let mut input = [0u8; 32769];
    let (n, _) = lines::read_full(&mut rt.stdin(), &mut input);
    let mut out = [0u8; 320];
    let text = show(&mut out, &input[..n]);
    let _ = rt.write_all(text.written());
}
