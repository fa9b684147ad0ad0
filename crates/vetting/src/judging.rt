// What is said of a string that is not refused: it is gone through once, a step at a time.
ghost use Rattle.std.specs.Prelude.{◌≡◌, ◌&&◌, ◌-◌, ◌<◌, ◌≤◌, eqb, length, get_or};
ghost use Rattle.planner.specs.Plan.{flagged};
ghost use Rattle.planner.specs.Fonts.{wrong_cell};
ghost use Rattle.planner.specs.Clear.{either_plan};
ghost use Rattle.planner.specs.Answer.{plan_refusal};
ghost use Rattle.vetting.specs.Steps.{char_in, clears_in};
ghost use Rattle.vetting.specs.Verdicts.{unrefused};
ghost use Rattle.vetting.specs.Vetting.{picture_verdict, judged_of};

use crate::Verdict;
use crate::steps::{is_char, read_move};
use condition::Condition;

// The string begins with 0Eh that clears: no user character sits there.
fn clears_first(index: &[u8; index::ENTRIES], string: &[u8]) -> bool
    ensures { result ≡ clears_in index.now string.now }
{
    string.first() == Some(&0x0e) && !is_char(index, 0x0e)
}

// What is said of a string that uses only permitted steps, by the cells and the cursor that it leaves.
fn settle(
    codes: &[u8; Condition::CELLS],
    fonts: &[u8; Condition::CELLS],
    p: u8,
    font: u8,
    wanted: &[u8],
    asked: u8,
    excess: u32,
) -> Verdict
    requires { length wanted.now ≡ 40 }
    ensures { unrefused result ≡ picture_verdict
        (flagged (λ j. wrong_cell (get_or codes.now j 0) (get_or fonts.now j 0) (get_or wanted.now j 0) font)
        40 0) (eqb p asked) excess }
{
    for (j, code) in wanted.iter().enumerate() {
        if codes[j] != *code || fonts[j] != font {
            return Verdict::Cell(j as u8);
        }
    }
    if p != asked {
        return Verdict::Cursor;
    }
    Verdict::Yes(excess)
}

// What is said of a string that is not refused; `least` is the length of the plan.
pub(crate) fn judge(c: Condition, wanted: &[u8], asked: u8, string: &[u8], least: u8) -> Verdict
    requires { (plan_refusal c wanted.now asked 44 ≡ 0) × (length string.now ≤ 32768)
        × (least ≡ length (either_plan c wanted.now asked)) }
    ensures { unrefused result ≡ judged_of c wanted.now asked string.now }
{
    let clear = clears_first(&c.index, string);
    let mut codes = planner::cells::codes_at(c, clear);
    let mut fonts = planner::cells::fonts_at(c, clear);
    let mut p = c.cursor;
    let mut low: u8 = 0;
    let mut i = clear as usize;
    // no `for`: a step is one byte or three
    while i < string.len() {
        let b = string[i];
        if is_char(&c.index, b) {
            if p < low {
                return Verdict::Byte(i as u32);
            }
            row::put(&mut codes, p, b);
            row::put(&mut fonts, p, c.font);
            low = p + 1;
            p = moves::next(p);
            i += 1;
        } else {
            let Some(step) = read_move(&string[i..], p) else {
                return Verdict::Byte(i as u32);
            };
            p = step.to;
            i += step.bytes as usize;
        }
    }
    let excess = string.len().saturating_sub(least as usize) as u32;
    settle(&codes, &fonts, p, c.font, wanted, asked, excess)
}
