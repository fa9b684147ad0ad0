// The planners: the bytes that give a picture and a cursor, in one font or in two.
#![tactic(auto)]

ghost use Rattle.std.specs.Prelude.{◌≡◌};
ghost use Rattle.refusals.specs.Refusals.{number_or_none};
ghost use Rattle.planner.specs.Answer.{plan_refusal, planned, Plans, PlansFonts, Counts};

use condition::Condition;
use refusals::Refusal;
use task::Task;

mod bytes;
pub mod cells;
mod checks;
mod counts;
mod task;

// The least room for a plan in one font, and for one in two: no plan is longer.
pub const ROOM: usize = 44;

pub const ROOM_FONTS: usize = 104;

// What `plan` refuses by, with so much room in its output.
pub fn refusal(c: Condition, wanted: &[u8], asked: u32, room: usize) -> Option<Refusal>
    ensures { number_or_none result ≡ plan_refusal c wanted.now asked room }
{
    checks::check_plan(&c, wanted, asked, room).err()
}

// What `plan` answers where it has room: its refusal, or its length. It is counted, and nothing is put.
pub fn count(c: Condition, wanted: &[u8], asked: u32) -> Result<u8, Refusal>
    ensures { Counts c wanted.now asked (planned result) }
{
    checks::check_plan(&c, wanted, asked, ROOM)?;
    let task = Task {
        start: &c,
        codes: wanted,
        fonts: &[c.font; Condition::CELLS],
        cursor: asked as u8,
    };
    Ok(task.count())
}

// The bytes that give the wanted codes in the selected font and the asked cursor, at the start of out, and their number; or a
// refusal, and nothing changes. They may start with 0Eh, which clears.
pub fn plan(c: Condition, wanted: &[u8], asked: u32, out: &mut [u8]) -> Result<u8, Refusal>
    ensures { Plans c wanted.now asked out.old out.new (planned result) }
{
    checks::check_plan(&c, wanted, asked, out.len())?;
    let task = Task {
        start: &c,
        codes: wanted,
        fonts: &[c.font; Condition::CELLS],
        cursor: asked as u8,
    };
    Ok(task.put(out) as u8)
}

// The bytes that give the wanted codes, each in its wanted font, and the asked cursor, at the start of out, and their number; or a
// refusal, and nothing changes. They may start with 0Eh, which clears. The selected font at the end is that of the last write.
pub fn plan_fonts(
    c: Condition,
    wanted: &[u8],
    fonts: &[u8],
    asked: u32,
    out: &mut [u8],
) -> Result<u8, Refusal>
    ensures { PlansFonts c wanted.now fonts.now asked out.old out.new (planned result) }
{
    checks::check_fonts(&c, wanted, fonts, asked, out.len())?;
    let task = Task {
        start: &c,
        codes: wanted,
        fonts,
        cursor: asked as u8,
    };
    Ok(task.put(out) as u8)
}
