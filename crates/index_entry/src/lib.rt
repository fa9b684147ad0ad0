// A condition given by value with an index of its own, for the tests of the compiled code: what each call that takes a condition
// refuses it by. No block can hold such an index, and no host is given this.
#![tactic(auto)]

ghost use Rattle.std.specs.Prelude.{◌≡◌, length};
ghost use Rattle.condition.specs.Set.{with_index};
ghost use Rattle.layout.specs.Layout.{unpacked_of};
ghost use Rattle.refusals.specs.Refusals.{refusal_in};
ghost use Rattle.index_entry.specs.Entry.{run_number, plan_number, fonts_number, reel_number, recover_number, write_number};
ghost use Rattle.index_entry.specs.Entry.{view_number, dot_number, underline_number, lit_number, call_refusal, index_refusal};

use condition::Condition;
use interpreter::Tally;
use refusals::Refusal;

// A blank picture.
const BLANK: [u8; Condition::CELLS] = [0x20; Condition::CELLS];

// Entries of another number than an index has.
const WRONG_LENGTH: u32 = 1;

// The condition that stands in bytes, but with these entries.
fn condition_in(s: &[u8], entries: &[u8]) -> Condition
    requires { length entries.now ≡ 256 }
    ensures { result ≡ with_index (unpacked_of s.now) entries.now }
{
    let mut c = layout::unpacked(s);
    c.index.copy_from_slice(entries);
    c
}

// The number of the refusal, 0 for an answer.
fn number<T: Copy>(answer: Result<T, Refusal>) -> u32
    ensures { result ≡ refusal_in answer }
{
    match answer {
        Ok(_) => 0,
        Err(refusal) => refusal.into(),
    }
}

// A run of no byte. (None of these is written out in `of_call`: the condition of each would be set to 0 first, by a call of memset.)
#[inline(never)]
fn of_run(c: Condition) -> u32
    ensures { result ≡ run_number c }
{
    number(interpreter::run(c, Tally::zero(), &[]))
}

// A plan of a blank picture.
#[inline(never)]
fn of_plan(c: Condition) -> u32
    ensures { result ≡ plan_number c }
{
    let mut out = [0; planner::ROOM];
    number(planner::plan(c, &BLANK, 0, &mut out))
}

#[inline(never)]
fn of_fonts(c: Condition) -> u32
    ensures { result ≡ fonts_number c }
{
    let fonts = [0; Condition::CELLS];
    let mut out = [0; planner::ROOM_FONTS];
    number(planner::plan_fonts(c, &BLANK, &fonts, 0, &mut out))
}

// A reel of no picture.
#[inline(never)]
fn of_reel(c: Condition) -> u32
    ensures { result ≡ reel_number c }
{
    let mut out = [0; 1];
    match reel::reel(c, &[], &[], &mut out) {
        Ok(_) => 0,
        Err(stop) => stop.refusal.into(),
    }
}

#[inline(never)]
fn of_recover(c: Condition) -> u32
    ensures { result ≡ recover_number c }
{
    let mut out = [0; recovery::ROOM];
    number(recovery::recover(c, &mut out))
}

#[inline(never)]
fn of_write(c: Condition) -> u32
    ensures { result ≡ write_number c }
{
    let mut out = [0; block::LENGTH];
    number(block::write(c, &mut out))
}

#[inline(never)]
fn of_view(c: Condition) -> u32
    ensures { result ≡ view_number c }
{
    number(glass::view(c, 0))
}

// The three questions about the oldest user character.
#[inline(never)]
fn of_dot(c: Condition, code: u32) -> u32
    ensures { result ≡ dot_number c code }
{
    number(glass::dot(c, code, 1))
}

#[inline(never)]
fn of_underline(c: Condition, code: u32) -> u32
    ensures { result ≡ underline_number c code }
{
    number(glass::underline(c, code))
}

#[inline(never)]
fn of_lit(c: Condition, code: u32) -> u32
    ensures { result ≡ lit_number c code }
{
    number(glass::lit(c, code))
}

// The calls have numbers here, because C gives one; a closure for each would be no plainer than its line.
fn of_call(call: u32, c: Condition) -> u32
    ensures { result ≡ call_refusal call c }
{
    let code = u32::from(c.users.bytes[0]);
    match call {
        0 => of_run(c),
        1 => of_plan(c),
        2 => of_fonts(c),
        3 => of_reel(c),
        4 => of_recover(c),
        5 => of_write(c),
        6 => of_view(c),
        7 => of_dot(c, code),
        8 => of_underline(c, code),
        _ => of_lit(c, code),
    }
}

// What a call, by its number, refuses the condition by that stands in bytes but has these entries; 0 for nothing.
#[unsafe(no_mangle)]
pub extern "C" fn index_refusal(call: u32, s: &[u8], entries: &[u8]) -> u32
    ensures { result ≡ index_refusal call s.now entries.now }
{
    if entries.len() != index::ENTRIES {
        return WRONG_LENGTH;
    }
    of_call(call, condition_in(s, entries))
}
