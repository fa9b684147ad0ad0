// What the glass shows of a condition: what a cell shows, and the dots of a user character.
#![tactic(auto)]

ghost use Rattle.std.specs.Prelude.{◌≡◌};
ghost use Rattle.glass.specs.Shows.{shows_code};
ghost use Rattle.glass.specs.Answers.{seen, answer, view_answer, lookup_of, dot_answer, underline_answer, lit_answer};

use condition::Condition;
use refusals::Refusal;

// What a cell shows: nothing, the user character of a code, the Euro mark, or a built-in code in a font.
#[derive(Clone, Copy)]
pub enum Shows {
    Blank,
    User(u8),
    Euro,
    BuiltIn(u8, u8),
}

// What a code in a font shows: the first that fits.
fn shows_code(c: &Condition, code: u8, font: u8) -> Shows
    ensures { result ≡ shows_code c.now code font }
{
    if c.users.list().is_user(code) {
        return Shows::User(code);
    }
    if code < 0x20 {
        return Shows::Blank;
    }
    if code == 0xad && font == 0 {
        return if c.euro { Shows::Euro } else { Shows::Blank };
    }
    Shows::BuiltIn(code, font)
}

// What the cell at a position shows.
pub fn view(c: Condition, position: u32) -> Result<Shows, Refusal>
    ensures { seen result ≡ view_answer c position }
{
    let i = position as usize;
    if !c.is_well_formed() || Condition::CELLS <= i {
        return Err(Refusal::OutOfRange);
    }
    Ok(shows_code(&c, c.codes[i], c.fonts[i]))
}

// The place of the user character of a code, where the condition is well formed and it is defined. Any number may be asked for;
// none above 255 is a code. (The condition comes by value: behind a reference it is not known that its bytes are below 256.)
fn lookup(c: Condition, code: u32) -> Option<usize>
    ensures { result ≡ lookup_of c code }
{
    if !c.is_well_formed() {
        return None;
    }
    c.users.list().find(u8::try_from(code).ok()?)
}

// Dot k of a user character, asked by its code: 1 where it is lit, else 0. (This and the next two are not written out where they are
// called: their copies of a condition would be on the stack of a call that opens a block, beside what opening it takes.)
#[inline(never)]
pub fn dot(c: Condition, code: u32, k: u32) -> Result<u32, Refusal>
    ensures { answer result ≡ dot_answer c code k }
{
    if k < 1 || 35 < k {
        return Err(Refusal::OutOfRange);
    }
    let Some(place) = lookup(c, code) else {
        return Err(Refusal::OutOfRange);
    };
    Ok(dots::dot(c.users.list().character_at(place), k) as u32)
}

// The underline of a user character, asked by its code.
#[inline(never)]
pub fn underline(c: Condition, code: u32) -> Result<u32, Refusal>
    ensures { answer result ≡ underline_answer c code }
{
    let Some(place) = lookup(c, code) else {
        return Err(Refusal::OutOfRange);
    };
    Ok(dots::underline(c.users.list().character_at(place)) as u32)
}

// How many of its 35 dots a user character lights, asked by its code.
#[inline(never)]
pub fn lit(c: Condition, code: u32) -> Result<u32, Refusal>
    ensures { answer result ≡ lit_answer c code }
{
    let Some(place) = lookup(c, code) else {
        return Err(Refusal::OutOfRange);
    };
    Ok(dots::lit(c.users.list().character_at(place)))
}
