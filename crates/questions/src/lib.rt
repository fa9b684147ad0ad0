// The C host program's questions about the glass, on a lent block.
#![tactic(auto)]

ghost use Rattle.std.specs.Prelude.{◌≡◌};
ghost use Rattle.glass.specs.Answers.{answer, view_answer};
ghost use Rattle.questions.specs.Questions.{built_in_number, shows_number, viewed, Asked, host_view, host_dot, host_underline, host_lit};

use condition::Condition;
use glass::Shows;
use host::Base;
use refusals::Refusal;

// A built-in character in its font, as a number.
fn built_in_number(code: u8, font: u8) -> u32
    ensures { result ≡ built_in_number code font }
{
    if font == 0 {
        768 + u32::from(code)
    } else {
        1024 + u32::from(code)
    }
}

// What a cell shows, as a number.
fn shows_number(shows: Shows) -> u32
    ensures { result ≡ shows_number shows }
{
    match shows {
        Shows::Blank => 0,
        Shows::User(code) => 256 + u32::from(code),
        Shows::Euro => 512,
        Shows::BuiltIn(code, font) => built_in_number(code, font),
    }
}

// What the cell at a position shows, as a number.
fn view_number(c: Condition, position: u32) -> Result<u32, Refusal>
    ensures { answer result ≡ viewed (view_answer c position) }
{
    Ok(shows_number(glass::view(c, position)?))
}

// The number that answers a question about the condition that stands in a block.
fn ask<F: FnOnce(Condition) -> Result<u32, Refusal>>(block: &[u8], question: F) -> u32
    requires { F.IsAlwaysCallable question }
    ensures { Asked (λ c value. F.post question c value) block.now result }
{
    host::answer(Base::Question, host::opened(block).and_then(question))
}

// What the cell at a position of the block that is lent shows.
pub fn view(block: &[u8], position: u32) -> u32
    ensures { result ≡ host_view block.now position }
{
    ask(block, |c| view_number(c, position))
}

// Dot k of a user character of the block that is lent, asked by its code.
pub fn dot(block: &[u8], code: u32, k: u32) -> u32
    ensures { result ≡ host_dot block.now code k }
{
    ask(block, |c| glass::dot(c, code, k))
}

// The underline of a user character of the block that is lent, asked by its code.
pub fn underline(block: &[u8], code: u32) -> u32
    ensures { result ≡ host_underline block.now code }
{
    ask(block, |c| glass::underline(c, code))
}

// How many of its 35 dots a user character of the block that is lent lights, asked by its code.
pub fn lit(block: &[u8], code: u32) -> u32
    ensures { result ≡ host_lit block.now code }
{
    ask(block, |c| glass::lit(c, code))
}
