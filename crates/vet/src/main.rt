// vet BLOCK PICTURE STRING: whether the bytes of the file STRING give the picture of the file PICTURE, from the block of the file
// BLOCK (document 02, W11); and why not.
#![tactic(auto)]

mod input;

ghost use Rattle.std.specs.Prelude.{◌≡◌, ◌≤◌, length, take};
ghost use Rattle.lines.specs.Lines.{Adds};
ghost use Rattle.vetting.specs.Verdicts.{unrefused, verdict};
ghost use Rattle.vet.specs.Line.{numbered_line, verdict_line, files_verdict, vet_line};

use crate::input::read_arg;
use condition::Condition;
use lines::Text;
use refusals::Refusal;
use vetting::Verdict;

// A picture: a code for each cell, and the asked cursor.
const PICTURE: usize = Condition::CELLS + 1;

// Of each file a byte more is read than may be there, which tells whether it is too long.
const BLOCK_READ: usize = block::LENGTH + 1;

const PICTURE_READ: usize = PICTURE + 1;

const STRING_READ: usize = vetting::MOST + 1;

// A word, a number and a new line.
fn line(text: &mut Text<'_>, word: &[u8], n: u32)
    ensures { Adds text.old (numbered_line word.now n) text.new }
{
    text.number(word, n as u64);
    text.word(b"\n");
}

// What is printed of a verdict on a string that is not refused.
fn given(text: &mut Text<'_>, v: Verdict)
    ensures { Adds text.old (verdict_line (unrefused v)) text.new }
{
    match v {
        Verdict::Byte(at) => line(text, b"no, byte ", at),
        Verdict::Cell(place) => line(text, b"no, cell ", place as u32),
        Verdict::Cursor => text.word(b"no, cursor\n"),
        Verdict::Yes(excess) => line(text, b"yes excess ", excess),
    }
}

// What is printed of a verdict.
fn told(text: &mut Text<'_>, v: Result<Verdict, Refusal>)
    ensures { Adds text.old (verdict_line (verdict v)) text.new }
{
    match v {
        Ok(v) => given(text, v),
        Err(refusal) => text.refused(refusal.into()),
    }
}

// The verdict on what was read of the three files.
fn judge(block: &[u8], picture: &[u8], string: &[u8]) -> Result<Verdict, Refusal>
    ensures { verdict result ≡ files_verdict block.now picture.now string.now }
{
    if picture.len() != PICTURE {
        return Err(Refusal::WrongLength);
    }
    let asked = picture[Condition::CELLS];
    vetting::vet_block(block, &picture[..Condition::CELLS], asked as u32, string)
}

// What is printed for what was read of the three files. (Not written out in `main`: what it takes would lie beside the reading's.)
#[inline(never)]
fn vet<'a>(out: &'a mut [u8], block: &[u8], picture: &[u8], string: &[u8]) -> Text<'a>
    requires { 40 ≤ length out.old }
    ensures { (take result.size result.out.now ≡ vet_line block.now picture.now string.now)
        × (result.size ≤ length result.out.now) }
{
    let v = judge(block, picture, string);
    let mut text = Text::new(out);
    told(&mut text, v);
    text
}

fn main(rt: HostRuntime) {
    if !lines::has_args(rt, 3) {
        return lines::say(rt, b"usage: vet BLOCK PICTURE STRING\n", b"");
    }
    let mut room = [0u8; BLOCK_READ];
    let Some(block) = read_arg(rt, 1, b"BLOCK", &mut room) else {
        return;
    };
    let mut room = [0u8; PICTURE_READ];
    let Some(picture) = read_arg(rt, 2, b"PICTURE", &mut room) else {
        return;
    };
    let mut room = [0u8; STRING_READ];
    let Some(string) = read_arg(rt, 3, b"STRING", &mut room) else {
        return;
    };
    let mut out = [0u8; 40];
    let text = vet(&mut out, block, picture, string);
    if let Err(e) = rt.write_all(text.written()) {
        lines::fail(rt, b"standard output", e);
    }
}
