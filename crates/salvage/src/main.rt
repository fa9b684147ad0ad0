// salvage IN OUT: a file of blocks is read, and a whole second file written in which every block is good (document 02, W10).
#![tactic(auto)]

mod blocks;
mod failure;
mod input;
mod report;
mod second;

ghost use Rattle.std.specs.Prelude.{◌≡◌, length};
ghost use Rattle.salvage.specs.Steps.{Reports};

use crate::failure::{Failure, Names};
use lines::Text;
use std::fs::File;

// Room for all that is printed: a line of at most 25 bytes for each block, and two more.
const TEXT: usize = 262144;

// Room for a path, and for `.PID.part` behind it.
const PART: usize = lines::PATH + 32;

// What is to be printed of a file of so many bytes; nothing, where there is no second file.
fn salvage(
    rt: HostRuntime,
    first: &mut File,
    size: usize,
    names: Names<'_>,
    text: &mut Text<'_>,
) -> Result<(), Failure>
    requires { (text.old.size ≡ 0) × (length text.old.out.now ≡ 262144) }
    ensures { Reports size text.new.size text.new.out.now }
{
    if let Some(refusal) = blocks::refusal(size) {
        text.refused(refusal.into());
        return Ok(());
    }
    let mut room = [0u16; blocks::MOST];
    let sources = &mut room[..size / block::LENGTH];
    second::make(rt, first, sources, names)?;
    report::report(text, sources, size % block::LENGTH);
    Ok(())
}

// The same, of an open file.
fn salvage_open(
    rt: HostRuntime,
    first: &mut File,
    names: Names<'_>,
    text: &mut Text<'_>,
) -> Result<(), Failure>
    requires { (text.old.size ≡ 0) × (length text.old.out.now ≡ 262144) }
{
    let size = input::length(first).map_err(Failure::In)?;
    salvage(rt, first, size as usize, names, text)
}

// The same, of the names; all is printed once the second file has its name.
fn salvage_named(rt: HostRuntime, from: &[u8], to: &[u8]) {
    let mut room = [0u8; PART];
    let part = second::part_name(rt, &mut room, to);
    let names = Names {
        from,
        to,
        part: part.written(),
    };
    let mut first = match input::open(rt, from) {
        Ok(first) => first,
        Err(why) => return Failure::In(why).say(rt, names),
    };
    let mut out = [0u8; TEXT];
    let mut text = Text::new(&mut out);
    if let Err(failure) = salvage_open(rt, &mut first, names, &mut text) {
        return failure.say(rt, names);
    }
    if let Err(e) = rt.write_all(text.written()) {
        lines::fail(rt, b"standard output", e);
    }
}

fn main(rt: HostRuntime) {
    if !lines::has_args(rt, 2) {
        return lines::say(rt, b"usage: salvage IN OUT\n", b"");
    }
    let mut room = [0u8; lines::PATH];
    let from = match lines::arg(rt, 1, &mut room) {
        Ok(from) => from,
        Err(e) => return lines::fail(rt, b"IN", e),
    };
    let mut room = [0u8; lines::PATH];
    let to = match lines::arg(rt, 2, &mut room) {
        Ok(to) => to,
        Err(e) => return lines::fail(rt, b"OUT", e),
    };
    salvage_named(rt, from, to);
}
