// The second file.
ghost use Rattle.std.specs.Prelude.{◌≡◌, ◌≤◌, length, OnOk};
ghost use Rattle.io.specs.Counts.{IsPrefixLen};
ghost use Rattle.std.specs.Io.KnownBytes.{Appends};
ghost use Rattle.salvage.specs.Steps.{Due, Sourced, Copied};

use crate::blocks::StandIn;
use crate::failure::{Failure, Names, Why};
use crate::input::{is_regular, open, read_block};
use lines::{EIO, Text, fail, path};
use std::fs::{File, OpenOptions, remove_file, rename, symlink_metadata};
use std::io::{ErrorKind, Read, Write};
use std::process::id;

fn is_link(rt: HostRuntime, name: &str) -> bool {
    matches!(symlink_metadata(&rt, name), Ok(m) if m.is_symlink())
}

// The second file may take a name where nothing stands, or a file that may be written. A rename would put the file in the place of a
// link, a device or a pipe too. (What was opened is closed before a word is said: started without standard error, what stands there
// might have its number.)
fn may_take(rt: HostRuntime, name: &[u8]) -> Result<(), Why> {
    let text = path(name)?;
    if is_link(rt, text) {
        return Err(Why::NotRegular);
    }
    match OpenOptions::new().read(true).write(true).open(&rt, text) {
        Ok(file) => {
            if is_regular(&file) {
                Ok(())
            } else {
                Err(Why::NotRegular)
            }
        }
        Err(e) => {
            if e.kind() == ErrorKind::NotFound {
                Ok(())
            } else {
                Err(Why::System(e))
            }
        }
    }
}

// The temporary file beside `to`: `to`.PID.part
pub(crate) fn part_name<'a>(rt: HostRuntime, room: &'a mut [u8], to: &[u8]) -> Text<'a>
    ensures same { result.out.ghost_name ≡ room.entry.ghost_name }
    ensures within { result.size ≤ length result.out.now }
{
    let mut part = Text::new(room);
    part.word(to);
    part.number(b".", id(rt.process()) as u64);
    part.word(b".part");
    part
}

// What is due for the block that was read is written; `read` is there for that promise alone.
fn write_block<W: Write>(file: &mut W, block: &[u8], read: &[u8]) -> Result<(), Why>
    requires { Due read.now block.now }
    ensures { OnOk result (Appends (W.contents file.old) (W.contents file.new) block.now) }
{
    file.write_all(block)?;
    Ok(())
}

// The next blocks of the input are judged, as many as there are sources, and what is written for each goes to the output.
fn copy<R: Read, W: Write>(
    input: &mut R,
    output: &mut W,
    sources: &mut [u16],
) -> Result<(), Failure>
    requires { length sources.old ≤ 10000 }
    ensures sourced { OnOk result (Sourced (length sources.new) sources.new) }
    ensures copied { OnOk result (Copied (length sources.new) sources.new (R.remaining input.old) (R.remaining input.new)
        (W.contents output.old) (W.contents output.new)) }
{
    let mut stand_in = StandIn::power_up();
    let mut block = [0u8; block::LENGTH];
    for (i, source) in sources.iter_mut().enumerate() {
        read_block(input, &mut block).map_err(Failure::In)?;
        stand_in.judge(&block, i as u16);
        *source = stand_in.source;
        write_block(output, &stand_in.block, &block).map_err(Failure::Part)?;
    }
    Ok(())
}

// What was written has reached its device.
fn finish(file: &File) -> Result<(), Why> {
    file.sync_all()?;
    Ok(())
}

fn fill(input: &mut File, output: &mut File, sources: &mut [u16]) -> Result<(), Failure>
    requires { length sources.old ≤ 10000 }
    ensures { OnOk result (Sourced (length sources.new) sources.new) }
{
    copy(input, output, sources)?;
    finish(output).map_err(Failure::Part)
}

// How much of a name is the folder in which it stands, with the last /; 0 where it has none.
fn folder(name: &[u8]) -> usize
    ensures { IsPrefixLen result name.now }
{
    match name.iter().rposition(|c| *c == b'/') {
        Some(at) => at + 1,
        None => 0,
    }
}

// That a file has this name reaches the device too. Some systems cannot promise that, and the file is there all the same: only that
// the device fails is said.
fn settle(rt: HostRuntime, name: &[u8]) {
    let n = folder(name);
    let folder = if n == 0 { b"." } else { &name[..n] };
    if let Ok(file) = open(rt, folder) {
        if let Err(e) = file.sync_all() {
            if e.raw_os_error() == Some(EIO) {
                fail(rt, name, e);
            }
        }
    }
}

fn create(rt: HostRuntime, name: &[u8]) -> Result<File, Why> {
    let text = path(name)?;
    let file = OpenOptions::new()
        .write(true)
        .create_new(true)
        .open(&rt, text)?;
    Ok(file)
}

fn unlink(rt: HostRuntime, name: &[u8]) -> Result<(), Why> {
    remove_file(&rt, path(name)?)?;
    Ok(())
}

fn take_name(rt: HostRuntime, part: &[u8], to: &[u8]) -> Result<(), Why> {
    let old = path(part)?;
    let new = path(to)?;
    rename(&rt, old, new)?;
    Ok(())
}

// What failed is said, and then the temporary file is removed: it is known what failed even if the removal never ends.
fn give_up(rt: HostRuntime, failure: Failure, names: Names<'_>) -> Failure {
    failure.say(rt, names);
    let _ = unlink(rt, names.part);
    Failure::Said
}

// The temporary file is made and filled. Where that fails nothing of it is left.
fn write_part(
    rt: HostRuntime,
    input: &mut File,
    sources: &mut [u16],
    names: Names<'_>,
) -> Result<(), Failure>
    requires { length sources.old ≤ 10000 }
    ensures { OnOk result (Sourced (length sources.new) sources.new) }
{
    let mut output = create(rt, names.part).map_err(Failure::Part)?;
    if let Err(failure) = fill(input, &mut output, sources) {
        return Err(give_up(rt, failure, names));
    }
    Ok(())
}

// The second file is made of the first blocks, as many as there are sources: written whole under the name `part`, it then takes the
// name `to`, in the place of what stood there. Where that fails nothing of it is left.
pub(crate) fn make(
    rt: HostRuntime,
    input: &mut File,
    sources: &mut [u16],
    names: Names<'_>,
) -> Result<(), Failure>
    requires { length sources.old ≤ 10000 }
    ensures { OnOk result (Sourced (length sources.new) sources.new) }
{
    may_take(rt, names.to).map_err(Failure::Out)?;
    write_part(rt, input, sources, names)?;
    if let Err(why) = take_name(rt, names.part, names.to) {
        return Err(give_up(rt, Failure::Out(why), names));
    }
    settle(rt, names.to);
    Ok(())
}
