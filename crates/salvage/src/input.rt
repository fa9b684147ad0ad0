// The first file.
ghost use Rattle.std.specs.Prelude.{OnOk};
ghost use Rattle.std.specs.Io.KnownBytes.{Consumes};

use crate::failure::Why;
use lines::path;
use std::fs::File;
use std::io::{Read, Seek, SeekFrom};

// Whether what is open is a file; a directory, a disk's own device, a pipe, a terminal and a device such as /dev/null are none. What
// /proc has says that it is one, and has no end. (The place is then the end.)
pub(crate) fn is_regular(file: &File) -> bool {
    let mut at = file;
    matches!(file.metadata(), Ok(m) if m.is_file()) && at.seek(SeekFrom::End(0)).is_ok()
}

// The file of this name.
pub(crate) fn open(rt: HostRuntime, name: &[u8]) -> Result<File, Why> {
    let file = File::open(&rt, path(name)?)?;
    Ok(file)
}

// A directory can be opened and cannot be read, and that is what is said of it.
fn is_directory(file: &File) -> bool {
    matches!(file.metadata(), Ok(m) if m.is_dir())
}

// How long the file is, and it is then read from its start. (One byte is read first: a directory has a length on some systems.)
pub(crate) fn length(file: &mut File) -> Result<u64, Why> {
    if !is_regular(file) && !is_directory(file) {
        return Err(Why::NotRegular);
    }
    file.rewind()?;
    file.read(&mut [0u8; 1])?;
    let end = file.seek(SeekFrom::End(0))?;
    file.rewind()?;
    Ok(end)
}

// The next block. The file was longer when it was measured, so one that is not whole is a failure too. (Of a regular file one call
// reads all that is asked for and there.)
pub(crate) fn read_block<R: Read>(file: &mut R, block: &mut [u8]) -> Result<(), Why>
    ensures { OnOk result (Consumes (R.remaining file.old) (R.remaining file.new) block.new) }
{
    let n = file.read(block)?;
    if n < block.len() {
        return Err(Why::Shorter);
    }
    Ok(())
}
