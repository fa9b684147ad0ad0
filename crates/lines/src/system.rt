// What the programs share of the system: input that is read until a buffer is full, their arguments, and what they say on standard
// error, which is a name and the system's words.
ghost use Rattle.std.specs.Prelude.{◌≡◌, ◌≤◌, ◌<◌, length, take, IfOk, OnOk};
ghost use Rattle.std.specs.Io.KnownBytes.{Consumes, IsAtEnd};
ghost use Rattle.io.specs.Counts.{IsPrefixLen};

use crate::Text;
use std::env::{Env, FillError};
use std::fmt::Write;
use std::io::{Error, Print, Read};
use std::str::from_utf8;

// So long is a path at most, with a byte for its end.
pub const PATH: usize = 4096;

// Room for the system's words.
const WORDS: usize = 320;

// Linux's numbers: a device fails, a name is too long, a name is no text.
pub const EIO: i32 = 5;

const ENAMETOOLONG: i32 = 36;

const EILSEQ: i32 = 84;

// Reads until the buffer is full, the input ends or a read fails. So many bytes stand at its start: the next ones of the input, all of
// them where there is room left and no read failed.
pub fn read_full<R: Read>(from: &mut R, buf: &mut [u8]) -> (usize, Result<(), Error>)
    ensures in_bounds { IsPrefixLen result.0 buf.new }
    ensures bytes { Consumes (R.remaining from.old) (R.remaining from.new) (take result.0 buf.new) }
    ensures end { OnOk result.1 (result.0 < length buf.new → IsAtEnd (R.remaining from.new)) }
{
    let mut n: usize = 0;
    // no `for`: how many bytes a read gives is not known before
    while n < buf.len() {
        match from.read(&mut buf[n..]) {
            Ok(0) => return (n, Ok(())),
            Ok(more) => n += more,
            Err(e) => return (n, Err(e)),
        }
    }
    (n, Ok(()))
}

fn has_arg(rt: HostRuntime, i: usize) -> bool {
    !matches!(rt.arg(i, &mut [0u8; 1]), Err(FillError::NotPresent))
}

// Whether the program was given so many arguments, and no more.
pub fn has_args(rt: HostRuntime, n: usize) -> bool {
    (n == 0 || has_arg(rt, n)) && (n == usize::MAX || !has_arg(rt, n + 1))
}

// The argument, in a lent buffer.
pub fn arg<'a>(rt: HostRuntime, i: usize, name: &'a mut [u8]) -> Result<&'a [u8], Error>
    ensures { IfOk result (λ arg. length arg.now ≤ length name.old) }
{
    match rt.arg(i, name) {
        Ok(n) => Ok(&name[..n]),
        Err(_) => Err(Error::from_raw_os_error(ENAMETOOLONG)),
    }
}

// A name as text, which is all that names a file here.
pub fn path(name: &[u8]) -> Result<&str, Error>
    ensures { IfOk result (λ text. text.now ≡ name.now) }
{
    match from_utf8(name) {
        Ok(text) => Ok(text),
        Err(_) => Err(Error::from_raw_os_error(EILSEQ)),
    }
}

// How much of the words stands before ` (os error N)`, with which they end; all, where they do not.
fn before_number(words: &[u8]) -> usize
    ensures { result ≤ length words.now }
{
    match words.iter().rposition(|w| *w == b'(') {
        Some(at) if 0 < at => at - 1,
        _ => words.len(),
    }
}

pub fn say(rt: HostRuntime, name: &[u8], words: &[u8]) {
    let err = rt.stderr();
    let _ = err.write_all(name);
    let _ = err.write_all(words);
}

// The name and the system's words, in a line.
pub fn fail(rt: HostRuntime, name: &[u8], e: Error) {
    let mut room = [0u8; WORDS];
    let mut words = Text::new(&mut room);
    let _ = write!(words, "{e}");
    let words = words.written();
    let n = before_number(words);
    let err = rt.stderr();
    let _ = err.write_all(name);
    let _ = err.write_all(b": ");
    let _ = err.write_all(&words[..n]);
    let _ = err.write_all(b"\n");
}
