// The files that are named as arguments. What cannot be opened or read is said on standard error, by its name and the system's words.
ghost use Rattle.std.specs.Prelude.{◌≤◌, ◌<◌, length, take, IfOk, IfSome};
ghost use Rattle.std.specs.Io.KnownBytes.{Consumes, IsAtEnd};

use lines::{PATH, arg, fail, path, read_full};
use std::fs::File;
use std::io::{Error, Read};

// Reads to the end, or until the buffer is full: what was read are the next bytes of the file, all of them where there is room left.
fn read_all<R: Read>(file: &mut R, buf: &mut [u8]) -> Result<usize, Error>
    ensures within { IfOk result (λ n. n ≤ length buf.new) }
    ensures bytes { IfOk result (λ n. Consumes (R.remaining file.old) (R.remaining file.new) (take n buf.new)) }
    ensures end { IfOk result (λ n. n < length buf.new → IsAtEnd (R.remaining file.new)) }
{
    let (n, ended) = read_full(file, buf);
    match ended {
        Ok(()) => Ok(n),
        Err(e) => Err(e),
    }
}

fn read_named(rt: HostRuntime, name: &[u8], buf: &mut [u8]) -> Result<usize, Error>
    ensures { IfOk result (λ n. n ≤ length buf.new) }
{
    let mut file = File::open(&rt, path(name)?)?;
    read_all(&mut file, buf)
}

// What was read of the file that an argument names; `what` it is, is said where the argument is no name. Or nothing, after it was said
// why not.
pub(crate) fn read_arg<'a>(
    rt: HostRuntime,
    k: usize,
    what: &[u8],
    buf: &'a mut [u8],
) -> Option<&'a [u8]>
    ensures { IfSome result (λ read. length read.now ≤ length buf.old) }
{
    let mut room = [0u8; PATH];
    let name = match arg(rt, k, &mut room) {
        Ok(name) => name,
        Err(e) => {
            fail(rt, what, e);
            return None;
        }
    };
    match read_named(rt, name, buf) {
        Ok(n) => Some(&buf[..n]),
        Err(e) => {
            fail(rt, name, e);
            None
        }
    }
}
