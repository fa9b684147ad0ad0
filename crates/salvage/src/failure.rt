// Why there is no second file: what failed, and of which file. It is said once, on standard error.
use lines::{fail, say};
use std::io::Error;

// What a file may fail by: what the system says, and two things for which it has no words.
#[derive(Drop)]
pub(crate) enum Why {
    System(Error),
    NotRegular,
    Shorter,
}

impl From<Error> for Why {
    fn from(e: Error) -> Why {
        Why::System(e)
    }
}

// Of which file; or that it was said already.
#[derive(Drop)]
pub(crate) enum Failure {
    In(Why),
    Out(Why),
    Part(Why),
    Said,
}

// The first file, the second, and the temporary file that becomes the second.
#[derive(Clone, Copy)]
pub(crate) struct Names<'a> {
    pub(crate) from: &'a [u8],
    pub(crate) to: &'a [u8],
    pub(crate) part: &'a [u8],
}

impl Failure {
    // No Display: a file's name is bytes, and need not be text.
    pub(crate) fn say(self, rt: HostRuntime, names: Names<'_>) {
        let (name, why) = match self {
            Failure::In(why) => (names.from, why),
            Failure::Out(why) => (names.to, why),
            Failure::Part(why) => (names.part, why),
            Failure::Said => return,
        };
        match why {
            Why::System(e) => fail(rt, name, e),
            Why::NotRegular => say(rt, name, b": not a regular file\n"),
            Why::Shorter => say(rt, name, b": it became shorter while it was read\n"),
        }
    }
}
