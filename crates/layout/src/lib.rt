// Where each part of a condition stands in a block's first 200 bytes (document 01, Block).
#![tactic(auto)]

ghost use Rattle.std.specs.Prelude.{◌≡◌, ◌&&◌, ◌++◌, ◌≤◌, length};
ghost use Rattle.laws.specs.Flags.{flag};
ghost use Rattle.condition.specs.Condition.{held_of, numbers_good, scroll_good, well_formed};
ghost use Rattle.layout.specs.Layout.{kind_of, code_of, head_of, packed_of, pending_of, condition_in, unpacked_of};

use condition::{Condition, Pending};
use users::{UserList, Users};

// The places of the bytes: a field at each of 3 to 20, and three parts from 24 to 199.
pub const CURSOR: usize = 3;

pub const MODE: usize = 4;

pub const SCROLLING: usize = 5;

pub const SHOWN: usize = 6;

pub const FONT: usize = 7;

pub const LINK: usize = 8;

pub const EURO: usize = 9;

pub const LUMINANCE: usize = 10;

pub const SPEED: usize = 11;

pub const FLICKERLESS: usize = 12;

pub const KIND: usize = 13;

pub const CODE: usize = 14;

pub const HOLDS: usize = 15;

pub const HELD: usize = 16;

pub const COUNT: usize = 20;

// Unused bytes from here to CODES.
pub const UNUSED: usize = 21;

pub const CODES: usize = 24;

pub const FONTS: usize = 64;

pub const USERS: usize = 104;

pub const PACKED: usize = 200;

// Bytes 0 to 2.
pub const FIRST: u8 = 0x56;

pub const SECOND: u8 = 0x4b;

pub const THIRD: u8 = 0x01;

// A half-received command in its three bytes. Its kinds have numbers here alone, those of the block.
#[derive(Clone, Copy)]
pub struct Half {
    pub kind: u8,
    pub code: u8,
    pub holds: u8,
}

// The three bytes of a half-received command.
pub fn half_of(p: Pending) -> Half
    ensures { (result.kind ≡ kind_of p) × (result.code ≡ code_of p) × (result.holds ≡ held_of p) }
{
    let (kind, code, holds) = match p {
        Pending::Nothing => (0, 0, 0),
        Pending::Escape => (1, 0, 0),
        Pending::Position => (2, 0, 0),
        Pending::Luminance => (3, 0, 0),
        Pending::Speed => (4, 0, 0),
        Pending::UserCode => (5, 0, 0),
        Pending::UserData(code, n) => (6, code, n),
    };
    Half { kind, code, holds }
}

// The half-received command of three such bytes; a kind above 6 is as 6.
pub fn pending_in(kind: u8, code: u8, holds: u8) -> Pending
    ensures { result ≡ pending_of kind code holds }
{
    match kind {
        0 => Pending::Nothing,
        1 => Pending::Escape,
        2 => Pending::Position,
        3 => Pending::Luminance,
        4 => Pending::Speed,
        5 => Pending::UserCode,
        _ => Pending::UserData(code, holds),
    }
}

// What stands before the codes.
fn head(c: Condition) -> [u8; CODES]
    ensures { result ≡ head_of c }
{
    let half = half_of(c.pending);
    [
        FIRST,
        SECOND,
        THIRD,
        c.cursor,
        c.mode,
        c.scrolling as u8,
        c.shown as u8,
        c.font,
        c.link,
        c.euro as u8,
        c.luminance,
        c.speed,
        c.flickerless as u8,
        half.kind,
        half.code,
        half.holds,
        c.held[0],
        c.held[1],
        c.held[2],
        c.held[3],
        c.users.count,
        0,
        0,
        0,
    ]
}

// The bytes of a part, one by one. (`copy_from_slice` is compiled to look at where both stand, as they might overlap; what is looked
// at so the compiler keeps whole on the stack, each copy of a condition that is packed or unpacked.)
fn copy(to: &mut [u8], from: &[u8])
    requires { length to.old ≡ length from.now }
    ensures { to.new ≡ from.now }
{
    for (i, byte) in from.iter().enumerate() {
        to[i] = *byte;
    }
}

// The four parts of the first 200 bytes, one after the other.
fn lay(s: &mut [u8; PACKED], first: &[u8; CODES], c: &Condition)
    ensures { s.new ≡ first.now ++ (c.now.codes ++ (c.now.fonts ++ c.now.users.bytes)) }
{
    copy(&mut s[..CODES], first);
    copy(&mut s[CODES..FONTS], &c.codes);
    copy(&mut s[FONTS..USERS], &c.fonts);
    copy(&mut s[USERS..], &c.users.bytes);
}

// A condition as the block's first 200 bytes.
pub fn packed(c: Condition) -> [u8; PACKED]
    ensures { result ≡ packed_of c }
{
    let mut s = [0; PACKED];
    lay(&mut s, &head(c), &c);
    s
}

// The condition that stands in such bytes.
fn unpack(s: &[u8; PACKED]) -> Condition
    ensures { result ≡ condition_in s.now }
{
    let mut codes = [0; Condition::CELLS];
    copy(&mut codes, &s[CODES..FONTS]);
    let mut fonts = [0; Condition::CELLS];
    copy(&mut fonts, &s[FONTS..USERS]);
    let mut bytes = [0; Users::BYTES];
    copy(&mut bytes, &s[USERS..]);
    let mut held = [0; Condition::HELD];
    copy(&mut held, &s[HELD..COUNT]);
    let users = Users {
        bytes,
        count: s[COUNT],
    };
    let mut index = [0; index::ENTRIES];
    index::build(&users.list(), &mut index);
    Condition {
        codes,
        fonts,
        cursor: s[CURSOR],
        mode: s[MODE],
        scrolling: s[SCROLLING] == 1,
        shown: s[SHOWN] == 1,
        font: s[FONT],
        link: s[LINK],
        euro: s[EURO] == 1,
        luminance: s[LUMINANCE],
        speed: s[SPEED],
        flickerless: s[FLICKERLESS] == 1,
        users,
        index,
        pending: pending_in(s[KIND], s[CODE], s[HOLDS]),
        held,
    }
}

// The condition that stands in the first 200 of such bytes, in range or not. Fewer hold none: then it is power-up for font 0.
pub fn unpacked(s: &[u8]) -> Condition
    ensures { result ≡ unpacked_of s.now }
{
    match s.first_chunk() {
        Some(first) => unpack(first),
        None => Condition::powered(0),
    }
}

// The numbers that stand in the bytes, and the rule for scroll-on.
fn numbers_in(s: &[u8; PACKED]) -> bool
    ensures { result ≡ (numbers_good (condition_in s.now) && scroll_good (condition_in s.now)) }
{
    (usize::from(s[CURSOR]) < Condition::CELLS)
        & (1 <= s[MODE])
        & (s[MODE] <= Condition::LAST_MODE)
        & (s[FONT] <= Condition::LAST_FONT)
        & (s[LINK] <= Condition::LAST_FONT)
        & (s[LUMINANCE] <= Condition::FULL_LUMINANCE)
        & (s[COUNT] <= Condition::MOST_USERS)
        & ((s[SCROLLING] != 1)
            | ((s[MODE] == 3) & (s[CURSOR] % Condition::COLUMNS == Condition::LAST_COLUMN)))
}

fn formed_in(s: &[u8; PACKED]) -> bool
    ensures { result ≡ well_formed (condition_in s.now) }
{
    let users = UserList {
        bytes: &s[USERS..],
        count: s[COUNT],
    };
    let pending = pending_in(s[KIND], s[CODE], s[HOLDS]);
    numbers_in(s) & condition::rows_good(&s[FONTS..USERS], &users, pending, &s[HELD..COUNT])
}

// Whether the condition that stands in such bytes is well formed, told in the bytes. Power-up is, so fewer than 200 are too.
pub fn is_formed(s: &[u8]) -> bool
    ensures { result ≡ well_formed (unpacked_of s.now) }
{
    match s.first_chunk() {
        Some(first) => formed_in(first),
        None => true,
    }
}
