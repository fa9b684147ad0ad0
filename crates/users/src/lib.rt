// User characters in places of six bytes, a code and five bytes, the oldest first. A condition has 16 places, that of the
// lounge module eight.
#![tactic(auto)]

ghost use Rattle.std.specs.Prelude.{◌≡◌, ◌+◌, ◌*◌, ◌≤◌, length};
ghost use Rattle.users.specs.Users.{room_of, limit_of, found_in, is_user, character_at, put_of};
ghost use Rattle.users.specs.Users.{users_in, leaving_of, removed, define_in};
ghost use Rattle.users.specs.Users.{absent, users_formed, held_formed};

use dots::Character;

#[derive(Clone, Copy)]
pub struct Users {
    pub bytes: [u8; Users::BYTES],
    pub count: u8,
}

// The list of them where it stands: bytes of any length, and how many places are in use.
#[derive(Clone, Copy)]
pub struct UserList<'a> {
    pub bytes: &'a [u8],
    pub count: u8,
}

impl Users {
    // How many a condition has room for, the bytes of a place, and those of all places of a condition.
    pub const MOST: u8 = 16;

    pub const PLACE: usize = 6;

    pub const BYTES: usize = 96;

    // The bytes that are held of a character until its fifth comes.
    pub const HELD: usize = 4;

    // The bytes of two places.
    const TWO: usize = 12;

    pub fn list(&self) -> UserList
        ensures { (result.bytes.now ≡ self.now.bytes) × (result.count ≡ self.now.count) }
    {
        UserList {
            bytes: &self.bytes,
            count: self.count,
        }
    }
}

// How many places the bytes have room for, and no more than a byte counts.
fn room(bytes: &[u8]) -> usize
    ensures { result ≡ room_of bytes.now }
{
    (bytes.len() / Users::PLACE).min(255)
}

impl UserList<'_> {
    // As many places as are in use, and no more than there is room for.
    pub fn limit(&self) -> usize
        ensures { (result ≡ limit_of self.now.bytes.now self.now.count) × (6 * result ≤ length self.now.bytes.now) }
    {
        (self.count as usize).min(self.bytes.len() / Users::PLACE)
    }

    // The place of a code among those in use, counted from the oldest.
    pub fn find(&self, code: u8) -> Option<usize>
        ensures { result ≡ found_in self.now.bytes.now self.now.count code }
    {
        let n = self.limit();
        for k in 0..n {
            if self.bytes[k * Users::PLACE] == code {
                return Some(k);
            }
        }
        None
    }

    // A user character sits on the code.
    pub fn is_user(&self, code: u8) -> bool
        ensures { result ≡ is_user (users_in self.now.bytes.now self.now.count) code }
    {
        self.find(code).is_some()
    }
}

impl UserList<'_> {
    // The five bytes at a place; a place that is not there has five 0.
    pub fn character_at(&self, place: usize) -> Character
        ensures { result ≡ character_at self.now.bytes.now place }
    {
        if self.bytes.len() / Users::PLACE <= place {
            return Character {
                d1: 0,
                d2: 0,
                d3: 0,
                d4: 0,
                d5: 0,
            };
        }
        let at = place * Users::PLACE;
        Character {
            d1: self.bytes[at + 1],
            d2: self.bytes[at + 2],
            d3: self.bytes[at + 3],
            d4: self.bytes[at + 4],
            d5: self.bytes[at + 5],
        }
    }

    // No code stands twice in the places in use, each fifth byte is below the bound, and the other places are 0. More than there is
    // room for are never formed.
    pub fn are_formed(&self, bound: u8) -> bool
        ensures { result ≡ users_formed bound self.now.bytes.now self.now.count }
    {
        let n = self.count as usize;
        if room(self.bytes) < n {
            return false;
        }
        for k in 0..n {
            let at = k * Users::PLACE;
            let rest = &self.bytes[at + Users::PLACE..];
            if bound <= self.bytes[at + 5] {
                return false;
            }
            if !is_absent(self.bytes[at], n - k - 1, rest) {
                return false;
            }
        }
        row::up_to(0, &self.bytes[n * Users::PLACE..])
    }
}

// The code x stands in none of the first n places of s.
fn is_absent(x: u8, n: usize, s: &[u8]) -> bool
    requires { 6 * n ≤ length s.now }
    ensures { result ≡ absent x n s.now }
{
    for k in 0..n {
        if s[k * Users::PLACE] == x {
            return false;
        }
    }
    true
}

// A character's six bytes from `at` on.
fn put(bytes: &mut [u8], at: usize, code: u8, held: [u8; 4], last: u8)
    requires { at + 6 ≤ length bytes.old }
    ensures { bytes.new ≡ put_of bytes.old at code held last }
{
    bytes[at] = code;
    bytes[at + 1] = held[0];
    bytes[at + 2] = held[1];
    bytes[at + 3] = held[2];
    bytes[at + 4] = held[3];
    bytes[at + 5] = last;
}

// The place that goes when a code is defined: its own; where it has none, with all places in use, the oldest. (The bytes and their
// count come one by one here and to `define`, which changes the bytes: a `UserList` only looks at them.)
fn leaving(bytes: &[u8], count: u8, code: u8) -> Option<usize>
    ensures { result ≡ leaving_of (users_in bytes.now count) code }
{
    let list = UserList { bytes, count };
    if let Some(k) = list.find(code) {
        return Some(k);
    }
    if list.limit() < room(bytes) {
        None
    } else {
        Some(0)
    }
}

// Takes the place k out of those up to the youngest: each later one moves to the place before it, and the youngest place is 0. (A
// place at a time: one move of them all is compiled to a call of memmove, and a host on bare metal has none.)
fn remove(bytes: &mut [u8], k: usize, youngest: usize)
    requires { (k ≤ youngest) × (youngest * 6 + 6 ≤ length bytes.old) }
    ensures { bytes.new ≡ removed k youngest bytes.old }
{
    for i in k..youngest {
        let at = i * Users::PLACE;
        row::advance(&mut bytes[at..at + Users::TWO], Users::PLACE);
    }
    let at = youngest * Users::PLACE;
    row::clear(&mut bytes[at..at + Users::PLACE], 0);
}

// A code with its five bytes comes last, the youngest. The place that it had is taken out; where it had none and all places are
// in use, the oldest. The others keep their order. Answers how many are held then. Bytes that have no room for a place stay as
// they are. The fifth byte is held as given: its top bits are dropped by the caller.
pub fn define(bytes: &mut [u8], count: u8, code: u8, held: [u8; 4], last: u8) -> u8
    ensures { users_in bytes.new result ≡ define_in bytes.old count code held last }
{
    if bytes.len() < Users::PLACE {
        return count;
    }
    let n = UserList { bytes, count }.limit();
    if let Some(k) = leaving(bytes, count, code) {
        let youngest = n - 1;
        remove(bytes, k, youngest);
        put(bytes, youngest * Users::PLACE, code, held, last);
        return n as u8;
    }
    put(bytes, n * Users::PLACE, code, held, last);
    (n + 1) as u8
}

// Of a character that is being received 0 to 4 bytes are held; those from the count up are 0.
pub fn held_formed(count: u8, held: &[u8]) -> bool
    ensures { result ≡ held_formed count held.now }
{
    let n = count as usize;
    if Users::HELD < n {
        return false;
    }
    if held.len() < n {
        return true;
    }
    row::up_to(0, &held[n..])
}
