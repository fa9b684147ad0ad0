// The user characters: their count and their bytes, and beside them the lent entries of their index.
ghost use Rattle.std.specs.Prelude.{◌≡◌, replicate};
ghost use Rattle.users.specs.Users.{is_user, users_in};
ghost use Rattle.layout.specs.Layout.{condition_in};
ghost use Rattle.inplace.specs.InPlace.{LentIndex, alters_users, defined_in, with_user_bytes};

use condition::Pending;
use layout::{COUNT, HELD, PACKED, USERS};
use users::UserList;

// Their list where it stands.
#[tactic(auto, unfolding(layout::specs::Layout::condition_in))]
fn list(s: &[u8; PACKED]) -> UserList
    ensures { users_in result.bytes.now result.count ≡ (condition_in s.now).users }
{
    UserList {
        bytes: &s[USERS..],
        count: s[COUNT],
    }
}

// A user character sits on the code: it is looked up where there is an entry for it, and searched for where there is none. (Fewer
// than 256 may be lent: only codes below 20h are asked for.)
pub(crate) fn is_user(s: &[u8; PACKED], index: &[u8], code: u8) -> bool
    requires { LentIndex index.now (condition_in s.now) }
    ensures { result ≡ is_user (condition_in s.now).users code }
{
    match index.get(usize::from(code)) {
        Some(entry) => *entry != 0,
        None => list(s).is_user(code),
    }
}

// The byte may change the user characters: Initialise, and the fifth byte of one.
pub(crate) fn alters(half: Pending, b: u8) -> bool
    ensures { result ≡ alters_users half b }
{
    match half {
        Pending::Nothing => false,
        Pending::Escape => b == 0x49,
        Pending::Position => false,
        Pending::Luminance => false,
        Pending::Speed => false,
        Pending::UserCode => false,
        Pending::UserData(_, n) => 4 <= n,
    }
}

// The entries anew, from the list.
pub(crate) fn reindex(s: &[u8; PACKED], index: &mut [u8])
    ensures { LentIndex index.new (condition_in s.now) }
{
    index::build(&list(s), index);
}

// The bytes held, with the fifth, are a user character.
pub(crate) fn define(s: &mut [u8; PACKED], code: u8, last: u8)
    ensures { condition_in s.new ≡ defined_in (condition_in s.old) code last }
{
    let count = s[COUNT];
    let held = [s[HELD], s[HELD + 1], s[HELD + 2], s[HELD + 3]];
    s[COUNT] = users::define(&mut s[USERS..], count, code, held, last);
}

pub(crate) fn forget(s: &mut [u8; PACKED])
    ensures { condition_in s.new ≡ with_user_bytes (condition_in s.old) (replicate 96 0) }
{
    s[USERS..].fill(0);
}
