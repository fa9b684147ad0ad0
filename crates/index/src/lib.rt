// The index of user codes: for each code its place in the list, counted from 1, or 0 where no user character sits on it. So a
// code is looked up and not searched for.
#![tactic(auto)]

ghost use Rattle.std.specs.Prelude.{◌≡◌, length};
ghost use Rattle.index.specs.Index.{index_of, index_agrees};

use users::{UserList, Users};

// An entry for each code.
pub const ENTRIES: usize = 256;

// The entries of a list, as many as there is room for. They are put from the youngest place to the oldest: a code that stands in
// two places has the first.
pub fn build(list: &UserList, entries: &mut [u8])
    ensures { entries.new ≡ index_of (length entries.old) list.now.bytes.now list.now.count }
{
    entries.fill(0);
    for k in (0..list.limit()).rev() {
        let code = list.bytes[k * Users::PLACE];
        let entry = (k + 1) as u8;
        row::put(entries, code, entry);
    }
}

// The entries are those of the list, one for each code.
pub fn agrees(list: &UserList, entries: &[u8]) -> bool
    ensures { result ≡ index_agrees entries.now list.now.bytes.now list.now.count }
{
    let mut built = [0u8; ENTRIES];
    build(list, &mut built);
    row::same(entries, &built)
}
