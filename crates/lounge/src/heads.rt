// A condition's parts other than its rows, in 13 bytes, the head.
ghost use Rattle.std.specs.Prelude.{◌≡◌, ℕ};
ghost use Rattle.lounge.specs.Head.{kind_of, code_of, number_of, pending_of, head_of, lounge_in};

use crate::{Lounge, Pending};

pub const BYTES: usize = 13;

// What is half received: its kind, code and number. (The kinds have numbers in the head alone, which is bytes.)
fn half_of(p: Pending) -> (u8, u8, u8)
    ensures { (result.0 ≡ kind_of p) × (result.1 ≡ code_of p) × (result.2 ≡ number_of p) }
{
    match p {
        Pending::Nothing => (0, 0, 0),
        Pending::Escape => (1, 0, 0),
        Pending::UserData(code, n) => (2, code, n),
        Pending::First(area) => (3, area, 0),
        Pending::Second(area, first) => (4, area, first),
    }
}

fn pending_in(kind: u8, code: u8, number: u8) -> Pending
    ensures { result ≡ pending_of kind code number }
{
    match kind {
        0 => Pending::Nothing,
        1 => Pending::Escape,
        2 => Pending::UserData(code, number),
        3 => Pending::First(code),
        _ => Pending::Second(code, number),
    }
}

// The head of a condition.
pub fn head(c: Lounge) -> [u8; BYTES]
    ensures { result ≡ head_of c }
{
    let (kind, code, number) = half_of(c.pending);
    let scrolling = u8::from(c.scrolling);
    let dimming = u8::from(c.dimming);
    let [h0, h1, h2, h3] = c.held;
    [
        c.cursor, c.mode, scrolling, dimming, c.last, c.count, kind, code, number, h0, h1, h2, h3,
    ]
}

// The condition that stands in a head and three rows.
pub fn whole(
    h: [u8; BYTES],
    codes: [u8; Lounge::CELLS],
    marks: [u8; Lounge::CELLS],
    users: [u8; Lounge::USERS],
) -> Lounge
    ensures { result ≡ lounge_in h codes marks users }
{
    let [
        cursor,
        mode,
        scrolling,
        dimming,
        last,
        count,
        kind,
        code,
        number,
        h0,
        h1,
        h2,
        h3,
    ] = h;
    Lounge {
        codes,
        marks,
        cursor,
        mode,
        scrolling: scrolling == 1,
        dimming: dimming == 1,
        last,
        users,
        count,
        pending: pending_in(kind, code, number),
        held: [h0, h1, h2, h3],
    }
}
