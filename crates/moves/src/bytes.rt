// The bytes of a way of each kind (specs/Kinds), put at the start of out as far as there is room.
ghost use Rattle.std.specs.Prelude.{◌≡◌, [], ◌∷◌, ◌<◌, ◌≤◌, length, take};
ghost use Rattle.std.proofs.lemmas.List.Edits.{sets};
ghost use Rattle.moves.specs.Ways.{path};
ghost use Rattle.moves.specs.Kinds.{aside, sideways, from_start};

use crate::lengths::{column, from_start, line, onward, sideways};
use condition::Condition;

// Puts the first n of three bytes, store by store: a slice that is copied, or a loop, is compiled to more for so few.
fn put_three(out: &mut [u8], n: u8, x: u8, y: u8, z: u8)
    ensures { out.new ≡ sets out.old 0 (take n (x ∷ y ∷ z ∷ [])) }
{
    if n == 0 {
        return;
    }
    row::put(out, 0, x);
    if n == 1 {
        return;
    }
    row::put(out, 1, y);
    if n == 2 {
        return;
    }
    row::put(out, 2, z);
}

// The byte that goes sideways: left or right.
fn aside(from: u8, to: u8) -> u8
    requires { (from < 40) × (to < 40) }
    ensures { result ≡ aside from to }
{
    if column(to) < column(from) {
        0x08
    } else {
        0x09
    }
}

// Puts the n bytes that lead sideways. To the other line the last of them is 0Ah.
fn put_sideways(out: &mut [u8], n: u8, from: u8, to: u8)
    requires { (from < 40) × (to < 40) × (n ≡ length (sideways from to)) × (n ≤ 3) }
    ensures { out.new ≡ sets out.old 0 (sideways from to) }
{
    let m = aside(from, to);
    put_three(out, n, m, m, m);
    if line(from) != line(to) {
        row::put(out, n - 1, 0x0a);
    }
}

// Puts the n bytes that lead there from the start of the line.
fn put_from_start(out: &mut [u8], n: u8, from: u8, to: u8)
    requires { (from < 40) × (to < 40) × (n ≡ length (from_start from to)) × (n ≤ 3) }
    ensures { out.new ≡ sets out.old 0 (from_start from to) }
{
    if to < Condition::COLUMNS {
        put_three(out, n, 0x0c, 0x09, 0x09);
    } else if from < Condition::COLUMNS {
        put_three(out, n, 0x0a, 0x0d, 0x09);
    } else {
        put_three(out, n, 0x0d, 0x09, 0x09);
    }
}

// Puts the way, which has n bytes: it is of the first kind that is so long.
pub(crate) fn put_kind(out: &mut [u8], n: u8, from: u8, to: u8)
    requires { (from < 40) × (to < 40) × (n ≡ length (path from to)) }
    ensures { out.new ≡ sets out.old 0 (path from to) }
{
    if onward(from, to) == n {
        put_three(out, n, 0x09, 0x09, 0x09);
    } else if sideways(from, to) == n {
        put_sideways(out, n, from, to);
    } else if from_start(from, to) == n {
        put_from_start(out, n, from, to);
    } else {
        put_three(out, n, 0x1b, 0x48, to);
    }
}
