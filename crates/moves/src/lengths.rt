// How long a way of each kind is (specs/Kinds).
ghost use Rattle.std.specs.Prelude.{◌≡◌, true, ◌-◌, ◌<◌, ◌≤◌, min, length};
ghost use Rattle.moves.specs.Moves.{dist};
ghost use Rattle.moves.specs.Kinds.{line_of, column_of, onward, sideways, from_start};

use condition::Condition;

// How many places there are, as wide as a place.
const PLACES: u8 = Condition::CELLS as u8;

// The line of a place: 0 the top one, 1 the bottom one.
pub(crate) fn line(p: u8) -> u8
    requires { p < 40 }
    ensures { result ≡ line_of p }
{
    if p < Condition::COLUMNS { 0 } else { 1 }
}

pub(crate) fn column(p: u8) -> u8
    requires { p < 40 }
    ensures { result ≡ column_of p }
{
    if p < Condition::COLUMNS {
        p
    } else {
        p - Condition::COLUMNS
    }
}

// Onward, 09h for each place.
pub(crate) fn onward(from: u8, to: u8) -> u8
    requires { (from < 40) × (to < 40) }
    ensures { result ≡ length (onward from to) }
{
    if from <= to {
        to - from
    } else {
        to + PLACES - from
    }
}

// Sideways, a byte for each column, and 0Ah to the other line.
pub(crate) fn sideways(from: u8, to: u8) -> u8
    requires { (from < 40) × (to < 40) }
    ensures { result ≡ length (sideways from to) }
{
    let columns = column(from).abs_diff(column(to));
    if line(from) == line(to) {
        columns
    } else {
        columns + 1
    }
}

// From the start of the line: a byte that leads there, from the top line to the bottom one two, and 09h for each column.
pub(crate) fn from_start(from: u8, to: u8) -> u8
    requires { (from < 40) × (to < 40) }
    ensures { result ≡ length (from_start from to) }
{
    let n = 1 + column(to);
    if line(from) < line(to) { n + 1 } else { n }
}

// Onward or the jump has the fewest bytes: forward by at most 18, and not to column 0 or 1. They may where this says no.
fn forward(from: u8, to: u8) -> bool
    requires { (from < 40) × (to < 40) }
    ensures { result ≡ true → (from ≤ to) × (dist from to ≡ min (to - from) 3) }
{
    2 <= column(to) && from <= to && to - from <= 18
}

// The fewest move bytes: the least of the four lengths. The fourth is that of 1Bh 48h and the place, 3.
pub(crate) fn least_of_four(from: u8, to: u8) -> u8
    requires { (from < 40) × (to < 40) }
    ensures { result ≡ dist from to }
{
    // Most that come here are so, and two of the lengths need not be worked out then.
    if forward(from, to) {
        return (to - from).min(3);
    }
    sideways(from, to)
        .min(onward(from, to))
        .min(from_start(from, to))
        .min(3)
}
