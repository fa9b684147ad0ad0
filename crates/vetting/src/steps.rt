// One step of a string.
ghost use Rattle.std.specs.Prelude.{◌≡◌, ◌≢◌, eqb, MatchOption};
ghost use Rattle.moves.specs.Moves.{any, moves, left, down, move};
ghost use Rattle.vetting.specs.Steps.{char_in, move_of};

use condition::Condition;

// A move: how many bytes it has, and where it leads.
#[derive(Clone, Copy)]
pub(crate) struct Moved {
    pub(crate) bytes: u8,
    pub(crate) to: u8,
}

// A byte is written as a character: 20h and above, and a user code, which has an entry in the index.
pub(crate) fn is_char(index: &[u8; index::ENTRIES], b: u8) -> bool
    ensures { result ≡ char_in index.now b }
{
    0x20 <= b || index[b as usize] != 0
}

// (Not by `matches!`: that is compiled to a tree of tests ahead of the jump that `led` makes, and a string of moves takes a quarter
// more.)
fn is_move(b: u8) -> bool
    ensures { result ≡ any (eqb b) moves }
{
    (b == 0x08) | ((b == 0x09) | ((b == 0x0a) | ((b == 0x0c) | (b == 0x0d))))
}

fn left(p: u8) -> u8
    ensures { result ≡ left p }
{
    if p % Condition::COLUMNS == 0 {
        p
    } else {
        p - 1
    }
}

fn down(p: u8) -> u8
    ensures { result ≡ down p }
{
    if p < Condition::COLUMNS {
        p + Condition::COLUMNS
    } else {
        p - Condition::COLUMNS
    }
}

// Where a one-byte move leads.
fn led(b: u8, p: u8) -> u8
    ensures { result ≡ move b p }
{
    match b {
        0x08 => left(p),
        0x09 => moves::next(p),
        0x0a => down(p),
        0x0c => 0,
        _ => row::line_start(p),
    }
}

// The move at the start of a string, from a place.
pub(crate) fn read_move(s: &[u8], p: u8) -> Option<Moved>
    ensures { MatchOption result ((move_of s.now p).bytes ≡ 0) (λ m. (m ≡ move_of s.now p) × (m.bytes ≢ 0)) }
{
    match s {
        [b, ..] if is_move(*b) => Some(Moved {
            bytes: 1,
            to: led(*b, p),
        }),
        [0x1b, 0x48, to, ..] if *to <= Condition::LAST_PLACE => Some(Moved { bytes: 3, to: *to }),
        _ => None,
    }
}
