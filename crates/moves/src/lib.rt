// The planner's moves: where 09h leads, the fewest move bytes between two places, and the way. These are worked out from the two
// places: the way is the shortest of four kinds (specs/Kinds).
#![tactic(auto)]

ghost use Rattle.std.specs.Prelude.{◌≡◌};
ghost use Rattle.moves.specs.Moves.{next, Fewest};
ghost use Rattle.moves.specs.Ways.{PutsWay};

mod bytes;
mod lengths;

use condition::Condition;

// Where 09h leads in mode 1, and the cursor after a write; 0 from no place.
pub fn next(p: u8) -> u8
    ensures { result ≡ next p }
{
    if p < Condition::LAST_PLACE { p + 1 } else { 0 }
}

// The fewest move bytes from a place to another. It cannot fail: the answer is 0 where one of them is no place, as from a place to
// itself.
pub fn number(from: u8, to: u8) -> u8
    ensures { Fewest from to result }
{
    if from == to || Condition::LAST_PLACE < from || Condition::LAST_PLACE < to {
        return 0;
    }
    // Most ways of a plan end above or here; what is left takes longer to work out.
    if to == from + 1 {
        return 1;
    }
    lengths::least_of_four(from, to)
}

// Puts the way from a place to another at the start of out, as far as there is room; answers its length. Nothing is put where one
// of them is no place.
pub fn put_way(out: &mut [u8], from: u8, to: u8) -> u8
    ensures { PutsWay from to out.old out.new result }
{
    let n = number(from, to);
    if n != 0 {
        bytes::put_kind(out, n, from, to);
    }
    n
}
