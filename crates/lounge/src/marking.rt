// The marks of characters: given to an area, cancelled everywhere.
ghost use Rattle.std.specs.Prelude.{◌≡◌, true, map, ◌≤◌};
ghost use Rattle.lounge.specs.Marks.{mark_of, marked, is_pair, marked_area, cancelled};

use crate::Lounge;

// The mark that an area code gives.
pub(crate) fn mark_of(area: u8) -> u8
    ensures { result ≡ mark_of area }
{
    match area {
        Lounge::LUMINANCE => Lounge::BRIGHT_MARK,
        Lounge::BLINK => Lounge::BLINK_MARK,
        _ => Lounge::UNDERLINE_MARK,
    }
}

// Every character gets the mark.
fn mark_all(marks: &mut [u8], k: u8)
    ensures { marks.new ≡ map (marked k) marks.old }
{
    for m in marks {
        *m |= k;
    }
}

// A pair out of order or above 27h is dropped.
pub(crate) fn is_pair(first: u8, second: u8) -> bool
    ensures { result ≡ is_pair first second }
{
    (first <= second) & (second <= Lounge::LAST_PLACE)
}

// The characters from the first position to the second, both counted, get the mark.
pub(crate) fn mark(marks: &mut [u8; Lounge::CELLS], k: u8, first: u8, second: u8)
    requires { is_pair first second ≡ true }
    ensures { marks.new ≡ marked_area k first second marks.old }
{
    mark_all(&mut marks[first as usize..second as usize + 1], k);
}

// No character has the mark.
pub(crate) fn cancel(marks: &mut [u8], k: u8)
    requires { k ≤ 7 }
    ensures { marks.new ≡ cancelled k marks.old }
{
    for m in marks {
        *m &= Lounge::ALL_MARKS - k;
    }
}
