// The bytes that begin no command and continue none (document 01, What a byte does).
ghost use Rattle.std.specs.Prelude.{◌≡◌, ◌<◌, ◌%◌, get_or, ltb};
ghost use Rattle.condition.specs.Bytes.{left_of, right_of, down_of, return_of, push_of, write_of};
ghost use Rattle.condition.specs.Bytes.{control_of, setting_of, select_of};
ghost use Rattle.layout.specs.Layout.{condition_in};

use crate::cells::{clear, put, scroll, shift};
use crate::fields::{
    euro_on, go_to, international, katakana, move_to, set_mode, set_pending, set_scrolling,
    set_shown,
};
use condition::{Condition, Pending};
use layout::{CURSOR, MODE, PACKED, SCROLLING};

// 08h.
#[tactic(auto, using(crate::proofs::InPlace::reads), unfolding(condition::specs::Bytes::left_of))]
fn left(s: &mut [u8; PACKED])
    ensures { condition_in s.new ≡ left_of (condition_in s.old) }
{
    let x = s[CURSOR];
    if x % Condition::COLUMNS == 0 {
        go_to(s, x)
    } else {
        go_to(s, x - 1)
    }
}

// The column of a place is below 19. Two comparisons are quicker than a remainder.
// (That the cursor is below 40 stands in seven contracts. A type that holds it would have it shown again at each of the thirty
// stores that leave the cursor alone; as it is, `run_in` shows it once a byte.)
pub(crate) fn below_19(x: u8) -> bool
    requires { x < 40 }
    ensures { result ≡ ltb (x % 20) 19 }
{
    x != Condition::LAST_COLUMN && x < Condition::LAST_PLACE
}

// 09h.
#[tactic(auto, using(crate::proofs::InPlace::reads), unfolding(condition::specs::Bytes::right_of))]
fn right(s: &mut [u8; PACKED])
    requires { get_or s.old 3 0 < 40 }
    ensures { condition_in s.new ≡ right_of (condition_in s.old) }
{
    let x = s[CURSOR];
    if below_19(x) {
        move_to(s, x + 1);
        return;
    }
    let m = s[MODE];
    if m == 3 {
        return;
    }
    if x == Condition::LAST_COLUMN {
        move_to(s, Condition::COLUMNS);
        return;
    }
    if m == 1 {
        move_to(s, 0);
        return;
    }
    scroll(s);
    move_to(s, Condition::COLUMNS);
}

// 0Ah.
#[tactic(auto, using(crate::proofs::InPlace::reads), unfolding(condition::specs::Bytes::down_of))]
fn down(s: &mut [u8; PACKED])
    ensures { condition_in s.new ≡ down_of (condition_in s.old) }
{
    let x = s[CURSOR];
    let m = s[MODE];
    if x < Condition::COLUMNS {
        go_to(s, x + Condition::COLUMNS);
        return;
    }
    if m == 1 {
        go_to(s, x - Condition::COLUMNS);
        return;
    }
    if m == 2 {
        scroll(s);
        set_scrolling(s, false);
        return;
    }
    set_scrolling(s, false);
}

// 0Dh.
#[tactic(auto, using(crate::proofs::InPlace::reads), unfolding(condition::specs::Bytes::return_of, row::specs::Row::line_start))]
fn carriage_return(s: &mut [u8; PACKED])
    ensures { condition_in s.new ≡ return_of (condition_in s.old) }
{
    let x = s[CURSOR];
    if x < Condition::COLUMNS {
        go_to(s, 0)
    } else {
        go_to(s, Condition::COLUMNS)
    }
}

// A character in mode 3 at column 19.
#[tactic(auto, using(crate::proofs::InPlace::reads), unfolding(condition::specs::Bytes::push_of))]
fn push(s: &mut [u8; PACKED], b: u8)
    ensures { condition_in s.new ≡ push_of (condition_in s.old) b }
{
    let on = s[SCROLLING];
    if on == 1 {
        shift(s, b);
        return;
    }
    let x = s[CURSOR];
    put(s, x, b);
    set_scrolling(s, true);
}

// 20h-FFh, and a user code.
#[tactic(auto, using(crate::proofs::InPlace::reads), unfolding(condition::specs::Bytes::write_of))]
pub(crate) fn write(s: &mut [u8; PACKED], b: u8)
    requires { get_or s.old 3 0 < 40 }
    ensures { condition_in s.new ≡ write_of (condition_in s.old) b }
{
    let x = s[CURSOR];
    let m = s[MODE];
    if m == 3 {
        if below_19(x) {
            put(s, x, b);
            move_to(s, x + 1);
            return;
        }
        push(s, b);
        return;
    }
    put(s, x, b);
    right(s);
}

// 18h to 1Bh: the font, Euro, and ESC. Any other byte is ignored.
fn select(s: &mut [u8; PACKED], b: u8)
    ensures { condition_in s.new ≡ select_of (condition_in s.old) b }
{
    match b {
        0x18 => international(s),
        0x19 => katakana(s),
        0x1a => euro_on(s),
        0x1b => set_pending(s, Pending::Escape),
        _ => {}
    }
}

// 11h to 17h: the mode, and the cursor shown or not.
fn setting(s: &mut [u8; PACKED], b: u8)
    ensures { condition_in s.new ≡ setting_of (condition_in s.old) b }
{
    match b {
        0x11 => set_mode(s, 1),
        0x12 => set_mode(s, 2),
        0x13 => set_mode(s, 3),
        0x14 | 0x16 | 0x17 => set_shown(s, false),
        0x15 => set_shown(s, true),
        _ => select(s, b),
    }
}

// A byte that is no character; those that are not named are ignored.
#[tactic(auto, unfolding(condition::specs::Bytes::control_of))]
pub(crate) fn control(s: &mut [u8; PACKED], b: u8)
    requires { get_or s.old 3 0 < 40 }
    ensures { condition_in s.new ≡ control_of (condition_in s.old) b }
{
    match b {
        0x08 => left(s),
        0x09 => right(s),
        0x0a => down(s),
        0x0c => go_to(s, 0),
        0x0d => carriage_return(s),
        0x0e | 0x0f => clear(s),
        _ => setting(s, b),
    }
}
