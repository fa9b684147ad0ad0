// Each byte's busy figures, in microseconds (document 01, Busy time and the tally; document 02, W2). The quick one is told by what
// the byte does; the worst one follows from it and from whether flickerless was on.
ghost use Rattle.std.specs.Prelude.{ℕ, ◌≡◌, ◌≢◌, ◌<◌, get_or};
ghost use Rattle.condition.specs.declared.Condition.{Condition};
ghost use Rattle.condition.specs.declared.Pending.TheVariants.{Nothing};
ghost use Rattle.condition.specs.Busy.{right_scrolls, down_scrolls, line_shifts, write_busy, control_busy, escape_busy};
ghost use Rattle.condition.specs.Busy.{quick_at, figures_by};
ghost use Rattle.layout.specs.Layout.{condition_in};

use crate::commands::below_19;
use condition::{Condition, Figures, Pending};
use layout::{CURSOR, MODE, PACKED, SCROLLING};

// The display scrolls when the cursor goes right.
#[tactic(auto, unfolding(condition::specs::Busy::right_scrolls, layout::specs::Layout::condition_in))]
fn right_scrolls(s: &[u8; PACKED]) -> bool
    ensures { result ≡ right_scrolls (condition_in s.now) }
{
    s[MODE] == 2 && s[CURSOR] == Condition::LAST_PLACE
}

// The display scrolls at 0Ah.
#[tactic(auto, unfolding(condition::specs::Busy::down_scrolls, layout::specs::Layout::condition_in))]
fn down_scrolls(s: &[u8; PACKED]) -> bool
    ensures { result ≡ down_scrolls (condition_in s.now) }
{
    s[MODE] == 2 && Condition::COLUMNS <= s[CURSOR]
}

// The line shifts at a write.
#[tactic(auto, unfolding(condition::specs::Busy::line_shifts, layout::specs::Layout::condition_in))]
fn line_shifts(s: &[u8; PACKED]) -> bool
    requires { get_or s.now 3 0 < 40 }
    ensures { result ≡ line_shifts (condition_in s.now) }
{
    s[MODE] == 3 && !below_19(s[CURSOR]) && s[SCROLLING] == 1
}

#[tactic(auto, unfolding(condition::specs::Busy::write_busy))]
pub(crate) fn write_busy(s: &[u8; PACKED]) -> u8
    requires { get_or s.now 3 0 < 40 }
    ensures { result ≡ write_busy (condition_in s.now) }
{
    if right_scrolls(s) || line_shifts(s) {
        20
    } else {
        7
    }
}

#[tactic(auto, unfolding(condition::specs::Busy::control_busy))]
pub(crate) fn control_busy(s: &[u8; PACKED], b: u8) -> u8
    ensures { result ≡ control_busy (condition_in s.now) b }
{
    match b {
        0x09 => if right_scrolls(s) { 20 } else { 6 },
        0x0a => if down_scrolls(s) { 20 } else { 6 },
        0x0e | 0x0f => 65,
        _ => 6,
    }
}

#[tactic(auto, unfolding(condition::specs::Busy::escape_busy))]
fn escape_busy(b: u8) -> u8
    ensures { result ≡ escape_busy b }
{
    match b {
        0x43 | 0x48 | 0x4c | 0x54 => 4,
        0x49 => 40,
        _ => 6,
    }
}

// The byte continues what is half received.
#[tactic(auto, unfolding(condition::specs::Busy::quick_at))]
pub(crate) fn continued_busy(half: Pending, b: u8) -> u8
    ensures { (c : Condition) → half ≢ Nothing → result ≡ quick_at half c b }
{
    match half {
        Pending::Nothing => 0,
        Pending::Escape => escape_busy(b),
        Pending::Position => 4,
        Pending::Luminance => 4,
        Pending::Speed => 6,
        Pending::UserCode => 6,
        Pending::UserData(_, n) => if n < 4 { 6 } else { 15 },
    }
}

// How much longer a byte may take in flickerless mode.
const LONGER: u16 = 200;

// The figures of a byte, by its quick one and whether flickerless was on before it.
pub(crate) fn figures(quick: u8, flickerless: bool) -> Figures
    ensures { result ≡ figures_by quick flickerless }
{
    let longer = if flickerless { LONGER } else { 0 };
    Figures {
        quick,
        worst: u16::from(quick) + longer,
    }
}
