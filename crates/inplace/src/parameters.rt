// A byte that continues a half-received command (document 01, What a byte does).
ghost use Rattle.std.specs.Prelude.{◌≡◌, ◌≢◌};
ghost use Rattle.condition.specs.declared.Pending.TheVariants.{Nothing};
ghost use Rattle.condition.specs.Condition.{power_up};
ghost use Rattle.condition.specs.Bytes.{escape_of, position_of, data_of, step_at};
ghost use Rattle.layout.specs.Layout.{condition_in};
ghost use Rattle.inplace.specs.InPlace.{reset_in};

use crate::cells::blank;
use crate::characters::{define, forget};
use crate::fields::{flickerless_on, go_to, hold, release, set_luminance, set_pending, set_speed};
use condition::Pending;
use layout::{CURSOR, LINK, PACKED, UNUSED};

// The bytes from the cursor's to the user count as at power-up.
fn reset(s: &mut [u8; PACKED], link: u8)
    ensures { condition_in s.new ≡ reset_in (condition_in s.old) link }
{
    s[CURSOR..UNUSED].copy_from_slice(&[
        0, 1, 0, 0, link, link, 0, 3, 0x14, 0, 0, 0, 0, 0, 0, 0, 0, 0,
    ]);
}

// 49h.
fn power_up(s: &mut [u8; PACKED])
    ensures { condition_in s.new ≡ power_up (condition_in s.old).link }
{
    let link = s[LINK];
    blank(s, link);
    forget(s);
    reset(s, link);
}

// The byte after 1Bh.
#[tactic(auto, unfolding(condition::specs::Bytes::escape_of))]
fn escape(s: &mut [u8; PACKED], b: u8)
    ensures { condition_in s.new ≡ escape_of (condition_in s.old) b }
{
    match b {
        0x43 => set_pending(s, Pending::UserCode),
        0x48 => set_pending(s, Pending::Position),
        0x49 => power_up(s),
        0x4c => set_pending(s, Pending::Luminance),
        0x53 => {
            set_pending(s, Pending::Nothing);
            flickerless_on(s)
        }
        0x54 => set_pending(s, Pending::Speed),
        _ => set_pending(s, Pending::Nothing),
    }
}

// 48h p.
#[tactic(auto, using(crate::proofs::InPlace::reads), unfolding(condition::specs::Bytes::position_of))]
fn position(s: &mut [u8; PACKED], p: u8)
    ensures { condition_in s.new ≡ position_of (condition_in s.old) p }
{
    set_pending(s, Pending::Nothing);
    if p <= 0x27 {
        go_to(s, p);
    }
}

// 43h code d1..d5: one of the five. The top four bits of d5 are dropped.
#[tactic(auto, unfolding(condition::specs::Bytes::data_of))]
fn user_data(s: &mut [u8; PACKED], code: u8, n: u8, d: u8)
    ensures { condition_in s.new ≡ data_of (condition_in s.old) code n d }
{
    if n < 4 {
        hold(s, n, d);
        set_pending(s, Pending::UserData(code, n + 1));
        return;
    }
    define(s, code, d % 16);
    release(s);
    set_pending(s, Pending::Nothing);
}

// The byte continues what is half received.
#[tactic(auto, unfolding(condition::specs::Bytes::step_at))]
pub(crate) fn continued(s: &mut [u8; PACKED], half: Pending, b: u8)
    ensures { half ≢ Nothing → condition_in s.new ≡ step_at half (condition_in s.old) b }
{
    match half {
        Pending::Nothing => {}
        Pending::Escape => escape(s, b),
        Pending::Position => position(s, b),
        Pending::Luminance => {
            set_pending(s, Pending::Nothing);
            set_luminance(s, b / 64)
        }
        Pending::Speed => {
            set_pending(s, Pending::Nothing);
            set_speed(s, b)
        }
        Pending::UserCode => set_pending(s, Pending::UserData(b, 0)),
        Pending::UserData(code, n) => user_data(s, code, n, b),
    }
}
