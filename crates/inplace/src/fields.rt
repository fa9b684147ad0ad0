// The condition's fields at their bytes (document 01, Block), one store at a time.
#![tactic(auto, using(crate::proofs::InPlace::stores))]

ghost use Rattle.std.specs.Prelude.{◌≡◌, true, ◌<◌};
ghost use Rattle.condition.specs.Set.{with_cursor, go_to, with_scrolling, with_shown, with_font, with_euro};
ghost use Rattle.condition.specs.Set.{with_luminance, with_speed, with_flickerless, with_pending};
ghost use Rattle.condition.specs.Bytes.{mode_of, international_of};
ghost use Rattle.layout.specs.Layout.{condition_in};
ghost use Rattle.inplace.specs.InPlace.{held_in, released_in};

use condition::Pending;
use layout::{
    CODE, COUNT, CURSOR, EURO, FLICKERLESS, FONT, HELD, HOLDS, KIND, LUMINANCE, MODE, PACKED,
    SCROLLING, SHOWN, SPEED,
};

pub(crate) fn move_to(s: &mut [u8; PACKED], x: u8)
    ensures { condition_in s.new ≡ with_cursor (condition_in s.old) x }
{
    s[CURSOR] = x;
}

// The cursor goes to x, and scroll-on ends.
pub(crate) fn go_to(s: &mut [u8; PACKED], x: u8)
    ensures { condition_in s.new ≡ go_to (condition_in s.old) x }
{
    s[CURSOR] = x;
    s[SCROLLING] = 0; // 08h, 0Ah, 0Ch, 0Dh and a position that is taken
}

pub(crate) fn set_mode(s: &mut [u8; PACKED], m: u8)
    ensures { condition_in s.new ≡ mode_of (condition_in s.old) m }
{
    s[MODE] = m;
    s[SCROLLING] = 0;
}

pub(crate) fn set_scrolling(s: &mut [u8; PACKED], on: bool)
    ensures { condition_in s.new ≡ with_scrolling (condition_in s.old) on }
{
    s[SCROLLING] = u8::from(on);
}

pub(crate) fn set_shown(s: &mut [u8; PACKED], on: bool)
    ensures { condition_in s.new ≡ with_shown (condition_in s.old) on }
{
    s[SHOWN] = u8::from(on);
}

// International, Euro off.
pub(crate) fn international(s: &mut [u8; PACKED])
    ensures { condition_in s.new ≡ international_of (condition_in s.old) }
{
    s[FONT] = 0;
    s[EURO] = 0;
}

pub(crate) fn katakana(s: &mut [u8; PACKED])
    ensures { condition_in s.new ≡ with_font (condition_in s.old) 1 }
{
    s[FONT] = 1;
}

pub(crate) fn euro_on(s: &mut [u8; PACKED])
    ensures { condition_in s.new ≡ with_euro (condition_in s.old) true }
{
    s[EURO] = 1;
}

pub(crate) fn set_luminance(s: &mut [u8; PACKED], v: u8)
    ensures { condition_in s.new ≡ with_luminance (condition_in s.old) v }
{
    s[LUMINANCE] = v;
}

pub(crate) fn set_speed(s: &mut [u8; PACKED], v: u8)
    ensures { condition_in s.new ≡ with_speed (condition_in s.old) v }
{
    s[SPEED] = v;
}

pub(crate) fn flickerless_on(s: &mut [u8; PACKED])
    ensures { condition_in s.new ≡ with_flickerless (condition_in s.old) true }
{
    s[FLICKERLESS] = 1;
}

// What is half received.
pub(crate) fn set_pending(s: &mut [u8; PACKED], pending: Pending)
    ensures { condition_in s.new ≡ with_pending (condition_in s.old) pending }
{
    let half = layout::half_of(pending);
    s[KIND] = half.kind;
    s[CODE] = half.code;
    s[HOLDS] = half.holds;
}

// The byte d is held at the place n.
pub(crate) fn hold(s: &mut [u8; PACKED], n: u8, d: u8)
    requires { n < 4 }
    ensures { condition_in s.new ≡ held_in (condition_in s.old) n d }
{
    s[HELD + usize::from(n)] = d;
}

// No byte is held.
pub(crate) fn release(s: &mut [u8; PACKED])
    ensures { condition_in s.new ≡ released_in (condition_in s.old) }
{
    s[HELD..COUNT].fill(0);
}
