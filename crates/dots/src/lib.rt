// The dots of a user character (document 01, What a cell shows).
#![tactic(auto)]

ghost use Rattle.std.specs.Prelude.{◌≡◌};
ghost use Rattle.dots.specs.Dots.{byte_of, dot_of, underline_of, lit_of};

// A user character's five bytes.
#[derive(Clone, Copy)]
pub struct Character {
    pub d1: u8,
    pub d2: u8,
    pub d3: u8,
    pub d4: u8,
    pub d5: u8,
}

// The byte i of 0 to 4. A match, and no index, since the five have names in the definitions.
fn byte(d: Character, i: u32) -> u8
    ensures { result ≡ byte_of d i }
{
    match i {
        0 => d.d1,
        1 => d.d2,
        2 => d.d3,
        3 => d.d4,
        4 => d.d5,
        _ => 0,
    }
}

// Dot k of 1 to 35: 1 where it is lit, else 0. Any other k has no dot.
pub fn dot(d: Character, k: u32) -> u8
    ensures { result ≡ dot_of d k }
{
    if k < 1 {
        return 0;
    }
    if 35 < k {
        return 0;
    }
    let i = k - 1;
    let b = byte(d, i / 8);
    (b >> (i % 8)) % 2
}

pub fn underline(d: Character) -> u8
    ensures { result ≡ underline_of d }
{
    d.d5 / 8 % 2
}

// How many of the 35 dots are lit: the ones of four bytes and of the low three bits of the fifth.
pub fn lit(d: Character) -> u32
    ensures { result ≡ lit_of d }
{
    d.d1.count_ones()
        + d.d2.count_ones()
        + d.d3.count_ones()
        + d.d4.count_ones()
        + (d.d5 % 8).count_ones()
}
