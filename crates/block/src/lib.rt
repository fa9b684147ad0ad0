// The condition as bytes: the 512-byte block (document 01, Block).
#![tactic(auto)]

ghost use Rattle.std.specs.Prelude.{◌≡◌, ◌≤◌, cond, length};
ghost use Rattle.block.specs.Block.{weigh, check_of, put_over};
ghost use Rattle.refusals.specs.Refusals.{number_or_none};
ghost use Rattle.condition.specs.Condition.{outcome};
ghost use Rattle.block.specs.Reading.{intact, damage_of, ReadPromise};
ghost use Rattle.block.specs.Writing.{written, WritePromise};
ghost use Rattle.block.specs.Tidy.{kind_good, rest_zero, tidy};

use condition::Condition;
use refusals::Refusal;

// The places of the check, and the length.
pub const CHECK: usize = 510;

pub const LENGTH: usize = 512;

const MODULUS: u32 = 65521;

// The sum of each byte times its place, counted from 1.
fn weighed(s: &[u8]) -> u32
    requires { length s.now ≤ 510 }
    ensures { result ≡ weigh 1 s.now }
{
    let mut sum = 0;
    for (i, byte) in s.iter().enumerate() {
        sum += (i as u32 + 1) * u32::from(*byte);
    }
    sum
}

// The unused bytes 200 to 509 are 0.
fn is_rest_zero(block: &[u8]) -> bool
    requires { 510 ≤ length block.now }
    ensures { result ≡ rest_zero block.now }
{
    row::up_to(0, &block[layout::PACKED..CHECK])
}

// The check, where it is known whether the unused bytes 200 to 509 are 0: zeros behind the first 200 weigh nothing.
fn check_by(block: &[u8], zeros: bool) -> u32
    requires { (510 ≤ length block.now) × (zeros ≡ rest_zero block.now) }
    ensures { result ≡ check_of block.now }
{
    let n = if zeros { layout::PACKED } else { CHECK };
    weighed(&block[..n]) % MODULUS
}

// The check of a block, over its first 510 bytes.
pub fn check(block: &[u8]) -> u32
    ensures { result ≡ check_of block.now }
{
    if block.len() < CHECK {
        return weighed(block) % MODULUS;
    }
    let zeros = is_rest_zero(block);
    check_by(block, zeros)
}

// The block of a condition, well formed or not, is put at the start of a buffer. One that is too short stays as it is. All is
// worked out before the buffer is touched.
pub fn put(c: Condition, out: &mut [u8])
    ensures { out.new ≡ put_over c out.old }
{
    let room = out.len();
    if room < LENGTH {
        return;
    }
    let first = layout::packed(c);
    let check = (weighed(&first) % MODULUS) as u16;
    out[..layout::PACKED].copy_from_slice(&first);
    out[layout::PACKED..CHECK].fill(0);
    out[CHECK..LENGTH].copy_from_slice(&check.to_le_bytes());
}

// A condition is written as a block at the start of a buffer: Ok of the length written.
pub fn write(c: Condition, out: &mut [u8]) -> Result<u16, Refusal>
    ensures { WritePromise c out.old (written result) out.new }
{
    if !c.well_formed() {
        return Err(Refusal::OutOfRange);
    }
    if out.len() < LENGTH {
        return Err(Refusal::NoRoom);
    }
    put(c, out);
    Ok(LENGTH as u16)
}

// Bytes 0 to 2 and the check, which is to be `sum`, are as they should be.
fn is_intact(block: &[u8; LENGTH], sum: u32) -> bool
    requires { sum ≡ check_of block.now }
    ensures { result ≡ intact block.now }
{
    let check = (sum as u16).to_le_bytes();
    block.starts_with(&[layout::FIRST, layout::SECOND, layout::THIRD]) & block.ends_with(&check)
}

// Of the three bytes, whatever they are: a `Pending` made of them would not tell what stood there.
fn kind_good(kind: u8, code: u8, holds: u8) -> bool
    ensures { result ≡ kind_good kind code holds }
{
    if kind == 6 {
        return true;
    }
    (kind < 6) & (code == 0) & (holds == 0)
}

// Flags are 0 or 1, the kind is 0 to 6, and what is unused is 0; of bytes 200 to 509 it is known.
fn is_tidy(block: &[u8; LENGTH], zeros: bool) -> bool
    requires { zeros ≡ rest_zero block.now }
    ensures { result ≡ tidy block.now }
{
    (block[layout::SCROLLING] <= 1)
        & (block[layout::SHOWN] <= 1)
        & (block[layout::EURO] <= 1)
        & (block[layout::FLICKERLESS] <= 1)
        & kind_good(
            block[layout::KIND],
            block[layout::CODE],
            block[layout::HOLDS],
        )
        & row::up_to(0, &block[layout::UNUSED..layout::CODES])
        & zeros
}

// Why a block is refused whatever condition stands in it: its length, or bytes that are no block's, or that are not the block of that
// condition.
pub fn damage(block: &[u8]) -> Option<Refusal>
    ensures { number_or_none result ≡ damage_of block.now }
{
    let Some(block) = block.as_array() else {
        return Some(Refusal::WrongLength);
    };
    let zeros = is_rest_zero(block);
    let sum = check_by(block, zeros);
    let intact = is_intact(block, sum);
    let tidy = is_tidy(block, zeros);
    if !intact {
        return Some(Refusal::Damaged);
    }
    if !tidy {
        return Some(Refusal::OutOfRange);
    }
    None
}

// A block is read.
pub fn read(block: &[u8]) -> Result<Condition, Refusal>
    ensures { ReadPromise block.now (outcome result) }
{
    if let Some(refusal) = damage(block) {
        return Err(refusal);
    }
    if layout::is_formed(block) {
        Ok(layout::unpacked(block))
    } else {
        Err(Refusal::OutOfRange)
    }
}
