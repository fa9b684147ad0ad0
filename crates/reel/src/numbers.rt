// Where a reel is refused, and what a refused one answers, by numbers, as the paper has them: any byte for a refusal, 0 for none. (A
// `Stop` of the crate has a `Refusal`, which is one of 1 to 11.)
ghost use Rattle.std.specs.Prelude.{◌≡◌, replicate};
ghost use Rattle.reel.specs.Reel.{naming64};

use crate::MOST;

#[derive(Clone, Copy)]
pub struct Stop {
    pub picture: u8,
    pub refusal: u8,
}

#[derive(Clone, Copy)]
pub struct Reeled {
    pub stop: Stop,
    pub bytes: u32,
    pub lengths: [u8; MOST],
}

// What is refused of the whole call, or of none.
pub fn naming_64(refusal: u8) -> Stop
    ensures { (result.picture ≡ (naming64 refusal).picture) × (result.refusal ≡ (naming64 refusal).refusal) }
{
    Stop {
        picture: MOST as u8,
        refusal,
    }
}

// A refused reel: no bytes, and all lengths 0.
pub fn refused(stop: Stop) -> Reeled
    ensures { (result.stop ≡ stop) × (result.bytes ≡ 0) × (result.lengths ≡ replicate 64 0) }
{
    Reeled {
        stop,
        bytes: 0,
        lengths: [0; MOST],
    }
}
