// How many blocks a file may have, and what is written for each.
ghost use Rattle.std.specs.Prelude.{◌≡◌, ◌<◌};
ghost use Rattle.refusals.specs.Refusals.{number_or_none};
ghost use Rattle.condition.specs.Condition.{power_up};
ghost use Rattle.block.specs.Block.{block_of};
ghost use Rattle.salvage.specs.Salvage.{salvage_refusal};
ghost use Rattle.salvage.specs.Steps.{Judged};

use condition::Condition;
use refusals::Refusal;

// As many blocks as a file may have.
pub(crate) const MOST: usize = 10000;

// What a file of so many bytes is refused by: it may have so many whole blocks.
pub(crate) fn refusal(size: usize) -> Option<Refusal>
    ensures { number_or_none result ≡ salvage_refusal size }
{
    if MOST < size / block::LENGTH {
        return Some(Refusal::TooLong);
    }
    None
}

// What is written for the block that was judged last: the last good block, which has the number `source - 1`; or the power-up block, and
// `source` is 0.
#[derive(Drop)]
pub(crate) struct StandIn {
    pub(crate) block: [u8; block::LENGTH],
    pub(crate) source: u16,
}

impl StandIn {
    // Before the first block it is the power-up block for font 0 that stands in.
    pub(crate) fn power_up() -> StandIn
        ensures { (result.block ≡ block_of (power_up 0)) × (result.source ≡ 0) }
    {
        let mut block = [0u8; block::LENGTH];
        block::put(Condition::powered(0), &mut block);
        StandIn { block, source: 0 }
    }

    // A good block comes to stand there itself.
    pub(crate) fn judge(&mut self, block: &[u8; block::LENGTH], number: u16)
        requires { number < 10000 }
        ensures { Judged block.now number self.old.block self.old.source self.new.block self.new.source }
    {
        if block::read(block).is_ok() {
            self.block = *block;
            self.source = number + 1;
        }
    }
}
