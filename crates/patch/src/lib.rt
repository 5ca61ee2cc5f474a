// The public calls on a patch block.
#![tactic(auto)]

ghost use Rattle.std.specs.Prelude.{◌≡◌};
ghost use Rattle.calls.specs.Summarising.{summary_gives};

use answers::Refusal;
pub use block::{open, seal};
pub use calls::Removed;
pub use display::shown;
pub use flip::flip;
pub use removal::{page, remove};
use summary::Summary;
use tally::MeasuredRows;

// The summary of a block, or a refusal of opening.
pub fn summary(block: &[u8]) -> Result<Summary, Refusal>
    ensures { result ≡ summary_gives block.now }
{
    block::opening(block)?;
    Ok(summary::summary_of(&MeasuredRows::of_block(block)))
}
