// The removal of an edge: the lengths and the opening, the attempt, and the block afterwards; and its page row alone.
#![tactic(auto)]

ghost use Rattle.std.specs.Prelude.{◌≡◌, length, replicate};
ghost use Rattle.layout.specs.Layout.{block_bytes};
ghost use Rattle.block.specs.Opening.{open_answer};
ghost use Rattle.output.specs.Steps.{begun};
ghost use Rattle.calls.specs.Removing.{remove_gives, remove_bytes, page_given};
ghost use Rattle.replacement.specs.Steps.{Replaceable};
ghost use Rattle.outcome.specs.Steps.{Replaces};

use answers::Refusal;
use attempt::{Tried, attempt};
use calls::Removed;
use edge::blocks_answer;
use layout::BLOCK_BYTES;
use outcome::{After, replace};
use page::PageRow;

// The removal that was tried, carried out in an output block that is begun.
fn carry_through(block: &[u8], e: usize, f: usize, tried: &Tried, out: &mut [u8]) -> After
    requires block_value { (open_answer block.now ≡ 0) × (length out.old ≡ block_bytes) }
    requires replaceable { Replaceable block.now e f tried.now.closed tried.now.ring tried.now.region tried.now.apexes }
    ensures { Replaces block.now e f (begun block.now out.old) out.new result }
{
    output::begin(block, out);
    replace(
        block,
        e,
        f,
        tried.closed,
        tried.ring,
        tried.region,
        &tried.apexes,
        out,
    )
}

// Removes the edge between the points e and f, or refuses and leaves every output byte.
pub fn remove(block: &[u8], e: usize, f: usize, out: &mut [u8]) -> Result<Removed, Refusal>
    ensures gives { result ≡ remove_gives block.now out.old e f }
    ensures bytes { out.new ≡ remove_bytes block.now out.old e f }
{
    blocks_answer(block, out)?;
    let tried = attempt(block, e, f)?;
    let after = carry_through(block, e, f, &tried, out);
    output::finish(out, after.n);
    Ok(Removed {
        page: after.page,
        ring: tried.ring,
    })
}

// The page row of that removal, or its refusal; nothing is written.
pub fn page(block: &[u8], e: usize, f: usize) -> Result<PageRow, Refusal>
    ensures { result ≡ page_given (remove_gives block.now (replicate block_bytes 0) e f) }
{
    block::opening(block)?;
    let tried = attempt(block, e, f)?;
    let mut rows = [0u8; BLOCK_BYTES];
    let after = carry_through(block, e, f, &tried, &mut rows);
    Ok(after.page)
}
