// The 3-2 flip of an edge in a block that opens: three rows round it become two.
#![tactic(auto)]

ghost use Rattle.std.specs.Prelude.{[], ◌∷◌, ◌≡◌, length};
ghost use Rattle.layout.specs.Layout.{block_bytes};
ghost use Rattle.answers.specs.Answers.{answer_of};
ghost use Rattle.block.specs.Opening.{open_answer};
ghost use Rattle.calls.specs.Flipping.{flip_answer, flip_bytes};

use answers::Refusal;
use edge::{RingedEdge, edge_at};
use replacement::{best_way, carry_out};
use rows::Regions;

// The m of a 3-2 flip.
const THREE: u8 = 3;

// Writes the block afterwards, or refuses and leaves every output byte.
pub fn flip_edge(block: &[u8], e: usize, f: usize, out: &mut [u8]) -> Result<(), Refusal>
    requires { (open_answer block.now ≡ 0) × (length out.old ≡ block_bytes) }
    ensures answer { result ≡ answer_of (flip_answer block.now out.old (e ∷ f ∷ [])) }
    ensures bytes { out.new ≡ flip_bytes block.now out.old (e ∷ f ∷ []) }
{
    let found = edge_at(block, e, f, false)?;
    if found.ring.m != THREE {
        return Err(Refusal::RING_LENGTH);
    }
    let Regions::One(region) = found.regions else {
        return Err(Refusal::TWO_REGIONS);
    };
    let edge = RingedEdge::in_block(block, e, f, found.closed, found.ring);
    if dressing::mark_goes(edge.table, edge.n, edge.a, edge.b, edge.b) {
        return Err(Refusal::MARK_GOES);
    }
    let Some(way) = best_way(&edge) else {
        return Err(Refusal::BLOCKED);
    };
    // Kept: a name for the apexes alone, as &way.apexes takes 32 bytes more of the stack that compare/tests/stack.rs measures.
    let apexes = way.apexes;
    output::begin(block, out);
    let end = carry_out(&edge, region, &apexes, out);
    output::finish(out, end);
    Ok(())
}
