// The removal of an edge in a block that opens, tried: nothing is carried out or written.
#![tactic(auto)]

ghost use Rattle.std.specs.Prelude.{◌≡◌};
ghost use Rattle.block.specs.Opening.{open_answer};
ghost use Rattle.attempt.specs.Steps.{Attempts};

use answers::Refusal;
use cells::CELLS;
use edge::{RingedEdge, edge_at};
use ring::Ring;
use verdict::decide;

// The ring or chain, whether it is closed, the region of the rows that go, and the apexes of the chosen triangulation.
#[derive(Clone, Copy)]
pub struct Tried {
    pub closed: bool,
    pub ring: Ring,
    pub region: u8,
    pub apexes: [u8; CELLS],
}

// The removal of the edge between e and f in a block that opens, tried; or one of the answers 9 to 16, 19, 20 and 23.
pub fn attempt(block: &[u8], e: usize, f: usize) -> Result<Tried, Refusal>
    requires { open_answer block.now ≡ 0 }
    ensures { Attempts block.now e f result }
{
    let found = edge_at(block, e, f, true)?;
    let edge = RingedEdge::in_block(block, e, f, found.closed, found.ring);
    let plan = decide(&edge, found.regions)?;
    let apexes = plan.apexes;
    Ok(Tried {
        closed: found.closed,
        ring: found.ring,
        region: plan.region,
        apexes,
    })
}
