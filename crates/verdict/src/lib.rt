// Whether a ring or chain is replaced: answers 19, 20, 23 and 14 to 16.
#![tactic(auto)]

ghost use Rattle.std.specs.Prelude.{◌≡◌};
ghost use Rattle.rows.specs.Steps.{regions_of};
ghost use Rattle.calls.specs.Removing.{worst_now};
ghost use Rattle.edge.specs.Edges.{site_of_edge};
ghost use Rattle.verdict.specs.Steps.{Plans};

use answers::Refusal;
use cells::CELLS;
use edge::RingedEdge;
use flatness::{not_flat, rows_after};
use layout::MAX_ROWS;
use quality::Quality;
use replacement::best_way;
use rows::Regions;
use tally::MeasuredRows;

// The plan of a removal: the region of the rows that go and the apexes of the chosen triangulation.
#[derive(Clone, Copy)]
pub struct Plan {
    pub region: u8,
    pub apexes: [u8; CELLS],
}

// The worst quality of the rows that hold the edge.
#[inline(never)]
fn worst_held(edge: &RingedEdge) -> Quality
    ensures { result ≡ worst_now (site_of_edge edge.now) }
{
    MeasuredRows::of_table(edge.coordinates, edge.count, edge.table, edge.n).worst_round(
        edge.a, edge.b,
    )
}

// The plan of a removal, or one of the answers 19, 20, 23 and 14 to 16: nothing is carried out or copied before it is decided.
pub fn decide(edge: &RingedEdge, regions: Regions) -> Result<Plan, Refusal>
    requires { regions ≡ regions_of (site_of_edge edge.now).removed }
    ensures { Plans (site_of_edge edge.now) result }
{
    if not_flat(
        edge.coordinates,
        edge.count,
        edge.a,
        edge.b,
        edge.closed,
        edge.ring,
    ) {
        return Err(Refusal::NOT_FLAT);
    }
    let Regions::One(region) = regions else {
        return Err(Refusal::TWO_REGIONS);
    };
    if dressing::mark_goes(edge.table, edge.n, edge.a, edge.b, edge.b) {
        return Err(Refusal::MARK_GOES);
    }
    if MAX_ROWS < rows_after(edge.closed, edge.n, edge.ring.m as usize) {
        return Err(Refusal::NO_ROOM);
    }
    let Some(way) = best_way(edge) else {
        return Err(Refusal::BLOCKED);
    };
    let now = worst_held(edge);
    if !now.worse(way.worst) {
        return Err(Refusal::NONE_BETTER);
    }
    let apexes = way.apexes;
    Ok(Plan { region, apexes })
}
