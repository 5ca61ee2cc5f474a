// The best triangulation of a ring or a chain: its worst and its apexes; and carried out, in the place of the rows afterwards.
#![tactic(auto)]

ghost use Rattle.std.specs.Prelude.{◌≡◌, length};
ghost use Rattle.rows.specs.Rows.{with_rows};
ghost use Rattle.calls.specs.Removing.{patch_after};
ghost use Rattle.edge.specs.Edges.{site_of_edge};
ghost use Rattle.replacement.specs.Steps.{BestWay, Carriable};

use cells::CELLS;
use edge::RingedEdge;
use kept_faces::Rim;
use quality::Quality;

// A way to triangulate a ring or chain: its worst quality, and the apexes of its triangulation.
#[derive(Clone, Copy)]
pub struct Way {
    pub worst: Quality,
    pub apexes: [u8; CELLS],
}

// The best way to triangulate the ring or chain, by the table of its pieces; none, if there is no admissible one.
#[inline(never)]
pub fn best_way(edge: &RingedEdge) -> Option<Way>
    ensures { BestWay (site_of_edge edge.now) result }
{
    let pieces = pieces::fill(
        edge.coordinates,
        edge.count,
        edge.table,
        edge.n,
        edge.a,
        edge.b,
        edge.closed,
        edge.ring,
    );
    let at = cells::cell_at(1, pieces.m);
    let worst = pieces.table.best_at(at)?;
    let apexes = pieces.table.apexes;
    Some(Way { worst, apexes })
}

// The chosen triangulation, carried out in a block that is begun: the kept rows, then the new ones, with the region of those that go and the
// marks of the faces that stay; their number is returned.
pub fn carry_out(edge: &RingedEdge, region: u8, apexes: &[u8; CELLS], rows: &mut [u8]) -> usize
    requires { Carriable (site_of_edge edge.now) region apexes.now edge.now.table.now rows.old }
    ensures { (result ≡ length (patch_after (site_of_edge edge.now)).rows)
        × (rows.new ≡ with_rows rows.old 0 (patch_after (site_of_edge edge.now)).rows) }
{
    let kept = output::keep_others(edge.table, edge.n, edge.a, edge.b, edge.b, rows);
    let rim = Rim {
        a: edge.a,
        b: edge.b,
        v: edge.ring.v,
    };
    let m = edge.ring.m as usize;
    let end = expansion::expand(rows, kept, apexes, rim, region, 1, m);
    dressing::dress(edge.table, edge.n, edge.a, edge.b, edge.b, rows, kept, end);
    end
}
