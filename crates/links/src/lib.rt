// The links round an edge, and the regions of its rows.
#![tactic(auto)]

ghost use Rattle.std.specs.Prelude.{◌≡◌, [], ◌∷◌, ◌++◌, ◌+◌, ◌<◌, ◌≤◌};
ghost use Rattle.lists.specs.Lists.{those};
ghost use Rattle.rows.specs.Rows.{rows_in, holds_edge};
ghost use Rattle.rows.specs.Steps.{regions_of};
ghost use Rattle.layout.specs.Layout.{max_rows};
ghost use Rattle.links.specs.Links.{link, links_of};
ghost use Rattle.links.specs.Steps.{places_of, following, links_in, places_in, joined_with, LinkedRow, Table};

use layout::MAX_ROWS;
use rows::{Regions, Row};

// A link v to w.
#[derive(Clone, Copy)]
pub struct Link {
    pub v: u8,
    pub w: u8,
}

// The n rows round an edge, in the order of the table: row i stands at places[i], and its link goes from starts[i] to ends[i].
// Kept: three arrays and no array of one struct, since a scan reads one of them alone: `contains` and `min` take the starts or the ends as bytes in a row.
// Kept: n ≤ max_rows stays a clause and is no ghost field: with one, `gather`'s loop sees its links as bare fields, of which its invariant cannot say `links_in`.
#[derive(Clone, Copy)]
pub struct Links {
    pub n: usize,
    pub places: [u8; MAX_ROWS],
    pub starts: [u8; MAX_ROWS],
    pub ends: [u8; MAX_ROWS],
}

// The rows round an edge: their links, and their regions.
#[derive(Clone, Copy)]
pub struct Round {
    pub links: Links,
    pub regions: Regions,
}

// What follows b in the face x, y, z, turned round to begin with b.
fn after(x: u8, y: u8, z: u8, b: u8) -> Link
    ensures { (result.v, result.w) ≡ following x y z b }
{
    if b == x {
        return Link { v: y, w: z };
    }
    if b == y {
        return Link { v: z, w: x };
    }
    Link { v: x, w: y }
}

// The link of a row that holds both ends: what follows b in the face opposite a.
pub fn link_of(row: Row, a: u8, b: u8) -> Link
    requires { LinkedRow a b row }
    ensures { (result.v, result.w) ≡ link a b row }
{
    if a == row.p {
        return after(row.q, row.r, row.s, b);
    }
    if a == row.q {
        return after(row.p, row.s, row.r, b);
    }
    if a == row.r {
        return after(row.p, row.q, row.s, b);
    }
    after(row.p, row.r, row.q, b)
}

// One row more, with its link.
fn added(links: Links, place: u8, l: Link) -> Links
    requires { links.n < max_rows }
    ensures { (result.n ≡ links.n + 1) × (links_in result ≡ links_in links ++ (l.v, l.w) ∷ [])
        × (places_in result ≡ places_in links ++ place ∷ []) }
{
    let n = links.n;
    let mut next = links;
    next.places[n] = place;
    next.starts[n] = l.v;
    next.ends[n] = l.w;
    next.n = n + 1;
    next
}

// The regions of n rows, with one row more.
fn joined(n: usize, regions: Regions, region: u8) -> Regions
    ensures { result ≡ joined_with n regions region }
{
    if n == 0 {
        return Regions::One(region);
    }
    regions.with(region)
}

// The rows round the edge, of the first n.
pub fn gather(table: &[u8], n: usize, a: u8, b: u8) -> Round
    requires { Table table.now n a b }
    ensures { (result.links.n ≤ max_rows) × (links_in result.links ≡ links_of a b (rows_in table.now n))
        × (places_in result.links ≡ places_of a b table.now n)
        × (result.regions ≡ regions_of (those (holds_edge a b) (rows_in table.now n))) }
{
    let mut links = Links {
        n: 0,
        places: [0; MAX_ROWS],
        starts: [0; MAX_ROWS],
        ends: [0; MAX_ROWS],
    };
    let mut regions = Regions::One(0);
    for i in 0..n {
        let row = rows::row_in(table, i);
        if rows::holds_edge(row, a, b) {
            regions = joined(links.n, regions, row.region);
            links = added(links, i as u8, link_of(row, a, b));
        }
    }
    Round { links, regions }
}
