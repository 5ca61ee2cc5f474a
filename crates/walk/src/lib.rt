// The walk along the links round an edge.
#![tactic(auto)]

ghost use Rattle.std.specs.Prelude.{◌≡◌, ◌<◌, ◌≤◌, length, false};
ghost use Rattle.lists.specs.Lists.{has};
ghost use Rattle.layout.specs.Layout.{max_rows};
ghost use Rattle.links.specs.Links.{starts, ends};
ghost use Rattle.links.specs.Steps.{links_in, Around};
ghost use Rattle.walk.specs.Walk.{circle, smallest, follow};
ghost use Rattle.walk.specs.Steps.{went_by, walked, StartsAt};

use layout::MAX_ROWS;
use links::Links;

// The most points that a walk goes by: a chain has a point more than links.
pub const MOST_POINTS: usize = MAX_ROWS + 1;

// A walk: whether it came back to its start, and the m points that it went by.
#[derive(Clone, Copy)]
pub struct Trail {
    pub closed: bool,
    pub m: usize,
    pub v: [u8; MOST_POINTS],
}

// A link comes to v.
fn enters(links: &Links, v: u8) -> bool
    requires { links.now.n ≤ max_rows }
    ensures { result ≡ has (ends (links_in links.now)) v }
{
    links.ends[..links.n].contains(&v)
}

// The smallest point from which a link goes; there is a link.
fn smallest_start(links: &Links) -> u8
    requires { (0 < links.now.n) × (links.now.n ≤ max_rows) }
    ensures { result ≡ smallest (starts (links_in links.now)) }
{
    links.starts[..links.n].iter().copied().min().unwrap()
}

// The first point from which a link goes and to which none comes; if each is entered, the smallest. There is a link.
pub fn first_point(links: Links) -> u8
    requires { (0 < links.n) × (links.n ≤ max_rows) }
    ensures { StartsAt (links_in links) result }
{
    for v in &links.starts[..links.n] {
        if !enters(&links, *v) {
            return *v;
        }
    }
    smallest_start(&links)
}

// The walk from a point, a link at a time: it ends at the first missing link, where no row round the edge continues it, or when it is
// back at its start. The kept starts say which row continues it, so no other row is read.
// Kept: two loops, one inside the other, left by a label: that form is asked for (docs/REQUIREMENT.md, §14.3).
pub fn walk(table: &[u8], a: u8, b: u8, links: Links, start: u8) -> Trail
    requires { Around table.now a b links }
    ensures { (result.m ≤ length result.v) × (walked result ≡ circle (links_in links) start)
        × (result.closed ≡ false → went_by result ≡ follow links.n (links_in links) start) }
{
    let n = links.n;
    let mut v = [0; MOST_POINTS];
    let mut here = start;
    let mut m: usize = 0;
    'walk: while m < n {
        for i in 0..n {
            if here == links.starts[i] {
                let row = rows::row_in(table, links.places[i] as usize);
                let link = links::link_of(row, a, b);
                v[m] = here;
                m += 1;
                here = link.w;
                if here == start {
                    return Trail { closed: true, m, v };
                }
                continue 'walk;
            }
        }
        break 'walk;
    }
    v[m] = here;
    Trail {
        closed: false,
        m: m + 1,
        v,
    }
}
