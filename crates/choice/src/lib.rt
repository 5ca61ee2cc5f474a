// The best apex of a piece, of equals the first, from what the table keeps for the smaller pieces inside it.
#![tactic(auto)]

ghost use Rattle.std.specs.Prelude.{◌≡◌, ◌+◌, ◌≤◌};
ghost use Rattle.ring.specs.Ring.{Site, m, max_ring};
ghost use Rattle.triangulation.specs.Steps.{keep, best_found};
ghost use Rattle.choice.specs.Steps.{Smaller};
ghost use Rattle.cells.specs.Steps.{best_in, option_of};
ghost use Rattle.kept_faces.specs.Steps.{SiteRim, Rimmed};

use candidates::{candidate, side_at, two_over};
use cells::{CELLS, Table};
use kept_faces::Rim;
use keys::Keys;
use quality::Quality;

// The candidate at k is taken if there is nothing yet or it is better.
fn taken(found: Option<(u8, Quality)>, k: u8, candidate: Option<Quality>) -> Option<(u8, Quality)>
    ensures { option_of result ≡ keep (option_of found) k (option_of candidate) }
{
    let Some(q) = candidate else {
        return found;
    };
    let Some((_, best)) = found else {
        return Some((k, q));
    };
    if best.worse(q) {
        return Some((k, q));
    }
    found
}

// The apex and the best worst of piece (i,j), over the apexes upwards; none for the mark.
pub fn choose(
    coordinates: &[u8],
    rim: Rim,
    keys: &Keys,
    table: &Table,
    used: &[bool; CELLS],
    i: usize,
    j: usize,
) -> Option<(u8, Quality)>
    requires rimmed { Rimmed coordinates.now rim }
    requires piece { (1 ≤ i) × (i + 2 ≤ j) × (j ≤ max_ring) }
    ensures { (site : Site)
        → SiteRim site coordinates.now rim keys.now
        → j ≤ m site
        → Smaller site table.now used.now i j
        → option_of result ≡ best_found site (best_in table.now) i j }
{
    let mut found = None;
    for k in i + 1..j {
        let rows = two_over(rim, i, k, j);
        let left = side_at(table, used, i, k);
        let right = side_at(table, used, k, j);
        found = taken(
            found,
            k as u8,
            candidate(coordinates, keys, rows, left, right),
        );
    }
    found
}
