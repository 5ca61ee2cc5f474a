// The table of pieces, filled in place: each cell behind those of the smaller pieces inside its own.
#![tactic(auto)]

ghost use Rattle.std.specs.Prelude.{◌≡◌, ◌≤◌};
ghost use Rattle.ring.specs.Ring.{Site, m as size_of, max_ring, min_ring};
ghost use Rattle.kept_faces.specs.Steps.{SiteRim, Rimmed};
ghost use Rattle.cells.specs.Steps.{Whole};
ghost use Rattle.filling.specs.Steps.{Done};

use cells::{CELLS, Table, cell_at};
use choice::choose;
use kept_faces::{Rim, uses_diagonal};
use keys::Keys;

// Fills every cell of a ring of m, each behind the smaller pieces inside its own.
pub fn fill_cells(table: &mut Table, coordinates: &[u8], rim: Rim, keys: &Keys, m: usize)
    requires rimmed { Rimmed coordinates.now rim }
    requires whole { Whole table.old }
    requires ring_size { (min_ring ≤ m) × (m ≤ max_ring) }
    ensures done { (site : Site)
        → SiteRim site coordinates.now rim keys.now
        → m ≡ size_of site
        → Done site table.new }
    ensures still_whole { Whole table.new }
{
    let mut used = [false; CELLS];
    for j in 3..m + 1 {
        for i in (1..j - 1).rev() {
            let at = cell_at(i, j);
            let choice = choose(coordinates, rim, keys, table, &used, i, j);
            table.store(at, choice);
            used[at] = uses_diagonal(keys, rim.a, rim.b, rim.v[i - 1], rim.v[j - 1]);
        }
    }
}
