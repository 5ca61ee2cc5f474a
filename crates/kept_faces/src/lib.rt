// The faces of kept rows that can matter, gathered once and then looked up: those whose numbers are all among a, b, v1..vm.
#![tactic(auto)]

ghost use Rattle.std.specs.Prelude.{◌≡◌, [], ◌∷◌, ◌++◌, false, cond, ◌||◌, ◌+◌, ◌*◌, ◌%◌, ◌<◌, ◌≤◌, length};
ghost use Rattle.lists.specs.Lists.{has};
ghost use Rattle.rows.specs.Rows.{rows_at, row_size, rows_in};
ghost use Rattle.rows.specs.Steps.{most_rows};
ghost use Rattle.keys.specs.Steps.{most_keys, row_faces, face_key};
ghost use Rattle.ring.specs.Ring.{max_ring};
ghost use Rattle.kept_faces.specs.Steps.{places, RimMet, all_met, kept_of, kept_keys, Gathered, used_by};

use keys::Keys;
use layout::MAX_POINTS;
use ring::MAX_RING;
use rows::Row;

// The points that new rows have: the ends, and v1 to vm from place 0 on.
#[derive(Clone, Copy)]
pub struct Rim {
    pub a: u8,
    pub b: u8,
    pub v: [u8; MAX_RING],
}

// The places of points: as many as a block has points, so no two of them share one.
const PLACES: usize = MAX_POINTS;

// The place of a point: its number modulo 64.
fn place(point: u8) -> usize
    ensures { (result ≡ point % places) × (result < places) }
{
    point as usize % PLACES
}

// The points a, b and v1 to vm are met.
fn meet(met: &mut [bool; PLACES], rim: Rim, m: usize)
    requires { m ≤ max_ring }
    ensures { RimMet met.new rim m }
{
    met[place(rim.a)] = true;
    met[place(rim.b)] = true;
    for v in &rim.v[..m] {
        met[place(*v)] = true;
    }
}

// The numbers of a face are all met.
fn all_met(met: &[bool; PLACES], x: u8, y: u8, z: u8) -> bool
    ensures { result ≡ all_met met.now (x, y, z) }
{
    met[place(x)] && met[place(y)] && met[place(z)]
}

// The keys of a row's faces whose numbers are all met go behind the others, if the row does not hold both ends.
fn add_row(keys: &mut Keys, met: &[bool; PLACES], a: u8, b: u8, row: Row)
    requires { length keys.old + row_faces ≤ most_keys }
    ensures added { keys.new ≡ keys.old ++ kept_keys met.now (kept_of a b (row ∷ [])) }
    ensures four_more { length keys.new ≤ length keys.old + row_faces }
{
    if rows::holds_edge(row, a, b) {
        return;
    }
    keys.push_if(
        all_met(met, row.q, row.r, row.s),
        keys::face_key(row.q, row.r, row.s),
    );
    keys.push_if(
        all_met(met, row.p, row.s, row.r),
        keys::face_key(row.p, row.s, row.r),
    );
    keys.push_if(
        all_met(met, row.p, row.q, row.s),
        keys::face_key(row.p, row.q, row.s),
    );
    keys.push_if(
        all_met(met, row.p, row.r, row.q),
        keys::face_key(row.p, row.r, row.q),
    );
}

// The keys of the kept rows' faces whose numbers are all met, in place of those that were there.
pub fn gather(keys: &mut Keys, table: &[u8], n: usize, rim: Rim, m: usize)
    requires { (rows_at + row_size * n ≤ length table.now) × (n ≤ most_rows) × (m ≤ max_ring) }
    ensures { Gathered keys.new rim m (kept_of rim.a rim.b (rows_in table.now n)) }
{
    let mut met = [false; PLACES];
    meet(&mut met, rim, m);
    keys.clear();
    for i in 0..n {
        add_row(keys, &met, rim.a, rim.b, rows::row_in(table, i));
    }
}

// Whether a face's key or that of the face the other way round is among the keys.
pub fn uses_either(keys: &Keys, x: u8, y: u8, z: u8) -> bool
    ensures { result ≡ used_by keys.now (x, y, z) }
{
    if keys.has(keys::face_key(x, y, z)) {
        return true;
    }
    keys.has(keys::face_key(x, z, y))
}

// The same of the faces that a and b make with a diagonal from x to y.
pub fn uses_diagonal(keys: &Keys, a: u8, b: u8, x: u8, y: u8) -> bool
    ensures { result ≡ used_by keys.now (a, x, y) || used_by keys.now (b, x, y) }
{
    if uses_either(keys, a, x, y) {
        return true;
    }
    uses_either(keys, b, x, y)
}

// Whether one of the end faces of a chain from x to y, (a,x,y) and (b,y,x), is among the keys, in that direction. Those of a
// closed ring are not looked up.
pub fn uses_across(keys: &Keys, closed: bool, a: u8, b: u8, x: u8, y: u8) -> bool
    ensures { result ≡ cond closed false (has keys.now (face_key (a, x, y)) || has keys.now (face_key (b, y, x))) }
{
    if closed {
        return false;
    }
    if keys.has(keys::face_key(a, x, y)) {
        return true;
    }
    keys.has(keys::face_key(b, y, x))
}
