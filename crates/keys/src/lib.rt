// Directed faces as numbers, and by them the mesh rule, on a table of rows as a byte slice with a count.
#![tactic(auto)]

ghost use Rattle.std.specs.Prelude.{◌+◌, ◌*◌, ◌<◌, ◌≤◌, ◌≡◌, cond, not, [], ◌∷◌, ◌++◌, length, take, drop};
ghost use Rattle.lists.specs.Lists.{every, any, has};
ghost use Rattle.rows.specs.Rows.{rows_at, row_size, rows_in};
ghost use Rattle.rows.specs.Steps.{most_rows};
ghost use Rattle.mesh.specs.Mesh.{faces_apart, keeps_mesh_rule};
ghost use Rattle.keys.specs.Steps.{row_faces, most_keys, three_as_one, face_key, row_keys, table_keys, one_of};

use rows::Row;
use std::marker::Model;

// ---- the keys of faces

fn three_as_one(x: u8, y: u8, z: u8) -> u32
    ensures { result ≡ three_as_one x y z }
{
    (x as u32) * 65536 + (y as u32) * 256 + (z as u32)
}

// A directed face as one number: of its three turns, the least.
pub fn face_key(x: u8, y: u8, z: u8) -> u32
    ensures { result ≡ face_key (x, y, z) }
{
    three_as_one(x, y, z).min(three_as_one(y, z, x).min(three_as_one(z, x, y)))
}

// The faces of a row.
const ROW_FACES: usize = 4;

// The faces of the longest table: 60 rows of a block and one more while it is changed.
pub const MOST_KEYS: usize = 244;

// The keys of directed faces, one behind another: room for those of the longest table.
#[derive(Drop)]
pub struct Keys {
    all: [u32; MOST_KEYS],
    n: usize,
}

impl Model for Keys {
    ghost use Rattle.std.specs.Prelude.{List, ℕ, ◌≤◌, take};
    ghost use Rattle.keys.specs.Steps.{most_keys};

    ghost Value = { List ℕ };

    ghost view = { λ k. take k.n k.all };

    ghost invariant = { λ k. k.n ≤ most_keys };
}

impl Keys {
    // No keys.
    pub fn new() -> Keys
        ensures { result ≡ [] }
    {
        Keys {
            all: [0; MOST_KEYS],
            n: 0,
        }
    }

    // All keys go.
    pub fn clear(&mut self)
        ensures { self.new ≡ [] }
    {
        self.n = 0;
    }

    // A key goes behind the others.
    pub fn push(&mut self, key: u32)
        requires { length self.old < most_keys }
        ensures { self.new ≡ self.old ++ key ∷ [] }
    {
        self.all[self.n] = key;
        self.n += 1;
    }

    // A key goes behind the others if it is wanted.
    pub fn push_if(&mut self, wanted: bool, key: u32)
        requires { length self.old < most_keys }
        ensures pushed { self.new ≡ self.old ++ cond wanted (key ∷ []) [] }
        ensures one_more { length self.new ≤ length self.old + 1 }
    {
        if wanted {
            self.push(key);
        }
    }

    // Whether a key stands here. Every one is looked at, so that several are compared at once.
    pub fn has(&self, key: u32) -> bool
        ensures { result ≡ has self.now key }
    {
        // Kept: as a fold it was not proved, since `search` does not find what the closure computes (`returns` of `Keys::has`).
        let mut found = false;
        for other in &self.all[..self.n] {
            found = found | (key == *other);
        }
        found
    }

    // The keys of a row's faces go behind the others; their number is counted once.
    fn push_row(&mut self, row: Row)
        requires { length self.old + row_faces ≤ most_keys }
        ensures { self.new ≡ self.old ++ row_keys row }
    {
        let at = self.n;
        self.all[at] = face_key(row.q, row.r, row.s);
        self.all[at + 1] = face_key(row.p, row.s, row.r);
        self.all[at + 2] = face_key(row.p, row.q, row.s);
        self.all[at + 3] = face_key(row.p, row.r, row.q);
        self.n = at + ROW_FACES;
    }

    // The keys as a slice.
    fn as_slice(&self) -> &[u32]
        ensures { result.now ≡ self.now }
    {
        &self.all[..self.n]
    }
}

// ---- the mesh rule

// One of four keys stands among some. They are looked for in one pass, and in every key, so that many are compared at once.
fn some_among(keys: &[u32], a: u32, b: u32, c: u32, d: u32) -> bool
    ensures { result ≡ any (one_of a b c d) keys.now }
{
    let mut found = false;
    for key in keys {
        found = found | ((a == *key) | (b == *key) | (c == *key) | (d == *key));
    }
    found
}

// No key of row i stands among the keys of the rows before it.
fn row_apart(keys: &[u32], i: usize) -> bool
    requires { row_faces * (i + 1) ≤ length keys.now }
    ensures { result ≡ every (λ k. not (has (take (row_faces * i) keys.now) k))
        (take row_faces (drop (row_faces * i) keys.now)) }
{
    let at = ROW_FACES * i;
    !some_among(
        &keys[..at],
        keys[at],
        keys[at + 1],
        keys[at + 2],
        keys[at + 3],
    )
}

// The keys of the first n rows, in order, in place of those that were there.
fn store_all(keys: &mut Keys, table: &[u8], n: usize)
    requires { (rows_at + row_size * n ≤ length table.now) × (n ≤ most_rows) }
    ensures { keys.new ≡ table_keys (rows_in table.now n) }
{
    keys.clear();
    for i in 0..n {
        keys.push_row(rows::row_in(table, i));
    }
}

// No directed face stands in two of the first n rows.
// Kept: two passes, as one that looks and stores row by row was too slow: 60 rows took 2,605 ns for 2,413, 20 rows 417 for 365.
pub fn all_apart(table: &[u8], n: usize) -> bool
    requires { (rows_at + row_size * n ≤ length table.now) × (n ≤ most_rows) }
    ensures { result ≡ faces_apart (rows_in table.now n) }
{
    let mut keys = Keys::new();
    store_all(&mut keys, table, n);
    let all = keys.as_slice();
    for row in 0..n {
        if !row_apart(all, row) {
            return false;
        }
    }
    true
}

// The first n rows keep the mesh rule.
pub fn keeps_mesh_rule(table: &[u8], n: usize, count: usize) -> bool
    requires { (rows_at + row_size * n ≤ length table.now) × (n ≤ most_rows) }
    ensures { result ≡ keeps_mesh_rule count (rows_in table.now n) }
{
    if !mesh::all_fit(table, n, count) {
        return false;
    }
    all_apart(table, n)
}
