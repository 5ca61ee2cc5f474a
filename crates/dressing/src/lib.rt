// Marks and rows that go: whether a marked face would go, and the marks of the rows that take their place.
#![tactic(auto)]

ghost use Rattle.std.specs.Prelude.{◌+◌, ◌-◌, ◌*◌, ◌≤◌, not, ◌&&◌, [], ◌∷◌, map, ◌≡◌, T, length};
ghost use Rattle.lists.specs.Lists.{every, any, those, has, numbers_from};
ghost use Rattle.rows.specs.Rows.{rows_at, row_size, row_in, rows_in, with_rows, holds_face};
ghost use Rattle.rows.specs.Steps.{most_rows};
ghost use Rattle.keys.specs.Steps.{face_key};
ghost use Rattle.marking.specs.Marking.{agree, marks_over, dress_by, dressed};
ghost use Rattle.marking.specs.Steps.{keys_marked};

use keys::Keys;
use rows::{Marks, Row};

// ---- a marked face would go

// One of three numbers is n.
fn has(x: u8, y: u8, z: u8, n: u8) -> bool
    ensures { result ≡ has (x ∷ y ∷ z ∷ []) n }
{
    (n == x) | ((n == y) | (n == z))
}

// The face (f,g,h) is marked and has the numbers x, y and z.
fn marked_over(mark: bool, f: u8, g: u8, h: u8, x: u8, y: u8, z: u8) -> bool
    ensures { result ≡ every (has (f ∷ g ∷ h ∷ [])) (x ∷ y ∷ z ∷ []) && mark }
{
    (has(f, g, h, x) & (has(f, g, h, y) & has(f, g, h, z))) & mark
}

// The row marks a face that has the numbers x, y and z.
fn marks_over(row: Row, x: u8, y: u8, z: u8) -> bool
    ensures { result ≡ marks_over (x ∷ y ∷ z ∷ []) row }
{
    let marks = row.marks;
    let qrs = marked_over(marks.qrs, row.q, row.r, row.s, x, y, z);
    let psr = marked_over(marks.psr, row.p, row.s, row.r, x, y, z);
    let pqs = marked_over(marks.pqs, row.p, row.q, row.s, x, y, z);
    let prq = marked_over(marks.prq, row.p, row.r, row.q, x, y, z);
    qrs | (psr | (pqs | prq))
}

// Some row marks a face that has the numbers x, y and z; an edge is given with its second end twice.
pub fn mark_goes(table: &[u8], n: usize, x: u8, y: u8, z: u8) -> bool
    requires { rows_at + row_size * n ≤ length table.now }
    ensures { result ≡ any (marks_over (x ∷ y ∷ z ∷ [])) (rows_in table.now n) }
{
    if rows::unmarked(table) {
        return false;
    }
    for i in 0..n {
        if marks_over(rows::row_in(table, i), x, y, z) {
            return true;
        }
    }
    false
}

// ---- the marks of new rows

// The keys of marked faces, in place of those that were there: of the rows that hold x, y and z as they are, of all others turned
// over.
fn gather(keys: &mut Keys, table: &[u8], n: usize, x: u8, y: u8, z: u8)
    requires { (rows_at + row_size * n ≤ length table.now) × (n ≤ most_rows) }
    ensures { keys.new ≡ keys_marked (λ row. not (holds_face (x ∷ y ∷ z ∷ []) row)) (rows_in table.now n) }
{
    keys.clear();
    if rows::unmarked(table) {
        return;
    }
    for i in 0..n {
        let row = rows::row_in(table, i);
        marking::store_marked(keys, row, !rows::holds_face(row, x, y, z));
    }
}

// The row with those faces marked whose keys are among these.
fn dress_row(row: Row, keys: &Keys) -> Row
    ensures { result ≡ dress_by (λ f. has keys.now (face_key f)) row }
{
    let marks = Marks {
        qrs: keys.has(keys::face_key(row.q, row.r, row.s)),
        psr: keys.has(keys::face_key(row.p, row.s, row.r)),
        pqs: keys.has(keys::face_key(row.p, row.q, row.s)),
        prq: keys.has(keys::face_key(row.p, row.r, row.q)),
    };
    Row {
        p: row.p,
        q: row.q,
        r: row.r,
        s: row.s,
        region: row.region,
        marks,
    }
}

// The rows from one place to another with those faces marked whose keys are among these.
fn dress_all(rows: &mut [u8], from: usize, end: usize, keys: &Keys)
    requires { (from ≤ end) × (rows_at + row_size * end ≤ length rows.old) }
    ensures { rows.new ≡ with_rows rows.old from
        (map (dress_by (λ f. has keys.now (face_key f))) (map (row_in rows.old) (numbers_from from (end - from)))) }
{
    for i in from..end {
        let row = dress_row(rows::row_in(rows, i), keys);
        rows::put_row(rows, i, row);
    }
}

// The rows from one place to another take the marks of the rows of a table, of which those go that hold x, y and z.
pub fn dress(table: &[u8], n: usize, x: u8, y: u8, z: u8, rows: &mut [u8], from: usize, end: usize)
    requires n_in_bounds { (rows_at + row_size * n ≤ length table.now) × (n ≤ most_rows) × T (agree (rows_in table.now n)) }
    requires from_le_end { (from ≤ end) × (rows_at + row_size * end ≤ length rows.old) }
    ensures { rows.new ≡ with_rows rows.old from
        (dressed (those (holds_face (x ∷ y ∷ z ∷ [])) (rows_in table.now n))
        (those (λ row. not (holds_face (x ∷ y ∷ z ∷ []) row)) (rows_in table.now n))
        (map (row_in rows.old) (numbers_from from (end - from)))) }
{
    let mut keys = Keys::new();
    gather(&mut keys, table, n, x, y, z);
    dress_all(rows, from, end, &keys);
}
