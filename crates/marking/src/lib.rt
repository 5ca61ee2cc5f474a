// Marked faces of the rows of a table: their keys, gathered, and by them whether both rows at a face agree.
#![tactic(auto)]

ghost use Rattle.std.specs.Prelude.{◌+◌, ◌*◌, ◌<◌, ◌≤◌, false, cond, not, ◌||◌, [], ◌∷◌, ◌++◌, ◌≡◌, length};
ghost use Rattle.lists.specs.Lists.{every, has};
ghost use Rattle.rows.specs.Rows.{rows_at, row_size, rows_in};
ghost use Rattle.rows.specs.Steps.{most_rows};
ghost use Rattle.mesh.specs.Mesh.{reversed};
ghost use Rattle.keys.specs.Steps.{most_keys, face_key};
ghost use Rattle.marking.specs.Marking.{marked_faces, agree};
ghost use Rattle.marking.specs.Steps.{key_of, marked_keys, keys_marked};

use keys::Keys;
use rows::Row;

// ---- the keys of marked faces

// The key of a face, or of the face turned over.
fn key_of(over: bool, x: u8, y: u8, z: u8) -> u32
    ensures { result ≡ key_of over (x, y, z) }
{
    if over {
        return keys::face_key(x, z, y);
    }
    keys::face_key(x, y, z)
}

// The key of a face that is marked goes behind the others; of another none is made.
fn store_face(keys: &mut Keys, mark: bool, over: bool, x: u8, y: u8, z: u8)
    requires { length keys.old < most_keys }
    ensures stored { keys.new ≡ keys.old ++ cond mark (key_of over (x, y, z) ∷ []) [] }
    ensures one_more { length keys.new ≤ length keys.old + 1 }
{
    if mark {
        keys.push(key_of(over, x, y, z));
    }
}

// The keys of the faces that a row marks, turned over or not, go behind the others.
pub fn store_marked(keys: &mut Keys, row: Row, over: bool)
    requires { length keys.old + 4 ≤ most_keys }
    ensures stored { keys.new ≡ keys.old ++ marked_keys over row }
    ensures four_more { length keys.new ≤ length keys.old + 4 }
{
    let marks = row.marks;
    store_face(keys, marks.qrs, over, row.q, row.r, row.s);
    store_face(keys, marks.psr, over, row.p, row.s, row.r);
    store_face(keys, marks.pqs, over, row.p, row.q, row.s);
    store_face(keys, marks.prq, over, row.p, row.r, row.q);
}

// The keys of all marked faces of the first n rows, in place of those that were there.
fn store_all(keys: &mut Keys, table: &[u8], n: usize)
    requires { (rows_at + row_size * n ≤ length table.now) × (n ≤ most_rows) }
    ensures { keys.new ≡ keys_marked (λ row. false) (rows_in table.now n) }
{
    keys.clear();
    for i in 0..n {
        store_marked(keys, rows::row_in(table, i), false);
    }
}

// ---- both rows at a face agree

// A face is marked, or the keys do not have it turned over.
fn face_agrees(keys: &Keys, mark: bool, x: u8, y: u8, z: u8) -> bool
    ensures { result ≡ mark || not (has keys.now (face_key (reversed (x, y, z)))) }
{
    if mark {
        return true;
    }
    !keys.has(keys::face_key(x, z, y))
}

// So it is of each face of a row.
fn row_agrees(keys: &Keys, row: Row) -> bool
    ensures { result ≡ every (λ g. g.1 || not (has keys.now (face_key (reversed g.0)))) (marked_faces row) }
{
    let marks = row.marks;
    let qrs = face_agrees(keys, marks.qrs, row.q, row.r, row.s);
    let psr = face_agrees(keys, marks.psr, row.p, row.s, row.r);
    let pqs = face_agrees(keys, marks.pqs, row.p, row.q, row.s);
    let prq = face_agrees(keys, marks.prq, row.p, row.r, row.q);
    qrs & (psr & (pqs & prq))
}

// Both rows at a face agree, for every face of the first n rows.
pub fn all_agree(table: &[u8], n: usize) -> bool
    requires { (rows_at + row_size * n ≤ length table.now) × (n ≤ most_rows) }
    ensures { result ≡ agree (rows_in table.now n) }
{
    if rows::unmarked(table) {
        return true;
    }
    let mut keys = Keys::new();
    store_all(&mut keys, table, n);
    for i in 0..n {
        if !row_agrees(&keys, rows::row_in(table, i)) {
            return false;
        }
    }
    true
}
