// The rows of a table: reading and writing one by the version of its block, which numbers a row holds, and the regions of some rows.
#![tactic(auto)]

ghost use Rattle.std.specs.Prelude.{◌+◌, ◌*◌, ◌≤◌, ◌<◌, ◌≡◌, true, cond, [], ◌∷◌, length};
ghost use Rattle.rows.specs.Labels.{no_marks, labels_of, label_byte, mark_bits};
ghost use Rattle.rows.specs.Rows.{rows_at, row_size, row_in, with_rows, holds, holds_edge, holds_face};
ghost use Rattle.rows.specs.Steps.{Unmarked, with_region};

// Where a block has its version, and where its rows start.
pub const VERSION_AT: usize = 0;

pub const ROWS_AT: usize = 208;

// The versions: regions of a byte, or of four bits and beside them the marks.
// Kept: a version is a byte and no enum, since `row_in` answers for a table with any byte there, and `labels_of` in specs/ reads every one but 1 as marked.
pub const PLAIN_VERSION: u8 = 1;

pub const MARKED_VERSION: u8 = 2;

// The bytes of a row.
pub const ROW_SIZE: usize = 5;

// Which of the four directed faces of a row are marked.
#[derive(Clone, Copy)]
pub struct Marks {
    pub qrs: bool,
    pub psr: bool,
    pub pqs: bool,
    pub prq: bool,
}

impl Marks {
    // No face is marked.
    pub const NONE: Marks = Marks {
        qrs: false,
        psr: false,
        pqs: false,
        prq: false,
    };
}

// What the last byte of a row says of it.
#[derive(Clone, Copy)]
pub struct Labels {
    pub region: u8,
    pub marks: Marks,
}

// A tetrahedron: four point numbers, the region, and the marks of its faces.
#[derive(Clone, Copy)]
pub struct Row {
    pub p: u8,
    pub q: u8,
    pub r: u8,
    pub s: u8,
    pub region: u8,
    pub marks: Marks,
}

// ---- region and marks in a byte

// The region and the marks of a byte, by the version of the block.
#[tactic(auto, unfolding(crate::specs::Labels::labels_of))]
fn labels_of(version: u8, byte: u8) -> Labels
    ensures { result ≡ labels_of version byte }
{
    if version == PLAIN_VERSION {
        return Labels {
            region: byte,
            marks: Marks::NONE,
        };
    }
    Labels {
        region: byte % 16,
        marks: Marks {
            qrs: byte / 16 % 2 == 1,
            psr: byte / 32 % 2 == 1,
            pqs: byte / 64 % 2 == 1,
            prq: byte / 128 % 2 == 1,
        },
    }
}

// A bit, if it is set.
fn bit_of(mark: bool, bit: u8) -> u8
    ensures { (result ≡ cond mark bit 0) × (result ≤ bit) }
{
    if mark { bit } else { 0 }
}

// The marks in their bits.
fn mark_bits(marks: Marks) -> u8
    ensures { (result ≡ mark_bits marks) × (result ≤ 240) }
{
    bit_of(marks.qrs, 16) + bit_of(marks.psr, 32) + bit_of(marks.pqs, 64) + bit_of(marks.prq, 128)
}

// The byte of a region and marks, by the version of the block.
fn label_byte(version: u8, region: u8, marks: Marks) -> u8
    ensures { result ≡ label_byte version (record { region = region; marks = marks }) }
{
    if version == PLAIN_VERSION {
        return region;
    }
    region % 16 + mark_bits(marks)
}

// ---- rows of a table, which is handed on as the block it stands in

// Row i of a table.
pub fn row_in(table: &[u8], i: usize) -> Row
    requires { rows_at + row_size * i + row_size ≤ length table.now }
    ensures { result ≡ row_in table.now i }
{
    let at = ROWS_AT + ROW_SIZE * i;
    let labels = labels_of(table[VERSION_AT], table[at + 4]);
    let marks = labels.marks;
    Row {
        p: table[at],
        q: table[at + 1],
        r: table[at + 2],
        s: table[at + 3],
        region: labels.region,
        marks,
    }
}

// Row i of a table is written; every other byte stays.
pub fn put_row(table: &mut [u8], i: usize, row: Row)
    requires { rows_at + row_size * i + row_size ≤ length table.old }
    ensures { table.new ≡ with_rows table.old i (row ∷ []) }
{
    let at = ROWS_AT + ROW_SIZE * i;
    let marks = row.marks;
    let byte = label_byte(table[VERSION_AT], row.region, marks);
    table[at] = row.p;
    table[at + 1] = row.q;
    table[at + 2] = row.r;
    table[at + 3] = row.s;
    table[at + 4] = byte;
}

// No row of the table can be marked.
pub fn unmarked(table: &[u8]) -> bool
    requires { 0 < length table.now }
    ensures { result ≡ true → Unmarked table.now }
{
    table[VERSION_AT] == PLAIN_VERSION
}

// A row without marks.
pub fn plain(p: u8, q: u8, r: u8, s: u8, region: u8) -> Row
    ensures { result ≡ record { p = p; q = q; r = r; s = s; region = region; marks = no_marks } }
{
    Row {
        p,
        q,
        r,
        s,
        region,
        marks: Marks::NONE,
    }
}

// ---- the numbers of a row

// The row holds point n.
fn row_holds(row: Row, n: u8) -> bool
    ensures { result ≡ holds row n }
{
    [row.p, row.q, row.r, row.s].contains(&n)
}

// The row holds both ends of an edge.
pub fn holds_edge(row: Row, a: u8, b: u8) -> bool
    ensures { result ≡ holds_edge a b row }
{
    row_holds(row, a) && row_holds(row, b)
}

// The row holds the three numbers of a face.
#[tactic(auto, using(lists::proofs::Tests::and_true), unfolding(lists::specs::Lists::every))]
pub fn holds_face(row: Row, x: u8, y: u8, z: u8) -> bool
    ensures { result ≡ holds_face (x ∷ y ∷ z ∷ []) row }
{
    row_holds(row, x) && row_holds(row, y) && row_holds(row, z)
}

// The region of some rows, or that they have more than one.
#[derive(Clone, Copy)]
pub enum Regions {
    One(u8),
    Several,
}

impl Regions {
    // With one row more behind them, of this region.
    pub fn with(self, region: u8) -> Regions
        ensures { result ≡ with_region self region }
    {
        match self {
            Regions::One(same) => {
                if region == same {
                    return Regions::One(same);
                }
                Regions::Several
            }
            Regions::Several => Regions::Several,
        }
    }
}
