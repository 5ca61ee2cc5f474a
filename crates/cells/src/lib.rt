// The table of pieces, a cell for each: where it stands, and a best worst and an apex packed into flat arrays.
#![tactic(auto)]

ghost use Rattle.std.specs.Prelude.{◌≡◌, ◌+◌, ◌<◌, ◌≤◌};
ghost use Rattle.ring.specs.Ring.{max_ring};
ghost use Rattle.cells.specs.Steps.{best_of, cell_at, cell_of, cells, kind_code, option_of, stored};

use quality::{Kind, Quality};
use ring::MAX_RING;

// The cells of a table: one for each piece of the longest ring.
pub const CELLS: usize = (MAX_RING - 1) * (MAX_RING - 2) / 2;

// The table of pieces: what is kept of each, at one place of four flat arrays. A kind is 0 for the mark of a piece without an admissible
// triangulation, or of a whole chain that a kept row bars; 1 inverted, 2 flat, 3 upright.
// Kept: flat arrays are asked for (docs/REQUIREMENT.md, §14.6); an Option<Quality> takes 24 bytes or more, not 17, and compare/tests/stack.rs leaves 32.
#[derive(Clone, Copy)]
pub struct Table {
    pub nums: [u64; CELLS],
    pub dens: [u64; CELLS],
    pub kinds: [u8; CELLS],
    pub apexes: [u8; CELLS],
}

impl Table {
    // Every piece with the mark.
    pub const EMPTY: Table = Table {
        nums: [0; CELLS],
        dens: [0; CELLS],
        kinds: [0; CELLS],
        apexes: [0; CELLS],
    };

    // The best worst that is kept at a place; none for the mark.
    pub fn best_at(&self, at: usize) -> Option<Quality>
        requires { at < cells }
        ensures { option_of result ≡ best_of self.now at }
    {
        let kind = self.kinds[at];
        match kind {
            0 => None,
            1 => Some(Quality::of_parts(Kind::Inverted, self.nums[at], self.dens[at])),
            2 => Some(Quality::of_parts(Kind::Flat, self.nums[at], self.dens[at])),
            _ => Some(Quality::of_parts(Kind::Upright, self.nums[at], self.dens[at])),
        }
    }

    // Keeps a piece's choice at a place: the apex and the best worst with it, or the mark.
    pub fn store(&mut self, at: usize, choice: Option<(u8, Quality)>)
        requires { at < cells }
        ensures { self.new ≡ stored self.old at choice }
    {
        let cell = cell_of(choice);
        self.kinds[at] = cell.kind;
        self.nums[at] = cell.num;
        self.dens[at] = cell.den;
        self.apexes[at] = cell.apex;
    }
}

// What the table keeps of one piece.
// Kept: the kind as its code, in this crate alone: it is what the table's arrays hold (compare/tests/stack.rs, above).
#[derive(Clone, Copy)]
pub struct Cell {
    pub kind: u8,
    pub num: u64,
    pub den: u64,
    pub apex: u8,
}

// Where the table keeps piece (i,j).
pub fn cell_at(i: usize, j: usize) -> usize
    requires { (1 ≤ i) × (i + 2 ≤ j) × (j ≤ max_ring) }
    ensures { (result ≡ cell_at i j) × (result < cells) }
{
    (j - 1) * (j - 2) / 2 - i
}

// A kind as the table keeps it.
fn kind_code(kind: Kind) -> u8
    ensures { result ≡ kind_code kind }
{
    match kind {
        Kind::Inverted => 1,
        Kind::Flat => 2,
        Kind::Upright => 3,
    }
}

// A choice as the table keeps it: the apex and the best worst with it, or the mark.
fn cell_of(choice: Option<(u8, Quality)>) -> Cell
    ensures { result ≡ cell_of choice }
{
    match choice {
        None => Cell {
            kind: 0,
            num: 0,
            den: 0,
            apex: 0,
        },
        Some((k, worst)) => Cell {
            kind: kind_code(worst.kind()),
            num: worst.num(),
            den: worst.den(),
            apex: k,
        },
    }
}
