// The 512 bytes of a patch: where each field stands, the fields read, and the two sums read and written.
#![tactic(auto)]

ghost use Rattle.std.specs.Prelude.{◌≡◌, ◌+◌, ◌/◌, ◌%◌, ◌<◌, ◌≤◌, not, ◌&&◌, ◌++◌, length, take, drop, ◌==◌, slice_index, slice_set};
ghost use Rattle.layout.specs.Layout.{block_bytes, body_bytes, is_version, sums_of, sealed, sum_wrong, open_fields};

use rows::{MARKED_VERSION, PLAIN_VERSION, ROWS_AT, VERSION_AT};

// The bytes of a block.
pub const BLOCK_BYTES: usize = 512;

// The bytes before the sums.
pub const BODY_BYTES: usize = 508;

// The most points, and the most rows.
pub const MAX_POINTS: usize = 64;

pub const MAX_ROWS: usize = 60;

// Where the zero bytes and the points start.
pub const ZEROS_AT: usize = 3;

pub const POINTS_AT: usize = 16;

// The bytes of all points, and of all rows.
pub const COORDINATE_BYTES: usize = ROWS_AT - POINTS_AT;

pub const TABLE_BYTES: usize = BODY_BYTES - ROWS_AT;

// The two running sums of a block.
#[derive(Clone, Copy)]
pub struct Sums {
    pub first: u16,
    pub second: u16,
}

// The fields of a block: the version, the counts, the 64 points of 3 bytes and the 60 rows of 5 bytes.
#[derive(Clone, Copy)]
pub struct Fields {
    pub version: u8,
    pub points: u8,
    pub rows: u8,
    pub coordinates: [u8; COORDINATE_BYTES],
    pub table: [u8; TABLE_BYTES],
}

// Each byte is added to the first sum, and then the first sum to the second.
#[tactic(auto, unfolding(crate::specs::Layout::sums_onto))]
fn sums_of(body: &[u8]) -> Sums
    ensures { result ≡ sums_of body.now }
{
    let mut first: u16 = 0;
    let mut second: u16 = 0;
    for byte in body {
        first = first.wrapping_add(*byte as u16);
        second = second.wrapping_add(first);
    }
    Sums { first, second }
}

// The two bytes at a place are not the sum, low byte first.
fn differs(block: &[u8], at: usize, sum: u16) -> bool
    requires { at + 1 < length block.now }
    ensures { result ≡ not ((slice_index block.now at == sum % 256)
        && slice_index block.now (at + 1) == sum / 256) }
{
    block[at..at + 2] != sum.to_le_bytes()[..]
}

// Writes the sum to the two bytes at a place, low byte first.
fn put(out: &mut [u8], at: usize, sum: u16)
    requires { at + 1 < length out.old }
    ensures { out.new ≡ slice_set (slice_set out.old at (sum % 256)) (at + 1) (sum / 256) }
{
    out[at..at + 2].copy_from_slice(&sum.to_le_bytes());
}

// The version is 1 or 2.
pub fn is_version(version: u8) -> bool
    ensures { result ≡ is_version version }
{
    version == PLAIN_VERSION || version == MARKED_VERSION
}

// The last four bytes are not the sums of those before.
pub fn sum_wrong(block: &[u8]) -> bool
    requires { length block.now ≡ block_bytes }
    ensures { result ≡ sum_wrong block.now }
{
    let sums = sums_of(&block[0..BODY_BYTES]);
    differs(block, BODY_BYTES, sums.first) || differs(block, BODY_BYTES + 2, sums.second)
}

// Writes the two sums behind the first 508 bytes.
pub fn stamp(out: &mut [u8])
    requires { length out.old ≡ block_bytes }
    ensures { out.new ≡ sealed (take body_bytes out.old) }
{
    let sums = sums_of(&out[0..BODY_BYTES]);
    put(out, BODY_BYTES, sums.first);
    put(out, BODY_BYTES + 2, sums.second);
}

// Writes one slice to the front of another.
pub fn copy(from: &[u8], to: &mut [u8])
    requires { length from.now ≤ length to.old }
    ensures { to.new ≡ from.now ++ drop (length from.now) to.old }
{
    // Kept: a loop and no copy_from_slice, which calls memmove: libsumpnewt.a needs nothing but memcpy and memset (include/sumpnewt.h).
    for (i, byte) in from.iter().enumerate() {
        to[i] = *byte;
    }
}

// The fields of a body.
pub fn fields_of(block: &[u8]) -> Fields
    requires { body_bytes ≤ length block.now }
    ensures { result ≡ open_fields block.now }
{
    let mut coordinates = [0u8; COORDINATE_BYTES];
    coordinates.copy_from_slice(&block[POINTS_AT..ROWS_AT]);
    let mut table = [0u8; TABLE_BYTES];
    table.copy_from_slice(&block[ROWS_AT..BODY_BYTES]);
    Fields {
        version: block[VERSION_AT],
        points: block[1],
        rows: block[2],
        coordinates,
        table,
    }
}
