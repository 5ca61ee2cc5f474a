// The quality of the row over four points, by its parts.
#![tactic(auto)]

ghost use Rattle.std.specs.Prelude.{◌≡◌, length};
ghost use Rattle.corners.specs.Corners.{corner_bytes, kind_number, measured, parts, parts_of, quality_in};

use quality::{Kind, Quality};

// The bytes of four points, and the numbers of a quality.
const CORNER_BYTES: usize = 12;

const PARTS: usize = 3;

// A kind as a number, for C.
// Kept: `From<Kind>` for u64 can stand in crate `quality` alone, and nothing but this probe wants the number.
fn kind_number(kind: Kind) -> u64
    ensures { result ≡ kind_number kind }
{
    match kind {
        Kind::Upright => 0,
        Kind::Flat => 1,
        Kind::Inverted => 2,
    }
}

// The quality of the row over four points.
fn quality_in(corners: &[u8]) -> Quality
    requires { length corners.now ≡ corner_bytes }
    ensures { result ≡ quality_in corners.now }
{
    Quality::of(
        volume::point_in(corners, 0),
        volume::point_in(corners, 1),
        volume::point_in(corners, 2),
        volume::point_in(corners, 3),
    )
}

// Writes the parts of a quality.
fn put(quality: Quality, out: &mut [u64])
    requires { length out.old ≡ parts }
    ensures { out.new ≡ parts_of quality }
{
    out[0] = kind_number(quality.kind());
    out[1] = quality.num();
    out[2] = quality.den();
}

// The quality of the row over four points: kind, numerator, denominator. With other lengths nothing is written.
pub fn put_quality(corners: &[u8], out: &mut [u64])
    ensures { out.new ≡ measured corners.now out.old }
{
    if corners.len() == CORNER_BYTES && out.len() == PARTS {
        put(quality_in(corners), out);
    }
}
