// What the benchmark calls: the kernel's inner functions behind C names, as thin as can be.
#![tactic(auto)]

ghost use Rattle.std.specs.Prelude.{◌≡◌};
ghost use Rattle.exact.specs.Fractions.{is_less};
ghost use Rattle.score.specs.Score.{score_of};
ghost use Rattle.corners.specs.Corners.{measured};
ghost use Rattle.edge_tables.specs.EdgeTables.{ring_at, top_apex};
ghost use Rattle.probes.specs.Probed.{upright};

use quality::{Kind, Quality};
use score::Score;

// The quality of the row over four points: kind, numerator, denominator. With other lengths nothing is written.
#[unsafe(no_mangle)]
pub extern "C" fn probe_quality(corners: &[u8], out: &mut [u64])
    ensures { out.new ≡ measured corners.now out.old }
{
    corners::put_quality(corners, out);
}

// Whether n1 / d1 is less than n2 / d2.
#[unsafe(no_mangle)]
pub extern "C" fn probe_less(n1: u64, d1: u64, n2: u64, d2: u64) -> bool
    ensures { result ≡ is_less n1 d1 n2 d2 }
{
    exact::less(n1, d1, n2, d2)
}

// The score of the upright quality num / den.
#[unsafe(no_mangle)]
pub extern "C" fn probe_score(num: u64, den: u64) -> u64
    ensures { result ≡ score_of (upright num den) }
{
    Score::of(Quality::of_parts(Kind::Upright, num, den)).value() as u64
}

// The length of the closed ring round the edge between the points e and f, if e < f; 0 where there is none.
#[unsafe(no_mangle)]
pub extern "C" fn probe_ring(block: &[u8], e: usize, f: usize) -> u64
    ensures { result ≡ (ring_at block.now e f).m }
{
    let ring = edge_tables::ring_at(block, e, f);
    ring.m as u64
}

// The apex of that ring, by the table of its pieces; 0 where there is none.
#[unsafe(no_mangle)]
pub extern "C" fn probe_table(block: &[u8], e: usize, f: usize) -> u64
    ensures { result ≡ top_apex block.now e f }
{
    edge_tables::apex_at(block, e, f)
}
