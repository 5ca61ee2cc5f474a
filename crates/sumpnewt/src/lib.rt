// The C boundary: the public calls behind C names, each returning the number of its answer. include/sumpnewt.h is their header.
// A slice is a pointer and a length there. Unless the number is 0 every output element stays as it came.
// Kept: functions of one shape, as each is a C name of its own (include/sumpnewt.h).
#![tactic(auto)]

ghost use Rattle.std.specs.Prelude.{◌≡◌};
ghost use Rattle.block.specs.Opening.{open_answer, seal_answer, seal_bytes};
ghost use Rattle.display.specs.Display.{shown_answer, shown_elements};
ghost use Rattle.calls.specs.Removing.{remove_answer, remove_bytes};
ghost use Rattle.calls.specs.Flipping.{flip_answer, flip_bytes};
ghost use Rattle.sumpnewt.specs.Boundary.{summary_answer, summary_out, page_answer, page_out};

// Opens a block.
#[unsafe(no_mangle)]
pub extern "C" fn sumpnewt_open(block: &[u8]) -> u32
    ensures { result ≡ open_answer block.now }
{
    answers::number(&patch::open(block)) as u32
}

// Seals the first 508 bytes of a block.
#[unsafe(no_mangle)]
pub extern "C" fn sumpnewt_seal(fields: &[u8], out: &mut [u8]) -> u32
    ensures answer { result ≡ seal_answer fields.now out.old }
    ensures bytes { out.new ≡ seal_bytes fields.now out.old }
{
    answers::number(&patch::seal(fields, out)) as u32
}

// Summarises a block: upright, flat, inverted, has_worst, worst, has_octave, octave.
#[unsafe(no_mangle)]
pub extern "C" fn sumpnewt_summary(block: &[u8], out: &mut [u64]) -> u32
    ensures answer { result ≡ summary_answer block.now out.old }
    ensures elements { out.new ≡ summary_out block.now out.old }
{
    elements::store_summary(patch::summary(block), out) as u32
}

// Removes the edge between the points a and b.
#[unsafe(no_mangle)]
pub extern "C" fn sumpnewt_remove(block: &[u8], a: usize, b: usize, out: &mut [u8]) -> u32
    ensures answer { result ≡ remove_answer block.now out.old a b }
    ensures bytes { out.new ≡ remove_bytes block.now out.old a b }
{
    answers::number(&patch::remove(block, a, b, out)) as u32
}

// The page row of the removal of the edge between the points a and b: worst before, worst after.
#[unsafe(no_mangle)]
pub extern "C" fn sumpnewt_page(block: &[u8], a: usize, b: usize, row: &mut [f64]) -> u32
    ensures answer { result ≡ page_answer block.now row.old a b }
    ensures elements { row.new ≡ page_out block.now row.old a b }
{
    elements::store_page(patch::page(block, a, b), row) as u32
}

// Shows the quality of each row of a block: an element for each row, with its sign, and zeros behind them.
#[unsafe(no_mangle)]
pub extern "C" fn sumpnewt_shown(block: &[u8], out: &mut [f64]) -> u32
    ensures answer { result ≡ shown_answer block.now out.old }
    ensures elements { out.new ≡ shown_elements block.now out.old }
{
    answers::number(&patch::shown(block, out)) as u32
}

// Flips the three rows round the edge between two points to two, or the two rows at the face of three points to three.
#[unsafe(no_mangle)]
pub extern "C" fn sumpnewt_flip(block: &[u8], numbers: &[usize], out: &mut [u8]) -> u32
    ensures answer { result ≡ flip_answer block.now out.old numbers.now }
    ensures bytes { out.new ≡ flip_bytes block.now out.old numbers.now }
{
    answers::number(&patch::flip(block, numbers, out)) as u32
}
