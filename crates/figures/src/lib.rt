// What a call gives in numbers, held against what its record stores: the page row, the summary, or the refusal instead.
#![tactic(auto)]

ghost use Rattle.std.specs.Prelude.{◌≡◌};
ghost use Rattle.figures.specs.Figures.{has_bits, page_is, number_is, summary_is, summarised_is, removal_is};

use answers::Refusal;
use expected::answer_is;
use page::PageRow;
use records::{RECORD_BYTES, figure};
use summary::Summary;

// The size is a number, and has these bits.
fn has_bits(size: f64, bits: u64) -> bool
    ensures { result ≡ has_bits size bits }
{
    if size == size {
        return f64::to_bits(size) == bits;
    }
    false
}

fn page_is(page: PageRow, stored: &[u8; RECORD_BYTES]) -> bool
    ensures { result ≡ page_is page stored.now }
{
    if !has_bits(page.before, figure(stored, 0)) {
        return false;
    }
    has_bits(page.after, figure(stored, 1))
}

// The number is there and is this one, or is not there.
fn number_is(given: Option<u64>, there: u64, number: u64) -> bool
    ensures { result ≡ number_is given there number }
{
    match given {
        Some(n) => there == 1 && n == number,
        None => there == 0,
    }
}

fn summary_is(summary: Summary, stored: &[u8; RECORD_BYTES]) -> bool
    ensures { result ≡ summary_is summary stored.now }
{
    if summary.upright as u64 != figure(stored, 0) {
        return false;
    }
    if summary.flat as u64 != figure(stored, 1) {
        return false;
    }
    if summary.inverted as u64 != figure(stored, 2) {
        return false;
    }
    if !number_is(
        summary.worst.map(|score| score.value() as u64),
        figure(stored, 3),
        figure(stored, 4),
    ) {
        return false;
    }
    number_is(
        summary.octave.map(u64::from),
        figure(stored, 5),
        figure(stored, 6),
    )
}

// The answer is the stored one, and beside answer 0 the summary is too.
pub fn summarised_is(summarised: Result<Summary, Refusal>, stored: &[u8; RECORD_BYTES]) -> bool
    ensures { result ≡ summarised_is summarised stored.now }
{
    answer_is(&summarised, stored) && summarised.map_or(true, |summary| summary_is(summary, stored))
}

// The answer is the stored one, and beside answer 0 the page row is too.
pub fn removal_is(removal: Result<PageRow, Refusal>, stored: &[u8; RECORD_BYTES]) -> bool
    ensures { result ≡ removal_is removal stored.now }
{
    answer_is(&removal, stored) && removal.map_or(true, |page| page_is(page, stored))
}
