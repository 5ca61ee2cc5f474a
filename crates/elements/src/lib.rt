// A summary and a page row as the elements of an array. Unless the answer is 0 every element stays as it came.
#![tactic(auto)]

ghost use Rattle.std.specs.Prelude.{◌≡◌, length};
ghost use Rattle.answers.specs.Answers.{number_of};
ghost use Rattle.elements.specs.Elements.{sized, fitting};
ghost use Rattle.elements.specs.Elements.{summary_elements, summary_numbers, summary_over, page_elements, page_numbers, page_over};

use answers::Refusal;
use page::PageRow;
use summary::Summary;

// The elements of a summary and of a page row.
const SUMMARY_ELEMENTS: usize = 7;

const PAGE_ELEMENTS: usize = 2;

// Writes a summary.
fn put_summary(summary: Summary, out: &mut [u64])
    requires { length out.old ≡ summary_elements }
    ensures { out.new ≡ summary_numbers summary }
{
    out[0] = summary.upright as u64;
    out[1] = summary.flat as u64;
    out[2] = summary.inverted as u64;
    out[3] = summary.worst.is_some() as u64;
    out[4] = summary.worst.map_or(0, |score| score.value() as u64);
    out[5] = summary.octave.is_some() as u64;
    out[6] = summary.octave.map_or(0, u64::from);
}

// Writes a page row.
fn put_page(page: PageRow, row: &mut [f64])
    requires { length row.old ≡ page_elements }
    ensures { row.new ≡ page_numbers page }
{
    row[0] = page.before;
    row[1] = page.after;
}

// Writes a summary, where there is one; the number of the answer.
// Kept: `store_page` has its shape; one function for both would take the length, the elements' type and the writer, and be longer than the two.
pub fn store_summary(summarised: Result<Summary, Refusal>, out: &mut [u64]) -> u8
    ensures answer { result ≡ sized summary_elements (length out.old) (number_of summarised) }
    ensures elements { out.new ≡ fitting summary_elements (summary_over out.old summarised) out.old }
{
    if out.len() != SUMMARY_ELEMENTS {
        return Refusal::LENGTH.number;
    }
    match summarised {
        Ok(summary) => {
            put_summary(summary, out);
            0
        }
        Err(refusal) => refusal.number,
    }
}

// Writes the page row of a removal, where there is one; the number of the answer.
pub fn store_page(page: Result<PageRow, Refusal>, row: &mut [f64]) -> u8
    ensures answer { result ≡ sized page_elements (length row.old) (number_of page) }
    ensures elements { row.new ≡ fitting page_elements (page_over row.old page) row.old }
{
    if row.len() != PAGE_ELEMENTS {
        return Refusal::LENGTH.number;
    }
    match page {
        Ok(page) => {
            put_page(page, row);
            0
        }
        Err(refusal) => refusal.number,
    }
}
