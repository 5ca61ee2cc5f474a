// What the program prints: a line for each call and answer of which there are cases, and the total.
use counts::{ANSWERS, Counts};
use records::Call;
use std::io;

// A line such as `remove 16: 21 of 21` for each call and answer of which there are cases.
fn print_cells(rt: &impl Print, counts: &Counts) -> io::Result<()> {
    for call in Call::ALL {
        for answer in 0..ANSWERS {
            let cases = counts::cases_of(counts, call, answer);
            if cases.all != 0 {
                println!(rt; "{call} {answer}: {} of {}", cases.agreeing, cases.all)?;
            }
        }
    }
    Ok(())
}

// The lines of all cells, then the total.
pub fn print(rt: &impl Print, counts: &Counts) -> io::Result<()> {
    print_cells(rt, counts)?;
    let total = counts::total(counts);
    println!(rt; "{} cases, {} agree", total.all, total.agreeing)
}
