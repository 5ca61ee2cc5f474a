// How many cases there are of each call and answer, and how many agree.
#![tactic(auto)]

ghost use Rattle.std.specs.Prelude.{◌≡◌, ◌<◌};
ghost use Rattle.counts.specs.CaseCounts.{answers, no_cases, with_one, cases_of, total_of, counted};

use records::Call;

// open, seal, summary, remove, flip.
const CALLS: usize = 5;

// 0 to 23.
pub const ANSWERS: usize = 24;

pub const CELLS: usize = CALLS * ANSWERS;

// How many cases there are, and how many of them agree.
#[derive(Clone, Copy)]
pub struct Cases {
    pub all: u64,
    pub agreeing: u64,
}

// One cell for each call and answer.
#[derive(Clone, Copy)]
pub struct Counts {
    pub cells: [Cases; CELLS],
}

pub fn no_cases() -> Counts
    ensures { result ≡ no_cases }
{
    Counts {
        cells: [Cases {
            all: 0,
            agreeing: 0,
        }; CELLS],
    }
}

// One case more, which agrees or does not.
fn with_one(cases: Cases, agrees: bool) -> Cases
    ensures { result ≡ with_one cases agrees }
{
    let mut more = cases;
    more.all = more.all.wrapping_add(1);
    if agrees {
        more.agreeing = more.agreeing.wrapping_add(1);
    }
    more
}

// One case more, and one that agrees if it does; a record of no call or no answer is none.
pub fn with_case(counts: Counts, call: u8, answer: u8, agrees: bool) -> Counts
    ensures { result ≡ counted counts call answer agrees }
{
    let row = call as usize;
    let column = answer as usize;
    let mut next = counts;
    if row < CALLS && column < ANSWERS {
        let at = row * ANSWERS + column;
        next.cells[at] = with_one(next.cells[at], agrees);
    }
    next
}

// All cells together.
pub fn total(counts: &Counts) -> Cases
    ensures { result ≡ total_of counts.now }
{
    let mut sum = Cases {
        all: 0,
        agreeing: 0,
    };
    for cases in &counts.cells {
        sum.all = sum.all.wrapping_add(cases.all);
        sum.agreeing = sum.agreeing.wrapping_add(cases.agreeing);
    }
    sum
}

// What is counted of one call and answer.
pub fn cases_of(counts: &Counts, call: Call, answer: usize) -> Cases
    requires { answer < answers }
    ensures { result ≡ cases_of counts.now call answer }
{
    counts.cells[call as usize * ANSWERS + answer]
}
