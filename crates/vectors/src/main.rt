// Runs the stored cases through the public calls and prints how many of each call and answer agree.
#![tactic(auto)]

ghost use Rattle.std.specs.Prelude.{◌≡◌};
ghost use Rattle.vectors.specs.Counting.{Counted, record_counted};

mod printing;

use counts::Counts;
use records::{ANSWER_AT, CALL_AT, RECORD_BYTES};
use std::fs::File;
use std::io;
use std::io::Read;

// The most records that are read: a proved loop has to end, and nothing says that a file does.
const MOST_CASES: usize = 65536;

// One record more: its call is run, and counts as agreeing if it gives what is stored.
fn with_record(counts: Counts, stored: &[u8; RECORD_BYTES]) -> Counts
    ensures { result ≡ record_counted counts stored.now }
{
    let agreed = agreement::agrees(stored);
    counts::with_case(counts, stored[CALL_AT], stored[ANSWER_AT], agreed)
}

// Every record of the file, counted one after another.
fn run_all<R: Read>(file: &mut R) -> Counts
    ensures { Counted result }
{
    let mut counts = counts::no_cases();
    let mut stored = [0u8; RECORD_BYTES];
    for _ in 0..MOST_CASES {
        if streams::read_full(file, &mut stored) < RECORD_BYTES {
            break;
        }
        counts = with_record(counts, &stored);
    }
    counts
}

fn main(rt: HostRuntime) -> io::Result<()> {
    match File::open(&rt, "cases") {
        Ok(mut file) => printing::print(&rt, &run_all(&mut file)),
        Err(error) => eprintln!(rt; "cases: {error}"),
    }
}
