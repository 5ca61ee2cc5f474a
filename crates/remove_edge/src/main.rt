// Removes an edge: a block and the two ends on standard input, the printout on standard output.
#![tactic(auto)]

// One byte more than an input has, so that a longer one is seen.
const MOST_BYTES: usize = 515;

// Kept: the four lines of `flip_rows` but for what prints; one function for both would take that with a `requires` on what it answers, and is longer.
// A write that fails has nowhere to be told: the exit status is 0 and nothing goes to standard error.
fn main(rt: HostRuntime) {
    let mut input = [0u8; MOST_BYTES];
    let n = streams::read_full(&mut rt.stdin(), &mut input);
    let text = printout::print(&input[..n]);
    streams::write_all(&mut rt.stdout(), &text.bytes[..text.n]);
}
