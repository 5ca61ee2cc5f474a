// Flips rows: a block and the numbers of an edge or a face on standard input, the printout on standard output.
#![tactic(auto)]

// A block and four numbers: what stands behind the fourth changes nothing.
const MOST_BYTES: usize = 516;

// Kept: the four lines of `remove_edge` but for what prints; one function for both would take that with a `requires` on what it answers, and is longer.
// A write that fails has nowhere to be told: the exit status is 0 and nothing goes to standard error.
fn main(rt: HostRuntime) {
    let mut input = [0u8; MOST_BYTES];
    let n = streams::read_full(&mut rt.stdin(), &mut input);
    let text = flip_printout::print(&input[..n]);
    streams::write_all(&mut rt.stdout(), &text.bytes[..text.n]);
}
