// What the programs take: a block, then numbers of a byte each; a removal's are the two ends.
#![tactic(auto)]

ghost use Rattle.std.specs.Prelude.{◌+◌, min, ◌≡◌, eqb, length};
ghost use Rattle.layout.specs.Layout.{block_bytes, byte};
ghost use Rattle.input.specs.Steps.{numbers_of};

use layout::BLOCK_BYTES;

const INPUT_BYTES: usize = BLOCK_BYTES + 2;

// Four numbers are too many for any flip, so there is no need of more.
const MOST_NUMBERS: usize = 4;

// The first n of them; those behind are zero.
// Kept: no heap, and no slice of the input, whose numbers are bytes: `patch::flip` takes a slice of usize, so they need room of their own.
#[derive(Clone, Copy)]
pub struct Numbers {
    pub n: usize,
    pub all: [usize; MOST_NUMBERS],
}

// Whether an input has the bytes of a block and of the two ends.
pub fn right_length(input: &[u8]) -> bool
    ensures { result ≡ eqb (length input.now) (block_bytes + 2) }
{
    input.len() == INPUT_BYTES
}

// How many bytes of an input are the block's: all that a block has, or as many as there are.
pub fn block_length(input: &[u8]) -> usize
    ensures { result ≡ min block_bytes (length input.now) }
{
    BLOCK_BYTES.min(input.len())
}

// A byte of an input, or 0 where it has none.
fn number_at(input: &[u8], i: usize) -> usize
    ensures { result ≡ byte input.now i }
{
    input.get(i).map_or(0, |byte| *byte as usize)
}

// The numbers behind the block.
pub fn numbers_behind(input: &[u8]) -> Numbers
    ensures { result ≡ numbers_of input.now }
{
    let n = MOST_NUMBERS.min(input.len() - block_length(input));
    let first = number_at(input, BLOCK_BYTES);
    let second = number_at(input, BLOCK_BYTES + 1);
    let third = number_at(input, BLOCK_BYTES + 2);
    let fourth = number_at(input, BLOCK_BYTES + 3);
    Numbers {
        n,
        all: [first, second, third, fourth],
    }
}
