// What the program prints, as bytes: a report of a removal, or the line of a refusal.
#![tactic(auto)]

ghost use Rattle.std.specs.Prelude.{◌≤◌, ◌≡◌, length};
ghost use Rattle.printout.specs.Printout.{printout};
ghost use Rattle.text.specs.Texts.{text_bytes, text_of};

use answers::Refusal;
use layout::BLOCK_BYTES;
use report::answered;
use text::Text;

// The printout of an input: a block, then the two ends.
pub fn print(input: &[u8]) -> Text
    ensures text { result ≡ text_of (printout input.now) }
    ensures fits { length (printout input.now) ≤ text_bytes }
{
    if !input::right_length(input) {
        return answered(Refusal::LENGTH.number);
    }
    let e = input[BLOCK_BYTES] as usize;
    let f = input[BLOCK_BYTES + 1] as usize;
    let block = &input[0..BLOCK_BYTES];
    let mut output = [0u8; BLOCK_BYTES];
    let given = patch::remove(block, e, f, &mut output);
    let Ok(removed) = given else {
        return answered(answers::number(&given));
    };
    report::removed(block, removed.ring, &output)
}
