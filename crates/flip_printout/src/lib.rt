// What the program prints of a flip, as bytes: a report, or the line of a refusal.
#![tactic(auto)]

ghost use Rattle.std.specs.Prelude.{◌≤◌, ◌≡◌, length};
ghost use Rattle.flip_printout.specs.FlipPrintout.{flip_printout};
ghost use Rattle.text.specs.Texts.{text_bytes, text_of};

use layout::BLOCK_BYTES;
use report::answered;
use text::Text;

// The printout of an input: a block, then the numbers, however many.
pub fn print(input: &[u8]) -> Text
    ensures text { result ≡ text_of (flip_printout input.now) }
    ensures fits { length (flip_printout input.now) ≤ text_bytes }
{
    let size = input::block_length(input);
    let block = &input[0..size];
    let numbers = input::numbers_behind(input);
    let n = numbers.n;
    let all = numbers.all;
    let mut output = [0u8; BLOCK_BYTES];
    let given = patch::flip(block, &all[..n], &mut output);
    let Ok(()) = given else {
        return answered(answers::number(&given));
    };
    report::flipped(block, n, &output)
}
