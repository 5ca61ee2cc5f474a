// The flip, from all its inputs: two numbers are the ends of an edge, three are a face.
#![tactic(auto)]

ghost use Rattle.std.specs.Prelude.{◌≡◌};
ghost use Rattle.answers.specs.Answers.{answer_of};
ghost use Rattle.calls.specs.Flipping.{flip_answer, flip_bytes};

use answers::Refusal;
use edge::blocks_answer;
use edge_flip::flip_edge;
use face_flip::flip_face;

// Flips three rows round an edge to two, or two rows at a face to three; or refuses and leaves every output byte.
pub fn flip(block: &[u8], numbers: &[usize], out: &mut [u8]) -> Result<(), Refusal>
    ensures answer { result ≡ answer_of (flip_answer block.now out.old numbers.now) }
    ensures bytes { out.new ≡ flip_bytes block.now out.old numbers.now }
{
    blocks_answer(block, out)?;
    match numbers {
        [e, f] => flip_edge(block, *e, *f, out),
        [x, y, z] => flip_face(block, *x, *y, *z, out),
        _ => Err(Refusal::NOT_TWO_OR_THREE),
    }
}
