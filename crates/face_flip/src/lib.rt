// The 2-3 flip of a face in a block that opens: a face in two rows becomes an edge in three.
#![tactic(auto)]

ghost use Rattle.std.specs.Prelude.{[], ◌∷◌, ◌≡◌, length};
ghost use Rattle.layout.specs.Layout.{block_bytes};
ghost use Rattle.answers.specs.Answers.{answer_of};
ghost use Rattle.block.specs.Opening.{open_answer};
ghost use Rattle.calls.specs.Flipping.{flip_answer, flip_bytes};
ghost use Rattle.face_flip.specs.Steps.{RightFace};

use answers::Refusal;
use face::{face_wrong, least, put_three, share};
use layout::{BLOCK_BYTES, MAX_ROWS};
use rows::Regions;

// The flip of a face with right numbers: writes the block afterwards, or refuses and leaves every output byte.
#[inline(never)]
fn flip_right(block: &[u8], x: u8, y: u8, z: u8, out: &mut [u8]) -> Result<(), Refusal>
    requires { RightFace block.now out.old x y z }
    ensures answer { result ≡ answer_of (flip_answer block.now out.old (x ∷ y ∷ z ∷ [])) }
    ensures bytes { out.new ≡ flip_bytes block.now out.old (x ∷ y ∷ z ∷ []) }
{
    let n = block[2] as usize;
    let Some(found) = share(block, n, x, y, z) else {
        return Err(Refusal::NOT_HELD);
    };
    if found.n == 1 {
        return Err(Refusal::NOT_CLOSED);
    }
    if found.a == found.b {
        return Err(Refusal::ONE_APEX);
    }
    let regions = found.regions;
    let Regions::One(region) = regions else {
        return Err(Refusal::TWO_REGIONS);
    };
    if dressing::mark_goes(block, n, x, y, z) {
        return Err(Refusal::MARK_GOES);
    }
    let mut after = [0u8; BLOCK_BYTES];
    output::begin(block, &mut after);
    let kept = output::keep_others(block, n, x, y, z, &mut after);
    if MAX_ROWS < kept + 3 {
        return Err(Refusal::NO_ROOM);
    }
    put_three(&mut after, kept, found, region, least(x, y, z));
    dressing::dress(block, n, x, y, z, &mut after, kept, kept + 3);
    if !keys::keeps_mesh_rule(&after, kept + 3, block[1] as usize) {
        return Err(Refusal::BLOCKED);
    }
    output::finish(&mut after, kept + 3);
    layout::copy(&after, out);
    Ok(())
}

// The flip of the face x, y, z, given in any order: writes the block afterwards, or refuses and leaves every output byte.
pub fn flip_face(block: &[u8], x: usize, y: usize, z: usize, out: &mut [u8]) -> Result<(), Refusal>
    requires { (open_answer block.now ≡ 0) × (length out.old ≡ block_bytes) }
    ensures answer { result ≡ answer_of (flip_answer block.now out.old (x ∷ y ∷ z ∷ [])) }
    ensures bytes { out.new ≡ flip_bytes block.now out.old (x ∷ y ∷ z ∷ []) }
{
    if face_wrong(block[1] as usize, x, y, z) {
        return Err(Refusal::BAD_NUMBER);
    }
    flip_right(block, x as u8, y as u8, z as u8, out)
}
