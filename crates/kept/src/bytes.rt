// Bytes of the block.
//   put_bytes    a run of bytes put at a place
ghost use Rattle.std.specs.Prelude.{◌≡◌, ◌+◌, ◌≤◌, length};
ghost use Rattle.std.proofs.lemmas.List.Edits.{sets};
ghost use Rattle.kept.specs.Block.{block_size};

use crate::STATE;

#[tactic(auto, using(counting::proofs::SliceVecs::part_put))]
pub fn put_bytes(state: &mut [u8; STATE], at: usize, bytes: &[u8])
    requires { at + length bytes.now ≤ block_size }
    ensures { state.new ≡ sets state.old at bytes.now }
{
    state[at..at + bytes.len()].copy_from_slice(bytes);
}
