// Pairs of cameras as they stand in the block: their first cameras in a column of bytes, and their second ones in another behind it (specs/Columns).
//   Columns         where two columns begin, and how many bytes each has: their parts, and pairs put into them
ghost use Rattle.std.specs.Prelude.{◌≡◌, ◌+◌, ◌*◌, ◌≤◌, length};
ghost use Rattle.counting.specs.Pairs.{zip_pairs};
ghost use Rattle.kept.specs.Block.{block_size};
ghost use Rattle.kept.specs.Columns.{column_pairs, ColumnsPut};

use crate::STATE;
use counting::Pair;

#[derive(Clone, Copy)]
pub struct Columns {
    pub at: usize,
    pub most: usize,
    ghost inside: { at + 2 * most ≤ block_size },
}

impl Columns {
    // The first so many bytes of both columns: the first numbers of so many pairs, and the second ones.
    #[tactic(auto, using(crate::proofs::PairColumns::column_parts))]
    pub fn parts(self, state: &[u8; STATE], count: usize) -> (&[u8], &[u8])
        requires { count ≤ self.most }
        ensures pairs { zip_pairs result.0.now result.1.now ≡ column_pairs self.at self.most count state.now }
        ensures firsts { length result.0.now ≡ count }
        ensures seconds { length result.1.now ≡ count }
    {
        let others = self.at + self.most;
        (
            &state[self.at..self.at + count],
            &state[others..others + count],
        )
    }

    pub fn put(self, state: &mut [u8; STATE], pairs: &[Pair])
        requires { length pairs.now ≤ self.most }
        ensures { ColumnsPut state.old self.at self.most pairs.now state.new }
    {
        // kept: by the index: a slot's 63 pairs take 241 instructions, by a loop for each column 331; behind a zip of two iter_mut a proof knows nothing
        // invariant: proofs/PairColumns Putting; falls: pairs left
        for (i, pair) in pairs.iter().enumerate() {
            state[self.at + i] = pair.first;
            state[self.at + self.most + i] = pair.second;
        }
    }
}
