// One slot of the block: a name, a number of pairs, and their first and second cameras (specs/Block).
//   SLOT     a slot's bytes
//   PAIRS    where the cameras of its pairs begin in it
//   Slot     a slot by its number: where it begins, and where its pairs stand
ghost use Rattle.std.specs.Prelude.{◌≡◌, ◌<◌, ◌+◌};
ghost use Rattle.formats.specs.Limits.{names_most, pairs_most};
ghost use Rattle.kept.specs.Block.{pairs_at, slot_at};

use crate::columns::Columns;
use crate::numbers::SLOTS;
use formats::limits::PAIRS_MOST;

pub const SLOT: usize = 128;

const PAIRS: usize = 2;

#[derive(Clone, Copy)]
pub struct Slot {
    pub number: usize,
    ghost known: { number < names_most },
}

impl Slot {
    pub fn at(self) -> usize
        ensures { result ≡ slot_at self.number }
    {
        SLOTS + SLOT * self.number
    }

    pub fn pairs(self) -> Columns
        ensures at { result.at ≡ slot_at self.number + pairs_at }
        ensures most { result.most ≡ pairs_most }
    {
        Columns {
            at: self.at() + PAIRS,
            most: PAIRS_MOST,
        }
    }
}
