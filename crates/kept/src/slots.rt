// The slots of the block: eight, found by their names, closed up and filled (slot.rt has one of them).
//   find                                 the slot that was kept last under a name
//   move_slot, pass_slot, close_up       slots of a name dropped, the others closed up
//   put_pairs                            a slot filled
//   store                                pairs kept under a name
//   write_pairs                          a slot's pairs written as a plan
ghost use Rattle.std.specs.Prelude.{◌≡◌, ◌≤◌, ◌<◌, length};
ghost use Rattle.formats.specs.Limits.{names_most, pairs_most, room};
ghost use Rattle.formats.specs.Refusals.{refusal_in};
ghost use Rattle.files.specs.Answers.{WrittenFirst};
ghost use Rattle.files.specs.StockFile.{plan_text};
ghost use Rattle.kept.specs.Block.{named_in};
ghost use Rattle.kept.specs.Slots.{Moved, SlotPassed, ClosedUp, PairsPut, NameFound, Stored};

use crate::STATE;
use crate::bytes::put_bytes;
use crate::numbers::{kept_in, put_kept};
use crate::slot::{SLOT, Slot};
use counting::Pair;
use files::answers::put_plan_columns;
use formats::limits::{NAMES_MOST, PAIRS_MOST};
use formats::refusals::Refusal;
use frames::ask::ask;

pub fn find(state: &[u8; STATE], name: u8) -> Option<Slot>
    ensures { NameFound state.now name result }
{
    (0..kept_in(state))
        .rev()
        .map(
            |number|
                requires { number < names_most }
            { Slot { number } },
        )
        .find(|slot| state[slot.at()] == name)
}

fn move_slot(state: &mut [u8; STATE], from: Slot, to: Slot)
    ensures { Moved state.old from.number to.number state.new }
{
    let at = from.at();
    // kept: through a copy; forgetting the oldest of eight names takes 199 instructions (docs/ARCHITECTURE.md), with the library's copy_within 2,678
    let mut slot = [0u8; SLOT];
    slot.copy_from_slice(&state[at..at + SLOT]);
    put_bytes(state, to.at(), &slot);
}

// A slot passed: dropped where it has the name, and otherwise moved to slot `to`. The number of the next slot to move to.
fn pass_slot(state: &mut [u8; STATE], slot: Slot, to: Slot, name: u8) -> usize
    requires { to.number ≤ slot.number }
    ensures { SlotPassed state.old slot.number to.number name state.new result }
{
    if state[slot.at()] == name {
        return to.number;
    }
    move_slot(state, slot, to);
    to.number + 1
}

// The slots that have the name are dropped, and the others closed up: how many are left.
// kept: that number goes from turn to turn, since it is where the next slot goes; two slots of one block are not lent by an iterator
pub fn close_up(state: &mut [u8; STATE], name: u8) -> usize
    ensures { ClosedUp state.old name state.new result }
{
    let mut left = 0;
    // invariant: specs/Slots Closing; falls: slots left
    for number in 0..kept_in(state) {
        left = pass_slot(state, Slot { number }, Slot { number: left }, name);
    }
    left
}

// A name and its pairs put into a slot.
fn put_pairs(state: &mut [u8; STATE], to: Slot, name: u8, pairs: &[Pair])
    requires { length pairs.now ≤ pairs_most }
    ensures { PairsPut state.old to.number name pairs.now state.new }
{
    put_bytes(state, to.at(), &[name, pairs.len() as u8]);
    to.pairs().put(state, pairs);
}

// Pairs kept under a name, in the place of those that it had; refused where eight other names are kept.
pub fn store(state: &mut [u8; STATE], name: u8, pairs: &[Pair]) -> Result<(), Refusal>
    requires { length pairs.now ≤ pairs_most }
    ensures { Stored state.old name pairs.now (refusal_in result) state.new }
{
    ask(
        find(state, name).is_some() || kept_in(state) < NAMES_MOST,
        Refusal::Full,
    )?;
    let to = Slot {
        number: close_up(state, name),
    };
    put_pairs(state, to, name, pairs);
    put_kept(state, to.number + 1);
    Ok(())
}

// The pairs of a slot, in plan frames at the front of the buffer: their bytes.
pub fn write_pairs(state: &[u8; STATE], slot: Slot, out: &mut [u8]) -> usize
    requires { room ≤ length out.old }
    ensures { WrittenFirst (plan_text (named_in slot.number state.now).pairs) out.old out.new result × (result ≤ room) }
{
    let most = usize::from(state[slot.at() + 1]).min(PAIRS_MOST);
    let (firsts, seconds) = slot.pairs().parts(state, most);
    put_plan_columns(out, firsts, seconds)
}
