// Pairings kept under names of one byte, for one stock (document 02, L8). The state is a block of bytes that the caller lends to each call; no call copies
// it. A refused call changes no byte of it. The calls name no caller and enter no tally.
//   STATE        the state's bytes
//   power_on     the state before the first stock
//   bring        a stock, which becomes the present one; no name is kept then
//   keep         the pairs of a plan file, kept under a name
//   come_back    the pairs last kept under a name, in plan frames
//   forget       a name and its pairs
//   bytes        bytes put into the block
//   columns      pairs as they stand in it
//   numbers      its numbers, and its fits
//   slot         one of its slots
//   slots        its slots: found, closed up and filled
#![tactic(auto)]

mod bytes;
mod columns;
mod numbers;
mod slot;
mod slots;

ghost use Rattle.std.specs.Prelude.{◌≡◌, ◌≤◌, length, replicate};
ghost use Rattle.formats.specs.Limits.{room};
ghost use Rattle.formats.specs.Refusals.{refusal_in, value_or};
ghost use Rattle.lanes.specs.Entry.{told_of};
ghost use Rattle.kept.specs.State.{bring, keep_as, come_back, forget};
ghost use Rattle.kept.specs.Block.{block_size, Owes, Returns};

use counting::Pair;
use files::plans::read_plan;
use files::stocks::read_stock;
use formats::limits::{FITS_MOST, LINES_MOST, PLAN_PAIRS_MOST, ROOM};
use formats::refusals::Refusal;
use frames::ask::ask;
use numbers::{cameras_in, lend_fits, put_kept, put_stock};
use slots::{close_up, find, store, write_pairs};

pub const STATE: usize = 8828;

pub fn power_on(state: &mut [u8; STATE])
    ensures { state.new ≡ replicate block_size 0 }
{
    *state = [0; STATE];
}

// The stock is read beside the state and put there once it is accepted, since a refused one leaves the present stock.
pub fn bring(state: &mut [u8; STATE], file: &[u8]) -> Result<(), Refusal>
    ensures { Owes state.old (bring file.now) (refusal_in result) state.new }
{
    // kept: the arrays that the stock calls make too, which say why (lanes::stock_calls)
    let mut fits = [Pair::default(); FITS_MOST];
    let mut lit = [Pair::default(); LINES_MOST];
    let stock = read_stock(file, &mut fits, &mut lit)?;
    put_stock(state, stock.cameras, &fits[..stock.fits]);
    Ok(())
}

pub fn keep(state: &mut [u8; STATE], name: u8, file: &[u8]) -> Result<(), Refusal>
    ensures { Owes state.old (keep_as name file.now) (refusal_in result) state.new }
{
    let mut pairs = [Pair::default(); PLAN_PAIRS_MOST];
    let count = read_plan(file, cameras_in(state), lend_fits(state), &mut pairs)?;
    store(state, name, &pairs[..count])
}

pub fn come_back(state: &[u8; STATE], name: u8, out: &mut [u8]) -> Result<usize, Refusal>
    ensures returns { Returns state.now (come_back name (length out.old)) out.old (told_of result) out.new }
    ensures small { value_or 0 result ≤ room }
{
    // kept: the room asked for as in lanes::calls::ask_call, which asks for a caller first; these calls name none
    ask(ROOM <= out.len(), Refusal::Room)?;
    let slot = find(state, name).ok_or(Refusal::NotKept)?;
    Ok(write_pairs(state, slot, out))
}

pub fn forget(state: &mut [u8; STATE], name: u8) -> Result<(), Refusal>
    ensures { Owes state.old (forget name) (refusal_in result) state.new }
{
    find(state, name).ok_or(Refusal::NotKept)?;
    let left = close_up(state, name);
    put_kept(state, left);
    Ok(())
}
