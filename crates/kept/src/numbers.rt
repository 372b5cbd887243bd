// The numbers of the block, and the present stock in it (specs/Block).
//   KEPT                        where the number of names stands
//   FITS, SLOTS                 where the fits stand, and where the slots begin
//   cameras_in, kept_in         the numbers; one above what there is room for stands for that
//   lend_fits                   the fits, where they stand; how many they are is such a number too
//   put_kept, put_stock         another number of names; another stock, and no name
ghost use Rattle.std.specs.Prelude.{◌≡◌, ◌≤◌, length};
ghost use Rattle.formats.specs.Limits.{cameras_most, fits_most, names_most};
ghost use Rattle.files.specs.LentFits.{fits_of};
ghost use Rattle.kept.specs.Block.{cameras_in, kept_in, state_of};
ghost use Rattle.kept.specs.Slots.{StockPut, KeptPut};

use crate::STATE;
use crate::bytes::put_bytes;
use crate::columns::Columns;
use counting::Pair;
use files::look_up::LentFits;
use formats::limits::{CAMERAS_MOST, FITS_MOST, NAMES_MOST};

const KEPT: usize = 3;

const FITS: Columns = Columns {
    at: 4,
    most: FITS_MOST,
};

pub const SLOTS: usize = FITS.at + 2 * FITS.most;

pub fn cameras_in(state: &[u8; STATE]) -> usize
    ensures { result ≡ cameras_in state.now }
{
    usize::from(state[0]).min(CAMERAS_MOST)
}

// kept: a function beside cameras_in, since one of a place and a limit is longer than the one expression of each, and asks for a place in the block
pub fn kept_in(state: &[u8; STATE]) -> usize
    ensures { result ≡ kept_in state.now }
{
    usize::from(state[KEPT]).min(NAMES_MOST)
}

pub fn lend_fits(state: &[u8; STATE]) -> LentFits<'_>
    ensures { fits_of result ≡ (state_of state.now).fits }
{
    let count = usize::from(u16::from_be_bytes([state[1], state[2]])).min(FITS_MOST);
    let (firsts, seconds) = FITS.parts(state, count);
    LentFits::Columns(firsts, seconds)
}

pub fn put_kept(state: &mut [u8; STATE], kept: usize)
    requires { kept ≤ names_most }
    ensures { KeptPut state.old kept state.new }
{
    // kept: `as` to fewer bits, in this file and in slots.rt, since there is no From to fewer, and try_from asks anew what is proved
    state[KEPT] = kept as u8;
}

// kept: cameras and fits side by side, here and as read_plan takes them, since a stock without lit pairs is no Stock
#[tactic(auto, using(crate::proofs::Fronts::stock_put))]
pub fn put_stock(state: &mut [u8; STATE], cameras: usize, fits: &[Pair])
    requires cameras_le_cameras_most { cameras ≤ cameras_most }
    requires fits_len_bound { length fits.now ≤ fits_most }
    ensures { StockPut cameras fits.now state.new }
{
    let [high, low] = (fits.len() as u16).to_be_bytes();
    put_bytes(state, 0, &[cameras as u8, high, low, 0]);
    FITS.put(state, fits);
}
