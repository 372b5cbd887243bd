// Stock files read: questions 2 to 9 and 11 to 14, and the pairs stored (document 01, "Questions put to a call").
//   StockNumbers   a stock as it was read
//   ask_pairs      questions 9 and 11 to 14
//   read_stock     all of them, in order
ghost use Rattle.std.specs.Prelude.{◌≡◌, ◌≤◌, length};
ghost use Rattle.formats.specs.Limits.{fits_most, lines_most};
ghost use Rattle.formats.specs.Refusals.{refusal_in, value_or};
ghost use Rattle.frames.specs.Questions.{first_no};
ghost use Rattle.files.specs.StockFile.{pairs_questions};
ghost use Rattle.files.specs.Readers.{no_stock, StockRead};

use crate::look_up::LentFits;
use crate::questions::{are_named, ask_lit, pairs_rise};
use counting::Pair;
use formats::kinds::Kind;
use formats::limits::{CAMERAS_MOST, FITS_MOST};
use formats::refusals::Refusal;
use frames::ask::ask;
use frames::layout::STOCK;
use frames::numbers::number_at;
use frames::shape::{body_of, header_of};
use frames::store::store;

// A stock as it was read: its cameras, and how many fits and lit pairs stand in the slices.
// kept: beside pairing's Stock, which holds the pairs; a reader only tells how many it stored (graphs::read_graph)
#[derive(Clone, Copy)]
pub struct StockNumbers {
    pub cameras: usize,
    pub fits: usize,
    pub lit: usize,
}

// 9 and 11 to 14, of fits and lit pairs.
#[tactic(auto, using(counting::proofs::Booleans::list_all_is, matching::proofs::LookUp::all_found))]
fn ask_pairs(cameras: usize, fits: &[Pair], lit: &[Pair]) -> Result<(), Refusal>
    ensures { refusal_in result ≡ first_no (pairs_questions cameras fits.now lit.now) }
{
    ask(are_named(fits, cameras), Refusal::Names)?;
    ask(are_named(lit, cameras), Refusal::Names)?;
    ask(pairs_rise(fits), Refusal::FitsRise)?;
    ask_lit(LentFits::Pairs(fits), lit)
}

// The stock of a file, with its fits in the first slice and its lit pairs in the other. Question 8 bounds the fits; lit pairs are as many as a file of
// 60,000 bytes has lines.
#[tactic(auto, using(crate::proofs::StockFiles::header_long, crate::proofs::StockFiles::header_next))]
pub fn read_stock(f: &[u8], fits: &mut [Pair], lit: &mut [Pair]) -> Result<StockNumbers, Refusal>
    requires { (fits_most ≤ length fits.old) × (lines_most ≤ length lit.old) }
    ensures { StockRead f.now fits.old lit.old fits.new lit.new (refusal_in result) (value_or no_stock result).cameras (value_or no_stock result).fits (value_or no_stock result).lit }
{
    let next = header_of(f, STOCK)?;
    let cameras = number_at::<2>(f, 2);
    ask(cameras <= CAMERAS_MOST, Refusal::Numbers)?;
    let firsts = body_of(f, next, STOCK)?.firsts;
    ask(firsts <= FITS_MOST, Refusal::Size)?;
    let one = store(f, next, Kind::Fit, fits);
    let other = store(f, one.next, Kind::Lit, lit);
    ask_pairs(cameras, &fits[..firsts], &lit[..other.count])?;
    Ok(StockNumbers {
        cameras,
        fits: firsts,
        lit: other.count,
    })
}
