// The budgeted call by value (document 02, L4): questions first, then the pairs that so many searches come to. It counts nothing.
//   budget_by        the call
//   write_budget     past the questions: what is found, written
//   missing_lanes    lanes at most still missing
ghost use Rattle.std.specs.Prelude.{◌≡◌, ◌-◌, ◌*◌, ◌/◌, ◌≤◌, length};
ghost use Rattle.formats.specs.Limits.{room, searches_most};
ghost use Rattle.counting.specs.Tests.{pick};
ghost use Rattle.pairing.specs.Lent.{stock_of};
ghost use Rattle.lanes.specs.BudgetCalls.{BudgetWritten, BudgetAnswered};

use crate::Searched;
use crate::calls::{ask_call, stock_in};
use counting::Pair;
use files::answers::put_budget;
use formats::limits::{CAMERAS_MOST, FITS_MOST, LINES_MOST, SEARCHES_MOST};
use formats::refusals::Refusal;
use frames::ask::ask;
use pairing::plan::{PairsFound, budget};
use pairing::stock::Stock;

// None after a search that found none, otherwise half the cameras left over.
fn missing_lanes(cameras: usize, found: PairsFound) -> usize
    requires { 2 * found.pairs ≤ cameras }
    ensures { result ≡ pick found.ending.none 0 ((cameras - 2 * found.pairs) / 2) }
{
    if found.ending.none {
        0
    } else {
        (cameras - 2 * found.pairs) / 2
    }
}

// The pairs that so many searches come to at the front of the buffer.
fn write_budget(out: &mut [u8], most: usize, stock: &Stock<'_>) -> Searched
    requires most_le_searches_most { most ≤ searches_most }
    requires room_in_bounds { room ≤ length out.old }
    ensures { BudgetWritten most (stock_of stock.now) out.old out.new result }
{
    let mut pairs = [Pair::default(); CAMERAS_MOST];
    let found = budget(most, stock, &mut pairs);
    let searches = found.ending.searches;
    let missing = missing_lanes(stock.cameras, found);
    Searched {
        size: put_budget(out, searches, missing, &pairs[..found.pairs]),
        searches,
    }
}

pub fn budget_by(file: &[u8], caller: u32, most: u32, out: &mut [u8]) -> Result<Searched, Refusal>
    ensures { BudgetAnswered caller most file.now out.old result out.new }
{
    ask_call(caller, out.len())?;
    let most = most as usize;
    ask(most <= SEARCHES_MOST, Refusal::Searches)?;
    let mut fits = [Pair::default(); FITS_MOST];
    let mut lit = [Pair::default(); LINES_MOST];
    let stock = stock_in(file, &mut fits, &mut lit)?;
    Ok(write_budget(out, most, &stock))
}
