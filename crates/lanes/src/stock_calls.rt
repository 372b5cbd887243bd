// The stock call by value (document 01, "Stocks"; document 02, L6): questions first, then a plan and the standing sheet. It counts nothing.
//   stock_by       the call
//   write_stock    past the questions: what is found, written
ghost use Rattle.std.specs.Prelude.{◌≤◌, length};
ghost use Rattle.formats.specs.Limits.{room};
ghost use Rattle.pairing.specs.Lent.{stock_of};
ghost use Rattle.lanes.specs.StockCalls.{StockWritten, StockAnswered};

use crate::calls::{ask_call, stock_in};
use crate::{Answer, Outcome};
use counting::Pair;
use files::answers::put_plan_and_sheet;
use formats::limits::{CAMERAS_MOST, FITS_MOST, LINES_MOST};
use formats::refusals::Refusal;
use pairing::plan::plan;
use pairing::stock::Stock;

// A plan and the standing sheet of the stock at the front of the buffer.
fn write_stock(out: &mut [u8], stock: &Stock<'_>) -> Answer
    requires { room ≤ length out.old }
    ensures { StockWritten (stock_of stock.now) out.old out.new result }
{
    let mut pairs = [Pair::default(); CAMERAS_MOST];
    let mut table = [0u8; CAMERAS_MOST];
    let marks = &mut table[..stock.cameras];
    let count = plan(stock, &mut pairs, marks);
    Answer {
        size: put_plan_and_sheet(out, &pairs[..count], marks),
        outcome: Outcome::Stock,
    }
}

// kept: what is read stands in these arrays, so they stand where it is used, here, in budget_by and in kept::bring; a struct of both is longer than these lines
pub fn stock_by(file: &[u8], caller: u32, out: &mut [u8]) -> Result<Answer, Refusal>
    ensures { StockAnswered caller file.now out.old result out.new }
{
    ask_call(caller, out.len())?;
    let mut fits = [Pair::default(); FITS_MOST];
    let mut lit = [Pair::default(); LINES_MOST];
    let stock = stock_in(file, &mut fits, &mut lit)?;
    Ok(write_stock(out, &stock))
}
