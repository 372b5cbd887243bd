// What the calls share (document 01, "Questions put to a call"; document 02, L7).
//   ask_call    the questions before a file's: 17, then 1
//   graph_in    the graph that a file holds, past its questions
//   stock_in    the stock that a file holds
ghost use Rattle.std.specs.Prelude.{◌≤◌, length};
ghost use Rattle.formats.specs.Limits.{arcs_most, fits_most, lines_most};
ghost use Rattle.lanes.specs.Calls.{CallAsked};
ghost use Rattle.lanes.specs.Taken.{GraphTaken, StockTaken};

use arcs::graph::Graph;
use counting::Pair;
use files::graphs::read_graph;
use files::stocks::read_stock;
use formats::limits::{CALLERS, ROOM};
use formats::refusals::Refusal;
use frames::ask::ask;
use pairing::stock::Stock;
use skew::Arc;

// kept: a caller is a number, as the calls take any; past question 17 it is nothing but a place in the tally, and no call asks which of the four it is
// kept: from here on that the buffer has room is a clause of what writes and prints: a type for it would be made anew in each from the slice that is lent,
// and what is promised is of that slice
// kept: `as usize` of a u32, here, in budget_by and in counted, since there is no From
pub fn ask_call(caller: u32, size: usize) -> Result<(), Refusal>
    ensures { CallAsked caller size result }
{
    ask((caller as usize) < CALLERS, Refusal::Caller)?;
    ask(ROOM <= size, Refusal::Room)
}

// Its arcs go to the front of the slice.
pub fn graph_in<'a>(file: &[u8], arcs: &'a mut [Arc]) -> Result<Graph<'a>, Refusal>
    requires { arcs_most ≤ length arcs.old }
    ensures { GraphTaken file.now result }
{
    let numbers = read_graph(file, arcs)?;
    Ok(Graph {
        pairs: numbers.pairs,
        source: numbers.source,
        arcs: &arcs[..numbers.arcs],
    })
}

// Its fits go to the front of the first slice, its lit pairs to that of the second.
pub fn stock_in<'a>(
    file: &[u8],
    fits: &'a mut [Pair],
    lit: &'a mut [Pair],
) -> Result<Stock<'a>, Refusal>
    requires { (fits_most ≤ length fits.old) × (lines_most ≤ length lit.old) }
    ensures { StockTaken file.now result }
{
    let numbers = read_stock(file, fits, lit)?;
    Ok(Stock {
        cameras: numbers.cameras,
        fits: &fits[..numbers.fits],
        lit: &lit[..numbers.lit],
    })
}
