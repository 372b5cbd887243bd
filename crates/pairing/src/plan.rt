// Largest pairings (document 01, "Stocks"): from the lit pairs, search and augment until there is no path, or as often as a budget of searches allows
// (document 02, L4). Why the searches until there is no path are enough:
// 1. A regular path of the doubled table from the source to its mate is an augmenting path, a run of rotations that lights two cameras more and unlights
// none. So every lit camera stays lit, and nothing changes if nothing is gained. (matching/proofs/Augmentation wanted_augments, Plans augmented_budgeted)
// 2. Where there is no path, the reached nodes give the Gallai-Edmonds decomposition. Outer cameras, with 2k reached, fall into groups of odd size; whatever
// a camera of a group fits outside it is inner, with 2k+1 reached alone. (matching/specs/Certificate, proofs/Groups, Decomposition certificate)
// 3. That is the dual solution, the bound of Tutte and Berge: any pairing leaves over a camera of each group but for at most one group for each inner
// camera. The row leaves over exactly so many, so no pairing has more pairs. (matching/proofs/Certificates representatives_count, largest)
// 4. A path to 2k gives a pairing as large that leaves camera k over, and by the same bound a largest pairing leaves over outer cameras only. So outer is
// mark 00, inner 01, the rest 02, whichever pairs are lit; but a camera without a fit, which is outer, has 03, and the fits tell it.
// (matching/proofs/Augmentation reachable_left, Certificates left_is_outer, Largest no_path_marks)
// 5. The code's part: one search in proofs/OneSearch, the loop of searches in proofs/SearchRuns.
//   Ending, PairsFound   how searches ended; how many pairs there are then, with that
//   improve              one search
//   run_searches         one after the other, up to so many, from the row of the lit pairs
//   list_pairs           the pairs of the row that they come to
//   budget               those pairs, for a budget
//   plan                 a plan and every camera's mark, with searches enough
ghost use Rattle.std.specs.Prelude.{◌≡◌, ◌+◌, ◌*◌, ◌≤◌, length};
ghost use Rattle.formats.specs.Limits.{cameras_most};
ghost use Rattle.counting.specs.Tests.{below};
ghost use Rattle.matching.specs.Matching.{pairs_in_order};
ghost use Rattle.matching.specs.Row.{partner_in};
ghost use Rattle.pairing.specs.Table.{PairedFits, Put};
ghost use Rattle.pairing.specs.Lent.{stock_of};
ghost use Rattle.pairing.specs.Plan.{Stepped, Ran, BudgetListed, PlanMarked};

use crate::marks::marks_of;
use crate::row::{augment, pairs_of, row_of};
use crate::stock::Stock;
use crate::table::fill_table;
use arcs::graph::Graph;
use counting::Pair;
use counting::slice_vec::SliceVec;
use formats::limits::{ARCS_MOST, CAMERAS_MOST, NODES_MOST, SEARCHES_MOST};
use search::answer::path_or_reached;
use skew::Arc;

// How searches ended: how many were run, and whether the last found none.
// kept: a flag beside a count, since both are told in either case
#[derive(Clone, Copy)]
pub struct Ending {
    pub searches: usize,
    pub none: bool,
}

// How many pairs there are then, and how the searches ended.
#[derive(Clone, Copy)]
pub struct PairsFound {
    pub pairs: usize,
    pub ending: Ending,
}

// One search: one pair more along the path found, or the table of reached nodes.
// kept: a row beside its stock, which tells its length; with a struct of both each function that lights a pair would have to say that the stock is as it was
// kept: how long the lent tables are is a clause, here and at what calls this; a type for them would be made at each call from the slices that are lent
fn improve(row: &mut [u8], stock: &Stock<'_>, reached: &mut [bool]) -> bool
    requires paired_fits { PairedFits row.old (stock_of stock.now) }
    requires reached_len { length reached.old ≡ 2 * (length row.old + 1) }
    ensures { Stepped stock.now.fits.now row.old row.new reached.new result }
{
    let mut places = [Arc::default(); ARCS_MOST];
    let mut path = [0; NODES_MOST];
    let n = row.len();
    let mut arcs = SliceVec::new(&mut places);
    fill_table(&mut arcs, row, stock);
    let graph = Graph {
        pairs: n + 1,
        source: 2 * n,
        arcs: arcs.as_slice(),
    };
    match path_or_reached(&graph, reached, &mut path) {
        Some(end) => {
            augment(row, graph.arcs, &path[1..end]);
            true
        }
        None => false,
    }
}

// From the row of the lit pairs one search after the other: they end with one that found none, or when `most` have been run.
fn run_searches(most: usize, stock: &Stock<'_>, row: &mut [u8], reached: &mut [bool]) -> Ending
    requires row_len { length row.old ≡ stock.now.cameras }
    requires reached_len { length reached.old ≡ 2 * (length row.old + 1) }
    ensures { Ran most (stock_of stock.now) row.new reached.new result }
{
    row_of(row, stock);
    let mut searches = 0;
    // invariant: specs/Plan Improving; as many searches are counted as gave a pair; falls: searches left
    for found in 0..most {
        searches = found + 1; // raised before the search
        if !improve(row, stock, reached) {
            return Ending {
                searches,
                none: true,
            };
        }
    }
    Ending {
        searches,
        none: false,
    }
}

// The pairs of a row in order at the front of `pairs`: how many.
fn list_pairs(row: &[u8], pairs: &mut [Pair]) -> usize
    requires row_len_bound { length row.now ≤ cameras_most }
    requires row_in_bounds { length row.now ≤ length pairs.old }
    ensures { Put pairs.old 0 pairs.new result (pairs_in_order (partner_in row.now) (below (length row.now))) }
{
    let mut listed = SliceVec::new(pairs);
    pairs_of(&mut listed, row);
    listed.len
}

// The pairs that so many searches come to at the front of `pairs`: how many, and how the searches ended.
pub fn budget(most: usize, stock: &Stock<'_>, pairs: &mut [Pair]) -> PairsFound
    requires { stock.now.cameras ≤ length pairs.old }
    ensures { BudgetListed most (stock_of stock.now) pairs.old pairs.new result }
{
    let mut reached = [false; NODES_MOST];
    let mut row = [0; CAMERAS_MOST];
    let row = &mut row[..stock.cameras];
    let ending = run_searches(most, stock, row, &mut reached[..2 * (stock.cameras + 1)]);
    PairsFound {
        pairs: list_pairs(row, pairs),
        ending,
    }
}

// The pairs of a plan at the front of `pairs`, how many, and every camera's mark, which the nodes tell that the last search reached.
// kept beside budget: one tells how the searches ended, the other the marks, which are read before the pairs are written
pub fn plan(stock: &Stock<'_>, pairs: &mut [Pair], marks: &mut [u8]) -> usize
    requires marks_len { length marks.old ≡ stock.now.cameras }
    requires pairs_in_bounds { stock.now.cameras ≤ length pairs.old }
    ensures { PlanMarked (stock_of stock.now) pairs.old pairs.new marks.new result }
{
    let mut reached = [false; NODES_MOST];
    let reached = &mut reached[..2 * (stock.cameras + 1)];
    let mut row = [0; CAMERAS_MOST];
    let row = &mut row[..stock.cameras];
    run_searches(SEARCHES_MOST, stock, row, reached);
    marks_of(stock, reached, marks);
    list_pairs(row, pairs)
}
