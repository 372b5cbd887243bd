// The doubled table of a row of partners (document 01, "Stocks"): its arcs, each followed by its mate.
//   put                          an arc and its mate
//   put_camera, put_cameras      the arcs of a camera, of every camera
//   put_fit, put_fits            the arcs of a fit, of every fit that is not lit
//   fill_table                   all of them
ghost use Rattle.std.specs.Prelude.{[], ◌∷◌, ℕ, ◌+◌, ◌*◌, ◌<◌, ◌≤◌, length, get_or};
ghost use Rattle.formats.specs.Limits.{arcs_most, cameras_most};
ghost use Rattle.counting.specs.SliceVecs.{Extended};
ghost use Rattle.counting.specs.Tests.{below};
ghost use Rattle.matching.specs.DoubledTable.{arcs_of_camera, arcs_of_fit};
ghost use Rattle.pairing.specs.Table.{PairedFits, arcs_of_cameras, arcs_of_fits, Doubled};
ghost use Rattle.pairing.specs.Lent.{stock_of};

use crate::stock::Stock;
use counting::Pair;
use counting::slice_vec::SliceVec;
use skew::Arc;

// An arc and its mate.
fn put(arcs: &mut SliceVec<'_, Arc>, arc: Arc, mate: Arc)
    requires { arcs.old.len + 2 ≤ length arcs.old.slice.now }
    ensures { Extended arcs.old (arc ∷ mate ∷ []) arcs.new }
{
    arcs.push(arc);
    arcs.push(mate);
}

// What the pairing says of camera k with partner w.
fn put_camera(arcs: &mut SliceVec<'_, Arc>, n: u8, k: u8, w: u8)
    requires n_le_cameras_most { n ≤ cameras_most }
    requires k_lt_n { k < n }
    requires w_lt_n { w < n }
    requires room { arcs.old.len + length (arcs_of_camera n k w) ≤ length arcs.old.slice.now }
    ensures { Extended arcs.old (arcs_of_camera n k w) arcs.new }
{
    if w == k {
        let from_source = Arc {
            tail: 2 * n,
            head: 2 * k,
        };
        let to_mate = Arc {
            tail: 2 * k + 1,
            head: 2 * n + 1,
        };
        put(arcs, from_source, to_mate);
    } else if k < w {
        let lit = Arc {
            tail: 2 * k + 1,
            head: 2 * w,
        };
        let mate = Arc {
            tail: 2 * w + 1,
            head: 2 * k,
        };
        put(arcs, lit, mate);
    }
}

// A fit, whose first camera has partner w: nothing if it is lit.
fn put_fit(arcs: &mut SliceVec<'_, Arc>, fit: Pair, w: u8)
    requires cameras { (fit.first < fit.second) × (fit.second < cameras_most) }
    requires room { arcs.old.len + length (arcs_of_fit fit.first fit.second w) ≤ length arcs.old.slice.now }
    ensures { Extended arcs.old (arcs_of_fit fit.first fit.second w) arcs.new }
{
    if w != fit.second {
        let other = Arc {
            tail: 2 * fit.first,
            head: 2 * fit.second + 1,
        };
        let mate = Arc {
            tail: 2 * fit.second,
            head: 2 * fit.first + 1,
        };
        put(arcs, other, mate);
    }
}

// The arcs of every camera.
fn put_cameras(arcs: &mut SliceVec<'_, Arc>, row: &[u8])
    requires row_len_bound { length row.now ≤ cameras_most }
    requires by_index { (k : ℕ) → k < length row.now → get_or row.now k 0 < length row.now }
    requires room { arcs.old.len + 2 * length row.now ≤ length arcs.old.slice.now }
    ensures { Extended arcs.old (arcs_of_cameras row.now (below (length row.now))) arcs.new }
{
    let n = row.len() as u8; // kept: no From to fewer bits, and try_from asks anew what is proved
    // invariant: the arcs of the cameras passed are written; falls: cameras left
    for (&w, k) in row.iter().zip(0u8..) {
        put_camera(arcs, n, k, w);
    }
}

// The arcs of every fit that is not lit.
// kept: a loop beside that of put_cameras; one goes through the row with its numbers, the other through the fits, and the arcs of each are others
fn put_fits(arcs: &mut SliceVec<'_, Arc>, row: &[u8], stock: &Stock<'_>)
    requires paired_fits { PairedFits row.now (stock_of stock.now) }
    requires room { arcs.old.len + 2 * length stock.now.fits.now ≤ length arcs.old.slice.now }
    ensures { Extended arcs.old (arcs_of_fits row.now stock.now.fits.now) arcs.new }
{
    // invariant: the arcs of the fits passed are written; falls: fits left
    for &fit in stock.fits {
        put_fit(arcs, fit, row[usize::from(fit.first)]);
    }
}

// The doubled table of the row.
pub fn fill_table(arcs: &mut SliceVec<'_, Arc>, row: &[u8], stock: &Stock<'_>)
    requires paired_fits { PairedFits row.now (stock_of stock.now) }
    requires room { arcs.old.len + arcs_most ≤ length arcs.old.slice.now }
    ensures { Doubled row.now stock.now.fits.now arcs.old arcs.new }
{
    put_cameras(arcs, row);
    put_fits(arcs, row, stock);
}
