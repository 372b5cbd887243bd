// Marks (document 01, "Stocks"; document 02, L2): read off a table of reached nodes, that of a doubled table without a path, for cameras that have a fit.
//   mark_of        a camera's mark, by its flag and its two nodes
//   marks_of       every camera's
ghost use Rattle.std.specs.Prelude.{◌≡◌, ◌*◌, ◌≤◌, length};
ghost use Rattle.formats.specs.Marks.{mark_number};
ghost use Rattle.counting.specs.Tests.{pick, below};
ghost use Rattle.matching.specs.Stock.{is_included};
ghost use Rattle.matching.specs.Flags.{is_flagged};
ghost use Rattle.matching.specs.DoubledTable.{marks_by};

use crate::stock::Stock;
use counting::slice_vec::SliceVec;
use formats::limits::CAMERAS_MOST;
use formats::marks::Mark;

// The mark of a camera, by its own flag, which is set where it has a fit, and those of its nodes.
fn mark_of(fit: bool, outer: bool, inner: bool) -> Mark
    ensures { mark_number result ≡ pick fit (pick outer 0 (pick inner 1 2)) 3 }
{
    if !fit {
        Mark::NoFit
    } else if outer {
        Mark::Outer
    } else if inner {
        Mark::Inner
    } else {
        Mark::Other
    }
}

// The mark of each camera: the flags of both cameras of each fit are set, and no other, and then each flag and its nodes are read.
pub fn marks_of(stock: &Stock<'_>, reached: &[bool], marks: &mut [u8])
    requires marks_len { length marks.old ≡ stock.now.cameras }
    requires marks_in_bounds { 2 * length marks.old ≤ length reached.now }
    ensures { marks.new ≡ marks_by (is_included stock.now.fits.now) (is_flagged reached.now) (below (length marks.old)) }
{
    let mut table = [false; CAMERAS_MOST];
    let flags = &mut table[..stock.cameras];
    // invariant: specs/Table FlagsSet; falls: fits left
    for fit in stock.fits {
        let (first, second) = fit.numbers();
        flags[first] = true;
        flags[second] = true;
    }

    let mut told = SliceVec::new(marks);
    // invariant: with the marks of the cameras left, all are written; falls: cameras left
    for (&flag, nodes) in flags.iter().zip(reached.chunks_exact(2)) {
        told.push(u8::from(mark_of(flag, nodes[0], nodes[1])));
    }
}
