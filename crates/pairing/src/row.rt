// Rows of partners: read from pairs, rotated along a path, written as pairs.
//   rotate                    one rotation
//   augment                   the rotations of a path
//   row_of                    the row of a stock's lit pairs
//   put_pair, pairs_of        a camera's pair written; the pairs of a row in order
ghost use Rattle.std.specs.Prelude.{◌≡◌, ◌+◌, ◌<◌, ◌≤◌, length, get_or};
ghost use Rattle.formats.specs.Limits.{cameras_most};
ghost use Rattle.counting.specs.SliceVecs.{Extended};
ghost use Rattle.counting.specs.Tests.{below};
ghost use Rattle.matching.specs.Matching.{partner, pair_of, pairs_in_order};
ghost use Rattle.matching.specs.Rotation.{rotate_along, Rotates};
ghost use Rattle.matching.specs.Row.{partner_in, rotate_row};
ghost use Rattle.pairing.specs.Row.{row_graph};

use crate::stock::Stock;
use counting::Pair;
use counting::slice_vec::SliceVec;
use skew::Arc;

// u, which is unlit, is lit with v; v's old partner becomes unlit.
// kept: an unlit camera has its own number, and no option, as the theory's involution has it: a rotation needs no case for it
fn rotate(row: &mut [u8], u: u8, v: u8)
    requires u_in_bounds { u < length row.old }
    requires v_in_bounds { v < length row.old }
    requires v_in_bounds_2 { get_or row.old v 0 < length row.old }
    ensures { row.new ≡ rotate_row row.old u v }
{
    let w = row[usize::from(v)];
    row[usize::from(w)] = w;
    row[usize::from(u)] = v;
    row[usize::from(v)] = u;
}

// The rotations of a path from a node of an unlit camera on: its arcs 0, 2, 4 and so on.
pub fn augment(row: &mut [u8], arcs: &[Arc], path: &[usize])
    requires { Rotates (length row.old) (row_graph row.old arcs.now) path.now (partner_in row.old) }
    ensures { partner_in row.new ≡ rotate_along (row_graph row.old arcs.now) path.now (partner_in row.old) }
{
    // invariant: specs/Row Following; falls: arcs of the path left
    for turn in path.chunks_exact(2) {
        let arc = arcs[turn[0]];
        rotate(row, arc.tail / 2, arc.head / 2);
    }
}

// The row of a stock's lit pairs: every camera unlit, and then the pairs lit, the last first, so that a camera's first pair counts.
pub fn row_of(row: &mut [u8], stock: &Stock<'_>)
    requires { length row.old ≡ stock.now.cameras }
    ensures { partner_in row.new ≡ partner stock.now.lit.now }
{
    // invariant: each camera so far is its own partner; falls: cameras left
    // kept: numbered by `enumerate`; what `iter_mut` writes under `zip` no proof knows once the loop is over
    for (k, own) in row.iter_mut().enumerate() {
        *own = k as u8; // kept: no From to fewer bits, and try_from asks anew what is proved
    }

    // invariant: specs/Row LitFrom; falls: pairs left
    for pair in stock.lit.iter().rev() {
        let (first, second) = pair.numbers();
        row[second] = pair.first;
        row[first] = pair.second;
    }
}

// Camera u with its partner v, where that is the larger.
fn put_pair(pairs: &mut SliceVec<'_, Pair>, u: u8, v: u8)
    requires { pairs.old.len + length (pair_of u v) ≤ length pairs.old.slice.now }
    ensures { Extended pairs.old (pair_of u v) pairs.new }
{
    if u < v {
        pairs.push(Pair {
            first: u,
            second: v,
        });
    }
}

// The pairs of a row in order.
pub fn pairs_of(pairs: &mut SliceVec<'_, Pair>, row: &[u8])
    requires row_len_bound { length row.now ≤ cameras_most }
    requires room { pairs.old.len + length row.now ≤ length pairs.old.slice.now }
    ensures { Extended pairs.old (pairs_in_order (partner_in row.now) (below (length row.now))) pairs.new }
{
    // invariant: the pairs of the cameras passed are written; falls: cameras left
    for (&partner, k) in row.iter().zip(0u8..) {
        put_pair(pairs, k, partner);
    }
}
