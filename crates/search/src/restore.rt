// A found path restored through every bud that it crosses (document 01, "Buds"; document 000, section 2.2).
//   mate_reverse    a part of the path in the opposite order, each arc's mate for the arc
//   restore         the path that the labels give; it calls itself on inner buds, the birth number falling
ghost use Rattle.std.specs.Prelude.{◌≡◌, ℕ, ◌<◌, length, get_or};
ghost use Rattle.formats.specs.Limits.{arcs_most};
ghost use Rattle.counting.specs.Lists.{reverse_map};
ghost use Rattle.skew.specs.Graph.{mate};
ghost use Rattle.arcs.specs.Lent.{graph_of};
ghost use Rattle.search.specs.Lent.{labels_of};
ghost use Rattle.search.specs.Restore.{Restorable, Restored};

use crate::steps::Labels;
use arcs::graph::Graph;
use arcs::node::mate_of;
use counting::slice_vec::SliceVec;

fn mate_reverse(part: &mut [usize])
    requires { (k : ℕ) → k < length part.old → get_or part.old k 0 < arcs_most }
    ensures { part.new ≡ reverse_map mate part.old }
{
    // invariant: the arcs gone through are their mates; falls: arcs left
    for arc in part.iter_mut() {
        *arc = mate_of(*arc);
    }
    part.reverse();
}

// Pushes the path from stop to v: the path to the tail of v's label, the arc, and then, unless the arc's head is v, the mates of the path from v's mate
// to the head's mate. No instruction reads the birth numbers: they are what falls from call to call.
pub fn restore(
    graph: &Graph<'_>,
    labels: &Labels<'_>,
    stop: usize,
    v: usize,
    path: &mut SliceVec<'_, usize>,
)
    requires { Restorable (graph_of graph.now) (labels_of labels.now) stop v path.old.len (length path.old.slice.now) }
    ensures { Restored (graph_of graph.now) (labels_of labels.now) stop v path.old path.new }
{
    if v == stop {
        return;
    }
    let e = labels.via[v];
    let (x, y) = graph.arcs[e].ends();
    restore(graph, labels, stop, x, path);
    path.push(e);
    if y == v {
        return;
    }
    let from = path.len;
    let m = mate_of(v);
    let w = mate_of(y);
    restore(graph, labels, m, w, path);
    mate_reverse(&mut path.slice[from..path.len]);
}
