// The answer to a graph (document 01, "The graph" and "The barrier"): a wanted path, or the reason why there is none.
//   tell_reached        the flags of the nodes, from their births
//   explore             a search with tables of its own: a path, or the labels lent for the reason
//   path_or_reached     a path, or the reachable nodes
//   path_or_barrier     a path, or the canonical barrier
ghost use Rattle.std.specs.Prelude.{◌*◌, ◌≤◌, ◌<◌, ◌≡◌, length};
ghost use Rattle.std.specs.Fn.{TakesAt};
ghost use Rattle.arcs.specs.Lent.{graph_of};
ghost use Rattle.search.specs.Lent.{labels_of};
ghost use Rattle.search.specs.ClassTable.{Exhausted};
ghost use Rattle.search.specs.Answer.{ReachedTold, Explored, PathOrReached, PathOrClasses};

use crate::classes::fill_classes;
use crate::queue::Queue;
use crate::restore::restore;
use crate::state::State;
use crate::steps::Labels;
use arcs::graph::Graph;
use arcs::node::mate_of;
use counting::slice_vec::SliceVec;
use formats::limits::{MATE_PAIRS_MOST, NODES_MOST};

fn tell_reached(labels: &Labels<'_>, reached: &mut [bool])
    requires { length reached.old ≤ length labels.now.birth.now }
    ensures { ReachedTold labels.now.birth.now reached.old reached.new }
{
    // kept: a node by its number, since is_reached is asked of a node; what iter_mut writes under zip no proof knows once the loop is over
    // invariant: the flags of the nodes before v are told; falls: nodes left
    for (v, r) in reached.iter_mut().enumerate() {
        *r = labels.is_reached(v);
    }
}

// A path's arcs go to the front of `path`. Where there is none, the labels, which show it, are lent to `reason`.
// The state's tables are small and live here: at fixed places they are reached with fewer instructions than lent ones.
// So does the state: its labels alone are lent on, when the search has ended, and until then its clock, its count and its slices need no memory.
// kept: how long the lent tables are is a clause, here and at what calls this; a type for them would be made at each call from the slices that are lent
// kept: how many arcs a path has, as readers tell it (docs/DECISIONS.md, D84)
fn explore<F: FnMut(&Labels<'_>)>(
    graph: &Graph<'_>,
    path: &mut [usize],
    reason: &mut F,
) -> Option<usize>
    requires reason { (L : _) → Exhausted (graph_of graph.now) (labels_of L) → TakesAt F.FnMut reason.old L }
    requires path_len { 2 * graph.now.pairs ≤ length path.old }
    ensures { Explored F.FnMut reason.old reason.new (graph_of graph.now) result path.old path.new }
{
    let mut birth = [0usize; NODES_MOST];
    let mut via = [0usize; NODES_MOST];
    let mut base = [0usize; MATE_PAIRS_MOST];
    let mut mark = [false; NODES_MOST];
    let mut places = [0usize; NODES_MOST];
    let nodes = 2 * graph.pairs;
    let labels = Labels {
        birth: &mut birth[..nodes],
        via: &mut via[..nodes],
        base: &mut base[..graph.pairs],
    };
    let queue = Queue {
        reached: SliceVec::new(&mut places[..nodes]),
        taken: 0,
    };
    let mut state = State {
        labels,
        mark: &mut mark[..nodes],
        queue,
        clock: 0,
    };
    let found = state.search(graph);
    let labels = state.labels;
    if found {
        let goal = mate_of(graph.source);
        let mut arcs = SliceVec::new(path);
        restore(graph, &labels, graph.source, goal, &mut arcs);
        return Some(arcs.len);
    }
    reason(&labels);
    None
}

// Where there is no path, `reached` gets the flags of the nodes that are reachable.
#[inline(never)]
#[tactic(auto, using(crate::proofs::Answers::reached_answer))]
pub fn path_or_reached(graph: &Graph<'_>, reached: &mut [bool], path: &mut [usize]) -> Option<usize>
    requires { (length reached.old ≡ 2 * graph.now.pairs) × (2 * graph.now.pairs ≤ length path.old) }
    ensures { PathOrReached (graph_of graph.now) result path.old path.new reached.old reached.new }
{
    explore(graph, path, &mut |labels| tell_reached(labels, reached))
}

// Where there is no path, `class` gets the canonical barrier, from the reached nodes.
// kept beside path_or_reached: each is one call that names what is told where there is no path
#[inline(never)]
#[tactic(auto, using(crate::proofs::Answers::class_answer))]
pub fn path_or_barrier(graph: &Graph<'_>, class: &mut [u8], path: &mut [usize]) -> Option<usize>
    requires { (length class.old ≡ 2 * graph.now.pairs) × (2 * graph.now.pairs ≤ length path.old) }
    ensures { PathOrClasses (graph_of graph.now) result path.old path.new class.old class.new }
{
    explore(
        graph,
        path,
        &mut |labels| fill_classes(graph, labels, class),
    )
}
