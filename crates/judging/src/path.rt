// Is a run of arcs a regular path from the source to its mate? (document 01, "The graph"; document 03, is_wanted)
//   is_wanted     judged arc by arc, with a table of nodes seen and one of arcs used
ghost use Rattle.std.specs.Prelude.{◌≡◌, ℕ};
ghost use Rattle.skew.specs.Graph.{is_wanted};
ghost use Rattle.arcs.specs.Table.{graph};
ghost use Rattle.judging.specs.Walks.{PathLent};

use arcs::node::mate_of;
use formats::limits::{ARCS_MOST, NODES_MOST};
use skew::Arc;

// Each arc starts where the one before ended, at a node not seen before, and its mate was not used. Mates are told by their numbers.
// The number of mate pairs plays no part.
// kept: a source and arcs, since a Graph would ask more of callers, that the arcs are an arc table
pub fn is_wanted(source: usize, arcs: &[Arc], path: &[u16]) -> bool
    requires { PathLent source arcs.now path.now }
    ensures { (n : ℕ) → result ≡ is_wanted (graph n source arcs.now) path.now }
{
    let mut seen = [false; NODES_MOST];
    let mut used = [false; ARCS_MOST];
    seen[source] = true;
    let mut at = source;
    // invariant: specs/Walks Walking; falls: arcs left
    for &k in path {
        let i = usize::from(k);
        let (tail, head) = arcs[i].ends();
        if tail != at {
            return false; // not joined
        }
        at = head;
        if seen[at] {
            return false; // a node twice
        }
        if used[mate_of(i)] {
            return false; // an arc with its mate
        }
        seen[at] = true;
        used[i] = true;
    }
    at == mate_of(source)
}
