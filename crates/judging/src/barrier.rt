// Is a table of classes a barrier? (document 01, "The barrier"; document 03, is_barrier)
//   mate_class, mates_agree                      mates are in classes that are mates
//   is_xi_or_m, classes_fit, arc_fits, arcs_fit  no arc goes where none may
//   count_entries, largest_class, all_entered    one arc from A into each Xi
//   is_barrier                                   all of these, and the source in A
ghost use Rattle.std.specs.Prelude.{◌≡◌, ℕ, ◌*◌, ◌%◌, ◌≤◌, ◌<◌, length, get_or};
ghost use Rattle.formats.specs.Limits.{arcs_most};
ghost use Rattle.counting.specs.Tests.{all, below};
ghost use Rattle.skew.specs.Graph.{mate_class, mates_agree, largest_of, isXM, arc_fits, entries_into, is_barrier};
ghost use Rattle.skew.specs.Barrier.{classes_fit};
ghost use Rattle.arcs.specs.Table.{Covers};
ghost use Rattle.arcs.specs.Lent.{graph_of};
ghost use Rattle.judging.specs.Barriers.{arc_allowed, all_entered};

use arcs::graph::Graph;
use arcs::node::mate_of;
use formats::classes::{A, A_MATE, FIRST_PART, M};
use skew::Arc;

// The class of the mate of a node of this class.
fn mate_class(c: u8) -> u8
    ensures { result ≡ mate_class c }
{
    match c {
        A => A_MATE,
        A_MATE => A,
        _ => c,
    }
}

// kept: node by node, as document 03 puts the question; by `chunks_exact(2)` the proof of what is answered did not close
fn mates_agree(classes: &[u8]) -> bool
    requires { (length classes.now % 2 ≡ 0) × (length classes.now ≤ 256) }
    ensures { result ≡ all (mates_agree classes.now) (below (length classes.now)) }
{
    (0..classes.len()).all(|v| classes[mate_of(v)] == mate_class(classes[v]))
}

// The class of an Xi, or M.
fn is_xi_or_m(c: u8) -> bool
    ensures { result ≡ isXM c }
{
    c >= FIRST_PART || c == M
}

// May an arc go from a node of class a to one of class b?
fn classes_fit(a: u8, b: u8) -> bool
    ensures { result ≡ classes_fit a b }
{
    !(is_xi_or_m(a) && is_xi_or_m(b) && a != b) && !(a == A && (b == A_MATE || b == M))
}

#[tactic(auto, unfolding(crate::specs::Barriers::arc_allowed))]
fn arc_fits(arc: &Arc, classes: &[u8]) -> bool
    requires { (arc.now.tail < length classes.now) × (arc.now.head < length classes.now) }
    ensures { result ≡ arc_allowed classes.now arc.now }
{
    let (tail, head) = arc.ends();
    classes_fit(classes[tail], classes[head])
}

// kept: arcs and classes with the fact that the arcs lead among so many nodes, in two functions only, here and in count_entries
fn arcs_fit(arcs: &[Arc], classes: &[u8]) -> bool
    requires { Covers arcs.now (length classes.now) }
    ensures { result ≡ all (arc_fits classes.now) arcs.now }
{
    arcs.iter().all(|arc| arc_fits(arc, classes))
}

// How many arcs enter each class from A.
// kept: 256 counters, one for each byte, since a class may be any
fn count_entries(arcs: &[Arc], classes: &[u8]) -> [u16; 256]
    requires covers { Covers arcs.now (length classes.now) }
    requires arcs_few { length arcs.now ≤ arcs_most }
    ensures { (c : ℕ) → c < 256 → get_or result c 0 ≡ entries_into classes.now c arcs.now }
{
    let mut entries = [0u16; 256];
    // invariant: specs/Barriers Counting; falls: arcs left
    for arc in arcs {
        let (tail, head) = arc.ends();
        if classes[tail] == A {
            entries[usize::from(classes[head])] += 1;
        }
    }
    entries
}

fn largest_class(classes: &[u8]) -> u8
    ensures { result ≡ largest_of classes.now }
{
    classes.iter().copied().max().unwrap_or(0)
}

// Is each class from 3 to the largest entered once?
// kept: the classes are gone through as numbers; behind `take` and `skip` of the counters no number of a class would stand in the code
fn all_entered(top: u8, entries: &[u16; 256]) -> bool
    ensures { result ≡ all_entered entries.now top }
{
    (usize::from(FIRST_PART)..=usize::from(top)).all(|c| entries[c] == 1)
}

pub fn is_barrier(graph: &Graph<'_>, classes: &[u8]) -> bool
    ensures { result ≡ is_barrier (graph_of graph.now) classes.now }
{
    if classes.len() != 2 * graph.pairs {
        return false; // not a class for each node
    }
    classes[graph.source] == A
        && mates_agree(classes)
        && arcs_fit(graph.arcs, classes)
        && all_entered(largest_class(classes), &count_entries(graph.arcs, classes))
}
