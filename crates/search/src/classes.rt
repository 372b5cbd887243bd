// The class table of the canonical barrier (document 01, "The barrier"), filled from the reached set.
//   root_of       the base at the root of a node's tree of buds: buds joined by an arc are one part of X
//   Parts         the numbers of the parts
//   number_at     the number of the part at a root, given now if it has none
//   class_at      the class of a node
//   fill_classes  the class of each node, in node order
ghost use Rattle.std.specs.Prelude.{◌≡◌, ◌+◌, ◌<◌, None, length, get_or};
ghost use Rattle.skew.specs.Graph.{class_of, canonical};
ghost use Rattle.arcs.specs.Lent.{graph_of};
ghost use Rattle.search.specs.Lent.{labels_of};
ghost use Rattle.search.specs.ClassTable.{Exhausted, InBud, RootFound, NumberTold, Numbering};

use crate::steps::Labels;
use arcs::graph::Graph;
use arcs::node::mate_of;
use formats::classes::{A, A_MATE, FIRST_PART, M};
use formats::limits::NODES_MOST;

fn root_of(graph: &Graph<'_>, labels: &Labels<'_>, v: usize) -> usize
    requires { InBud (graph_of graph.now) (labels_of labels.now) v }
    ensures { RootFound (graph_of graph.now) (labels_of labels.now) v result }
{
    let mut b = labels.base[v / 2];
    // kept: a node that goes up from base to base; nothing is counted, and an iterator over the bases would have this loop's test in a closure
    // invariant: proofs/Roots RootAscent; falls: the birth number of b
    loop {
        let e = labels.via[b];
        let x = usize::from(graph.arcs[e].tail);
        let outside = mate_of(x);
        if !labels.is_reached(outside) {
            return b;
        }
        b = labels.base[x / 2];
    }
}

// At a root's place the number of its part, if it has one yet; and the next number to give.
#[derive(Drop)]
struct Parts {
    numbers: [Option<u8>; NODES_MOST],
    next: u8,
}

impl Parts {
    // The number of the part at a root: the next one, given now, if it has none.
    fn number_at(&mut self, root: usize) -> u8
        requires { (root < length self.old.numbers) × (self.old.next < 255) }
        ensures { NumberTold (get_or self.old.numbers root None) self.old root self.new result }
    {
        match self.numbers[root] {
            Some(number) => number,
            None => {
                let number = self.next;
                self.numbers[root] = Some(number);
                self.next += 1;
                number
            }
        }
    }
}

fn class_at(graph: &Graph<'_>, labels: &Labels<'_>, parts: &mut Parts, v: usize) -> u8
    requires numbering { Numbering (graph_of graph.now) (labels_of labels.now) v parts.old }
    requires v_in_bounds { v < length labels.now.birth.now }
    ensures { Numbering (graph_of graph.now) (labels_of labels.now) (v + 1) parts.new × (result ≡ class_of (graph_of graph.now) v) }
{
    match (labels.is_reached(v), labels.is_reached(mate_of(v))) {
        (false, false) => M,
        (false, true) => A_MATE,
        (true, false) => A,
        (true, true) => parts.number_at(root_of(graph, labels, v)),
    }
}

pub fn fill_classes(graph: &Graph<'_>, labels: &Labels<'_>, class: &mut [u8])
    requires exhausted { Exhausted (graph_of graph.now) (labels_of labels.now) }
    requires class_len { length class.old ≡ length labels.now.birth.now }
    ensures { class.new ≡ canonical (graph_of graph.now) }
{
    let mut parts = Parts {
        numbers: [None; NODES_MOST],
        next: FIRST_PART,
    };
    // invariant: specs/ClassTable Numbering, and the classes of the nodes before v are told; falls: nodes left
    for (v, c) in class.iter_mut().enumerate() {
        *c = class_at(graph, labels, &mut parts, v);
    }
}
