// Skew-symmetric graphs, regular paths and barriers (documents 000 and 001): the theory, and an arc as code keeps it.
//   Arc                                  the node that an arc leaves, and the one that it leads to
//   specs/Graph, Promise                 the definitions of document 03, and what is promised of every well-formed graph
//   proofs/Promise                       regular paths reach exactly the reachable nodes; a path, or the canonical barrier, and never both
// Why no path means a barrier (document 000, theorem 2.2):
//   specs/Search, proofs/SourcePaths     A search's state labels each reached node with an arc; the labels give a regular path from the source to it.
//   proofs/Restoration                   Where the source's mate is reached, that is the path wanted.
//   specs/Steps, proofs/TreeStep         An arc from a reached node to a node that is new, as its mate is, asks for a tree step, which reaches it.
//   proofs/Ascent, BudStep               An arc of which tail and head's mate are reached, and which is not settled, closes a bud; all its nodes are reached.
//   proofs/Measure, Existence            Each step lowers a number. So some state is closed: no arc of a reached node asks for a step.
//   proofs/Exact                         If a closed state lacks the source's mate, it reaches exactly the reachable nodes: a regular path comes into a bud
//                                        over its base arc, and out of it to a node not reached leads only that arc's mate, which it may not take too.
//   specs/Forest, proofs/Canonical       X is the nodes reached with their mates. Its connected parts are trees of buds: a bud hangs on the one from which
//                                        its base arc comes. The other reached nodes are A, their mates A', and what is left is M.
//   proofs/Barrier                       Arc by arc these classes are a barrier: from A only the base arc of a tree's root leads into its part.
//   proofs/BarrierExcludes               A barrier lets no path through: from A no arc leads into A', where the source's mate is; into an Xi a regular path
//                                        comes by its one entry, and from there into A' leads only that entry's mate.
// The steps may be taken in any order (proofs/Scan).
#![tactic(auto)]

ghost use Rattle.std.specs.Prelude.{◌≡◌, ◌<◌};

use counting::Pair;

#[derive(Clone, Copy, Default, PartialEq, Eq)]
pub struct Arc {
    pub tail: u8,
    pub head: u8,
}

impl Arc {
    // The tail and the head, as places in a table.
    pub fn ends(self) -> (usize, usize)
        ensures tail { result.0 ≡ self.tail }
        ensures head { result.1 ≡ self.head }
        ensures bytes { (result.0 < 256) × (result.1 < 256) }
    {
        (usize::from(self.tail), usize::from(self.head))
    }
}

// An arc as a file has it: its tail, then its head.
impl From<Pair> for Arc {
    ghost use Rattle.std.specs.Prelude.{◌≡◌};
    ghost use Rattle.skew.specs.Graph.{arc_of};

    ghost from_gives = { λ pair arc. arc ≡ arc_of pair };

    fn from(pair: Pair) -> Arc {
        Arc {
            tail: pair.first,
            head: pair.second,
        }
    }
}
