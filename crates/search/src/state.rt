// The search for a regular path from the source to its mate (document 000, section 2.3): a queue of reached nodes, each node's arcs looked at once.
//   State         the tables of a search under way, and its clock
//   look          the step that an arc asks for
//   scan          a node's arcs looked at
//   reset_bases, start    the source alone is reached
//   search        node by node, until the source's mate is reached or every reached node is scanned
ghost use Rattle.std.specs.Prelude.{◌≡◌, ◌+◌, ◌*◌, ◌/◌, ◌≤◌, ◌<◌, length, slice_index, EachIndex};
ghost use Rattle.formats.specs.Limits.{mate_pairs_most};
ghost use Rattle.arcs.specs.Lent.{graph_of};
ghost use Rattle.search.specs.Lent.{labels_of, tables_of};
ghost use Rattle.search.specs.Steps.{NodeWithin};
ghost use Rattle.search.specs.Queue.{Looking, ArcLooked, Searching, Scanned, Blank, StartStored, SearchEnded};

use crate::queue::Queue;
use crate::steps::Labels;
use arcs::graph::Graph;
use arcs::node::mate_of;

// What a search knows of its nodes, the marks of a bud step, the nodes reached so far and the clock, which numbers the next event.
// kept: the marks beside the labels: they are of one bud step and clear between two, and what is said of labels does not speak of them
#[derive(Drop)]
pub struct State<'a> {
    pub labels: Labels<'a>,
    pub mark: &'a mut [bool],
    pub queue: Queue<'a>,
    pub clock: usize,
}

// Each mate pair a fragment of its own.
// kept beside the first loop of pairing's row_of: the other fills bytes with their places, and each is one line
fn reset_bases(base: &mut [usize])
    requires { length base.old ≤ mate_pairs_most }
    ensures { EachIndex base.new (λ k. slice_index base.new k ≡ 2 * k) }
{
    // invariant: the bases before k are reset; falls: bases left
    for (k, b) in base.iter_mut().enumerate() {
        *b = 2 * k;
    }
}

impl State<'_> {
    // The step that an arc of a reached node asks for, if any.
    // Inlined, as `scan` and `search` are: where the tables stand at fixed places they are reached with fewer instructions than through the state.
    #[inline(always)]
    fn look(&mut self, graph: &Graph<'_>, i: usize)
        requires { Looking (graph_of graph.now) (tables_of self.old) i }
        ensures { ArcLooked (graph_of graph.now) (tables_of self.old) i (tables_of self.new) }
    {
        let y = usize::from(graph.arcs[i].head);
        let m = mate_of(y);
        if !self.labels.is_reached(m) {
            if self.labels.is_reached(y) {
                return;
            }
            self.labels.tree_step(y, self.clock, i);
            self.queue.reached.push(y);
            self.clock += 1;
            return;
        }
        if self.labels.is_settled(graph, i) {
            return;
        }
        self.labels.bud_step(graph, self.mark, self.clock, i);
        self.queue.enqueue(&self.labels, self.clock);
        self.clock += 1;
    }

    // Looks at each arc of the node that was taken last.
    #[inline(always)]
    fn scan(&mut self, graph: &Graph<'_>, x: usize)
        requires { Scanned (graph_of graph.now) (tables_of self.old) x 0 }
        ensures searching { Searching (graph_of graph.now) (tables_of self.new) }
        ensures taken { self.new.queue.taken ≡ self.old.queue.taken }
    {
        // invariant: specs/Queue Scanned; falls: arcs left
        for (i, arc) in graph.arcs.iter().enumerate() {
            if usize::from(arc.tail) == x {
                self.look(graph, i);
            }
        }
    }

    // The source alone is reached, and stands in the queue.
    fn start(&mut self, graph: &Graph<'_>)
        requires source_within { NodeWithin (labels_of self.old.labels) graph.now.source × (self.old.queue.reached.len < length self.old.queue.reached.slice.now) }
        requires base_len_bound { length self.old.labels.base.now ≤ mate_pairs_most }
        ensures { StartStored (graph_of graph.now) (tables_of self.old) (tables_of self.new) }
    {
        reset_bases(self.labels.base);
        let source = graph.source;
        // kept: the number of arcs as the source's via, for it has no arc: no arc has that number, and an option would be taken apart at each label followed
        self.labels.tree_step(source, 1, graph.arcs.len());
        self.queue.reached.push(source);
        self.clock = 2;
    }

    // Is the source's mate reached? If not, no arc asks for a step any more.
    #[inline(always)]
    pub fn search(&mut self, graph: &Graph<'_>) -> bool
        requires { Blank graph.now.pairs (tables_of self.old) }
        ensures { SearchEnded (graph_of graph.now) (labels_of self.new.labels) self.new.mark.now result }
    {
        self.start(graph);
        let goal = mate_of(graph.source);
        // kept: until the goal is reached or the queue is empty; nothing is counted
        // invariant: specs/Queue Searching; falls: nodes not taken
        while !self.labels.is_reached(goal) {
            let Some(x) = self.queue.pop() else {
                return false;
            };
            self.scan(graph, x);
        }
        true
    }
}
