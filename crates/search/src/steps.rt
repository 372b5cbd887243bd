// The two steps of a search on its tables (document 000, section 2.3): birth and via by node, base by mate pair, a mark for each absorbed base.
//   Labels          what a search knows of its nodes
//   reach_absorbed, rebase_absorbed    births and bases after a bud step
//   is_reached      is a node reached?
//   is_settled      does an arc between reached nodes ask for no step?
//   tree_step       an arc reaches its head
//   label, absorb   a label for a new node; a base marked, and the way up from it
//   ascend          from the two ends of an arc up to the base that absorbs the others
//   bud_step        a bud is formed: the absorbed fragments are reached and get its base
ghost use Rattle.std.specs.Prelude.{◌≡◌, false, ℕ, ◌*◌, ◌<◌, length, get_or};
ghost use Rattle.counting.specs.Loops.{Mapped};
ghost use Rattle.arcs.specs.Lent.{graph_of};
ghost use Rattle.search.specs.Tables.{is_reached};
ghost use Rattle.search.specs.Lent.{labels_of};
ghost use Rattle.search.specs.State.{Clear};
ghost use Rattle.search.specs.Queue.{ArcWithin, is_settled};
ghost use Rattle.search.specs.Steps.{NodeWithin, head_reached, births_after, bases_after, Bridging, labelled, Absorbs, Absorbed, MarksFit, Ascended, BudStepped};

use arcs::graph::Graph;
use arcs::node::mate_of;

// By node the birth, 0 where it is not reached, and the arc of its label; by mate pair the base.
// kept: 0 for none, as the theory's tables have it: is_reached and reach_absorbed alone ask, and an option would be taken apart in each clause that compares births
// kept: birth and via as two tables: of a table of both, each clause on one of them would speak of a map over the table
// kept: no ghost field for the tables' lengths: tried; of the definitions NodeWithin alone would go, and a function more would make the labels
// kept: the graph beside the labels, not a struct of both, of which each method that changes labels would have to say that the graph is the same
#[derive(Drop)]
pub struct Labels<'a> {
    pub birth: &'a mut [usize],
    pub via: &'a mut [usize],
    pub base: &'a mut [usize],
}

// The nodes of marked bases that are not reached yet are reached.
fn reach_absorbed(birth: &mut [usize], base: &[usize], mark: &[bool], clock: usize)
    requires birth_len { length birth.old ≡ 2 * length base.now }
    requires by_index { (j : ℕ) → j < length base.now → get_or base.now j 0 < length mark.now }
    ensures { Mapped (births_after base.now mark.now clock) birth.old birth.new (length birth.old) }
{
    // invariant: counting/specs/Loops Mapped births_after; falls: nodes left
    for (v, b) in birth.iter_mut().enumerate() {
        if *b == 0 && mark[base[v / 2]] {
            *b = clock;
        }
    }
}

// The fragments of marked bases become part of the bud of `to`.
// kept beside reach_absorbed: this asks of a base alone, that of a birth and of the base at its mate pair; one function of both would be lent a test and a value
fn rebase_absorbed(base: &mut [usize], mark: &[bool], to: usize)
    requires { (j : ℕ) → j < length base.old → get_or base.old j 0 < length mark.now }
    ensures { Mapped (bases_after mark.now to) base.old base.new (length base.old) }
{
    // invariant: counting/specs/Loops Mapped bases_after; falls: bases left
    for b in base.iter_mut() {
        if mark[*b] {
            *b = to;
        }
    }
}

impl Labels<'_> {
    #[inline(always)]
    pub fn is_reached(&self, v: usize) -> bool
        requires { v < length self.now.birth.now }
        ensures { result ≡ is_reached (labels_of self.now) v }
    {
        0 < self.birth[v]
    }

    // Is the arc within one bud, or a base arc, or the mate of one?
    pub fn is_settled(&self, graph: &Graph<'_>, i: usize) -> bool
        requires { ArcWithin (graph_of graph.now) (labels_of self.now) i }
        ensures { result ≡ is_settled (graph_of graph.now) (labels_of self.now) i }
    {
        let (x, y) = graph.arcs[i].ends();
        let p = self.base[x / 2];
        let q = self.base[y / 2];
        if p == q {
            return self.is_reached(y);
        }
        self.via[q] == i || self.via[p] == mate_of(i)
    }

    // The head w of arc i is reached.
    pub fn tree_step(&mut self, w: usize, clock: usize, i: usize)
        requires { NodeWithin (labels_of self.old) w }
        ensures { labels_of self.new ≡ head_reached (labels_of self.old) clock i w }
    {
        self.birth[w] = clock;
        self.via[w] = i;
        self.base[w / 2] = w;
    }

    // A label for a node that is not reached.
    fn label(&mut self, v: usize, e: usize)
        requires { (v < length self.old.birth.now) × (v < length self.old.via.now) }
        ensures { labels_of self.new ≡ labelled (labels_of self.old) v e }
    {
        if !self.is_reached(v) {
            self.via[v] = e;
        }
    }

    // The base q is marked and its mate labelled. The base of the fragment that holds the tail of q's base arc.
    fn absorb(&mut self, graph: &Graph<'_>, mark: &mut [bool], q: usize, e: usize) -> usize
        requires { Absorbs (graph_of graph.now) (labels_of self.old) mark.old q e }
        ensures { Absorbed (graph_of graph.now) (labels_of self.old) mark.old q e (labels_of self.new) mark.new result }
    {
        mark[q] = true;
        self.label(mate_of(q), e);
        let a = self.via[q];
        let x = usize::from(graph.arcs[a].tail);
        self.base[x / 2]
    }

    // Two ends start at the bases of the arc's tail and of its head's mate; the one with the later base goes up, until both stand at one base.
    fn ascend(&mut self, graph: &Graph<'_>, mark: &mut [bool], i: usize) -> usize
        requires bridging { (k : ℕ) × Bridging (graph_of graph.now) (labels_of self.old) k i }
        requires clear { Clear false (length self.old.birth.now) mark.old }
        ensures fit { MarksFit (labels_of self.new) mark.new result }
        ensures ascended { (k : ℕ) → Bridging (graph_of graph.now) (labels_of self.old) k i → Ascended (graph_of graph.now) (labels_of self.old) k i (labels_of self.new) mark.new result }
    {
        let j = mate_of(i);
        let (tail, head) = graph.arcs[i].ends();
        let mut p = self.base[tail / 2];
        let mut q = self.base[mate_of(head) / 2];
        // kept: two nodes that go up from base to base, each step writing the labels, until they meet; nothing is counted
        // invariant: proofs/Ascents Ascending; falls: the sum of the birth numbers of p and q
        while p != q {
            let birth_p = self.birth[p];
            let birth_q = self.birth[q];
            if birth_p <= birth_q {
                q = self.absorb(graph, mark, q, i);
            } else {
                p = self.absorb(graph, mark, p, j);
            }
        }
        self.label(mate_of(p), i);
        p
    }

    // A bud is formed by an arc between reached nodes that is not settled.
    pub fn bud_step(&mut self, graph: &Graph<'_>, mark: &mut [bool], clock: usize, i: usize)
        requires bridging { Bridging (graph_of graph.now) (labels_of self.old) clock i }
        requires clear { Clear false (length self.old.birth.now) mark.old }
        ensures stepped { BudStepped (graph_of graph.now) (labels_of self.old) clock i (labels_of self.new) }
        ensures cleared { Clear false (length self.old.birth.now) mark.new }
    {
        let d = self.ascend(graph, mark, i);
        // kept: the bases by a name: no rule covers a call that is lent the births and reads the bases from the field itself
        let base = &mut *self.base;
        reach_absorbed(self.birth, base, mark, clock);
        rebase_absorbed(base, mark, d);
        let m = mate_of(d);
        if !self.is_reached(m) {
            self.birth[m] = clock;
        }
        mark.fill(false);
    }
}
