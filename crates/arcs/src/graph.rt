// A graph as a caller lends it.
//   Graph      mate pairs, the source and the arcs, as the questions put to a graph settle them
ghost use Rattle.arcs.specs.Table.{graph, ArcTable};

use skew::Arc;

#[derive(Clone, Copy)]
pub struct Graph<'a> {
    pub pairs: usize,
    pub source: usize,
    pub arcs: &'a [Arc],
    ghost is_table: { ArcTable (graph pairs source arcs.now) },
}
