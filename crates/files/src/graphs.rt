// Graph files read: questions 2 to 9, 16 and 10, and the arcs stored (document 01, "Questions put to a call"; 16: document 02, L5).
//   GraphNumbers   a graph as it was read
//   header_fits    question 5
//   arcs_fit       question 8
//   ask_arcs       questions 9, 16 and 10
//   read_graph     all of them, in order
ghost use Rattle.std.specs.Prelude.{◌≡◌, ◌≤◌, length};
ghost use Rattle.formats.specs.Limits.{arcs_most};
ghost use Rattle.formats.specs.Refusals.{refusal_in, value_or};
ghost use Rattle.frames.specs.Questions.{first_no};
ghost use Rattle.files.specs.GraphFile.{numbers_fit, arcs_fit, arcs_questions};
ghost use Rattle.files.specs.Readers.{no_graph, GraphRead};

use crate::questions::{are_mated, are_nodes, have_two_ends};
use formats::kinds::Kind;
use formats::limits::{ARCS_MOST, MATE_PAIRS_MOST};
use formats::refusals::Refusal;
use frames::ask::ask;
use frames::layout::GRAPH;
use frames::numbers::number_at;
use frames::shape::{body_of, header_of};
use frames::store::store;
use skew::Arc;

// A graph as it was read: its mate pairs, its source, and how many arcs stand in the slice.
// kept: beside arcs::Graph, which holds the arcs; a reader only tells how many it stored (read_graph)
#[derive(Clone, Copy)]
pub struct GraphNumbers {
    pub pairs: usize,
    pub source: usize,
    pub arcs: usize,
}

// 5, of the header's two numbers.
fn header_fits(pairs: usize, source: usize) -> bool
    ensures { result ≡ numbers_fit pairs source }
{
    (1..=MATE_PAIRS_MOST).contains(&pairs) && source < 2 * pairs
}

// 8, of the number of arcs.
fn arcs_fit(arcs: usize) -> bool
    ensures { result ≡ arcs_fit arcs }
{
    arcs % 2 == 0 && arcs <= ARCS_MOST
}

// 9, 16 and 10, of arcs between so many nodes.
#[tactic(auto, using(counting::proofs::Booleans::list_all_is))]
fn ask_arcs(arcs: &[Arc], nodes: usize) -> Result<(), Refusal>
    ensures { refusal_in result ≡ first_no (arcs_questions nodes arcs.now) }
{
    ask(are_nodes(arcs, nodes), Refusal::Names)?;
    ask(have_two_ends(arcs), Refusal::SelfArc)?;
    ask(are_mated(arcs), Refusal::Mates)
}

// The graph of a file, with its arcs in the slice.
// kept: a slice, and the least length that it has to have; an array of that length would ask more of callers
// kept: a reader tells how many elements it stored, for of a `&mut` that went into its result no clause can say what stands there after the call;
// a list that the caller lends would have to stand with the caller as the slice does, and its length be this number
#[tactic(auto, using(crate::proofs::GraphFiles::header_long, crate::proofs::GraphFiles::header_next))]
pub fn read_graph(f: &[u8], arcs: &mut [Arc]) -> Result<GraphNumbers, Refusal>
    requires { arcs_most ≤ length arcs.old }
    ensures { GraphRead f.now arcs.old arcs.new (refusal_in result) (value_or no_graph result).pairs (value_or no_graph result).source (value_or no_graph result).arcs }
{
    let next = header_of(f, GRAPH)?;
    let pairs = number_at::<2>(f, 2);
    let source = number_at::<2>(f, 4);
    ask(header_fits(pairs, source), Refusal::Numbers)?;
    let count = body_of(f, next, GRAPH)?.count;
    ask(arcs_fit(count), Refusal::Size)?;
    store(f, next, Kind::Arc, arcs);
    ask_arcs(&arcs[..count], 2 * pairs)?;
    Ok(GraphNumbers {
        pairs,
        source,
        arcs: count,
    })
}
