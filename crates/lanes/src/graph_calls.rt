// The graph call by value (document 01, "The graph" and "The barrier"): questions first, then a path or a barrier. It counts nothing.
//   answer_graph_by    the call
//   write_graph        past the questions: what is found, written
ghost use Rattle.std.specs.Prelude.{◌≡◌, ◌*◌, ◌≤◌, length};
ghost use Rattle.formats.specs.Limits.{room};
ghost use Rattle.arcs.specs.Lent.{graph_of};
ghost use Rattle.lanes.specs.GraphCalls.{GraphWritten, GraphAnswered};

use crate::calls::{ask_call, graph_in};
use crate::{Answer, Outcome};
use arcs::graph::Graph;
use files::answers::{put_barrier, put_path};
use formats::limits::{ARCS_MOST, NODES_MOST};
use formats::refusals::Refusal;
use search::answer::path_or_barrier;
use skew::Arc;

// A path, or the canonical barrier where there is none, at the front of the buffer; the tables that the search leaves its answer in are lent.
fn write_graph(out: &mut [u8], graph: &Graph<'_>, class: &mut [u8], path: &mut [usize]) -> Answer
    requires class_len { (length class.old ≡ 2 * graph.now.pairs) × (2 * graph.now.pairs ≤ length path.old) }
    requires room_in_bounds { room ≤ length out.old }
    ensures { GraphWritten (graph_of graph.now) out.old out.new result }
{
    match path_or_barrier(graph, class, path) {
        Some(count) => Answer {
            size: put_path(out, &path[..count]),
            outcome: Outcome::Path,
        },
        None => Answer {
            size: put_barrier(out, class),
            outcome: Outcome::Barrier,
        },
    }
}

pub fn answer_graph_by(file: &[u8], caller: u32, out: &mut [u8]) -> Result<Answer, Refusal>
    ensures { GraphAnswered caller file.now out.old result out.new }
{
    ask_call(caller, out.len())?;
    let mut arcs = [Arc::default(); ARCS_MOST];
    let graph = graph_in(file, &mut arcs)?;
    // kept: 256 and no name, as document 01's forms have it: the class table starts as [0; 256]
    let mut class = [0u8; 256];
    let mut path = [0usize; NODES_MOST];
    Ok(write_graph(out, &graph, &mut class[..2 * graph.pairs], &mut path))
}
