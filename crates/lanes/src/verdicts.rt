// A certificate judged against a graph that was read (document 01, "Questions put to a call"): its questions, then whether it holds.
//   judge                        a barrier or a path
//   judge_path, judge_barrier    each
ghost use Rattle.std.specs.Prelude.{◌≡◌};
ghost use Rattle.arcs.specs.Lent.{graph_of};
ghost use Rattle.lanes.specs.Verdicts.{certificate_told, path_verdict, barrier_verdict, cert_verdict};

use arcs::graph::Graph;
use counting::Pair;
use files::certificates::{read_barrier, read_path};
use formats::limits::{NODES_MOST, STEPS_MOST};
use formats::refusals::Refusal;
use frames::write::begins_barrier;
use judging::barrier::is_barrier;
use judging::path::is_wanted;

fn judge_path(cert: &[u8], graph: &Graph<'_>) -> Result<bool, Refusal>
    ensures { certificate_told result ≡ path_verdict (graph_of graph.now) cert.now }
{
    let mut steps = [0u16; STEPS_MOST];
    let count = read_path(cert, &mut steps, graph.arcs.len())?;
    Ok(is_wanted(graph.source, graph.arcs, &steps[..count]))
}

// kept beside judge_path: what is read, into what, and what is judged are others
fn judge_barrier(cert: &[u8], graph: &Graph<'_>) -> Result<bool, Refusal>
    ensures { certificate_told result ≡ barrier_verdict (graph_of graph.now) cert.now }
{
    let mut lines = [Pair::default(); NODES_MOST];
    let mut classes = [0u8; NODES_MOST];
    let count = read_barrier(cert, &mut lines, &mut classes, 2 * graph.pairs)?;
    Ok(is_barrier(graph, &classes[..count]))
}

// A file that begins with the line 31 is read as a barrier, any other as a path.
pub fn judge(cert: &[u8], graph: &Graph<'_>) -> Result<bool, Refusal>
    ensures { certificate_told result ≡ cert_verdict (graph_of graph.now) cert.now }
{
    if begins_barrier(cert) {
        judge_barrier(cert, graph)
    } else {
        judge_path(cert, graph)
    }
}
