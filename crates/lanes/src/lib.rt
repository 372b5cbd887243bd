// The pairing engine's calls (document 01, "Questions put to a call"): a graph, a stock for a plan and its standing sheet (document 02, L6), a
// stock for what a budget of searches comes to (L4), and the check.
//   answer_graph, stock, budget           answered in a lent buffer, and counted for their caller in a lent tally
//   check                                 a certificate judged; it lends no buffer and counts nothing
//   tell                                  an answer counted for its caller, and told by its size
//   graph_calls, stock_calls, budget_calls     the first three by value: what is told, and what it came to, uncounted
//   calls                                 what the calls share: the questions before a file's, and what a file holds
//   tallies                               the tally counted up for a caller (L7), by value and lent
//   verdicts                              a certificate judged against a graph that was read
#![tactic(auto)]

pub mod budget_calls;
mod calls;
pub mod graph_calls;
pub mod stock_calls;
pub mod tallies;
mod verdicts;

ghost use Rattle.std.specs.Prelude.{◌≡◌, ◌≤◌, length};
ghost use Rattle.formats.specs.Limits.{room, searches_most};
ghost use Rattle.formats.specs.Refusals.{value_or};
ghost use Rattle.lanes.specs.Entry.{no_searches, told_of, searched_of, verdict_of, GraphOwes, check_post, StockOwes, BudgetOwes};
ghost use Rattle.lanes.specs.Tallies.{call, graph, stock, budget, tallied, tally_after};
ghost use Rattle.lanes.specs.Calls.{told_in, outcome_in};

use budget_calls::budget_by;
use calls::graph_in;
use formats::limits::{ARCS_MOST, CALLERS};
use formats::refusals::Refusal;
use graph_calls::answer_graph_by;
use skew::Arc;
use stock_calls::stock_by;
use tallies::{count, outcome_of};
use verdicts::judge;

// The number that the programs name: service.
pub const SERVICE: u32 = 2;

// What one caller's calls came to; a count at its largest stays there.
#[derive(Clone, Copy, PartialEq, Eq)]
pub struct Counts {
    pub paths: u32,
    pub barriers: u32,
    pub stocks: u32,
    pub refusals: u32,
}

// Each caller's counts, by the caller's number (document 02, L7).
#[derive(Clone, Copy, PartialEq, Eq)]
pub struct Tally {
    pub sets: [Counts; CALLERS],
}

// What a call came to: the count that it adds to.
// kept: an enum of its own, of four outcomes, which are neither an option nor a result
#[derive(Clone, Copy, PartialEq, Eq)]
pub enum Outcome {
    Path,
    Barrier,
    Stock,
    Refusal,
}

// An answered call: the answer's bytes, at the buffer's front, and what it came to, before it is counted.
#[derive(Clone, Copy, PartialEq, Eq)]
pub struct Answer {
    pub size: usize,
    pub outcome: Outcome,
}

// An answered budgeted call: the answer's bytes, and how many searches were run.
#[derive(Clone, Copy, PartialEq, Eq)]
pub struct Searched {
    pub size: usize,
    pub searches: usize,
}

// A budgeted call comes to what a stock's does.
impl From<Searched> for Answer {
    ghost use Rattle.std.specs.Prelude.{◌≡◌};
    ghost use Rattle.lanes.specs.Calls.{stock_answer};

    ghost from_gives = { λ searched answer. answer ≡ stock_answer searched };

    fn from(searched: Searched) -> Answer {
        Answer {
            size: searched.size,
            outcome: Outcome::Stock,
        }
    }
}

// A question of the check answered no: one of the graph's, or one of the certificate's.
#[derive(Clone, Copy, PartialEq, Eq)]
pub enum CheckRefusal {
    Graph(Refusal),
    Certificate(Refusal),
}

// To a certificate's 40 is added.
impl From<CheckRefusal> for u8 {
    ghost use Rattle.std.specs.Prelude.{◌≡◌};
    ghost use Rattle.lanes.specs.Entry.{check_number};

    ghost from_gives = { λ refusal number. number ≡ check_number refusal };

    fn from(refusal: CheckRefusal) -> u8 {
        match refusal {
            CheckRefusal::Graph(refusal) => u8::from(refusal),
            CheckRefusal::Certificate(refusal) => 40 + u8::from(refusal),
        }
    }
}

// An answer counted for its caller, and told by its size.
fn tell(tally: &mut Tally, caller: u32, answer: Result<Answer, Refusal>) -> Result<usize, Refusal>
    ensures told { told_of result ≡ told_in answer }
    ensures tally { tally.new ≡ tallied tally.old caller (outcome_in answer) }
{
    count(tally, caller, outcome_of(answer));
    Ok(answer?.size)
}

// A graph answered with some regular path from its source to the source's mate, or with the canonical barrier.
// kept: file, caller and buffer one by one, as in the C interface; a struct of the three would be made by each caller for one call
pub fn answer_graph(
    file: &[u8],
    caller: u32,
    out: &mut [u8],
    tally: &mut Tally,
) -> Result<usize, Refusal>
    ensures graph_owes { GraphOwes caller file.now out.old (told_of result) out.new }
    ensures tally { tally.new ≡ tally_after tally.old (call caller graph file.now (length out.old)) }
    ensures small { value_or 0 result ≤ room }
{
    tell(tally, caller, answer_graph_by(file, caller, out))
}

// A stock answered with a plan, directly followed by its standing sheet: which largest plan is left free.
// kept beside answer_graph, as budget: each names a call, and what is promised of it
pub fn stock(file: &[u8], caller: u32, out: &mut [u8], tally: &mut Tally) -> Result<usize, Refusal>
    ensures stock_owes { StockOwes caller file.now out.old (told_of result) out.new }
    ensures tally { tally.new ≡ tally_after tally.old (call caller stock file.now (length out.old)) }
    ensures small { value_or 0 result ≤ room }
{
    tell(tally, caller, stock_by(file, caller, out))
}

// A stock answered with what at most `most` searches come to: which such pairing is left free. It is told with its searches, so not by tell.
pub fn budget(
    file: &[u8],
    caller: u32,
    most: u32,
    out: &mut [u8],
    tally: &mut Tally,
) -> Result<Searched, Refusal>
    ensures budget_owes { BudgetOwes caller most file.now out.old (searched_of result) out.new }
    ensures tally { tally.new ≡ tally_after tally.old (call caller (budget most) file.now (length out.old)) }
    ensures small { ((value_or no_searches result).size ≤ room) × ((value_or no_searches result).searches ≤ searches_most) }
{
    let answer = budget_by(file, caller, most, out);
    count(tally, caller, outcome_of(answer.map(Answer::from)));
    answer
}

// A certificate checked: the graph's questions first, then the certificate's, then whether it holds.
pub fn check(graph: &[u8], cert: &[u8]) -> Result<bool, CheckRefusal>
    ensures { verdict_of result ≡ check_post graph.now cert.now }
{
    let mut arcs = [Arc::default(); ARCS_MOST];
    let graph = graph_in(graph, &mut arcs).map_err(CheckRefusal::Graph)?;
    judge(cert, &graph).map_err(CheckRefusal::Certificate)
}
