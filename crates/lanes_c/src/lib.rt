// The engine's calls for C and Rust (document 01, "Questions put to a call"), over numbers and slices alone; include/lanes.h declares them for C.
//   lanes_graph, lanes_stock, lanes_budget, lanes_check  the calls
//   lanes_power_on, lanes_bring, lanes_keep, lanes_come_back, lanes_forget     those of kept pairings (document 02, L8), over a lent state
//   counts_at, tally_of                                  four of the sixteen counts as a caller's, and all as a tally
//   count_at, put_tally                                  one of the sixteen by its place, and all of a tally
//   number_of                                            the number of a refusal, 0 where there is none
//   pack                                                 a call's result as one number
//   told                                                 the same of an answer, which is counted for its caller
#![tactic(auto)]

ghost use Rattle.std.specs.Prelude.{◌≡◌, ◌≤◌, ◌<◌, ◌/◌, ◌%◌, length, get_or, replicate};
ghost use Rattle.formats.specs.Limits.{room};
ghost use Rattle.formats.specs.Refusals.{refusal_in, value_or};
ghost use Rattle.lanes.specs.Entry.{told_of, GraphOwes, StockOwes, BudgetOwes, check_post};
ghost use Rattle.lanes.specs.Calls.{no_answer, told_in, outcome_in};
ghost use Rattle.lanes.specs.Tallies.{counts_of, call, graph, stock, budget, tallied, tally_after};
ghost use Rattle.kept.specs.State.{bring, keep_as, come_back, forget};
ghost use Rattle.kept.specs.Block as kept;
ghost use Rattle.kept.specs.Block.{block_size, text_of, Owes};
ghost use Rattle.files.specs.Answers.{over};
ghost use Rattle.lanes_c.specs.Exported.{counts_at, tally_of, four, all_counts, packed, packed_searched, said, Called};

use formats::refusals::Refusal;
use kept::{STATE, bring, come_back, forget, keep, power_on};
use lanes::budget_calls::budget_by;
use lanes::graph_calls::answer_graph_by;
use lanes::stock_calls::stock_by;
use lanes::tallies::{counted, outcome_of};
use lanes::{Answer, Counts, Tally, check};
use std::array;

// kept: four places by their numbers; by as_chunks they need a law over chunks, which did not close
fn counts_at(all: &[u32; 16], at: usize) -> Counts
    requires { at ≤ 12 }
    ensures { result ≡ counts_at all.now at }
{
    Counts {
        paths: all[at],
        barriers: all[at + 1],
        stocks: all[at + 2],
        refusals: all[at + 3],
    }
}

fn tally_of(all: &[u32; 16]) -> Tally
    ensures { result ≡ tally_of all.now }
{
    Tally {
        sets: array::from_fn(|caller| counts_at(all, 4 * caller)),
    }
}

fn count_at(tally: &Tally, at: usize) -> u32
    requires { at < 16 }
    ensures { result ≡ get_or (four (counts_of tally.now (at / 4))) (at % 4) 0 }
{
    let counts = tally.sets[at / 4];
    [
        counts.paths,
        counts.barriers,
        counts.stocks,
        counts.refusals,
    ][at % 4]
}

fn put_tally(all: &mut [u32; 16], tally: Tally)
    ensures { all.new ≡ all_counts tally }
{
    *all = array::from_fn(|at| count_at(&tally, at));
}

// kept: 0 for no refusal, as the C interface has it
fn number_of<T: Copy>(answer: Result<T, Refusal>) -> u8
    ensures { result ≡ refusal_in answer }
{
    match answer {
        Ok(_) => 0,
        Err(refusal) => u8::from(refusal),
    }
}

// kept: `as u64` of a usize, here and in lanes_budget, since there is no From
fn pack(answer: Result<usize, Refusal>) -> u64
    requires { value_or 0 answer ≤ room }
    ensures value { result ≡ packed (told_of answer) }
    ensures small { result < 1099511627776 }
{
    256 * (answer.unwrap_or(0) as u64) + u64::from(number_of(answer))
}

fn told(answer: Result<Answer, Refusal>, caller: u32, all: &mut [u32; 16]) -> u64
    requires { (value_or no_answer answer).size ≤ room }
    ensures value { result ≡ packed (told_in answer) }
    ensures small { result < 1099511627776 }
    ensures counted { all.new ≡ all_counts (tallied (tally_of all.old) caller (outcome_in answer)) }
{
    put_tally(all, counted(tally_of(all), caller, outcome_of(answer)));
    pack(answer.map(|answer| answer.size))
}

#[unsafe(no_mangle)]
pub extern "C" fn lanes_graph(
    file: &[u8],
    caller: u32,
    out: &mut [u8],
    tally: &mut [u32; 16],
) -> u64
    ensures { Called packed (GraphOwes caller file.now out.old) (tally_after (tally_of tally.old) (call caller graph file.now (length out.old))) result out.new tally.new }
{
    told(answer_graph_by(file, caller, out), caller, tally)
}

// kept beside lanes_graph, as lanes_budget: each is a name of the C interface
#[unsafe(no_mangle)]
pub extern "C" fn lanes_stock(
    file: &[u8],
    caller: u32,
    out: &mut [u8],
    tally: &mut [u32; 16],
) -> u64
    ensures { Called packed (StockOwes caller file.now out.old) (tally_after (tally_of tally.old) (call caller stock file.now (length out.old))) result out.new tally.new }
{
    told(stock_by(file, caller, out), caller, tally)
}

#[unsafe(no_mangle)]
pub extern "C" fn lanes_budget(
    file: &[u8],
    caller: u32,
    most: u32,
    out: &mut [u8],
    tally: &mut [u32; 16],
) -> u64
    ensures { Called packed_searched (BudgetOwes caller most file.now out.old) (tally_after (tally_of tally.old) (call caller (budget most) file.now (length out.old))) result out.new tally.new }
{
    let answer = budget_by(file, caller, most, out);
    let searches = answer.map_or(0, |searched| searched.searches);
    1099511627776 * (searches as u64) + told(answer.map(Answer::from), caller, tally)
}

#[unsafe(no_mangle)]
pub extern "C" fn lanes_check(graph: &[u8], cert: &[u8]) -> u8
    ensures { result ≡ said (check_post graph.now cert.now) }
{
    match check(graph, cert) {
        Ok(holds) => u8::from(holds),
        Err(refusal) => u8::from(refusal),
    }
}

#[unsafe(no_mangle)]
pub extern "C" fn lanes_power_on(state: &mut [u8; STATE])
    ensures { state.new ≡ replicate block_size 0 }
{
    power_on(state);
}

#[unsafe(no_mangle)]
pub extern "C" fn lanes_bring(state: &mut [u8; STATE], file: &[u8]) -> u8
    ensures { Owes state.old (bring file.now) result state.new }
{
    number_of(bring(state, file))
}

#[unsafe(no_mangle)]
pub extern "C" fn lanes_keep(state: &mut [u8; STATE], name: u8, file: &[u8]) -> u8
    ensures { Owes state.old (keep_as name file.now) result state.new }
{
    number_of(keep(state, name, file))
}

#[unsafe(no_mangle)]
pub extern "C" fn lanes_come_back(state: &[u8; STATE], name: u8, out: &mut [u8]) -> u64
    ensures value { result ≡ packed (kept.told_of state.now (come_back name (length out.old))) }
    ensures bytes { out.new ≡ over (text_of state.now (come_back name (length out.old))) out.old }
{
    pack(come_back(state, name, out))
}

#[unsafe(no_mangle)]
pub extern "C" fn lanes_forget(state: &mut [u8; STATE], name: u8) -> u8
    ensures { Owes state.old (forget name) result state.new }
{
    number_of(forget(state, name))
}
