// What the programs print (document 01, "Questions put to a call": Programs), at the front of a lent buffer: an answer's lines, or the one line of a
// refusal or of the check. Each function answers how many bytes there are to print. The programs call as service (document 02, L7), and count nothing.
//   print_graph, print_stock, print_budget, print_check   what each program prints
//   argument                                              a number of searches as it is typed
//   show, show_verdict                                    what a call told, and what the check says
//   put_line                                              a line of a kind and a number, alone
#![tactic(auto)]

mod argument;

ghost use Rattle.std.specs.Prelude.{◌≤◌, length};
ghost use Rattle.formats.specs.Kinds.{kind_number};
ghost use Rattle.formats.specs.Limits.{room};
ghost use Rattle.frames.specs.Frames.{frame4};
ghost use Rattle.lanes.specs.Entry.{verdict_of, verdict_line};
ghost use Rattle.lanes.specs.Calls.{told_in};
ghost use Rattle.lanes_print.specs.Argument.{most_said};
ghost use Rattle.lanes_print.specs.Printed.{Shows, Prints, PrintsOne, GraphText, StockText, BudgetText, verdict_printed};

use argument::most_said;
use counting::slice_vec::SliceVec;
use formats::kinds::Kind;
use formats::refusals::Refusal;
use frames::write::put_frame;
use lanes::budget_calls::budget_by;
use lanes::graph_calls::answer_graph_by;
use lanes::stock_calls::stock_by;
use lanes::{Answer, CheckRefusal, SERVICE, check};

// A line of a kind and a number.
// kept: that there is room for it is a clause, here and in show and show_verdict, as of the answers (lanes::calls)
fn put_line(out: &mut [u8], kind: Kind, number: u8) -> usize
    requires { 5 ≤ length out.old }
    ensures { PrintsOne (frame4 (kind_number kind) number) out.old out.new result }
{
    let mut line = SliceVec::new(out);
    put_frame(&mut line, kind, &[usize::from(number)]);
    line.len
}

// An answer is printed as it stands; in a refusal's place its line.
fn show(out: &mut [u8], answer: Result<Answer, Refusal>) -> usize
    requires { 5 ≤ length out.old }
    ensures { Shows (told_in answer) out.old out.new result }
{
    match answer {
        Ok(answer) => answer.size,
        Err(refusal) => put_line(out, Kind::Refusal, u8::from(refusal)),
    }
}

// The check's line.
// kept beside show: a check's yes is a line, a call's answer stands already
fn show_verdict(out: &mut [u8], verdict: Result<bool, CheckRefusal>) -> usize
    requires { 5 ≤ length out.old }
    ensures { PrintsOne (verdict_line (verdict_of verdict)) out.old out.new result }
{
    match verdict {
        Ok(holds) => put_line(out, Kind::Verdict, u8::from(holds)),
        Err(refusal) => put_line(out, Kind::Refusal, u8::from(refusal)),
    }
}

pub fn print_graph(file: &[u8], out: &mut [u8]) -> usize
    requires { room ≤ length out.old }
    ensures { Prints (GraphText file.now) out.old out.new result }
{
    let answer = answer_graph_by(file, SERVICE, out);
    show(out, answer)
}

// kept beside print_graph, as print_budget: two lines that name the call and what is promised of the text
pub fn print_stock(file: &[u8], out: &mut [u8]) -> usize
    requires { room ≤ length out.old }
    ensures { Prints (StockText file.now) out.old out.new result }
{
    let answer = stock_by(file, SERVICE, out);
    show(out, answer)
}

pub fn print_budget(argument: &[u8], file: &[u8], out: &mut [u8]) -> usize
    requires { room ≤ length out.old }
    ensures { Prints (BudgetText (most_said argument.now) file.now) out.old out.new result }
{
    let answer = budget_by(file, SERVICE, most_said(argument), out).map(Answer::from);
    show(out, answer)
}

pub fn print_check(graph: &[u8], cert: &[u8], out: &mut [u8]) -> usize
    requires { room ≤ length out.old }
    ensures { PrintsOne (verdict_printed graph.now cert.now) out.old out.new result }
{
    show_verdict(out, check(graph, cert))
}
