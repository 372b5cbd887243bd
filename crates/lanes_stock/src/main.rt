// Reads a stock from standard input and prints a plan, as many pairs as possible with every lit camera still lit, directly followed by the standing
// sheet; or the refusal.
#![tactic(auto)]

use lanes_print::print_stock;
use reading::answer;
use std::io;

fn main(rt: HostRuntime) -> io::Result<()> {
    answer(&mut rt.stdin(), &mut rt.stdout(), print_stock)
}
