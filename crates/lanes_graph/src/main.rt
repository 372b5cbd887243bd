// Reads a graph from standard input and prints a regular path from the source to its mate, or the canonical barrier; or the refusal.
#![tactic(auto)]

use lanes_print::print_graph;
use reading::answer;
use std::io;

fn main(rt: HostRuntime) -> io::Result<()> {
    answer(&mut rt.stdin(), &mut rt.stdout(), print_graph)
}
