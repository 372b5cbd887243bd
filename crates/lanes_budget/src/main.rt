// Takes a number of searches as its argument, reads a stock from standard input and prints the pairs that so many searches come to; or the refusal.
#![tactic(auto)]

ghost use Rattle.io.specs.Counts.{IsPrefixLen};

use lanes_print::print_budget;
use reading::answer;
use std::env::{Env, FillError};
use std::io;

// One that is missing or longer than the text, or one of several, counts as empty.
fn read_argument<E: Env>(env: &E, text: &mut [u8]) -> usize
    ensures { IsPrefixLen result text.new }
{
    let is_alone = matches!(env.arg(2, &mut []), Err(FillError::NotPresent));
    match env.arg(1, text) {
        Ok(size) if is_alone => size,
        _ => 0,
    }
}

fn main(rt: HostRuntime) -> io::Result<()> {
    let mut argument = [0u8; 9];
    let digits = read_argument(&rt, &mut argument);
    answer(&mut rt.stdin(), &mut rt.stdout(), |file, out| {
        print_budget(&argument[..digits], file, out)
    })
}
