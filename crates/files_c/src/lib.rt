// The look-up of question 13 in two columns, for C and Rust, so that the outside tests can ask how many fits it looks at: no call of the engine passes that on.
//   files_look_up    a pair looked up among the fits of two slices
#![tactic(auto)]

ghost use Rattle.std.specs.Prelude.{◌≡◌, [], ◌∷◌};
ghost use Rattle.counting.specs.Tests.{pick};
ghost use Rattle.counting.specs.Pairs.{pair, zip_pairs};
ghost use Rattle.matching.specs.LookUp.{is_found, looked};

use counting::Pair;
use files::look_up::look_up_columns;

// Fit i is the pair of both slices at place i, as far as both go. It returns 1 where (u, v) is found, else 0, and leaves the number of fits looked at.
#[unsafe(no_mangle)]
pub extern "C" fn files_look_up(
    firsts: &[u8],
    seconds: &[u8],
    u: u8,
    v: u8,
    count: &mut [u64; 1],
) -> u8
    ensures { (result ≡ pick (is_found (zip_pairs firsts.now seconds.now) (pair u v)) 1 0) × (count.new ≡ looked (zip_pairs firsts.now seconds.now) (pair u v) ∷ []) }
{
    let sought = Pair {
        first: u,
        second: v,
    };
    let answer = look_up_columns(firsts, seconds, sought);
    *count = [answer.looked as u64]; // kept: no From, and try_from would ask what always holds
    u8::from(answer.found)
}
