// A pair of cameras looked up among fits (document 02, L3).
//   LookUp             whether the pair was found, and how many fits were looked at
//   look_up            from the first fit to the first that is equal or larger
//   look_up_columns    the same where fits stand in two columns
//   LentFits           fits pair by pair, or in two columns
//   pair_up            two rows of numbers, pair by pair
ghost use Rattle.std.specs.Prelude.{◌≡◌, ◌≤◌, length};
ghost use Rattle.counting.specs.Pairs.{zip_pairs};
ghost use Rattle.frames.specs.Stores.{StoredFirst};
ghost use Rattle.matching.specs.LookUp.{LookedUp};
ghost use Rattle.files.specs.LentFits.{fits_of};

use counting::Pair;
use counting::slice_vec::SliceVec;

// kept: a flag beside a count, since how many were looked at is told whether the pair was found or not
#[derive(Clone, Copy)]
pub struct LookUp {
    pub found: bool,
    pub looked: usize,
}

// Is the pair one of the fits? It ends at the first that is not smaller: that one is the pair or, since fits rise, no fit is.
pub fn look_up(fits: &[Pair], pair: Pair) -> LookUp
    ensures { LookedUp fits.now pair result.found result.looked }
{
    // kept: cameras compared one by one; the order that Pair derives takes 8 instructions for each fit passed, this 5 (docs/DECISIONS.md, D40)
    let at = fits.iter().position(|fit| {
        pair.first <= fit.first && (pair.first != fit.first || pair.second <= fit.second)
    });
    match at {
        Some(i) => LookUp {
            found: fits[i] == pair,
            looked: i + 1,
        },
        None => LookUp {
            found: false,
            looked: fits.len(),
        },
    }
}

// Fit i is the pair of both columns at place i, as far as both go.
pub fn look_up_columns(firsts: &[u8], seconds: &[u8], pair: Pair) -> LookUp
    ensures { LookedUp (zip_pairs firsts.now seconds.now) pair result.found result.looked }
{
    let count = firsts.len().min(seconds.len());
    // kept: by the index, since a zip asks both columns for their ends; compared here too, 5 instructions for each fit passed, since a function of a fit's
    // pair reads both cameras of each: a keep of 63 pairs among 3,900 fits takes 819,758 instructions, with such a function 2,096,299
    // invariant: proofs/PairScans AllPassed; falls: fits left
    for i in 0..count {
        if pair.first <= firsts[i] && (pair.first != firsts[i] || pair.second <= seconds[i]) {
            return LookUp {
                found: firsts[i] == pair.first && seconds[i] == pair.second,
                looked: i + 1,
            };
        }
    }
    LookUp {
        found: false,
        looked: count,
    }
}

// Fits among which pairs are looked up: pair by pair as they are read, or in two columns, as the C interface has them for a look-up, and the block that it
// lends for kept pairings.
#[derive(Clone, Copy)]
pub enum LentFits<'a> {
    Pairs(&'a [Pair]),
    Columns(&'a [u8], &'a [u8]),
}

impl LentFits<'_> {
    pub fn look_up(self, pair: Pair) -> LookUp
        ensures { LookedUp (fits_of self.entry) pair result.found result.looked }
    {
        match self {
            LentFits::Pairs(fits) => look_up(fits, pair),
            LentFits::Columns(firsts, seconds) => look_up_columns(firsts, seconds, pair),
        }
    }
}

// The first numbers beside the second ones, as far as both go.
// kept: two slices, for who has columns and needs their pairs; no crate calls it, since look_up_columns and put_plan_columns need none
// kept: their number, and not the part that they fill, for the reason that readers have (graphs::read_graph)
pub fn pair_up(firsts: &[u8], seconds: &[u8], pairs: &mut [Pair]) -> usize
    requires { length (zip_pairs firsts.now seconds.now) ≤ length pairs.old }
    ensures { StoredFirst (zip_pairs firsts.now seconds.now) pairs.old pairs.new × (result ≡ length (zip_pairs firsts.now seconds.now)) }
{
    let mut paired = SliceVec::new(pairs);
    // invariant: with the pairs that are left, all of them are stored; falls: pairs left
    for (&first, &second) in firsts.iter().zip(seconds) {
        paired.push(Pair { first, second });
    }
    paired.len
}
