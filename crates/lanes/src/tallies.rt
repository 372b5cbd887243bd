// The tally, counted up (document 01, "Questions put to a call"; document 02, L7).
//   add          one caller's counts, with one more of the count that an outcome names
//   counted      the tally by value, with that caller's counts added to
//   count        the same where the caller lends the tally
//   outcome_of   what a call came to, by its result
ghost use Rattle.std.specs.Prelude.{◌≡◌};
ghost use Rattle.lanes.specs.Tallies.{added, tallied};
ghost use Rattle.lanes.specs.Calls.{outcome_in};

use crate::{Answer, Counts, Outcome, Tally};
use formats::limits::CALLERS;
use formats::refusals::Refusal;

// One more of the named count; a count at its largest stays there.
fn add(counts: Counts, which: Outcome) -> Counts
    ensures { result ≡ added counts which }
{
    match which {
        Outcome::Path => Counts {
            paths: counts.paths.saturating_add(1),
            ..counts
        },
        Outcome::Barrier => Counts {
            barriers: counts.barriers.saturating_add(1),
            ..counts
        },
        Outcome::Stock => Counts {
            stocks: counts.stocks.saturating_add(1),
            ..counts
        },
        Outcome::Refusal => Counts {
            refusals: counts.refusals.saturating_add(1),
            ..counts
        },
    }
}

// By value: one more of the caller's named count; a number that no caller has counts nowhere.
pub fn counted(mut tally: Tally, caller: u32, which: Outcome) -> Tally
    ensures { result ≡ tallied tally caller which }
{
    let at = caller as usize;
    // kept: by an index, since nothing is known of what stands in an array after its get_mut
    if at < CALLERS {
        tally.sets[at] = add(tally.sets[at], which);
    }
    tally
}

// Where it is lent: the same.
// kept beside counted: document 01's form, by value and then a thin function over a lent tally
pub fn count(tally: &mut Tally, caller: u32, which: Outcome)
    ensures { tally.new ≡ tallied tally.old caller which }
{
    *tally = counted(*tally, caller, which);
}

pub fn outcome_of(answer: Result<Answer, Refusal>) -> Outcome
    ensures { result ≡ outcome_in answer }
{
    match answer {
        Ok(answer) => answer.outcome,
        Err(_) => Outcome::Refusal,
    }
}
