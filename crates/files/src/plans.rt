// Plan files handed in (document 02, L8): questions 2 to 4, 6, 7, 9 and 12 to 14, against a stock's cameras and fits, and the pairs stored.
//   ask_pairing      questions 9 and 12 to 14
//   read_plan        all of them, in order
ghost use Rattle.std.specs.Prelude.{◌≡◌, ◌≤◌, length};
ghost use Rattle.formats.specs.Limits.{plan_pairs_most};
ghost use Rattle.formats.specs.Refusals.{refusal_in, value_or};
ghost use Rattle.frames.specs.Questions.{first_no};
ghost use Rattle.files.specs.LentFits.{fits_of};
ghost use Rattle.files.specs.PlanFile.{pairing_questions};
ghost use Rattle.files.specs.Readers.{PlanRead};

use crate::look_up::LentFits;
use crate::questions::{are_named, ask_lit};
use counting::Pair;
use formats::kinds::Kind;
use formats::refusals::Refusal;
use frames::ask::ask;
use frames::layout::PLAN;
use frames::numbers::number_at;
use frames::shape::shape_of;
use frames::store::store;

// 9 and 12 to 14, of pairs against cameras and fits.
#[tactic(auto, using(counting::proofs::Booleans::list_all_is))]
fn ask_pairing(cameras: usize, fits: LentFits<'_>, pairs: &[Pair]) -> Result<(), Refusal>
    ensures { refusal_in result ≡ first_no (pairing_questions cameras (fits_of fits.entry) pairs.now) }
{
    ask(are_named(pairs, cameras), Refusal::Names)?;
    ask_lit(fits, pairs)
}

// How many pairs a plan has; they stand in the last slice. The header's two digits tell how many there are, so that 255 elements are enough.
// kept: cameras and fits side by side, since a stock without lit pairs is no Stock
pub fn read_plan(
    f: &[u8],
    cameras: usize,
    fits: LentFits<'_>,
    pairs: &mut [Pair],
) -> Result<usize, Refusal>
    requires { plan_pairs_most ≤ length pairs.old }
    ensures { PlanRead cameras (fits_of fits.entry) f.now pairs.old pairs.new (refusal_in result) (value_or 0 result) }
{
    let plan = shape_of(f, PLAN)?;
    ask(number_at::<2>(f, 2) == plan.count, Refusal::Count)?;
    store(f, plan.next, Kind::Pair, pairs);
    ask_pairing(cameras, fits, &pairs[..plan.count])?;
    Ok(plan.count)
}
