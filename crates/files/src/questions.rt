// Questions 9 to 14 and 16, put to the numbers of a file that stand in lent slices (document 01, "Questions put to a call"; 16: document 02, L5). Each
// test answers one question, as the definitions have it; the last function asks three.
//   are_named, are_nodes     9: every number of pairs, or end of arcs, exists
//   are_mates, are_mated     10: each odd-numbered arc is the mate of the one before
//   have_two_ends            16: no arc leads from a node to itself
//   pairs_rise               11 and 12: smaller camera first, rising strictly
//   are_fits                 13: each lit pair is found among fits, by the look-up
//   none_shared              14: no camera in two pairs
//   are_below, in_order      9 of a path and of a barrier
//   ask_lit                  12 to 14, of pairs against fits
ghost use Rattle.std.specs.Prelude.{◌≡◌, ℕ, ltb};
ghost use Rattle.std.specs.List.{list_all};
ghost use Rattle.counting.specs.Pairs.{pair_named};
ghost use Rattle.formats.specs.Refusals.{refusal_in};
ghost use Rattle.frames.specs.Questions.{first_no};
ghost use Rattle.skew.specs.Graph.{are_mates, mates_fit, has_two_ends};
ghost use Rattle.matching.specs.Stock.{none_shared, pairs_rise};
ghost use Rattle.matching.specs.LookUp.{is_found};
ghost use Rattle.files.specs.LentFits.{fits_of};
ghost use Rattle.files.specs.GraphFile.{ends_named};
ghost use Rattle.files.specs.StockFile.{lit_questions};
ghost use Rattle.files.specs.CertificateFile.{names_in_order};

use crate::look_up::LentFits;
use arcs::node::mate_of;
use counting::Pair;
use formats::limits::CLASS_MOST;
use formats::refusals::Refusal;
use frames::ask::ask;
use skew::Arc;

// 9, of cameras: is every number of the pairs below the bound?
pub fn are_named(pairs: &[Pair], bound: usize) -> bool
    ensures { result ≡ list_all (pair_named bound) pairs.now }
{
    pairs.iter().all(|pair| usize::from(pair.first) < bound && usize::from(pair.second) < bound)
}

// 9, of arcs: is every end below the bound?
// kept: a function beside are_named and are_below, since one over a trait, a closure or an iterator of numbers is longer than these three chains
pub fn are_nodes(arcs: &[Arc], bound: usize) -> bool
    ensures { result ≡ list_all (ends_named bound) arcs.now }
{
    arcs.iter().all(|arc| usize::from(arc.tail) < bound && usize::from(arc.head) < bound)
}

// 16: has every arc two different ends?
pub fn have_two_ends(arcs: &[Arc]) -> bool
    ensures { result ≡ list_all has_two_ends arcs.now }
{
    arcs.iter().all(|arc| arc.tail != arc.head)
}

// Is the second arc the mate of the first?
fn are_mates(one: Arc, other: Arc) -> bool
    ensures { result ≡ are_mates one other }
{
    let (tail, head) = one.ends();
    other.ends() == (mate_of(head), mate_of(tail))
}

// 10: is each odd-numbered arc the mate of the one before?
pub fn are_mated(arcs: &[Arc]) -> bool
    ensures { result ≡ mates_fit arcs.now }
{
    arcs.chunks_exact(2).all(|two| are_mates(two[0], two[1]))
}

// 11 and 12: has each pair the smaller camera first, and do the pairs rise strictly?
pub fn pairs_rise(pairs: &[Pair]) -> bool
    ensures { result ≡ pairs_rise pairs.now }
{
    pairs.iter().all(|pair| pair.first < pair.second) && pairs.windows(2).all(|two| two[0] < two[1])
}

// 13: is each lit pair found among the fits? Where fits rise, that is whether it is one of them.
pub fn are_fits(fits: LentFits<'_>, lit: &[Pair]) -> bool
    ensures { result ≡ list_all (is_found (fits_of fits.entry)) lit.now }
{
    lit.iter().all(|pair| fits.look_up(*pair).found)
}

// 14: is no camera in two pairs? A table has a flag for each camera of the pairs passed.
pub fn none_shared(pairs: &[Pair]) -> bool
    ensures { result ≡ none_shared pairs.now }
{
    let mut flags = [false; 256]; // kept: one for each byte, since a camera's number may be any
    // invariant: proofs/SharedCameras shares_none, of the flags and the pairs that are left; falls: pairs left
    for pair in pairs {
        let (first, second) = pair.numbers();
        if flags[first] || flags[second] {
            return false;
        }
        flags[first] = true;
        flags[second] = true;
    }
    true
}

// 9, of a path: is every arc number below the number of arcs?
pub fn are_below(numbers: &[u16], bound: usize) -> bool
    ensures { result ≡ list_all (λ (i : ℕ). ltb i bound) numbers.now }
{
    numbers.iter().all(|number| usize::from(*number) < bound)
}

// 9, of a barrier: does line i name node i, with a class at most 130?
pub fn in_order(lines: &[Pair]) -> bool
    ensures { result ≡ names_in_order 0 lines.now }
{
    lines.iter().enumerate().all(|(node, line)| usize::from(line.first) == node
        && line.second <= CLASS_MOST)
}

// 12 to 14, of pairs against fits.
#[tactic(auto, using(counting::proofs::Booleans::list_all_is))]
pub fn ask_lit(fits: LentFits<'_>, lit: &[Pair]) -> Result<(), Refusal>
    ensures { refusal_in result ≡ first_no (lit_questions (fits_of fits.entry) lit.now) }
{
    ask(pairs_rise(lit), Refusal::PairsRise)?;
    ask(are_fits(fits, lit), Refusal::PairsFit)?;
    ask(none_shared(lit), Refusal::Shared)
}
