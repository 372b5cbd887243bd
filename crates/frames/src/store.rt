// Body frames stored in a slice that the caller lends. A call stores the run of frames of one kind that begins at `at`: it stops at the first
// line of another kind, as the end frame is, so that runs of two kinds are stored by two calls that pass once over the bytes together.
//   Run         a run that was stored
//   store_by    frames with two numbers of two digits, or with one of four, of a kind by its number
//   store       the same of a kind
ghost use Rattle.std.specs.Prelude.{◌≤◌, length};
ghost use Rattle.formats.specs.Kinds.{kind_number};
ghost use Rattle.counting.specs.declared.Pair.{Pair};
ghost use Rattle.frames.specs.Stores.{run_at, Storable, Gives, Stored};

use crate::lines::Lines;
use crate::numbers::number_at;
use counting::Pair;
use counting::slice_vec::SliceVec;
use formats::kinds::Kind;

// A run of lines: how many, and where the line behind it begins.
// kept beside shape::Shape: a run tells where it ended, a shape where its lines begin
#[derive(Clone, Copy)]
pub struct Run {
    pub count: usize,
    pub next: usize,
}

// The frames' numbers, each two of two digits made what the slice holds.
// kept beside store: a kind by its number, so that no more is asked of a caller than was
pub fn store_by<T: From<Pair> + Copy>(g: &[u8], at: usize, kind: usize, out: &mut [T]) -> Run
    requires { Storable g.now at × (length (run_at kind g.now at) ≤ length out.old) }
    ensures stored { (of : Pair → T) → Gives T.from_gives of → Stored of kind g.now at out.old out.new result.count result.next }
    ensures few { result.count ≤ length out.new }
{
    let mut stored = SliceVec::new(out);
    // invariant: proofs/Stores Passing, Filling; falls: lines left
    for line in (Lines { file: g, at }) {
        if number_at::<2>(g, line.at) != kind {
            return Run {
                count: stored.len,
                next: line.at,
            };
        }
        // kept: no From to fewer bits, and try_from asks anew what two digits settle
        let first = number_at::<2>(g, line.at + 2) as u8;
        let second = number_at::<2>(g, line.at + 4) as u8;
        stored.push(T::from(Pair { first, second }));
    }
    Run {
        count: stored.len,
        next: g.len(),
    }
}

pub fn store<T: From<Pair> + Copy>(g: &[u8], at: usize, kind: Kind, out: &mut [T]) -> Run
    requires { Storable g.now at × (length (run_at (kind_number kind) g.now at) ≤ length out.old) }
    ensures stored { (of : Pair → T) → Gives T.from_gives of → Stored of (kind_number kind) g.now at out.old out.new result.count result.next }
    ensures few { result.count ≤ length out.new }
{
    store_by(g, at, usize::from(kind), out)
}
