// Certificates read: questions 2 to 9 of a path and of a barrier, and what they hold stored (document 01, "Questions put to a call"). A path's
// questions ask how many arcs the graph has, a barrier's how many nodes.
//   read_path       a path
//   put_classes     the classes of a barrier's lines
//   read_barrier    a barrier
ghost use Rattle.std.specs.Prelude.{◌≤◌, length};
ghost use Rattle.formats.specs.Limits.{steps_most};
ghost use Rattle.formats.specs.Refusals.{refusal_in, value_or};
ghost use Rattle.counting.specs.Pairs.{seconds_of};
ghost use Rattle.frames.specs.Stores.{StoredFirst};
ghost use Rattle.files.specs.CertificateReaders.{PathRead, BarrierRead};

use crate::questions::{are_below, in_order};
use counting::Pair;
use counting::slice_vec::SliceVec;
use formats::kinds::Kind;
use formats::limits::STEPS_MOST;
use formats::refusals::Refusal;
use frames::ask::ask;
use frames::layout::{BARRIER, PATH};
use frames::shape::shape_of;
use frames::store::store;

// How many arc numbers a path has; they stand in the slice.
pub fn read_path(f: &[u8], arcs: &mut [u16], bound: usize) -> Result<usize, Refusal>
    requires { steps_most ≤ length arcs.old }
    ensures { PathRead f.now arcs.old arcs.new bound (refusal_in result) (value_or 0 result) }
{
    let path = shape_of(f, PATH)?;
    ask(path.count <= STEPS_MOST, Refusal::Size)?;
    store(f, path.next, Kind::Step, arcs);
    ask(are_below(&arcs[..path.count], bound), Refusal::Names)?;
    Ok(path.count)
}

// The second number of each line, at the front of the other slice.
fn put_classes(lines: &[Pair], classes: &mut [u8])
    requires { length lines.now ≤ length classes.old }
    ensures { StoredFirst (seconds_of lines.now) classes.old classes.new }
{
    let mut stored = SliceVec::new(classes);
    // invariant: with the classes that are left, all of them are stored; falls: lines left
    for line in lines {
        stored.push(line.second);
    }
}

// How many nodes a barrier has; its lines stand in the first slice, and their classes in the other.
pub fn read_barrier(
    f: &[u8],
    lines: &mut [Pair],
    classes: &mut [u8],
    bound: usize,
) -> Result<usize, Refusal>
    requires { (bound ≤ length lines.old) × (bound ≤ length classes.old) }
    ensures { BarrierRead f.now lines.old classes.old lines.new classes.new bound (refusal_in result) (value_or 0 result) }
{
    let barrier = shape_of(f, BARRIER)?;
    ask(barrier.count == bound, Refusal::Size)?;
    store(f, barrier.next, Kind::Class, lines);
    let named = &lines[..barrier.count];
    put_classes(named, classes);
    ask(in_order(named), Refusal::Names)?;
    Ok(barrier.count)
}
