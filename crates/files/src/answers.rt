// Answers written at the front of a lent buffer (document 01, "Frames"): a path, a barrier, a plan, a plan directly followed by the
// standing sheet (document 02, L6), and what a budget of searches comes to (L4).
//   put_body                      what stands behind a file's header: a frame for each value, and the end frame
//   put_numbered, put_pairs       that of numbered values; a whole file of pairs
//   put_path, put_barrier, put_plan, put_plan_columns, put_plan_and_sheet, put_budget     whole answers
ghost use Rattle.std.specs.Prelude.{◌≡◌, List, ℕ, ◌+◌, ◌*◌, ◌≤◌, ◌++◌, length};
ghost use Rattle.formats.specs.Kinds.{kind_number};
ghost use Rattle.counting.specs.SliceVecs.{Extended};
ghost use Rattle.counting.specs.Pairs.{zip_pairs};
ghost use Rattle.counting.specs.declared.Pair.{Pair};
ghost use Rattle.frames.specs.Frames.{frame6};
ghost use Rattle.files.specs.Answers.{each_line, body_text, text_of, TakesEach, MakesLines, WrittenFirst};
ghost use Rattle.files.specs.StockFile.{sheet_with, plan_text, budget_text};
ghost use Rattle.files.specs.CertificateFile.{path_text, barrier_text};

use counting::Pair;
use counting::slice_vec::SliceVec;
use frames::layout::{BARRIER, BUDGET, Layout, PATH, PLAN, SHEET};
use frames::write::{fields_of4, put_barrier_line, put_frame, put_frame_of4};

// A frame for each value, of the two numbers that `fields` gives at the value's number, from 0, and the value; and how many they are.
fn put_body<T, F: Fn(usize, &T) -> (usize, usize)>(
    out: &mut SliceVec<'_, u8>,
    layout: Layout,
    values: &[T],
    fields: F,
)
    requires room { out.old.len + (7 * length values.now + 7) ≤ length out.old.slice.now }
    requires callable { TakesEach F.Fn fields values.now }
    ensures { (line : ℕ → T → List ℕ) → MakesLines F.Fn fields (kind_number layout.first) line → Extended out.old (body_text layout (each_line line 0 values.now) (length values.now)) out.new }
{
    // invariant: with the lines that are left, all are written, and the end frame has room behind them; falls: values left
    for (i, value) in values.iter().enumerate() {
        let (first, second) = fields(i, value);
        put_frame(out, layout.first, &[first, second]);
    }
    put_frame_of4(out, layout.end, values.len());
}

// A frame for each value has its number, from 0, and the value.
fn put_numbered(out: &mut SliceVec<'_, u8>, layout: Layout, values: &[u8])
    requires { out.old.len + (7 * length values.now + 7) ≤ length out.old.slice.now }
    ensures { Extended out.old (body_text layout (each_line (frame6 (kind_number layout.first)) 0 values.now) (length values.now)) out.new }
{
    put_body(out, layout, values, |i, value| (i, usize::from(*value)));
}

// Behind the header with its numbers, a frame for each pair.
// kept beside put_numbered: it writes a header too, as plan and budget have it, where a barrier has its fixed line; each frame is made of other values
fn put_pairs(out: &mut SliceVec<'_, u8>, layout: Layout, numbers: &[usize], pairs: &[Pair])
    requires { out.old.len + (10 + 2 * length numbers.now + 7 * length pairs.now) ≤ length out.old.slice.now }
    ensures { Extended out.old (text_of layout numbers.now (each_line (λ (i : ℕ) (x : Pair). frame6 (kind_number layout.first) x.first x.second) 0 pairs.now) (length pairs.now)) out.new }
{
    put_frame(out, layout.header, numbers);
    put_body(out, layout, pairs, |_, pair| pair.numbers());
}

#[tactic(auto, using(frames::proofs::Writes::written_sizes))]
pub fn put_path(out: &mut [u8], arcs: &[usize]) -> usize
    requires { 10 + 7 * length arcs.now ≤ length out.old }
    ensures { WrittenFirst (path_text arcs.now) out.old out.new result }
{
    let mut text = SliceVec::new(out);
    put_frame(&mut text, PATH.header, &[]);
    put_body(&mut text, PATH, arcs, |_, arc| fields_of4(*arc));
    text.len
}

#[tactic(auto, using(frames::proofs::Writes::written_sizes))]
pub fn put_barrier(out: &mut [u8], classes: &[u8]) -> usize
    requires { 10 + 7 * length classes.now ≤ length out.old }
    ensures { WrittenFirst (barrier_text classes.now) out.old out.new result }
{
    let mut text = SliceVec::new(out);
    put_barrier_line(&mut text);
    put_numbered(&mut text, BARRIER, classes);
    text.len
}

// kept: no crate calls it, since put_plan_columns and put_plan_and_sheet write what the calls answer
pub fn put_plan(out: &mut [u8], pairs: &[Pair]) -> usize
    requires { 12 + 7 * length pairs.now ≤ length out.old }
    ensures text { WrittenFirst (plan_text pairs.now) out.old out.new result }
    ensures size { result ≡ 12 + 7 * length pairs.now }
{
    let mut text = SliceVec::new(out);
    put_pairs(&mut text, PLAN, &[pairs.len()], pairs);
    text.len
}

// The same of pairs whose first numbers stand in one slice and whose second ones in another.
// kept beside put_plan: pairs as the block of kept pairings has them, which else were copied to be written
#[tactic(auto, using(frames::proofs::Writes::written_sizes))]
pub fn put_plan_columns(out: &mut [u8], firsts: &[u8], seconds: &[u8]) -> usize
    requires enough { length firsts.now ≤ length seconds.now }
    requires room { 12 + 7 * length firsts.now ≤ length out.old }
    ensures text { WrittenFirst (plan_text (zip_pairs firsts.now seconds.now)) out.old out.new result }
    ensures size { result ≡ 12 + 7 * length firsts.now }
{
    let mut text = SliceVec::new(out);
    put_frame(&mut text, PLAN.header, &[firsts.len()]);
    put_body(&mut text, PLAN, firsts, |i, first| {
        (usize::from(*first), usize::from(seconds[i]))
    });
    text.len
}

// The sheet's number is that of the plan's pairs.
pub fn put_plan_and_sheet(out: &mut [u8], pairs: &[Pair], marks: &[u8]) -> usize
    requires { 24 + 7 * (length pairs.now + length marks.now) ≤ length out.old }
    ensures { WrittenFirst (plan_text pairs.now ++ sheet_with (length pairs.now) marks.now) out.old out.new result }
{
    let mut text = SliceVec::new(out);
    put_pairs(&mut text, PLAN, &[pairs.len()], pairs);
    put_frame(&mut text, SHEET.header, &[pairs.len()]);
    put_numbered(&mut text, SHEET, marks);
    text.len
}

pub fn put_budget(out: &mut [u8], searches: usize, missing: usize, pairs: &[Pair]) -> usize
    requires { 16 + 7 * length pairs.now ≤ length out.old }
    ensures { WrittenFirst (budget_text searches missing pairs.now) out.old out.new result }
{
    let mut text = SliceVec::new(out);
    put_pairs(&mut text, BUDGET, &[pairs.len(), searches, missing], pairs);
    text.len
}
