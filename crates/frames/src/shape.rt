// Questions 2 to 4 and 6, 7: the shape of a file, the same for every kind of file. The header is read first, then the caller asks question 5 of its
// numbers, then the body is read; a file that has no question 5 is read in one step.
//   is_frame, ask_end     a line as a frame of a kind, and as the end frame
//   Body, read_body       questions 6 and 7, of the lines from the second on
//   body_of               the same of a file
//   header_of             questions 2, 3 and 4
//   Shape, shape_of       both steps of a file that has no question 5
ghost use Rattle.std.specs.Prelude.{◌≡◌, ◌≤◌, length, drop};
ghost use Rattle.formats.specs.Kinds.{kind_number};
ghost use Rattle.formats.specs.Refusals.{refusal_in, value_or};
ghost use Rattle.frames.specs.Frames.{is_frame_of};
ghost use Rattle.frames.specs.Lines.{part};
ghost use Rattle.frames.specs.Shape.{form_of, end_fault, no_lines, no_shape, HeaderAnswer, BodyAnswer, ShapeAnswer};

use crate::ask::ask;
use crate::layout::Layout;
use crate::lines::{Line, Lines, line_at, whole};
use crate::numbers::number_at;
use formats::kinds::Kind;
use formats::limits::FILE_MOST;
use formats::refusals::Refusal;

// Is the line a frame of this kind, with so many digits after the kind?
fn is_frame(f: &[u8], line: Line, kind: Kind, size: usize) -> bool
    requires { (line.at ≤ line.end) × (line.end ≤ length f.now) }
    ensures { result ≡ is_frame_of (kind_number kind) size (part line.at line.end f.now) }
{
    let n = line.end - line.at;
    2 <= n && n - 2 == size && number_at::<2>(f, line.at) == usize::from(kind)
}

// Of the last line: is it an end frame of this kind, and does it give `count` body lines?
fn ask_end(f: &[u8], line: Line, kind: Kind, count: usize) -> Result<(), Refusal>
    requires { (line.at ≤ line.end) × (line.end ≤ length f.now) }
    ensures { refusal_in result ≡ end_fault (kind_number kind) count (part line.at line.end f.now) }
{
    ask(is_frame(f, line, kind, 4), Refusal::Body)?;
    ask(number_at::<4>(f, line.at + 2) == count, Refusal::Count)
}

// `count` body lines stand before the end frame, `firsts` of them of the first kind.
#[derive(Clone, Copy)]
pub struct Body {
    pub count: usize,
    pub firsts: usize,
}

// Questions 6 and 7, in one pass over the lines from the second on.
fn read_body(g: &[u8], layout: Layout) -> Result<Body, Refusal>
    ensures { BodyAnswer (form_of layout) g.now (refusal_in result) (value_or no_lines result).count (value_or no_lines result).firsts }
{
    let second = layout.second.unwrap_or(layout.first);
    // kept: counted by hand, both; lines numbered by enumerate would leave one of the two beside it
    let mut count = 0;
    let mut firsts = 0;
    let mut kind = layout.first;
    // invariant: proofs/BodyFrames BodyLeft; falls: lines left
    for line in (Lines { file: g, at: 0 }) {
        if line.next == g.len() {
            ask_end(g, line, layout.end, count)?;
            return Ok(Body { count, firsts });
        }
        if !is_frame(g, line, kind, 4) {
            ask(is_frame(g, line, second, 4), Refusal::Body)?;
            kind = second;
        }
        count += 1;
        if kind == layout.first {
            firsts += 1;
        }
    }
    Err(Refusal::Body)
}

// The same of a file whose second line begins at `next`.
#[tactic(auto, using(crate::proofs::LinePlaces::part_tail))]
pub fn body_of(f: &[u8], next: usize, layout: Layout) -> Result<Body, Refusal>
    requires { next ≤ length f.now }
    ensures { BodyAnswer (form_of layout) (drop next f.now) (refusal_in result) (value_or no_lines result).count (value_or no_lines result).firsts }
{
    read_body(&f[next..], layout)
}

// Questions 2, 3 and 4; where the second line begins.
pub fn header_of(f: &[u8], layout: Layout) -> Result<usize, Refusal>
    ensures { HeaderAnswer (form_of layout) f.now (refusal_in result) (value_or 0 result) }
{
    ask(f.len() <= FILE_MOST, Refusal::Length)?;
    ask(whole(f), Refusal::Lines)?;
    ask(!f.is_empty(), Refusal::Header)?;
    let line = line_at(f, 0);
    ask(
        is_frame(f, line, layout.header, layout.header_size),
        Refusal::Header,
    )?;
    Ok(line.next)
}

// Where the second line begins, and how many body lines stand before the end frame.
#[derive(Clone, Copy)]
pub struct Shape {
    pub next: usize,
    pub count: usize,
}

// Header and body of a file that has no question 5.
pub fn shape_of(f: &[u8], layout: Layout) -> Result<Shape, Refusal>
    ensures { ShapeAnswer (form_of layout) f.now (refusal_in result) (value_or no_shape result).next (value_or no_shape result).count }
{
    let next = header_of(f, layout)?;
    let body = body_of(f, next, layout)?;
    Ok(Shape {
        next,
        count: body.count,
    })
}
