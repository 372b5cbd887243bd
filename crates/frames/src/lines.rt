// Lines of a file: where one ends, and question 3. What ends a line is told by `line_end` alone; other control characters end none.
//   line_end         the bytes that a line end takes
//   first_control    the next control character
//   Line, line_at    the line at a place
//   Lines            the lines from a place on, one by one
//   whole            question 3
ghost use Rattle.std.specs.Prelude.{◌≡◌, ◌+◌, ◌<◌, ◌≤◌, length, drop, MatchOption};
ghost use Rattle.frames.specs.Frames.{is_whole_file};
ghost use Rattle.frames.specs.Lines.{line_end, control_at, LineAt};

use crate::numbers::is_digit;

// How many bytes the line end takes that stands at the front of `s`: 1 for a line feed, 2 for a carriage return and a line feed.
#[tactic(auto, using(crate::proofs::LineEnds::front_feed, crate::proofs::LineEnds::front_both, crate::proofs::LineEnds::front_none))]
fn line_end(s: &[u8]) -> Option<usize>
    ensures { MatchOption result (line_end s.now ≡ 0) (λ n. (n ≡ line_end s.now) × (0 < n)) }
{
    if s.starts_with(b"\n") {
        Some(1)
    } else if s.starts_with(b"\r\n") {
        Some(2)
    } else {
        None // a carriage return alone, too
    }
}

// The first place from `at` on with a control character, as both bytes of a line end are, or the file's end: one comparison passes a digit.
fn first_control(f: &[u8], at: usize) -> usize
    requires { at ≤ length f.now }
    ensures { result ≡ at + control_at (drop at f.now) }
{
    let s = &f[at..];
    at + s.iter().position(|c| *c < 32).unwrap_or(s.len())
}

// A line: where it begins, where its bytes end, and where what follows its line end begins.
#[derive(Clone, Copy)]
pub(crate) struct Line {
    pub(crate) at: usize,
    pub(crate) end: usize,
    pub(crate) next: usize,
}

// The line that begins at `at`.
pub(crate) fn line_at(f: &[u8], at: usize) -> Line
    requires { at < length f.now }
    ensures { (result.at ≡ at) × LineAt f.now at result.end result.next }
{
    let mut end = first_control(f, at);
    // kept: a place that jumps from one control character to the next, so nothing is counted; an iterator over them would have this loop inside
    // invariant: proofs/LinePlaces SameLine; falls: bytes left
    while end < f.len() {
        if let Some(n) = line_end(&f[end..]) {
            return Line {
                at,
                end,
                next: end + n,
            };
        }
        end = first_control(f, end + 1);
    }
    Line { at, end, next: end }
}

// The lines of the file from the one that begins at `at` on.
#[derive(Drop)]
pub(crate) struct Lines<'a> {
    pub(crate) file: &'a [u8],
    pub(crate) at: usize,
}

impl Iterator for Lines<'_> {
    type Item = Line;

    ghost use Rattle.std.specs.Prelude.{◌-◌, ◌≤◌, length};
    ghost use Rattle.std.specs.Iterator.{at_most};
    ghost use Rattle.frames.specs.LineRuns.{LineTaken};

    ghost next_gives = { LineTaken };

    ghost remaining = { λ lines. at_most (length lines.file.now - lines.at) };

    fn next(&mut self) -> Option<Line> {
        if self.file.len() <= self.at {
            return None;
        }
        let line = line_at(self.file, self.at);
        self.at = line.next;
        Some(line)
    }
}

// Question 3: is the file made of whole lines, each a positive even number of digits? In one pass; `at` is where the first line
// begins that is not known to be whole.
pub(crate) fn whole(f: &[u8]) -> bool
    ensures { result ≡ is_whole_file f.now }
{
    let mut at = 0;
    // kept: document 01's form: nested loops over lines and their digits, left by a label at the first failing line
    // invariant: specs/Frames is_whole_file, of the file and of what is left; falls: bytes left
    'lines: while at < f.len() {
        let mut end = at;
        // invariant: proofs/WholeFiles DigitsUpTo; falls: bytes left
        let n = loop {
            if end < f.len() && is_digit(f[end]) {
                end += 1;
            } else if let Some(n) = line_end(&f[end..]) {
                break n;
            } else {
                break 'lines;
            }
        };
        if end == at || (end - at) % 2 != 0 {
            break 'lines;
        }
        at = end + n;
    }
    at == f.len()
}
