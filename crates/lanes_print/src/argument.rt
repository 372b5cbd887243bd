// A number of searches as it is typed: decimal digits.
//   most_said     the number, or one more than question 15 allows where it is larger or there is none
//   with_digit    a number with one digit more, cut off there
ghost use Rattle.std.specs.Prelude.{◌≡◌};
ghost use Rattle.lanes_print.specs.Argument.{with_digit, most_said};

use formats::limits::SEARCHES_MOST;

// One more than question 15 allows.
const TOO_MANY: u32 = SEARCHES_MOST as u32 + 1; // kept: a constant calls no From

fn with_digit(value: u32, digit: u8) -> u32
    ensures { result ≡ with_digit value digit }
{
    let digit = u32::from(digit.saturating_sub(b'0'));
    value.saturating_mul(10).saturating_add(digit).min(TOO_MANY)
}

// kept: read by hand, since the library's parse wants text and takes a sign; and a number for none, which is a reading (docs/DECISIONS.md, R26)
pub fn most_said(text: &[u8]) -> u32
    ensures { result ≡ most_said text.now }
{
    if text.is_empty() || !text.iter().all(u8::is_ascii_digit) {
        return TOO_MANY;
    }
    text.iter()
        .fold(0, |value, digit| with_digit(value, *digit))
}
