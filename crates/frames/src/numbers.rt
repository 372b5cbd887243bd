// Numbers of hexadecimal digits at a place of a file. Every byte has a value here; only question 3 tells digits from other bytes.
//   is_digit, digit_value    a byte as a digit
//   number_at                a number of some digits
ghost use Rattle.std.specs.Prelude.{◌≡◌, ◌+◌, ◌≤◌, length};
ghost use Rattle.frames.specs.Frames.{is_digit};
ghost use Rattle.frames.specs.Numbers.{DigitValue, NumberAt};

// Is the byte a digit, 0 to 9 or A to F?
pub(crate) fn is_digit(c: u8) -> bool
    ensures { result ≡ is_digit c }
{
    matches!(c, b'0'..=b'9' | b'A'..=b'F')
}

// The value of a digit.
fn digit_value(c: u8) -> usize
    ensures { DigitValue c result }
{
    if c <= b'9' {
        usize::from(c.saturating_sub(b'0'))
    } else {
        usize::from(c - 55)
    }
}

// The number of the `N` digits at `at`.
// kept: read by hand, since the library's from_str_radix wants text and takes a sign
pub fn number_at<const N: usize>(f: &[u8], at: usize) -> usize
    requires few { N ≤ 4 }
    requires inside { at + N ≤ length f.now }
    ensures { NumberAt f.now at N result }
{
    let digits = &f[at..at + N];
    let mut number = 0;
    // invariant: the number of the digits passed, and its bound; falls: digits left
    for c in digits {
        number = 16 * number + digit_value(*c);
    }
    number
}
