// Frames written into a buffer that the caller lends (document 01, "Frames"), each behind what stands there already.
//   TWO_DIGITS, put_number         a number in two digits
//   put_frame_by                   a frame with numbers of two digits, of a kind by its number
//   put_frame                      the same of a kind
//   fields_of4                     a number of four digits as two fields
//   put_frame_of4_by               a frame with one, of a kind by its number
//   put_frame_of4                  the same of a kind
//   put_barrier_line               the first line of a barrier
//   begins_barrier                 does a file begin with it?
ghost use Rattle.std.specs.Prelude.{◌≡◌, ◌∷◌, ◌+◌, ◌*◌, ◌/◌, ◌<◌, ◌≤◌, length};
ghost use Rattle.formats.specs.Kinds.{kind_number, barrier_kind};
ghost use Rattle.counting.specs.SliceVecs.{Extended};
ghost use Rattle.frames.specs.Frames.{hex_bytes, frame_bytes, frame2, frame_of4};
ghost use Rattle.frames.specs.Writes.{begins_barrier};

use counting::slice_vec::SliceVec;
use formats::kinds::Kind;

// The first line of a barrier, written at the front and compared by the reader of certificates.
const BARRIER_LINE: [u8; 3] = *b"31\n";

// The same line ended the other way: compared, never written.
const BARRIER_LINE_CR_LF: [u8; 4] = *b"31\r\n";

// The numbers below 256, each in two digits.
// kept: a table, of which both digits are read at once; digit by digit a line takes 10 instructions more (docs/DECISIONS.md, D82)
static TWO_DIGITS: [u8; 512] = *b"\
000102030405060708090A0B0C0D0E0F101112131415161718191A1B1C1D1E1F202122232425262728292A2B2C2D2E2F303132333435363738393A3B3C3D3E3F\
404142434445464748494A4B4C4D4E4F505152535455565758595A5B5C5D5E5F606162636465666768696A6B6C6D6E6F707172737475767778797A7B7C7D7E7F\
808182838485868788898A8B8C8D8E8F909192939495969798999A9B9C9D9E9FA0A1A2A3A4A5A6A7A8A9AAABACADAEAFB0B1B2B3B4B5B6B7B8B9BABBBCBDBEBF\
C0C1C2C3C4C5C6C7C8C9CACBCCCDCECFD0D1D2D3D4D5D6D7D8D9DADBDCDDDEDFE0E1E2E3E4E5E6E7E8E9EAEBECEDEEEFF0F1F2F3F4F5F6F7F8F9FAFBFCFDFEFF";

// The two lowest digits of `value`.
fn put_number(out: &mut SliceVec<'_, u8>, value: usize)
    requires { out.old.len + 2 ≤ length out.old.slice.now }
    ensures { Extended out.old (hex_bytes 2 value) out.new }
{
    let at = value % 256 * 2;
    let (upper, lower) = (TWO_DIGITS[at], TWO_DIGITS[at + 1]);
    out.push(upper);
    out.push(lower);
}

// The kind, by its number, each of the fields in two digits, and a line feed.
// kept beside put_frame: a kind by its number, so that no more is asked of a caller than was
pub fn put_frame_by(out: &mut SliceVec<'_, u8>, kind: usize, fields: &[usize])
    requires { out.old.len + (2 * length fields.now + 3) ≤ length out.old.slice.now }
    ensures { Extended out.old (frame_bytes (kind ∷ fields.now)) out.new }
{
    put_number(out, kind);
    // invariant: proofs/Writes FieldsWritten; falls: fields left
    for field in fields {
        put_number(out, *field);
    }
    out.push(b'\n');
}

pub fn put_frame(out: &mut SliceVec<'_, u8>, kind: Kind, fields: &[usize])
    requires { out.old.len + (2 * length fields.now + 3) ≤ length out.old.slice.now }
    ensures { Extended out.old (frame_bytes (kind_number kind ∷ fields.now)) out.new }
{
    put_frame_by(out, usize::from(kind), fields);
}

// The two fields of a number of four digits: its upper two digits, and the whole, of which a field writes the lower two.
pub fn fields_of4(value: usize) -> (usize, usize)
    ensures upper { result.0 ≡ value / 256 }
    ensures lower { result.1 ≡ value }
{
    (value / 256, value)
}

// The kind, by its number, and one number in four digits.
// kept beside put_frame_of4: a kind by its number, so that no more is asked of a caller than was
#[tactic(auto, using(crate::proofs::Writes::frame_of4_parts))]
pub fn put_frame_of4_by(out: &mut SliceVec<'_, u8>, kind: usize, value: usize)
    requires { out.old.len + 7 ≤ length out.old.slice.now }
    ensures { Extended out.old (frame_of4 kind value) out.new }
{
    let (upper, lower) = fields_of4(value);
    put_frame_by(out, kind, &[upper, lower]);
}

pub fn put_frame_of4(out: &mut SliceVec<'_, u8>, kind: Kind, value: usize)
    requires { out.old.len + 7 ≤ length out.old.slice.now }
    ensures { Extended out.old (frame_of4 (kind_number kind) value) out.new }
{
    put_frame_of4_by(out, usize::from(kind), value);
}

#[tactic(auto, unfolding(crate::specs::Frames::hex_bytes))]
pub fn put_barrier_line(out: &mut SliceVec<'_, u8>)
    requires { out.old.len + 3 ≤ length out.old.slice.now }
    ensures { Extended out.old (frame2 barrier_kind) out.new }
{
    out.extend_from_slice(&BARRIER_LINE);
}

pub fn begins_barrier(f: &[u8]) -> bool
    ensures { result ≡ begins_barrier f.now }
{
    f.starts_with(&BARRIER_LINE) || f.starts_with(&BARRIER_LINE_CR_LF)
}
