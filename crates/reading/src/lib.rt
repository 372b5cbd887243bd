// Reading into a lent buffer, and a program that answers what it reads.
//   read_full    until the buffer is full or the input ends
//   answer       a file read from one end, answered, and the answer written to the other
#![tactic(auto)]

ghost use Rattle.std.specs.Prelude.{◌≤◌, length, take, OnOk};
ghost use Rattle.std.specs.Io.KnownBytes.{Consumes, Appends};
ghost use Rattle.formats.specs.Limits.{room};
ghost use Rattle.io.specs.Counts.{IsPrefixLen};

use formats::limits::{FILE_MOST, ROOM};
use std::io;
use std::io::{Read, Write};

// A read that fails ends the input too. It answers how many bytes it put at the front of the buffer, which are those that the reader lost.
pub fn read_full<R: Read>(reader: &mut R, buffer: &mut [u8]) -> usize
    ensures counts { IsPrefixLen result buffer.new }
    ensures bytes { Consumes (R.remaining reader.old) (R.remaining reader.new) (take result buffer.new) }
{
    let mut done = 0;
    // kept: a place that jumps by as many bytes as a read gives, and a read may fail; no method of Read fills a slice as far as there is input
    // invariant: what stands in the buffer so far is what the reader lost; falls: bytes of the buffer left
    while done < buffer.len() {
        match reader.read(&mut buffer[done..]) {
            Ok(0) | Err(_) => break,
            Ok(size) => done += size,
        }
    }
    done
}

// What is written is what the function puts at the front of a buffer with room for every answer. One byte more is read than a file may have, so that
// a longer file is refused. Where it succeeds, the function was asked for just the bytes that the reader lost, and the writer has just what it put there more.
pub fn answer<R: Read, W: Write, F: FnOnce(&[u8], &mut [u8]) -> usize>(
    reader: &mut R,
    writer: &mut W,
    print: F,
) -> io::Result<()>
    requires callable { (file : _) (out : _) → room ≤ length out.now → F.pre print file out }
    requires counts { (file : _) (out : _) (size : _) (after : _) → room ≤ length out.now → F.post print file out size after → IsPrefixLen size after.now }
    ensures { OnOk result ((file : _) × (out : _) × (size : _) × (after : _) × Consumes (R.remaining reader.old) (R.remaining reader.new) file.now × F.post print file out size after × Appends (W.contents writer.old) (W.contents writer.new) (take size after.now)) }
{
    let mut file = [0u8; FILE_MOST + 1];
    let size = read_full(reader, &mut file);
    let mut out = [0u8; ROOM];
    let printed = print(&file[..size], &mut out);
    writer.write_all(&out[..printed])
}
