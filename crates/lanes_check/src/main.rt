// Reads graph.hex and cert.hex in the current directory and prints whether the certificate is a wanted path or a barrier of the graph; or the refusal.
#![tactic(auto)]

ghost use Rattle.io.specs.Counts.{IsPrefixLen};

use formats::limits::{FILE_MOST, ROOM};
use lanes_print::print_check;
use reading::read_full;
use std::fs::Files;
use std::io::Write;
use std::{fs, io};

// A file that can't be opened counts as empty.
fn read_file<F: Files>(files: &F, path: &str, file: &mut [u8]) -> usize
    ensures { IsPrefixLen result file.new }
{
    match fs::open(files, path) {
        Ok(mut opened) => read_full(&mut opened, file),
        Err(_) => 0,
    }
}

fn main(rt: HostRuntime) -> io::Result<()> {
    // one byte more than a file may have, so that a longer file is refused
    let mut graph = [0u8; FILE_MOST + 1];
    let graph_size = read_file(&rt, "graph.hex", &mut graph);
    let mut cert = [0u8; FILE_MOST + 1];
    let cert_size = read_file(&rt, "cert.hex", &mut cert);
    let mut out = [0u8; ROOM];
    let printed = print_check(&graph[..graph_size], &cert[..cert_size], &mut out);
    rt.stdout().write_all(&out[..printed])
}
