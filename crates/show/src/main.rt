// Document 01's show program: the plain start on a dump of slot 0, slot 1 and scratch (write unit 1, sectors of 512, 2 of them per slot).
// A read or a write that fails ends it with that error; what the input holds never does.
#![tactic(auto)]

use answers::{Answer, Refusal};
use flash::Geometry;
use line::Line;
use std::io;
use std::io::{ErrorKind, Read};

const AREA: usize = 1024;

// Whether the input fills the bytes, or ends before that.
fn fills(input: &mut impl Read, bytes: &mut [u8]) -> io::Result<bool> {
    match input.read_exact(bytes) {
        Ok(()) => Ok(true),
        Err(e) if e.kind() == ErrorKind::UnexpectedEof => Ok(false),
        Err(e) => Err(e),
    }
}

fn start(dump: &mut [u8; 3 * AREA]) -> Answer {
    let g = Geometry {
        unit: 1,
        sector: 512,
        sectors: 2,
    };
    let (slot0, rest) = dump.split_at_mut(AREA);
    let (slot1, scratch) = rest.split_at_mut(AREA);
    loader::power_up(g, slot0, slot1, scratch, 4000)
}

fn main(rt: HostRuntime) -> io::Result<()> {
    let mut input = rt.reader();
    let mut dump = [0u8; 3 * AREA];
    let whole = fills(&mut input, &mut dump)? && !fills(&mut input, &mut [0])?;
    let answer = if whole {
        start(&mut dump)
    } else {
        Answer::from(Refusal::Geometry)
    };
    println!(rt; "{}", Line(answer))
}
