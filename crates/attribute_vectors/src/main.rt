// Reads octets from standard input, each vector behind its length in four octets, and writes the ten attributes of each that is exactly one flow
// sample. The vectors and the expected text come from the second program in conformance/.
#![tactic(auto)]

use packet::Attributes;
use reader::sample::{FlowSample, SampleValues};
use std::io;
use std::io::Write;

fn attributes<W: Write>(out: &mut W, a: Attributes) -> io::Result<()> {
    vector_io::line(
        out,
        b"attributes",
        &[
            packet::attribute(a, 4) as u64,
            packet::attribute(a, 8) as u64,
            packet::attribute(a, 9) as u64,
            packet::attribute(a, 11) as u64,
            packet::attribute(a, 12) as u64,
            packet::attribute(a, 14) as u64,
            packet::attribute(a, 18) as u64,
            packet::attribute(a, 19) as u64,
            packet::attribute(a, 21) as u64,
            packet::attribute(a, 22) as u64,
        ],
    )
}

// The flow sample that a vector exactly is.
fn flow_of(s: &[u8]) -> Option<FlowSample> {
    let (x, end) = reader::sample::read_sample(s, 0).ok()?;
    match x.values {
        SampleValues::Flow(flow) if end == s.len() => Some(flow),
        _ => None,
    }
}

fn vector<W: Write>(out: &mut W, s: &[u8]) -> io::Result<()> {
    match flow_of(s) {
        Some(flow) => attributes(out, packet::attributes_of(s, flow)),
        None => vector_io::line(out, b"no flow sample", &[]),
    }
}

fn main(rt: HostRuntime) -> io::Result<()> {
    let mut input = rt.stdin();
    let mut out = rt.stdout();
    vector_io::each_record(&mut input, &mut out, vector)
}
