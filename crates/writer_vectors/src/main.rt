// Reads datagrams from standard input, each behind its length in four octets, and writes each accepted one again, twice into a cleared buffer: its
// head, then its samples one by one at the end, first as octets and then as values. Prints how many were accepted, how many of these came out with the
// same octets both times, and how many did not. The datagrams come from the second program in conformance/.
#![tactic(auto)]

ghost use Rattle.std.specs.Prelude.{◌≡◌, length};

use fields::words::Entries;
use packet_data::{PacketData, SampledHeader};
use reader::datagram::Head;
use reader::sample::{CountersSample, FlowSample, Sample, SampleValues};
use std::io;
use std::io::{Read, Write};

// What became of a datagram: it is not accepted, or it was written again with the same octets or with others.
#[derive(Clone, Copy)]
enum Outcome {
    Refused,
    Equal,
    Different,
}

// The functions that append answer the new length, or none where the writer refused. The buffer and its length stand side by side, as the writer takes
// them and gives them back.

// Appends a flow sample of a datagram with a sampled header, and its extended entries as octets.
fn append_header(
    out: &mut [u8],
    length: usize,
    s: &[u8],
    flow: FlowSample,
    h: SampledHeader,
    entries: &[u8],
) -> Option<usize> {
    let text = h.header;
    let n = text.length as usize;
    if s.len() < text.at || s.len() - text.at < n {
        return None;
    }
    let header = vector_io::part(s, text.at, text.at + n);
    writer::append_header(
        out,
        65507,
        length,
        flow.words,
        h.protocol,
        h.frame_length,
        header,
        flow.extended_data.count,
        entries,
    )
    .ok()
}

// Appends a flow sample that ends at a place of a datagram: its words and its packet data as values, its extended entries as octets.
fn append_flow(
    out: &mut [u8],
    length: usize,
    s: &[u8],
    end: usize,
    flow: FlowSample,
) -> Option<usize> {
    let words = flow.words;
    let list = flow.extended_data;
    let entries = vector_io::part(s, list.at, end);
    match flow.packet_data {
        PacketData::Header(h) => append_header(out, length, s, flow, h, entries),
        PacketData::Ipv4(x) => writer::append_ipv4(
            out, 65507, length, words, x, list.count, entries,
        ).ok(),
        PacketData::Ipv6(x) => writer::append_ipv6(
            out, 65507, length, words, x, list.count, entries,
        ).ok(),
    }
}

// Appends a counter sample: its words, its version, which the writer takes as a number and may refuse, and the first numbers of a list, so many as
// the version has.
fn append_numbers(
    out: &mut [u8],
    length: usize,
    c: CountersSample,
    version: u32,
    count: usize,
    numbers: &[u64],
) -> Option<usize> {
    if numbers.len() < count {
        return None;
    }
    writer::append_counters(
        out,
        65507,
        length,
        c.sequence_number,
        c.source_id,
        c.sampling_interval,
        version,
        &numbers[..count],
    )
    .ok()
}

// An array for the counters of a body: how many they are, then the counters.
fn no_values() -> [u64; 38]
    ensures { 38 ≡ length result }
{
    [0; 38]
}

// Appends a counter sample of a datagram: all of it as values.
fn append_counters(out: &mut [u8], length: usize, s: &[u8], c: CountersSample) -> Option<usize> {
    let body = c.counters;
    let at = body.at;
    if at < 4 {
        return None;
    }
    let mut values = no_values();
    counter_calls::fill_values(s, at - 4, &mut values);
    let count = values[0] as usize;
    append_numbers(out, length, c, body.version, count, &values[1..])
}

// Appends a sample as values.
fn append_values(out: &mut [u8], length: usize, s: &[u8], x: Sample, end: usize) -> Option<usize> {
    match x.values {
        SampleValues::Flow(flow) => append_flow(out, length, s, end, flow),
        SampleValues::Counters(c) => append_counters(out, length, s, c),
    }
}

// Appends a sample as octets.
fn append_octets(out: &mut [u8], length: usize, s: &[u8], x: Sample, end: usize) -> Option<usize> {
    writer::append_octets(out, 65507, length, vector_io::part(s, x.offset, end)).ok()
}

// Appends the samples of a datagram, each by a function that appends one.
fn append_samples<F: Fn(&mut [u8], usize, &[u8], Sample, usize) -> Option<usize>>(
    out: &mut [u8],
    start: usize,
    s: &[u8],
    list: Entries,
    append: F,
) -> Option<usize>
    requires { F.IsAlwaysCallable append }
{
    let mut length = start;
    let mut at = list.at;
    for _ in 0..list.count {
        let (x, end) = reader::sample::read_sample(s, at).ok()?;
        length = append(out, length, s, x, end)?;
        at = end;
    }
    Some(length)
}

// A buffer in which nothing is taken for written.
fn cleared() -> [u8; 65507]
    ensures { 65507 ≡ length result }
{
    [165; 65507]
}

// Writes a datagram again, each sample by a function that appends one, and answers whether it came out the same.
fn again<F: Fn(&mut [u8], usize, &[u8], Sample, usize) -> Option<usize>>(
    s: &[u8],
    head: Head,
    append: F,
) -> bool
    requires { F.IsAlwaysCallable append }
{
    let mut out = cleared();
    let Ok(start) = writer::start(
        &mut out,
        65507,
        head.agent,
        head.sequence_number,
        head.uptime,
    ) else {
        return false;
    };
    let Some(length) = append_samples(&mut out, start, s, head.samples, append) else {
        return false;
    };
    length == s.len() && check::same(vector_io::part(&out, 0, length), s)
}

fn datagram(s: &[u8]) -> Outcome {
    let Ok(head) = reader::datagram::read(s) else {
        return Outcome::Refused;
    };
    if again(s, head, append_octets) && again(s, head, append_values) {
        Outcome::Equal
    } else {
        Outcome::Different
    }
}

// Reads one datagram and writes it again; none at the end of the input.
fn turn<R: Read>(input: &mut R) -> Option<Outcome> {
    let mut room = vector_io::room();
    let n = vector_io::read_record(input, &mut room)?;
    Some(datagram(vector_io::part(&room, 0, n)))
}

fn report<W: Write>(out: &mut W, accepted: u64, equal: u64, different: u64) -> io::Result<()> {
    vector_io::line(out, b"accepted", &[accepted])?;
    vector_io::line(out, b"written again with the same octets", &[equal])?;
    vector_io::line(out, b"written again with other octets", &[different])
}

fn main(rt: HostRuntime) -> io::Result<()> {
    let mut input = rt.stdin();
    let mut out = rt.stdout();
    let mut equal = 0u64;
    let mut different = 0u64;
    for _ in 0..u64::MAX {
        let Some(outcome) = turn(&mut input) else {
            return report(&mut out, equal + different, equal, different);
        };
        match outcome {
            Outcome::Refused => {}
            Outcome::Equal => equal += 1,
            Outcome::Different => different += 1,
        }
    }
    Ok(())
}
