#![tactic(auto)]
// Writes sFlow version 4 datagrams into a lent buffer: a datagram without samples, and one sample more at its end (document 01, "Writer"). A refusal
// leaves every octet of the buffer as it was; octets behind the new end stay.
ghost use Rattle.std.specs.Prelude.{◌≡◌};
ghost use Rattle.std.proofs.Math.Option.{Option, some};
ghost use Rattle.xdr.specs.Writes.{afterwards};
ghost use Rattle.sflow.specs.Grammar.{Value};
ghost use Rattle.sflow.specs.Decode.{value_in, entries_in};
ghost use Rattle.sflow.specs.Datagram.{extended_data_type, sample_type};
ghost use Rattle.form_writer.specs.Values.{header_value, ipv4_value, ipv6_value};
ghost use Rattle.sample_writer.specs.FlowValues.{flow_given};
ghost use Rattle.sample_writer.specs.CounterValues.{counters_value};
ghost use Rattle.writer.specs.Datagrams.{limit_allowed, started, checked_at, WritesSample, appended};

use fields::address::Address;
use form_writer::parts;
use form_writer::parts::WriteRefusal;
use packet_data::{SampledIpv4, SampledIpv6};
use reader::sample::FlowWords;
use sample_writer::{counters, sample};

// Whether a limit is one that a datagram can have and the buffer holds.
fn limit_allowed(limit: usize, room: usize) -> bool
    ensures { result ≡ limit_allowed limit room }
{
    (36..=65507).contains(&limit) && limit <= room
}

// A datagram without samples.
pub fn start(
    d: &mut [u8],
    limit: usize,
    agent: Address,
    sequence_number: u32,
    uptime: u32,
) -> Result<usize, WriteRefusal>
    ensures { afterwards result d.new ≡ started limit agent sequence_number uptime d.old }
{
    if !limit_allowed(limit, d.len()) {
        return Err(WriteRefusal::BadLimit);
    }
    let q = agent.octets;
    match agent.kind {
        1 => parts::write_words(d, &[4, 1, q.a, sequence_number, uptime, 0]),
        2 => parts::write_words(d, &[4, 2, q.a, q.b, q.c, q.d, sequence_number, uptime, 0]),
        _ => Err(WriteRefusal::BadValue),
    }
}

// The offset of the count word and the count with one sample more; or why nothing can be appended: the limit, then the datagram so far.
fn check_so_far(d: &[u8], limit: usize, length: usize) -> Result<(usize, u32), WriteRefusal>
    ensures { result ≡ checked_at limit length d.now }
{
    if !limit_allowed(limit, d.len()) {
        return Err(WriteRefusal::BadLimit);
    }
    if limit < length {
        return Err(WriteRefusal::BadDatagram);
    }
    let Ok(head) = reader::datagram::read(&d[..length]) else {
        return Err(WriteRefusal::BadDatagram);
    };
    let samples = head.samples;
    Ok((samples.at - 4, samples.count + 1))
}

// A sample more, which its writer puts into the room behind the datagram so far.
fn append<F: FnOnce(&mut [u8]) -> Result<usize, WriteRefusal>>(
    d: &mut [u8],
    limit: usize,
    length: usize,
    write: F,
) -> Result<usize, WriteRefusal>
    ghost sample: { Option (Value sample_type) }
    requires callable { F.IsAlwaysCallable write }
    requires writes { WritesSample F.FnOnce write sample }
    ensures { afterwards result d.new ≡ appended sample limit length d.old }
{
    let (at, count) = check_so_far(d, limit, length)?;
    let written = write(&mut d[length..limit])?;
    xdr_write::write_word(d, at, count);
    Ok(length + written)
}

// A sample more, given as octets.
pub fn append_octets(
    d: &mut [u8],
    limit: usize,
    length: usize,
    sample: &[u8],
) -> Result<usize, WriteRefusal>
    ensures { afterwards result d.new ≡ appended (value_in sample_type sample.now) limit length d.old }
{
    append(
        d,
        limit,
        length,
        move |room| sample::write_sample(room, sample),
    )
}

// A flow sample with a sampled header more: its words, the header's protocol, the frame's length and the header's octets, and so many extended entries as
// octets that their writers wrote.
pub fn append_header(
    d: &mut [u8],
    limit: usize,
    length: usize,
    words: FlowWords,
    protocol: u32,
    frame_length: u32,
    header: &[u8],
    count: u32,
    extended: &[u8],
) -> Result<usize, WriteRefusal>
    ensures { afterwards result d.new
        ≡ appended (flow_given words (some (header_value protocol frame_length header.now)) (entries_in extended_data_type count extended.now)) limit length d.old }
{
    append(
        d,
        limit,
        length,
        move |room| sample::write_header_flow(
            room,
            words,
            protocol,
            frame_length,
            header,
            count,
            extended,
        ),
    )
}

// A flow sample with IPv4 data more, and so many extended entries as octets that their writers wrote.
pub fn append_ipv4(
    d: &mut [u8],
    limit: usize,
    length: usize,
    words: FlowWords,
    packet: SampledIpv4,
    count: u32,
    extended: &[u8],
) -> Result<usize, WriteRefusal>
    ensures { afterwards result d.new
        ≡ appended (flow_given words (some (ipv4_value packet)) (entries_in extended_data_type count extended.now)) limit length d.old }
{
    append(
        d,
        limit,
        length,
        move |room| sample::write_ipv4_flow(room, words, packet, count, extended),
    )
}

// A flow sample with IPv6 data more, and so many extended entries as octets that their writers wrote.
pub fn append_ipv6(
    d: &mut [u8],
    limit: usize,
    length: usize,
    words: FlowWords,
    packet: SampledIpv6,
    count: u32,
    extended: &[u8],
) -> Result<usize, WriteRefusal>
    ensures { afterwards result d.new
        ≡ appended (flow_given words (some (ipv6_value packet)) (entries_in extended_data_type count extended.now)) limit length d.old }
{
    append(
        d,
        limit,
        length,
        move |room| sample::write_ipv6_flow(room, words, packet, count, extended),
    )
}

// A counter sample more: the counters are numbers in the order of the version's fields.
pub fn append_counters(
    d: &mut [u8],
    limit: usize,
    length: usize,
    sequence_number: u32,
    source_id: u32,
    sampling_interval: u32,
    version: u32,
    numbers: &[u64],
) -> Result<usize, WriteRefusal>
    ensures { afterwards result d.new
        ≡ appended (some (counters_value sequence_number source_id sampling_interval version numbers.now)) limit length d.old }
{
    append(
        d,
        limit,
        length,
        move |room| counters::write_counters(
            room,
            sequence_number,
            source_id,
            sampling_interval,
            version,
            numbers,
        ),
    )
}
