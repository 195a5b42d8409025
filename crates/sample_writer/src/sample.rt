// Flow samples, with their type word, and samples given as octets.
ghost use Rattle.std.specs.Prelude.{◌≡◌, ◌++◌};
ghost use Rattle.std.proofs.Math.Option.{some};
ghost use Rattle.xdr.specs.Writes.{afterwards};
ghost use Rattle.sflow.specs.Decode.{value_in, entries_in};
ghost use Rattle.sflow.specs.Datagram.{packet_data_type, extended_data_type, sample_type};
ghost use Rattle.form_writer.specs.Parts.{write_value, write_given, words_octets, part_octets};
ghost use Rattle.form_writer.specs.Values.{header_value, ipv4_value, ipv6_value};
ghost use Rattle.sample_writer.specs.FlowValues.{flow_given, flow_octets, is_given};

use form_writer::parts::{Part, WriteRefusal};
use form_writer::{packet, parts};
use packet_data::{SampledIpv4, SampledIpv6};
use reader::sample::FlowWords;

// Whether octets are exactly so many extended entries.
fn are_entries(count: u32, extended: &[u8]) -> bool
    ensures { result ≡ is_given (entries_in extended_data_type count extended.now) }
{
    let Ok(last) = extended_data::pass_extended(extended, 0, count) else {
        return false;
    };
    last == extended.len()
}

// A flow sample by its parts: its words, those of its packet data and what stands behind these, and so many extended entries as octets that their writers
// wrote.
fn put_flow<'a>(
    d: &mut [u8],
    words: FlowWords,
    packet: &'a [u32],
    rest: Part<'a>,
    count: u32,
    extended: &'a [u8],
) -> Result<usize, WriteRefusal>
    ensures { afterwards result d.new
        ≡ write_value (is_given (entries_in extended_data_type count extended.now))
        (flow_octets words (words_octets packet.now ++ part_octets rest.entry) count extended.now) d.old }
{
    if !are_entries(count, extended) {
        return Err(WriteRefusal::BadValue);
    }
    let w = words;
    let head = [
        1,
        w.sequence_number,
        w.source_id,
        w.sampling_rate,
        w.sample_pool,
        w.drops,
        w.input,
        w.output,
    ];
    parts::write_parts(
        d,
        &[
            Part::Words(&head),
            Part::Words(packet),
            rest,
            Part::Words(&[count]),
            Part::Octets(extended),
        ],
    )
}

// A flow sample with a sampled header: its words, the header's protocol, the frame's length and the header's octets, and so many extended entries as octets
// that their writers wrote.
pub fn write_header_flow(
    d: &mut [u8],
    words: FlowWords,
    protocol: u32,
    frame_length: u32,
    header: &[u8],
    count: u32,
    extended: &[u8],
) -> Result<usize, WriteRefusal>
    ensures { afterwards result d.new
        ≡ write_given sample_type (flow_given words (some (header_value protocol frame_length header.now)) (entries_in extended_data_type count extended.now)) d.old }
{
    if !(1..=13).contains(&protocol) || 256 < header.len() {
        return Err(WriteRefusal::BadValue);
    }
    let head = [1, protocol, frame_length, header.len() as u32];
    put_flow(d, words, &head, Part::Padded(header), count, extended)
}

// A flow sample with IPv4 data, and so many extended entries as octets that their writers wrote.
pub fn write_ipv4_flow(
    d: &mut [u8],
    words: FlowWords,
    packet: SampledIpv4,
    count: u32,
    extended: &[u8],
) -> Result<usize, WriteRefusal>
    ensures { afterwards result d.new
        ≡ write_given sample_type (flow_given words (some (ipv4_value packet)) (entries_in extended_data_type count extended.now)) d.old }
{
    let head = packet::ipv4_words(packet);
    put_flow(d, words, &head, Part::Octets(b""), count, extended)
}

// A flow sample with IPv6 data, and so many extended entries as octets that their writers wrote.
pub fn write_ipv6_flow(
    d: &mut [u8],
    words: FlowWords,
    packet: SampledIpv6,
    count: u32,
    extended: &[u8],
) -> Result<usize, WriteRefusal>
    ensures { afterwards result d.new
        ≡ write_given sample_type (flow_given words (some (ipv6_value packet)) (entries_in extended_data_type count extended.now)) d.old }
{
    let head = packet::ipv6_words(packet);
    put_flow(d, words, &head, Part::Octets(b""), count, extended)
}

// A flow sample whose packet data are given as octets that their writer wrote, and so many extended entries as octets that theirs wrote.
pub fn write_flow(
    d: &mut [u8],
    words: FlowWords,
    packet: &[u8],
    count: u32,
    extended: &[u8],
) -> Result<usize, WriteRefusal>
    ensures { afterwards result d.new
        ≡ write_given sample_type (flow_given words (value_in packet_data_type packet.now) (entries_in extended_data_type count extended.now)) d.old }
{
    let Ok(end) = packet_data::pass_packet(packet, 0) else {
        return Err(WriteRefusal::BadValue);
    };
    if end != packet.len() {
        return Err(WriteRefusal::BadValue);
    }
    put_flow(d, words, &[], Part::Octets(packet), count, extended)
}

// A sample given as octets.
pub fn write_sample(d: &mut [u8], sample: &[u8]) -> Result<usize, WriteRefusal>
    ensures { afterwards result d.new ≡ write_given sample_type (value_in sample_type sample.now) d.old }
{
    let Ok(end) = reader::sample::pass_sample(sample, 0) else {
        return Err(WriteRefusal::BadValue);
    };
    if end != sample.len() {
        return Err(WriteRefusal::BadValue);
    }
    parts::write_parts(d, &[Part::Octets(sample)])
}
