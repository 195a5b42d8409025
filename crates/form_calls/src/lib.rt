#![tactic(auto)]
// Forms written and flow samples appended from words and octets, as functions on numbers and slices. Crate export gives them to C and Rust.
ghost use Rattle.std.specs.Prelude.{◌≡◌, cond, eqb, length};
ghost use Rattle.std.proofs.Math.Option.{none, some};
ghost use Rattle.xdr.specs.Writes.{afterwards};
ghost use Rattle.sflow.specs.Decode.{value_in};
ghost use Rattle.sflow.specs.Datagram.{packet_data_type, as_path_type, extended_data_type, sample_type};
ghost use Rattle.fields.specs.Parts.{item};
ghost use Rattle.form_writer.specs.declared.parts.WriteRefusal.TheVariants.{BadValue};
ghost use Rattle.form_writer.specs.Parts.{write_given};
ghost use Rattle.form_writer.specs.Values.{header_value};
ghost use Rattle.writer.specs.Datagrams.{appended};
ghost use Rattle.numbers.specs.Reports.{handed};
ghost use Rattle.write_reports.specs.WriteReports.{hand_over};
ghost use Rattle.form_calls.specs.Forms.{header_from, ipv4_in, ipv4_from, ipv6_in, ipv6_from, switch_from, router_from, gateway_from, user_from, url_from, segment_from, flow_words_in, flow_from, form_written};

use extended_data::{Router, Switch};
use fields::address::Address;
use form_writer::parts::WriteRefusal;
use packet_data::{SampledIpv4, SampledIpv6};
use reader::sample::FlowWords;
use write_reports::report;
use xdr::Quad;

// A sampled header.
fn header(words: &[u32], octets: &[u8], buffer: &mut [u8]) -> Result<usize, WriteRefusal>
    ensures { afterwards result buffer.new ≡ write_given packet_data_type (header_from words.now octets.now) buffer.old }
{
    let [protocol, frame_length] = *words else {
        return Err(WriteRefusal::BadValue);
    };
    form_writer::packet::write_header(buffer, protocol, frame_length, octets)
}

// IPv4 data from eight words.
fn ipv4_in(words: &[u32]) -> Result<SampledIpv4, WriteRefusal>
    ensures { result ≡ cond (eqb (length words.now) 8) (Ok (ipv4_in words.now)) (Err BadValue) }
{
    let [
        length,
        protocol,
        src_ip,
        dst_ip,
        src_port,
        dst_port,
        tcp_flags,
        tos,
    ] = *words
    else {
        return Err(WriteRefusal::BadValue);
    };
    Ok(SampledIpv4 {
        length,
        protocol,
        src_ip,
        dst_ip,
        src_port,
        dst_port,
        tcp_flags,
        tos,
    })
}

// IPv4 data.
fn ipv4(words: &[u32], buffer: &mut [u8]) -> Result<usize, WriteRefusal>
    ensures { afterwards result buffer.new ≡ write_given packet_data_type (ipv4_from words.now) buffer.old }
{
    form_writer::packet::write_ipv4(buffer, ipv4_in(words)?)
}

// Sixteen octets as their four words.
fn quad(a: u32, b: u32, c: u32, d: u32) -> Quad
    ensures { result ≡ record { a = a; b = b; c = c; d = d } }
{
    Quad { a, b, c, d }
}

// IPv6 data from fourteen words, four for each address.
fn ipv6_in(words: &[u32]) -> Result<SampledIpv6, WriteRefusal>
    ensures { result ≡ cond (eqb (length words.now) 14) (Ok (ipv6_in words.now)) (Err BadValue) }
{
    let [
        length,
        protocol,
        s1,
        s2,
        s3,
        s4,
        t1,
        t2,
        t3,
        t4,
        src_port,
        dst_port,
        tcp_flags,
        priority,
    ] = *words
    else {
        return Err(WriteRefusal::BadValue);
    };
    Ok(SampledIpv6 {
        length,
        protocol,
        src_ip: quad(s1, s2, s3, s4),
        dst_ip: quad(t1, t2, t3, t4),
        src_port,
        dst_port,
        tcp_flags,
        priority,
    })
}

// IPv6 data.
fn ipv6(words: &[u32], buffer: &mut [u8]) -> Result<usize, WriteRefusal>
    ensures { afterwards result buffer.new ≡ write_given packet_data_type (ipv6_from words.now) buffer.old }
{
    form_writer::packet::write_ipv6(buffer, ipv6_in(words)?)
}

// A switch entry.
fn switch(words: &[u32], buffer: &mut [u8]) -> Result<usize, WriteRefusal>
    ensures { afterwards result buffer.new ≡ write_given extended_data_type (switch_from words.now) buffer.old }
{
    let [src_vlan, src_priority, dst_vlan, dst_priority] = *words else {
        return Err(WriteRefusal::BadValue);
    };
    let x = Switch {
        src_vlan,
        src_priority,
        dst_vlan,
        dst_priority,
    };
    form_writer::extended::write_switch(buffer, x)
}

// A router entry.
fn router(words: &[u32], buffer: &mut [u8]) -> Result<usize, WriteRefusal>
    ensures { afterwards result buffer.new ≡ write_given extended_data_type (router_from words.now) buffer.old }
{
    let [kind, a, b, c, d, src_mask, dst_mask] = *words else {
        return Err(WriteRefusal::BadValue);
    };
    let x = Router {
        nexthop: Address {
            kind,
            octets: Quad { a, b, c, d },
        },
        src_mask,
        dst_mask,
    };
    form_writer::extended::write_router(buffer, x)
}

// A gateway entry.
fn gateway(words: &[u32], path: &[u8], buffer: &mut [u8]) -> Result<usize, WriteRefusal>
    ensures { afterwards result buffer.new ≡ write_given extended_data_type (gateway_from words.now path.now) buffer.old }
{
    let [
        router_as,
        src_as,
        src_peer_as,
        count,
        localpref,
        communities @ ..,
    ] = words
    else {
        return Err(WriteRefusal::BadValue);
    };
    form_writer::extended::write_gateway(
        buffer,
        *router_as,
        *src_as,
        *src_peer_as,
        *count,
        path,
        communities,
        *localpref,
    )
}

// A user entry.
fn user(
    words: &[u32],
    src_user: &[u8],
    dst_user: &[u8],
    buffer: &mut [u8],
) -> Result<usize, WriteRefusal>
    ensures { afterwards result buffer.new ≡ write_given extended_data_type (user_from words.now src_user.now dst_user.now) buffer.old }
{
    if !words.is_empty() {
        return Err(WriteRefusal::BadValue);
    }
    form_writer::extended::write_user(buffer, src_user, dst_user)
}

// A URL entry.
fn url(words: &[u32], octets: &[u8], buffer: &mut [u8]) -> Result<usize, WriteRefusal>
    ensures { afterwards result buffer.new ≡ write_given extended_data_type (url_from words.now octets.now) buffer.old }
{
    let [direction] = *words else {
        return Err(WriteRefusal::BadValue);
    };
    form_writer::extended::write_url(buffer, direction, octets)
}

// A path segment.
fn segment(words: &[u32], buffer: &mut [u8]) -> Result<usize, WriteRefusal>
    ensures { afterwards result buffer.new ≡ write_given as_path_type (segment_from words.now) buffer.old }
{
    let [kind, numbers @ ..] = words else {
        return Err(WriteRefusal::BadValue);
    };
    form_writer::extended::write_segment(buffer, *kind, numbers)
}

// A flow sample's words and its count of extended entries, from eight words.
fn flow_words_in(words: &[u32]) -> Result<(FlowWords, u32), WriteRefusal>
    ensures { result ≡ cond (eqb (length words.now) 8) (Ok (flow_words_in words.now, item words.now 7)) (Err BadValue) }
{
    let [
        sequence_number,
        source_id,
        sampling_rate,
        sample_pool,
        drops,
        input,
        output,
        count,
    ] = *words
    else {
        return Err(WriteRefusal::BadValue);
    };
    let x = FlowWords {
        sequence_number,
        source_id,
        sampling_rate,
        sample_pool,
        drops,
        input,
        output,
    };
    Ok((x, count))
}

// A flow sample.
fn flow(
    words: &[u32],
    octets: &[u8],
    entries: &[u8],
    buffer: &mut [u8],
) -> Result<usize, WriteRefusal>
    ensures { afterwards result buffer.new ≡ write_given sample_type (flow_from words.now (value_in packet_data_type octets.now) entries.now) buffer.old }
{
    let (w, count) = flow_words_in(words)?;
    sample_writer::sample::write_flow(buffer, w, octets, count, entries)
}

// The form of a kind. Kinds are the numbers that C gives.
#[tactic(auto, unfolding(crate::specs::Forms::form_written))]
fn write_kind(
    kind: u32,
    words: &[u32],
    first: &[u8],
    second: &[u8],
    buffer: &mut [u8],
) -> Result<usize, WriteRefusal>
    ensures { afterwards result buffer.new ≡ form_written kind words.now first.now second.now buffer.old }
{
    match kind {
        1 => header(words, first, buffer),
        2 => ipv4(words, buffer),
        3 => ipv6(words, buffer),
        11 => switch(words, buffer),
        12 => router(words, buffer),
        13 => gateway(words, first, buffer),
        14 => user(words, first, second, buffer),
        15 => url(words, first, buffer),
        16 => segment(words, buffer),
        21 => flow(words, first, second, buffer),
        _ => Err(WriteRefusal::BadValue),
    }
}

// Writes a form from values into the buffer's front. Kinds, with their words in this order: 1 header (protocol, frame length; first: the header's octets); 2 IPv4
// (length, protocol, source, destination, source port, destination port, TCP flags, TOS); 3 IPv6 (length, protocol, source's 4 words, destination's 4 words,
// source port, destination port, TCP flags, priority); 11 switch (source VLAN, source priority, destination VLAN, destination priority); 12 router (next hop's
// type and 4 words, source mask, destination mask); 13 gateway (AS, source AS, source peer AS, count of segments, local preference, then the communities;
// first: the segments' octets); 14 user (no words; first: the source user, second: the destination user); 15 URL (direction; first: the URL); 16 path segment
// (type, then its numbers); 21 flow sample (sequence number, source id, sampling rate, sample pool, drops, input, output, count of extended entries; first: the
// packet data's octets, second: the extended entries' octets). All but a path segment begin with their type word. Answers 0, and the array takes the length
// written; or 22 where the kind is none of these, the words are not as many as it has or a value is not in the grammar, 20 where the buffer is too short.
pub fn write(
    kind: u32,
    words: &[u32],
    first: &[u8],
    second: &[u8],
    buffer: &mut [u8],
    out: &mut [u64],
) -> u32
    ensures { handed result buffer.new out.new
        ≡ hand_over (form_written kind words.now first.now second.now buffer.old) out.old }
{
    let answer = write_kind(kind, words, first, second, buffer);
    report(answer, out)
}

// Values that are given by another number of words than they have are not in the grammar: 22, behind 21 and 23. No octets are no sample either.
fn append_nothing(buffer: &mut [u8], limit: usize, length: usize, out: &mut [u64]) -> u32
    ensures { handed result buffer.new out.new ≡ hand_over (appended none limit length buffer.old) out.old }
{
    let answer = writer::append_octets(buffer, limit, length, b"");
    report(answer, out)
}

// Appends a flow sample with a sampled header to the datagram that the buffer's first length octets are, within a limit. The eight words are the sample's
// sequence number, source id, sampling rate, sample pool, drops, input and output, and the count of extended entries, whose octets their writers wrote;
// protocol, frame length and octets are the header's. Answers 0, and the array takes the datagram's new length; or, tested in this order, 21 where the limit
// is outside 36 to 65,507 or above the buffer's length, 23 where the datagram so far is not well formed or is longer than the limit, 22 where the words are
// not eight, a value is not in the grammar or the entries' octets are not exactly so many entries, 20 where the new end would pass the limit.
pub fn append_header(
    buffer: &mut [u8],
    limit: usize,
    length: usize,
    words: &[u32],
    protocol: u32,
    frame_length: u32,
    header: &[u8],
    entries: &[u8],
    out: &mut [u64],
) -> u32
    ensures { handed result buffer.new out.new
        ≡ hand_over (appended (flow_from words.now (some (header_value protocol frame_length header.now)) entries.now) limit length buffer.old) out.old }
{
    let Ok((w, count)) = flow_words_in(words) else {
        return append_nothing(buffer, limit, length, out);
    };
    let answer = writer::append_header(
        buffer,
        limit,
        length,
        w,
        protocol,
        frame_length,
        header,
        count,
        entries,
    );
    report(answer, out)
}

// The same with IPv4 data, eight words: length, protocol, source, destination, source port, destination port, TCP flags, TOS.
pub fn append_ipv4(
    buffer: &mut [u8],
    limit: usize,
    length: usize,
    words: &[u32],
    packet: &[u32],
    entries: &[u8],
    out: &mut [u64],
) -> u32
    ensures { handed result buffer.new out.new
        ≡ hand_over (appended (flow_from words.now (ipv4_from packet.now) entries.now) limit length buffer.old) out.old }
{
    let Ok((w, count)) = flow_words_in(words) else {
        return append_nothing(buffer, limit, length, out);
    };
    let Ok(x) = ipv4_in(packet) else {
        return append_nothing(buffer, limit, length, out);
    };
    let answer = writer::append_ipv4(buffer, limit, length, w, x, count, entries);
    report(answer, out)
}

// The same with IPv6 data, fourteen words: length, protocol, source's 4 words, destination's 4 words, source port, destination port, TCP flags, priority.
pub fn append_ipv6(
    buffer: &mut [u8],
    limit: usize,
    length: usize,
    words: &[u32],
    packet: &[u32],
    entries: &[u8],
    out: &mut [u64],
) -> u32
    ensures { handed result buffer.new out.new
        ≡ hand_over (appended (flow_from words.now (ipv6_from packet.now) entries.now) limit length buffer.old) out.old }
{
    let Ok((w, count)) = flow_words_in(words) else {
        return append_nothing(buffer, limit, length, out);
    };
    let Ok(x) = ipv6_in(packet) else {
        return append_nothing(buffer, limit, length, out);
    };
    let answer = writer::append_ipv6(buffer, limit, length, w, x, count, entries);
    report(answer, out)
}
