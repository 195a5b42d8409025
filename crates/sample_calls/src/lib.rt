#![tactic(auto)]
// Reading a sample as a function on numbers and slices. Crate export gives it to C and Rust.
ghost use Rattle.std.specs.Prelude.{◌≤◌, ◌≡◌, ◌∷◌};
ghost use Rattle.xdr.specs.Writes.{afterwards};
ghost use Rattle.sflow.specs.Decode.{decode, mapped};
ghost use Rattle.sflow.specs.Datagram.{sample_type};
ghost use Rattle.packet_data.specs.declared.PacketData.TheVariants.{Ipv6};
ghost use Rattle.reader.specs.Samples.{sample_of, as_sample};
ghost use Rattle.numbers.specs.Reports.{filled, filled_behind, tell};
ghost use Rattle.sample_calls.specs.SampleReports.{
  packet_type,
  packet_numbers,
  word_numbers,
  flow_numbers,
  counters_numbers,
  sample_report,
};

use numbers::{fill, fill_behind, refuse};
use packet_data::{PacketData, SampledIpv6};
use reader::sample::{CountersSample, FlowSample, FlowWords, SampleValues};

// The packet data type, 1 to 3.
fn packet_type(p: PacketData) -> u64
    ensures { result ≡ packet_type p }
{
    match p {
        PacketData::Header(_) => 1,
        PacketData::Ipv4(_) => 2,
        PacketData::Ipv6(_) => 3,
    }
}

// Puts the numbers of IPv6 packet data behind the first 13 of an array.
fn fill_ipv6(x: SampledIpv6, out: &mut [u64])
    ensures { out.new ≡ filled_behind 13 (packet_numbers (Ipv6 x)) out.old }
{
    fill_behind(
        out,
        13,
        &[
            x.length as u64,
            x.protocol as u64,
            x.src_ip.a as u64,
            x.src_ip.b as u64,
            x.src_ip.c as u64,
            x.src_ip.d as u64,
            x.dst_ip.a as u64,
            x.dst_ip.b as u64,
            x.dst_ip.c as u64,
            x.dst_ip.d as u64,
            x.src_port as u64,
            x.dst_port as u64,
            x.tcp_flags as u64,
            x.priority as u64,
        ],
    );
}

// Puts the numbers of packet data behind the first 13 of an array.
fn fill_packet(p: PacketData, out: &mut [u64])
    ensures { out.new ≡ filled_behind 13 (packet_numbers p) out.old }
{
    match p {
        PacketData::Header(h) => fill_behind(
            out,
            13,
            &[
                h.protocol as u64,
                h.frame_length as u64,
                h.header.at as u64,
                h.header.length as u64,
            ],
        ),
        PacketData::Ipv4(x) => fill_behind(
            out,
            13,
            &[
                x.length as u64,
                x.protocol as u64,
                x.src_ip as u64,
                x.dst_ip as u64,
                x.src_port as u64,
                x.dst_port as u64,
                x.tcp_flags as u64,
                x.tos as u64,
            ],
        ),
        PacketData::Ipv6(x) => fill_ipv6(x, out),
    }
}

// Puts a flow sample's words behind the first 3 numbers of an array.
fn fill_words(w: FlowWords, out: &mut [u64])
    ensures { out.new ≡ filled_behind 3 (word_numbers w) out.old }
{
    fill_behind(
        out,
        3,
        &[
            w.sequence_number as u64,
            w.source_id as u64,
            w.sampling_rate as u64,
            w.sample_pool as u64,
            w.drops as u64,
            w.input as u64,
            w.output as u64,
        ],
    );
}

// Puts a flow sample's numbers to the front of an array.
fn fill_flow(offset: usize, length: usize, f: FlowSample, out: &mut [u64])
    ensures { out.new ≡ filled (1 ∷ offset ∷ length ∷ flow_numbers f) out.old }
{
    let words = f.words;
    let packet = f.packet_data;
    let entries = f.extended_data;
    let kind = packet_type(packet);
    fill(out, &[1, offset as u64, length as u64]);
    fill_words(words, out);
    fill_behind(out, 10, &[kind, entries.count as u64, entries.at as u64]);
    fill_packet(packet, out);
}

// Puts the numbers of a counter sample of these octets to the front of an array.
fn fill_counters(octets: &[u8], offset: usize, length: usize, x: CountersSample, out: &mut [u64])
    requires { 4 ≤ x.counters.at }
    ensures { out.new ≡ filled (2 ∷ offset ∷ length ∷ counters_numbers octets.now x) out.old }
{
    fill(
        out,
        &[
            2,
            offset as u64,
            length as u64,
            x.sequence_number as u64,
            x.source_id as u64,
            x.sampling_interval as u64,
            x.counters.version as u64,
        ],
    );
    if out.len() <= 7 {
        return;
    }
    counter_calls::fill_values(octets, x.counters.at - 4, &mut out[7..]);
}

// Reads a sample at its type word. Answers 0 where it is well formed; the array takes:
//   0 kind, 1 for a flow sample or 2 for a counter sample; 1 its offset; 2 its length;
//   of a flow sample 3 sequence number; 4 source id; 5 sampling rate; 6 sample pool; 7 drops; 8 input; 9 output; 10 packet data type;
//     11 count of extended entries; 12 offset of the first; then the packet data:
//     type 1, a header: 13 protocol; 14 frame length; 15 offset and 16 length of the header's octets;
//     type 2, IPv4: 13 length; 14 protocol; 15 source; 16 destination; 17 source port; 18 destination port; 19 TCP flags; 20 TOS;
//     type 3, IPv6: 13 length; 14 protocol; 15 to 18 the source's words; 19 to 22 the destination's; 23 source port; 24 destination port;
//       25 TCP flags; 26 priority;
//   of a counter sample 3 sequence number; 4 source id; 5 sampling interval; 6 counters version, 1 to 7; 7 how many counters it has;
//     8 to 44 the counters in the RFC's order, zeros behind them.
// Else it answers the refusal's number, 1 or 3 to 12, and the array takes the refusal's offset. An offset past the end is a cut item there.
pub fn sample(octets: &[u8], at: usize, out: &mut [u64]) -> u32
    ensures { afterwards result out.new
        ≡ tell (sample_report octets.now (as_sample at (mapped (sample_of at) (decode sample_type octets.now at)))) out.old }
{
    match reader::sample::read_sample(octets, at) {
        Err(refused) => refuse(refused, out),
        Ok((x, _)) => {
            match x.values {
                SampleValues::Flow(f) => fill_flow(x.offset, x.length, f, out),
                SampleValues::Counters(c) => fill_counters(octets, x.offset, x.length, c, out),
            }
            0
        }
    }
}
