// Packet data, with their type word.
ghost use Rattle.std.specs.Prelude.{◌≡◌};
ghost use Rattle.std.proofs.Math.Option.{some};
ghost use Rattle.xdr.specs.Writes.{afterwards};
ghost use Rattle.sflow.specs.Grammar.{encode};
ghost use Rattle.sflow.specs.Datagram.{packet_data_type};
ghost use Rattle.form_writer.specs.Parts.{words_octets, write_given};
ghost use Rattle.form_writer.specs.Values.{header_value, ipv4_value, ipv6_value};

use crate::parts;
use crate::parts::{Part, WriteRefusal};
use packet_data::{SampledIpv4, SampledIpv6};

pub fn write_header(
    d: &mut [u8],
    protocol: u32,
    frame_length: u32,
    header: &[u8],
) -> Result<usize, WriteRefusal>
    ensures { afterwards result d.new
        ≡ write_given packet_data_type (some (header_value protocol frame_length header.now)) d.old }
{
    if !(1..=13).contains(&protocol) || 256 < header.len() {
        return Err(WriteRefusal::BadValue);
    }
    let words = [1, protocol, frame_length, header.len() as u32];
    parts::write_parts(d, &[Part::Words(&words), Part::Padded(header)])
}

// The words of IPv4 data.
pub fn ipv4_words(x: SampledIpv4) -> [u32; 9]
    ensures { words_octets result ≡ encode packet_data_type (ipv4_value x) }
{
    [
        2,
        x.length,
        x.protocol,
        x.src_ip,
        x.dst_ip,
        x.src_port,
        x.dst_port,
        x.tcp_flags,
        x.tos,
    ]
}

pub fn write_ipv4(d: &mut [u8], x: SampledIpv4) -> Result<usize, WriteRefusal>
    ensures { afterwards result d.new ≡ write_given packet_data_type (some (ipv4_value x)) d.old }
{
    parts::write_words(d, &ipv4_words(x))
}

// The words of IPv6 data, four for each address.
pub fn ipv6_words(x: SampledIpv6) -> [u32; 15]
    ensures { words_octets result ≡ encode packet_data_type (ipv6_value x) }
{
    let s = x.src_ip;
    let t = x.dst_ip;
    [
        3,
        x.length,
        x.protocol,
        s.a,
        s.b,
        s.c,
        s.d,
        t.a,
        t.b,
        t.c,
        t.d,
        x.src_port,
        x.dst_port,
        x.tcp_flags,
        x.priority,
    ]
}

pub fn write_ipv6(d: &mut [u8], x: SampledIpv6) -> Result<usize, WriteRefusal>
    ensures { afterwards result d.new ≡ write_given packet_data_type (some (ipv6_value x)) d.old }
{
    parts::write_words(d, &ipv6_words(x))
}
