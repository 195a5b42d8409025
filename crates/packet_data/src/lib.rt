#![tactic(auto)]
// Packet data of a flow sample.
ghost use Rattle.std.specs.Prelude.{◌≡◌};
ghost use Rattle.sflow.specs.Decode.{decode, mapped, as_read};
ghost use Rattle.sflow.specs.Datagram.{sampled_header, sampled_ipv4, sampled_ipv6, packet_data_type};
ghost use Rattle.fields.specs.Parts.{as_passed};
ghost use Rattle.packet_data.specs.Packets.{header_of, ipv4_of, ipv6_of, packet_of};

use fields::strings::Text;
use fields::words::read_words;
use sflow::{Refusal, Refused};
use xdr::Quad;

#[derive(Clone, Copy)]
pub struct SampledHeader {
    pub protocol: u32,
    pub frame_length: u32,
    pub header: Text,
}

#[derive(Clone, Copy)]
pub struct SampledIpv4 {
    pub length: u32,
    pub protocol: u32,
    pub src_ip: u32,
    pub dst_ip: u32,
    pub src_port: u32,
    pub dst_port: u32,
    pub tcp_flags: u32,
    pub tos: u32,
}

#[derive(Clone, Copy)]
pub struct SampledIpv6 {
    pub length: u32,
    pub protocol: u32,
    pub src_ip: Quad,
    pub dst_ip: Quad,
    pub src_port: u32,
    pub dst_port: u32,
    pub tcp_flags: u32,
    pub priority: u32,
}

#[derive(Clone, Copy)]
pub enum PacketData {
    Header(SampledHeader),
    Ipv4(SampledIpv4),
    Ipv6(SampledIpv6),
}

#[inline(always)]
fn read_header(s: &[u8], at: usize) -> Result<(PacketData, usize), Refused>
    ensures { result ≡ as_read (mapped (header_of at) (decode sampled_header s.now at)) }
{
    let (protocol, frame_at) = xdr::read_word(s, at)?;
    if !(1..=13).contains(&protocol) {
        return Err(Refused {
            why: Refusal::HeaderProtocol,
            at,
        });
    }
    let (frame_length, length_at) = xdr::read_word(s, frame_at)?;
    let (length, start) = xdr::read_word(s, length_at)?;
    if 256 < length {
        return Err(Refused {
            why: Refusal::HeaderLength,
            at: length_at,
        });
    }
    let next = fields::strings::pass_octets(s, start, length)?;
    let header = SampledHeader {
        protocol,
        frame_length,
        header: Text { at: start, length },
    };
    Ok((PacketData::Header(header), next))
}

#[inline(always)]
fn read_ipv4(s: &[u8], at: usize) -> Result<(PacketData, usize), Refused>
    ensures { result ≡ as_read (mapped ipv4_of (decode sampled_ipv4 s.now at)) }
{
    let (words, next) = read_words::<8>(s, at)?;
    let [
        length,
        protocol,
        src_ip,
        dst_ip,
        src_port,
        dst_port,
        tcp_flags,
        tos,
    ] = words;
    let packet = SampledIpv4 {
        length,
        protocol,
        src_ip,
        dst_ip,
        src_port,
        dst_port,
        tcp_flags,
        tos,
    };
    Ok((PacketData::Ipv4(packet), next))
}

#[inline(always)]
fn read_ipv6(s: &[u8], at: usize) -> Result<(PacketData, usize), Refused>
    ensures { result ≡ as_read (mapped ipv6_of (decode sampled_ipv6 s.now at)) }
{
    let ([length, protocol], src_at) = read_words::<2>(s, at)?;
    let (src_ip, dst_at) = xdr::read_quad(s, src_at)?;
    let (dst_ip, ports_at) = xdr::read_quad(s, dst_at)?;
    let ([src_port, dst_port, tcp_flags, priority], next) = read_words::<4>(s, ports_at)?;
    let packet = SampledIpv6 {
        length,
        protocol,
        src_ip,
        dst_ip,
        src_port,
        dst_port,
        tcp_flags,
        priority,
    };
    Ok((PacketData::Ipv6(packet), next))
}

// Packet data at their type word.
#[inline(always)]
pub fn read_packet(s: &[u8], at: usize) -> Result<(PacketData, usize), Refused>
    ensures { result ≡ as_read (mapped (packet_of at) (decode packet_data_type s.now at)) }
{
    let (kind, next) = xdr::read_word(s, at)?;
    match kind {
        1 => read_header(s, next),
        2 => read_ipv4(s, next),
        3 => read_ipv6(s, next),
        _ => Err(Refused {
            why: Refusal::PacketDataType,
            at,
        }),
    }
}

// Packet data at their type word that are not handed out.
pub fn pass_packet(s: &[u8], at: usize) -> Result<usize, Refused>
    ensures { result ≡ as_passed (decode packet_data_type s.now at) }
{
    let (_, next) = read_packet(s, at)?;
    Ok(next)
}
