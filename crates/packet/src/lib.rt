#![tactic(auto, using(std::proofs::lemmas::Bool::Decides::nat_tests), unfolding(crate::specs::Attributes::ports_of, crate::specs::Attributes::ipv4_view, crate::specs::Attributes::header_view, crate::specs::Attributes::packet_view, crate::specs::Attributes::attribute))]
// The attributes of a flow sample that rules test (document 01, "Attributes of a flow sample"; RFC 2722, Appendix C).
ghost use Rattle.std.specs.Prelude.{◌≡◌, ◌*◌, ◌+◌, ◌%◌, ◌≤◌, true, ◌||◌, length, eqb};
ghost use Rattle.fields.specs.Strings.{text_in};
ghost use Rattle.packet.specs.Attributes.{header_size, is_ipv4, ports_of, no_view, ipv4_view, holds_ipv4, header_view, packet_view, attributes_of, attribute};

use fields::strings::Text;
use packet_data::{PacketData, SampledHeader, SampledIpv4, SampledIpv6};
use reader::sample::FlowSample;

#[derive(Clone, Copy, Default)]
pub struct Ports {
    pub source: u32,
    pub dest: u32,
}

// A packet's peers and transport: the peers' type is 1 for IPv4, 2 for IPv6, else 0; the protocol is the IP protocol.
#[derive(Clone, Copy, Default)]
pub struct PacketView {
    pub peer_type: u32,
    pub source_address: u32,
    pub dest_address: u32,
    pub protocol: u32,
    pub ports: Ports,
}

#[derive(Clone, Copy)]
pub struct Attributes {
    pub input: u32,
    pub output: u32,
    pub packet: PacketView,
}

// A header's length in octets, from its first octet.
fn size_of(first: u8) -> usize
    ensures { result ≡ first % 16 * 4 }
{
    usize::from(first % 16) * 4
}

// What is neither IPv4 nor IPv6.
fn no_view() -> PacketView
    ensures { result ≡ no_view }
{
    PacketView::default()
}

// Whether a protocol has ports: TCP and UDP.
fn has_ports(protocol: u32) -> bool
    ensures { result ≡ (eqb protocol 6 || eqb protocol 17) }
{
    protocol == 6 || protocol == 17
}

// The ports behind an IP header of a size.
fn ports_behind(x: &[u8], protocol: u32, size: usize) -> Ports
    requires { size ≤ length x.now }
    ensures { result ≡ ports_of x.now protocol size }
{
    if !has_ports(protocol) || x.len() - size < 4 {
        return Ports::default();
    }
    Ports {
        source: xdr::pair_of(x[size], x[size + 1]),
        dest: xdr::pair_of(x[size + 2], x[size + 3]),
    }
}

// Whether octets that begin with an IP header count as IPv4.
fn is_ipv4(x: &[u8]) -> bool
    ensures { result ≡ is_ipv4 x.now }
{
    if x.len() < 20 {
        return false;
    }
    let size = size_of(x[0]);
    x[0] / 16 == 4 && 20 <= size && size <= x.len()
}

// The fields of an IPv4 header.
fn ipv4_fields(x: &[u8]) -> PacketView
    requires { (20 ≤ length x.now) × (header_size x.now ≤ length x.now) × (is_ipv4 x.now ≡ true) }
    ensures { result ≡ ipv4_view x.now }
{
    let protocol = u32::from(x[9]);
    let size = size_of(x[0]);
    let ports = ports_behind(x, protocol, size);
    PacketView {
        peer_type: 1,
        source_address: xdr::word_of(x[12], x[13], x[14], x[15]),
        dest_address: xdr::word_of(x[16], x[17], x[18], x[19]),
        protocol,
        ports,
    }
}

// IPv4 in octets that begin with its header.
fn ipv4_view(x: &[u8]) -> PacketView
    ensures { result ≡ ipv4_view x.now }
{
    if is_ipv4(x) {
        return ipv4_fields(x);
    }
    no_view()
}

// Whether an Ethernet frame holds IPv4.
fn holds_ipv4(x: &[u8]) -> bool
    ensures { result ≡ holds_ipv4 x.now }
{
    14 <= x.len() && x[12] == 8 && x[13] == 0
}

// The octets of a sampled header with its protocol.
fn header_view(x: &[u8], protocol: u32) -> PacketView
    ensures { result ≡ header_view protocol x.now }
{
    match protocol {
        1 if holds_ipv4(x) => ipv4_view(&x[14..]),
        11 => ipv4_view(x),
        _ => no_view(),
    }
}

// A sampled header whose octets stand at a place; those that are there.
fn header_in(s: &[u8], protocol: u32, t: Text) -> PacketView
    ensures { result ≡ header_view protocol (text_in s.now t) }
{
    let Some(rest) = s.get(t.at..) else {
        return no_view();
    };
    let n = (t.length as usize).min(rest.len());
    header_view(&rest[..n], protocol)
}

// Packet data that were read from octets.
pub fn packet_view(s: &[u8], packet: PacketData) -> PacketView
    ensures { result ≡ packet_view s.now packet }
{
    match packet {
        PacketData::Header(x) => { header_in(s, x.protocol, x.header) }
        PacketData::Ipv4(x) => PacketView {
            peer_type: 1,
            source_address: x.src_ip,
            dest_address: x.dst_ip,
            protocol: x.protocol,
            ports: Ports {
                source: x.src_port,
                dest: x.dst_port,
            },
        },
        PacketData::Ipv6(x) => PacketView {
            peer_type: 2,
            source_address: 0,
            dest_address: 0,
            protocol: x.protocol,
            ports: Ports {
                source: x.src_port,
                dest: x.dst_port,
            },
        },
    }
}

// The attributes of a flow sample that was read from octets.
pub fn attributes_of(s: &[u8], flow: FlowSample) -> Attributes
    ensures { result ≡ attributes_of s.now flow }
{
    Attributes {
        input: flow.words.input,
        output: flow.words.output,
        packet: packet_view(s, flow.packet_data),
    }
}

// The value of an attribute by its number; 0 for Null and for any other number.
pub fn attribute(a: Attributes, number: u8) -> u32
    ensures { result ≡ attribute a number }
{
    let packet = a.packet;
    let ports = packet.ports;
    match number {
        4 => a.input,
        8 => packet.peer_type,
        9 => packet.source_address,
        11 => packet.protocol,
        12 => ports.source,
        14 => a.output,
        18 => packet.peer_type,
        19 => packet.dest_address,
        21 => packet.protocol,
        22 => ports.dest,
        _ => 0,
    }
}
