// Writes one value of every form of packet data and extended data, a path segment, a flow sample and a counter sample, reads each back and compares
// its octets with those that stand here. Prints a line for each.
#![tactic(auto)]

use extended_data::{Router, Switch};
use fields::address::Address;
use form_writer::parts::WriteRefusal;
use packet_data::{SampledIpv4, SampledIpv6};
use reader::sample::FlowWords;
use sflow::Refused;
use std::io;
use std::io::Write;
use xdr::Quad;

// Whether a buffer begins with the wanted octets, and so many were written and read.
fn agrees(
    d: &[u8],
    answer: Result<usize, WriteRefusal>,
    passed: Result<usize, Refused>,
    want: &[u8],
) -> bool {
    let Ok(length) = answer else {
        return false;
    };
    let Ok(end) = passed else {
        return false;
    };
    end == length && check::same(vector_io::part(d, 0, length), want)
}

// Writes a form to a buffer by one function, reads it back by another and compares.
fn report<
    W: Write,
    F: FnOnce(&mut [u8]) -> Result<usize, WriteRefusal>,
    P: FnOnce(&[u8]) -> Result<usize, Refused>,
>(out: &mut W, d: &mut [u8], name: &[u8], write: F, pass: P, want: &[u8]) -> io::Result<()>
    requires written { F.IsAlwaysCallable write }
    requires passed { P.IsAlwaysCallable pass }
{
    let answer = write(d);
    let passed = pass(d);
    vector_io::show(out, name, &[])?;
    if agrees(d, answer, passed, want) {
        vector_io::line(out, b" written and read back", &[])
    } else {
        vector_io::line(out, b" WRONG", &[])
    }
}

fn header<W: Write>(out: &mut W, d: &mut [u8]) -> io::Result<()> {
    report(
        out,
        d,
        b"header",
        |d| form_writer::packet::write_header(d, 1, 64, b"\x01\x02\x03\x04\x05"),
        |d| packet_data::pass_packet(d, 0),
        b"\0\0\0\x01\0\0\0\x01\0\0\0\x40\0\0\0\x05\x01\x02\x03\x04\x05\0\0\0",
    )
}

fn ipv4<W: Write>(out: &mut W, d: &mut [u8]) -> io::Result<()> {
    let x = SampledIpv4 {
        length: 1,
        protocol: 6,
        src_ip: 167772167,
        dst_ip: 167772168,
        src_port: 80,
        dst_port: 443,
        tcp_flags: 2,
        tos: 9,
    };
    report(
        out,
        d,
        b"IPv4",
        |d| form_writer::packet::write_ipv4(d, x),
        |d| packet_data::pass_packet(d, 0),
        b"\0\0\0\x02\0\0\0\x01\0\0\0\x06\x0a\0\0\x07\x0a\0\0\x08\0\0\0\x50\0\0\x01\xbb\0\0\0\x02\0\0\0\x09",
    )
}

fn quad() -> Quad {
    Quad {
        a: 536939960,
        b: 1,
        c: 2,
        d: 3,
    }
}

fn ipv6<W: Write>(out: &mut W, d: &mut [u8]) -> io::Result<()> {
    let x = SampledIpv6 {
        length: 1,
        protocol: 17,
        src_ip: quad(),
        dst_ip: quad(),
        src_port: 5,
        dst_port: 6,
        tcp_flags: 7,
        priority: 8,
    };
    report(
        out,
        d,
        b"IPv6",
        |d| form_writer::packet::write_ipv6(d, x),
        |d| packet_data::pass_packet(d, 0),
        b"\0\0\0\x03\0\0\0\x01\0\0\0\x11\x20\x01\x0d\xb8\0\0\0\x01\0\0\0\x02\0\0\0\x03\x20\x01\x0d\xb8\0\0\0\x01\0\0\0\x02\0\0\0\x03\0\0\0\x05\0\0\0\x06\0\0\0\x07\0\0\0\x08",
    )
}

fn switch<W: Write>(out: &mut W, d: &mut [u8]) -> io::Result<()> {
    let x = Switch {
        src_vlan: 1,
        src_priority: 2,
        dst_vlan: 3,
        dst_priority: 4,
    };
    report(
        out,
        d,
        b"switch",
        |d| form_writer::extended::write_switch(d, x),
        |d| extended_data::pass_extended(d, 0, 1),
        b"\0\0\0\x01\0\0\0\x01\0\0\0\x02\0\0\0\x03\0\0\0\x04",
    )
}

// A router whose next hop is an address of a type, which is a number in an address too.
fn router<W: Write>(
    out: &mut W,
    d: &mut [u8],
    name: &[u8],
    kind: u32,
    want: &[u8],
) -> io::Result<()> {
    let x = Router {
        nexthop: Address {
            kind,
            octets: quad(),
        },
        src_mask: 24,
        dst_mask: 16,
    };
    report(
        out,
        d,
        name,
        |d| form_writer::extended::write_router(d, x),
        |d| extended_data::pass_extended(d, 0, 1),
        want,
    )
}

fn routers<W: Write>(out: &mut W, d: &mut [u8]) -> io::Result<()> {
    router(
        out,
        d,
        b"router with IPv4",
        1,
        b"\0\0\0\x02\0\0\0\x01\x20\x01\x0d\xb8\0\0\0\x18\0\0\0\x10",
    )?;
    router(
        out,
        d,
        b"router with IPv6",
        2,
        b"\0\0\0\x02\0\0\0\x02\x20\x01\x0d\xb8\0\0\0\x01\0\0\0\x02\0\0\0\x03\0\0\0\x18\0\0\0\x10",
    )
}

fn user<W: Write>(out: &mut W, d: &mut [u8]) -> io::Result<()> {
    report(
        out,
        d,
        b"user",
        |d| form_writer::extended::write_user(d, b"root", b"guest"),
        |d| extended_data::pass_extended(d, 0, 1),
        b"\0\0\0\x04\0\0\0\x04root\0\0\0\x05guest\0\0\0",
    )
}

fn url<W: Write>(out: &mut W, d: &mut [u8]) -> io::Result<()> {
    report(
        out,
        d,
        b"URL",
        |d| form_writer::extended::write_url(d, 2, b"/a"),
        |d| extended_data::pass_extended(d, 0, 1),
        b"\0\0\0\x05\0\0\0\x02\0\0\0\x02/a\0\0",
    )
}

fn segment<W: Write>(out: &mut W, d: &mut [u8]) -> io::Result<()> {
    report(
        out,
        d,
        b"path segment",
        |d| form_writer::extended::write_segment(d, 2, &[7, 8]),
        |d| extended_data::pass_segments(d, 0, 1),
        b"\0\0\0\x02\0\0\0\x02\0\0\0\x07\0\0\0\x08",
    )
}

fn gateway<W: Write>(out: &mut W, d: &mut [u8]) -> io::Result<()> {
    let path = b"\0\0\0\x02\0\0\0\x02\0\0\0\x07\0\0\0\x08\0\0\0\x01\0\0\0\0";
    report(
        out,
        d,
        b"gateway",
        |d| form_writer::extended::write_gateway(d, 1, 2, 3, 2, path, &[9], 100),
        |d| extended_data::pass_extended(d, 0, 1),
        b"\0\0\0\x03\0\0\0\x01\0\0\0\x02\0\0\0\x03\0\0\0\x02\0\0\0\x02\0\0\0\x02\0\0\0\x07\0\0\0\x08\0\0\0\x01\0\0\0\0\0\0\0\x01\0\0\0\x09\0\0\0\x64",
    )
}

// The words of the flow samples below.
fn flow_words() -> FlowWords {
    FlowWords {
        sequence_number: 1,
        source_id: 2,
        sampling_rate: 3,
        sample_pool: 4,
        drops: 5,
        input: 6,
        output: 7,
    }
}

fn flow_sample<W: Write>(out: &mut W, d: &mut [u8]) -> io::Result<()> {
    let words = flow_words();
    let header = b"\0\0\0\x01\0\0\0\x01\0\0\0\x40\0\0\0\x01\xff\0\0\0";
    let entries =
        b"\0\0\0\x05\0\0\0\x02\0\0\0\x02/a\0\0\0\0\0\x01\0\0\0\x01\0\0\0\x02\0\0\0\x03\0\0\0\x04";
    report(
        out,
        d,
        b"flow sample",
        |d| sample_writer::sample::write_flow(d, words, header, 2, entries),
        |d| reader::sample::pass_sample(d, 0),
        b"\0\0\0\x01\0\0\0\x01\0\0\0\x02\0\0\0\x03\0\0\0\x04\0\0\0\x05\0\0\0\x06\0\0\0\x07\0\0\0\x01\0\0\0\x01\0\0\0\x40\0\0\0\x01\xff\0\0\0\0\0\0\x02\0\0\0\x05\0\0\0\x02\0\0\0\x02/a\0\0\0\0\0\x01\0\0\0\x01\0\0\0\x02\0\0\0\x03\0\0\0\x04",
    )
}

fn header_flow<W: Write>(out: &mut W, d: &mut [u8]) -> io::Result<()> {
    let words = flow_words();
    let entries =
        b"\0\0\0\x05\0\0\0\x02\0\0\0\x02/a\0\0\0\0\0\x01\0\0\0\x01\0\0\0\x02\0\0\0\x03\0\0\0\x04";
    report(
        out,
        d,
        b"flow sample with a header",
        |d| sample_writer::sample::write_header_flow(d, words, 1, 64, b"\xff", 2, entries),
        |d| reader::sample::pass_sample(d, 0),
        b"\0\0\0\x01\0\0\0\x01\0\0\0\x02\0\0\0\x03\0\0\0\x04\0\0\0\x05\0\0\0\x06\0\0\0\x07\0\0\0\x01\0\0\0\x01\0\0\0\x40\0\0\0\x01\xff\0\0\0\0\0\0\x02\0\0\0\x05\0\0\0\x02\0\0\0\x02/a\0\0\0\0\0\x01\0\0\0\x01\0\0\0\x02\0\0\0\x03\0\0\0\x04",
    )
}

fn ipv4_flow<W: Write>(out: &mut W, d: &mut [u8]) -> io::Result<()> {
    let words = flow_words();
    let x = SampledIpv4 {
        length: 9,
        protocol: 10,
        src_ip: 11,
        dst_ip: 12,
        src_port: 13,
        dst_port: 14,
        tcp_flags: 15,
        tos: 16,
    };
    report(
        out,
        d,
        b"flow sample with IPv4 data",
        |d| sample_writer::sample::write_ipv4_flow(d, words, x, 0, b""),
        |d| reader::sample::pass_sample(d, 0),
        b"\0\0\0\x01\0\0\0\x01\0\0\0\x02\0\0\0\x03\0\0\0\x04\0\0\0\x05\0\0\0\x06\0\0\0\x07\0\0\0\x02\0\0\0\x09\0\0\0\x0a\0\0\0\x0b\0\0\0\x0c\0\0\0\x0d\0\0\0\x0e\0\0\0\x0f\0\0\0\x10\0\0\0\x00",
    )
}

fn ipv6_flow<W: Write>(out: &mut W, d: &mut [u8]) -> io::Result<()> {
    let words = flow_words();
    let x = SampledIpv6 {
        length: 9,
        protocol: 10,
        src_ip: Quad {
            a: 11,
            b: 12,
            c: 13,
            d: 14,
        },
        dst_ip: Quad {
            a: 15,
            b: 16,
            c: 17,
            d: 18,
        },
        src_port: 19,
        dst_port: 20,
        tcp_flags: 21,
        priority: 22,
    };
    report(
        out,
        d,
        b"flow sample with IPv6 data",
        |d| sample_writer::sample::write_ipv6_flow(d, words, x, 0, b""),
        |d| reader::sample::pass_sample(d, 0),
        b"\0\0\0\x01\0\0\0\x01\0\0\0\x02\0\0\0\x03\0\0\0\x04\0\0\0\x05\0\0\0\x06\0\0\0\x07\0\0\0\x03\0\0\0\x09\0\0\0\x0a\0\0\0\x0b\0\0\0\x0c\0\0\0\x0d\0\0\0\x0e\0\0\0\x0f\0\0\0\x10\0\0\0\x11\0\0\0\x12\0\0\0\x13\0\0\0\x14\0\0\0\x15\0\0\0\x16\0\0\0\x00",
    )
}

fn counter_sample<W: Write>(out: &mut W, d: &mut [u8]) -> io::Result<()> {
    let numbers = [1u64, 72623859790382856, 3, 4, 5, 6];
    report(
        out,
        d,
        b"counter sample",
        |d| sample_writer::counters::write_counters(d, 5, 6, 7, 7, &numbers),
        |d| reader::sample::pass_sample(d, 0),
        b"\0\0\0\x02\0\0\0\x05\0\0\0\x06\0\0\0\x07\0\0\0\x07\0\0\0\x01\x01\x02\x03\x04\x05\x06\x07\x08\0\0\0\x03\0\0\0\x04\0\0\0\x05\0\0\0\x06",
    )
}

fn main(rt: HostRuntime) -> io::Result<()> {
    let mut out = rt.stdout();
    let mut d = [165u8; 256];
    header(&mut out, &mut d)?;
    ipv4(&mut out, &mut d)?;
    ipv6(&mut out, &mut d)?;
    switch(&mut out, &mut d)?;
    routers(&mut out, &mut d)?;
    user(&mut out, &mut d)?;
    url(&mut out, &mut d)?;
    segment(&mut out, &mut d)?;
    gateway(&mut out, &mut d)?;
    flow_sample(&mut out, &mut d)?;
    header_flow(&mut out, &mut d)?;
    ipv4_flow(&mut out, &mut d)?;
    ipv6_flow(&mut out, &mut d)?;
    counter_sample(&mut out, &mut d)?;
    Ok(())
}
