// Reads datagrams from standard input, each behind its length in four octets, and writes what the reader gives of each: every value of an
// accepted datagram, or the number and place of the refusal. The datagrams and the expected text come from the second program in conformance/.
#![tactic(auto)]

use std::io;
use std::io::Write;

// So many words from a place on.
fn words<W: Write>(out: &mut W, s: &[u8], count: u64, first: u64) -> io::Result<()> {
    let mut at = first as usize;
    for _ in 0..count {
        let Ok((v, next)) = xdr::read_word(s, at) else {
            return Ok(());
        };
        vector_io::show(out, b"", &[v as u64])?;
        at = next;
    }
    vector_io::line(out, b"", &[])
}

// So many parts of a datagram from a place on, each by a function that shows the one at a place and answers the place behind it.
fn each<W: Write, F: Fn(&mut W, &[u8], u64) -> io::Result<u64>>(
    out: &mut W,
    s: &[u8],
    count: u64,
    first: u64,
    show: F,
) -> io::Result<()>
    requires { F.IsAlwaysCallable show }
{
    let mut at = first;
    for _ in 0..count {
        at = show(out, s, at)?;
    }
    Ok(())
}

// The path segment at a place; answers the place behind it.
fn segment<W: Write>(out: &mut W, s: &[u8], at: u64) -> io::Result<u64> {
    let mut x = [0u64; 4];
    read_calls::segment(s, at as usize, &mut x);
    vector_io::show_part(out, b"  segment", &x, 0, 1)?;
    words(out, s, x[2], x[3])?;
    Ok(x[1])
}

fn gateway<W: Write>(out: &mut W, s: &[u8], x: &[u64; 10]) -> io::Result<()> {
    vector_io::show_part(out, b" gateway", x, 2, 3)?;
    vector_io::line(out, b"", &[])?;
    each(out, s, x[5], x[6], segment)?;
    vector_io::show(out, b"  communities", &[])?;
    words(out, s, x[7], x[8])?;
    vector_io::show_part(out, b"  localpref", x, 9, 1)
}

// The extended entry at a place; answers the place behind it.
fn entry<W: Write>(out: &mut W, s: &[u8], at: u64) -> io::Result<u64> {
    let mut x = [0u64; 10];
    read_calls::extended(s, at as usize, &mut x);
    match x[0] {
        1 => vector_io::show_part(out, b" switch", &x, 2, 4)?,
        2 => vector_io::show_part(out, b" router", &x, 2, 7)?,
        3 => gateway(out, s, &x)?,
        4 => vector_io::show_part(out, b" user", &x, 2, 4)?,
        _ => vector_io::show_part(out, b" url", &x, 2, 3)?,
    }
    vector_io::line(out, b"", &[])?;
    Ok(x[1])
}

fn flow<W: Write>(out: &mut W, s: &[u8], x: &[u64; 45]) -> io::Result<()> {
    vector_io::show_part(out, b"flow", x, 1, 9)?;
    match x[10] {
        1 => vector_io::show_part(out, b"\n header", x, 13, 4)?,
        2 => vector_io::show_part(out, b"\n ipv4", x, 13, 8)?,
        _ => vector_io::show_part(out, b"\n ipv6", x, 13, 14)?,
    }
    vector_io::line(out, b"", &[])?;
    each(out, s, x[11], x[12], entry)
}

fn counters<W: Write>(out: &mut W, x: &[u64; 45]) -> io::Result<()> {
    vector_io::show_part(out, b"counters", x, 1, 6)?;
    vector_io::show_part(out, b"", x, 8, x[7] as usize)?;
    vector_io::line(out, b"", &[])
}

// The sample at a place; answers the place behind it.
fn sample<W: Write>(out: &mut W, s: &[u8], at: u64) -> io::Result<u64> {
    let mut x = [0u64; 45];
    sample_calls::sample(s, at as usize, &mut x);
    if x[0] == 1 {
        flow(out, s, &x)?;
    } else {
        counters(out, &x)?;
    }
    Ok(at.wrapping_add(x[2]))
}

fn accepted<W: Write>(out: &mut W, x: &[u64; 9]) -> io::Result<()> {
    vector_io::show_part(out, b"accepted agent", x, 0, 5)?;
    vector_io::show_part(out, b" sequence", x, 5, 1)?;
    vector_io::show_part(out, b" uptime", x, 6, 1)?;
    vector_io::show_part(out, b" samples", x, 7, 1)?;
    vector_io::show_part(out, b" first", x, 8, 1)?;
    vector_io::line(out, b"", &[])
}

fn datagram<W: Write>(out: &mut W, s: &[u8]) -> io::Result<()> {
    let mut x = [0u64; 9];
    let number = read_calls::read(s, &mut x);
    if number != 0 {
        return vector_io::refused(out, number, x[0] as usize);
    }
    accepted(out, &x)?;
    each(out, s, x[7], x[8], sample)
}

fn main(rt: HostRuntime) -> io::Result<()> {
    let mut input = rt.stdin();
    let mut out = rt.stdout();
    vector_io::each_record(&mut input, &mut out, datagram)
}
