// What the programs that run vectors share: records read from standard input, texts and numbers written to standard output.
// What a writer then holds is said where its octets are known; of what a system call reads or writes a contract can say nothing.
#![tactic(auto)]

ghost use Rattle.std.specs.Prelude.{ℕ, List, Option, ◌≡◌, ◌-◌, ◌++◌, OnOk, length, take, drop, replicate};
ghost use Rattle.std.specs.Io.KnownBytes.{Appends};
ghost use Rattle.vector_io.specs.Records.{ReadInto, TakenFrom, EachRecord};
ghost use Rattle.vector_io.specs.Texts.{spaced, line_of, refusal_line};

use std::io;
use std::io::{Read, Write};

// Room for a record: no datagram, sample or rule set of the vectors is longer.
pub fn room() -> [u8; 131072]
    ensures { (131072 ≡ length result) × (result ≡ replicate 131072 0) }
{
    [0; 131072]
}

// Reads the next record of the input, which stands behind its length in four octets, to the front of a buffer: the record's length; none at the end
// of the input, or where the record is cut or has no room. A read that fails ends the input.
pub fn read_record<R: Read>(input: &mut R, buffer: &mut [u8]) -> Option<usize>
    ensures fits { ReadInto buffer.old result buffer.new }
    ensures taken { TakenFrom (R.remaining input.old) result buffer.new (R.remaining input.new) }
{
    let mut prefix = [0u8; 4];
    if input.read_exact(&mut prefix).is_err() {
        return None;
    }
    let Ok((length, _)) = xdr::read_word(&prefix, 0) else {
        return None;
    };
    let n = length as usize;
    if buffer.len() < n {
        return None;
    }
    if input.read_exact(&mut buffer[..n]).is_err() {
        return None;
    }
    Some(n)
}

// So many items of a list, from a place on and as far as they are there.
fn some_of<T>(items: &[T], at: usize, count: usize) -> &[T]
    ensures { result.now ≡ take count (drop at items.now) }
{
    if items.len() < at {
        return &items[..0];
    }
    let rest = &items[at..];
    if rest.len() < count {
        return rest;
    }
    &rest[..count]
}

// The octets between two places, as far as they are there.
pub fn part(s: &[u8], at: usize, end: usize) -> &[u8]
    ensures { result.now ≡ take (end - at) (drop at s.now) }
{
    some_of(s, at, end.saturating_sub(at))
}

// Writes a text and behind it so many numbers of a list, from a place on and as far as they are there, a space before each.
pub fn show_part<W: Write>(
    out: &mut W,
    text: &[u8],
    numbers: &[u64],
    at: usize,
    count: usize,
) -> io::Result<()>
    ensures { OnOk result (Appends (W.contents out.old) (W.contents out.new)
        (text.now ++ spaced (take count (drop at numbers.now)))) }
{
    out.write_all(text)?;
    for number in some_of(numbers, at, count) {
        write!(out, " {number}")?;
    }
    Ok(())
}

// Writes a text and behind it numbers, a space before each.
pub fn show<W: Write>(out: &mut W, text: &[u8], numbers: &[u64]) -> io::Result<()>
    ensures { OnOk result (Appends (W.contents out.old) (W.contents out.new)
        (text.now ++ spaced numbers.now)) }
{
    show_part(out, text, numbers, 0, numbers.len())
}

// The same as a line.
pub fn line<W: Write>(out: &mut W, text: &[u8], numbers: &[u64]) -> io::Result<()>
    ensures { OnOk result (Appends (W.contents out.old) (W.contents out.new)
        (line_of text.now numbers.now)) }
{
    show(out, text, numbers)?;
    out.write_all(b"\n")
}

// The line of a refusal: its number, and the place or the rule that it names.
pub fn refused<W: Write>(out: &mut W, number: u32, at: usize) -> io::Result<()>
    ensures { OnOk result (Appends (W.contents out.old) (W.contents out.new)
        (refusal_line number at)) }
{
    show(out, b"refused", &[number as u64])?;
    line(out, b" at", &[at as u64])
}

// Calls a function with an output and each record of the input, one behind the other, until the input ends or a call fails.
pub fn each_record<R: Read, W: Write, F: Fn(&mut W, &[u8]) -> io::Result<()>>(
    input: &mut R,
    out: &mut W,
    step: F,
) -> io::Result<()>
    requires { F.IsAlwaysCallable step }
    ensures { OnOk result ((after : Option (List ℕ)) × EachRecord (F.post step) (R.remaining input.old) out.old after out.new) }
{
    let mut buffer = room();
    for _ in 0..u64::MAX {
        let Some(n) = read_record(input, &mut buffer) else {
            return Ok(());
        };
        step(out, part(&buffer, 0, n))?;
    }
    Ok(())
}
