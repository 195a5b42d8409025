#![tactic(auto)]
// A record's lines and the last lines of a capture's listing, as text (ASCII) in a lent output.
ghost use Rattle.std.specs.Prelude.{◌≡◌, ◌++◌, ℕ, ◌+◌, ◌*◌, ◌≤◌, ◌<◌, length};
ghost use Rattle.xdr.specs.Writes.{stored, afterwards};
ghost use Rattle.record_lines.specs.Digits.{digit, last_digits, shown, decimal, hexadecimal};
ghost use Rattle.record_lines.specs.Lines.{
  Puts,
  write_line,
  agent_is,
  ending,
  source_text,
  sample_text,
  sample_line,
  dotted,
  hex_text,
  agent_text,
  agent_line,
  refused_line,
  bad_line,
  last_line,
  closing_lines,
  sample_lines,
};
ghost use Rattle.reader.specs.Datagrams.{walk};
ghost use Rattle.record_lines.specs.Records.{list_record};

use fields::address::Address;
use reader::datagram::{Cursor, Head};
use reader::sample::{Sample, SampleValues};

// Puts octets at an offset and answers the offset behind them.
// A buffer and an offset stay two parameters, here and below: a struct that holds both needs in each contract one clause more, that it holds the same lent buffer.
fn put(d: &mut [u8], at: usize, s: &[u8]) -> usize
    requires { at + length s.now ≤ length d.old }
    ensures { Puts d.old at s.now result d.new }
{
    let next = at + s.len();
    d[at..next].copy_from_slice(s);
    next
}

// How many decimal digits a number has.
fn width(n: u64) -> usize
    ensures { (last_digits 10 result n ≡ decimal n) × (result ≤ 20) }
{
    match n.checked_ilog10() {
        None => 1,
        Some(power) => power as usize + 1,
    }
}

// The character of a digit.
fn digit(n: u64) -> u8
    requires { n ≤ 15 }
    ensures { result ≡ digit n }
{
    if n < 10 {
        return 48 + n as u8;
    }
    87 + n as u8
}

// The last so many digits of a number in a base, the last one first.
fn spell<const BASE: u64>(d: &mut [u8], at: usize, n: u64, k: usize)
    requires base { (0 < BASE) × (BASE ≤ 16) }
    requires room { at + k ≤ length d.old }
    ensures { d.new ≡ stored d.old at (last_digits BASE k n) }
{
    let mut rest = n;
    for i in (0..k).rev() {
        d[at + i] = digit(rest % BASE);
        rest /= BASE;
    }
}

// A number in decimal digits.
fn number(d: &mut [u8], at: usize, n: u64) -> usize
    requires { at + 20 ≤ length d.old }
    ensures { Puts d.old at (decimal n) result d.new × (result ≤ at + 20) }
{
    let k = width(n);
    spell::<10>(d, at, n, k);
    at + k
}

// A word in eight hexadecimal digits.
fn hex_word(d: &mut [u8], at: usize, n: u32) -> usize
    requires { at + 8 ≤ length d.old }
    ensures { Puts d.old at (hexadecimal n) result d.new × (result ≤ at + 8) }
{
    spell::<16>(d, at, u64::from(n), 8);
    at + 8
}

// Words and a number behind them.
fn labelled(d: &mut [u8], at: usize, s: &[u8], n: u64) -> usize
    requires { at + length s.now + 20 ≤ length d.old }
    ensures { Puts d.old at (s.now ++ decimal n) result d.new × (result ≤ at + length s.now + 20) }
{
    let next = put(d, at, s);
    number(d, next, n)
}

// Words, a number and the end of the line.
fn ending_line(d: &mut [u8], at: usize, s: &[u8], n: u64) -> usize
    requires { at + length s.now + 21 ≤ length d.old }
    ensures { Puts d.old at (ending s.now n) result d.new × (result ≤ at + length s.now + 21) }
{
    let next = labelled(d, at, s, n);
    put(d, next, b"\n")
}

// A source id: its top octet, a dot, its low 24 bits.
fn source_text(d: &mut [u8], at: usize, source: u32) -> usize
    requires { at + 49 ≤ length d.old }
    ensures { Puts d.old at (source_text source) result d.new × (result ≤ at + 49) }
{
    let next = labelled(d, at, b" source ", (source / 16777216) as u64);
    labelled(d, next, b".", (source % 16777216) as u64)
}

// A sample's kind with its offset, length, source id and sequence number. In each caller the kind is known, so that it is put as a few words: the archive for C
// asks the C library for no memmove.
#[inline(always)]
fn sample_text(
    d: &mut [u8],
    at: usize,
    kind: &[u8],
    offset: usize,
    len: usize,
    source: u32,
    number: u32,
) -> usize
    requires { at + length kind.now + 123 ≤ length d.old }
    ensures { Puts d.old at (sample_text kind.now offset len source number) result d.new × (result ≤ at + length kind.now + 123) }
{
    let p1 = labelled(d, at, kind, offset as u64);
    let p2 = labelled(d, p1, b" length ", len as u64);
    let p3 = source_text(d, p2, source);
    ending_line(d, p3, b" seq ", number as u64)
}

// The line of a sample.
fn sample_line(d: &mut [u8], at: usize, x: Sample) -> usize
    requires { at + 136 ≤ length d.old }
    ensures { Puts d.old at (sample_line x) result d.new × (result ≤ at + 136) }
{
    let values = x.values;
    match values {
        SampleValues::Flow(v) => sample_text(
            d,
            at,
            b" flow at ",
            x.offset,
            x.length,
            v.words.source_id,
            v.words.sequence_number,
        ),
        SampleValues::Counters(v) => sample_text(
            d,
            at,
            b" counters at ",
            x.offset,
            x.length,
            v.source_id,
            v.sequence_number,
        ),
    }
}

// An IPv4 address with dots.
fn dotted_text(d: &mut [u8], at: usize, v: u32) -> usize
    requires { at + 83 ≤ length d.old }
    ensures { Puts d.old at (dotted v) result d.new × (result ≤ at + 83) }
{
    let p1 = number(d, at, (v / 16777216) as u64);
    let p2 = labelled(d, p1, b".", (v / 65536 % 256) as u64);
    let p3 = labelled(d, p2, b".", (v / 256 % 256) as u64);
    labelled(d, p3, b".", (v % 256) as u64)
}

// An address's four words in hexadecimal digits.
fn hex_text(d: &mut [u8], at: usize, agent: Address) -> usize
    requires { at + 32 ≤ length d.old }
    ensures { Puts d.old at (hex_text agent.octets.a agent.octets.b agent.octets.c agent.octets.d) result d.new × (result ≤ at + 32) }
{
    let words = agent.octets;
    let p1 = hex_word(d, at, words.a);
    let p2 = hex_word(d, p1, words.b);
    let p3 = hex_word(d, p2, words.c);
    hex_word(d, p3, words.d)
}

// An agent's address.
fn agent_text(d: &mut [u8], at: usize, agent: Address) -> usize
    requires { at + 83 ≤ length d.old }
    ensures { Puts d.old at (agent_text agent) result d.new × (result ≤ at + 83) }
{
    if agent.kind == 1 {
        return dotted_text(d, at, agent.octets.a);
    }
    hex_text(d, at, agent)
}

// The start of an accepted record's first line.
fn agent_start(d: &mut [u8], at: usize, index: u64) -> usize
    requires { at + 27 ≤ length d.old }
    ensures { Puts d.old at (decimal index ++ agent_is) result d.new × (result ≤ at + 27) }
{
    let next = number(d, at, index);
    put(d, next, b" agent ")
}

// The first line of an accepted record.
fn agent_line(d: &mut [u8], at: usize, index: u64, head: Head, len: usize) -> usize
    requires { at + 164 ≤ length d.old }
    ensures { Puts d.old at (agent_line index head len) result d.new × (result ≤ at + 164) }
{
    let p1 = agent_start(d, at, index);
    let p2 = agent_text(d, p1, head.agent);
    let p3 = labelled(d, p2, b" seq ", head.sequence_number as u64);
    ending_line(d, p3, b" length ", len as u64)
}

// The line of a refused record.
fn refused_line(d: &mut [u8], at: usize, index: u64, n: u32, p: usize) -> usize
    requires { at + 74 ≤ length d.old }
    ensures { Puts d.old at (refused_line index n p) result d.new × (result ≤ at + 74) }
{
    let p1 = number(d, at, index);
    let p2 = labelled(d, p1, b" refused ", n as u64);
    ending_line(d, p2, b" at ", p as u64)
}

// The line of a capture that goes wrong at an offset.
fn bad_text(d: &mut [u8], at: usize, offset: u64) -> usize
    requires { at + 36 ≤ length d.old }
    ensures { Puts d.old at (bad_line offset) result d.new × (result ≤ at + 36) }
{
    ending_line(d, at, b"capture bad at ", offset)
}

// The numbers of the last line.
fn last_text(d: &mut [u8], at: usize, records: u64, refused: u64, samples: u64) -> usize
    requires { at + 87 ≤ length d.old }
    ensures { Puts d.old at (last_line records refused samples) result d.new × (result ≤ at + 87) }
{
    let p1 = labelled(d, at, b"records ", records);
    let p2 = labelled(d, p1, b" refused ", refused);
    ending_line(d, p2, b" samples ", samples)
}

// What follows the last record.
fn closing_text(
    d: &mut [u8],
    at: usize,
    bad: bool,
    offset: u64,
    records: u64,
    refused: u64,
    samples: u64,
) -> usize
    requires { at + 123 ≤ length d.old }
    ensures { Puts d.old at (closing_lines bad offset records refused samples) result d.new }
{
    if bad {
        let next = bad_text(d, at, offset);
        return last_text(d, next, records, refused, samples);
    }
    last_text(d, at, records, refused, samples)
}

// What follows the last record: where the capture goes wrong there, the line that says so with its offset, then the last line; 123 octets of room are asked for.
// The flag and the numbers stand apart, here and in what it calls: the reference names the function with these parameters.
pub fn closing_lines(
    d: &mut [u8],
    at: usize,
    bad: bool,
    offset: u64,
    records: u64,
    refused: u64,
    samples: u64,
) -> Option<usize>
    ensures { afterwards result d.new ≡ write_line 123 d.old at (closing_lines bad offset records refused samples) }
{
    let room = d.len().checked_sub(at)?;
    if room < 123 {
        return None;
    }
    Some(closing_text(d, at, bad, offset, records, refused, samples))
}

// The lines of so many samples.
fn sample_lines(d: &mut [u8], at: usize, s: &[u8], first: usize, count: u32) -> usize
    requires { at + 136 * count ≤ length d.old }
    ensures { Puts d.old at (sample_lines (walk s.now count first).met) result d.new × (result ≤ at + 136 * count) }
{
    let mut out = at;
    let mut cursor = Cursor {
        at: first,
        left: count,
    };
    for _ in 0..count {
        let Ok(step) = reader::datagram::next_sample(s, cursor) else {
            return out;
        };
        let Some((sample, behind)) = step else {
            return out;
        };
        out = sample_line(d, out, sample);
        cursor = behind;
    }
    out
}

// How a record was listed.
#[derive(Clone, Copy)]
pub enum Listed {
    // an accepted record: the offset behind its lines, and how many samples it has
    Accepted(usize, u32),
    // a refused record: the offset behind its line
    Refused(usize),
}

// Lists a record's datagram at an offset of the output, with the record's number; none where the room may be too short, and then nothing is written.
pub fn list_record(d: &mut [u8], at: usize, index: u64, s: &[u8]) -> Option<Listed>
    ensures { afterwards result d.new ≡ list_record d.old at index s.now }
{
    let room = d.len().checked_sub(at)?;
    if room < 164 {
        return None;
    }
    match reader::datagram::read(s) {
        Err(refused) => {
            let n = u32::from(refused.why);
            Some(Listed::Refused(refused_line(d, at, index, n, refused.at)))
        }
        Ok(head) => {
            let count = head.samples.count;
            if (room - 164) / 136 < count as usize {
                return None;
            }
            let next = agent_line(d, at, index, head, s.len());
            Some(Listed::Accepted(sample_lines(d, next, s, head.samples.at, count), count))
        }
    }
}
