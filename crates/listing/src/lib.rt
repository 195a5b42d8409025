#![tactic(auto)]
// Lists a capture's records as lines of text (ASCII) in a lent output.
ghost use Rattle.std.specs.Prelude.{◌≡◌, ◌+◌, ◌≤◌, length, take, drop};
ghost use Rattle.xdr.specs.Writes.{afterwards};
ghost use Rattle.record_lines.specs.Lines.{write_line};
ghost use Rattle.record_lines.specs.Records.{list_record};
ghost use Rattle.listing.specs.Captures.{frame_of, count_accepted, count_refused, stopped_as, list_step, is_over, list_all};
ghost use Rattle.listing.specs.Texts.{end_lines, end_text};

use record_lines::Listed;

// Why octets do not begin with a whole record.
#[derive(Clone, Copy, PartialEq, Eq)]
pub enum FrameFault {
    // fewer octets than a record has
    Short,
    // a wrong mark, or a length over 65,507
    Wrong,
}

// The record at an offset: the length of its datagram.
pub fn frame_at(s: &[u8], at: usize) -> Result<usize, FrameFault>
    ensures { result ≡ frame_of (drop at s.now) }
{
    let Some(room) = s.len().checked_sub(at) else {
        return Err(FrameFault::Short);
    };
    if room < 4 {
        return Err(FrameFault::Short);
    }
    if s[at] != 115 || s[at + 1] != 70 {
        return Err(FrameFault::Wrong);
    }
    let n = xdr::pair_of(s[at + 2], s[at + 3]) as usize;
    if 65507 < n {
        return Err(FrameFault::Wrong);
    }
    if room - 4 < n {
        return Err(FrameFault::Short);
    }
    Ok(n)
}

// What was listed so far: the octets of its records, how many records, refused ones and samples. All are modulo 2^64.
#[derive(Clone, Copy)]
pub struct State {
    pub offset: u64,
    pub records: u64,
    pub refused: u64,
    pub samples: u64,
}

// Why listing stopped, or that it goes on, which `list_records` is said never to answer (`StopsAt`).
#[derive(Clone, Copy)]
pub enum Stop {
    // between two records
    GoesOn,
    // what is left of the buffer is no whole record
    NoRecord,
    // the output may be too short for the next record
    Output,
    // the next record has a wrong mark or length
    BadRecord,
}

// Where listing stands: in the buffer, in the output, and the state.
#[derive(Clone, Copy)]
pub struct Place {
    pub at: usize,
    pub out: usize,
    pub state: State,
    pub stop: Stop,
}

fn stopped(p: Place, stop: Stop) -> Place
    ensures { result ≡ stopped_as p stop }
{
    Place { stop, ..p }
}

// The state behind an accepted record of so many octets and samples.
fn count_accepted(t: State, taken: usize, n: u32) -> State
    ensures { result ≡ count_accepted t taken n }
{
    State {
        offset: t.offset.wrapping_add(taken as u64),
        records: t.records.wrapping_add(1),
        samples: t.samples.wrapping_add(n as u64),
        ..t
    }
}

// The state behind a refused record.
fn count_refused(t: State, taken: usize) -> State
    ensures { result ≡ count_refused t taken }
{
    State {
        offset: t.offset.wrapping_add(taken as u64),
        records: t.records.wrapping_add(1),
        refused: t.refused.wrapping_add(1),
        ..t
    }
}

// Lists the record whose datagram is so many octets of the buffer.
fn list_part(
    d: &mut [u8],
    at: usize,
    index: u64,
    s: &[u8],
    start: usize,
    n: usize,
) -> Option<Listed>
    requires { start + n ≤ length s.now }
    ensures { afterwards result d.new ≡ list_record d.old at index (take n (drop start s.now)) }
{
    record_lines::list_record(d, at, index, &s[start..start + n])
}

// The place behind a whole record.
fn list_whole(d: &mut [u8], s: &[u8], p: Place, n: usize) -> Place
    requires { (frame_of (drop p.at s.now) ≡ Ok n) × (p.at + 4 + n ≤ length s.now) }
    ensures { afterwards result d.new ≡ list_step d.old s.now p }
{
    let index = p.state.records.wrapping_add(1);
    let state = p.state;
    match list_part(d, p.out, index, s, p.at + 4, n) {
        None => stopped(p, Stop::Output),
        Some(Listed::Refused(out)) => Place {
            at: p.at + (4 + n),
            out,
            state: count_refused(state, 4 + n),
            stop: Stop::GoesOn,
        },
        Some(Listed::Accepted(out, count)) => Place {
            at: p.at + (4 + n),
            out,
            state: count_accepted(state, 4 + n, count),
            stop: Stop::GoesOn,
        },
    }
}

// Lists the record at a place.
fn step(d: &mut [u8], s: &[u8], p: Place) -> Place
    ensures { afterwards result d.new ≡ list_step d.old s.now p }
{
    match frame_at(s, p.at) {
        Err(FrameFault::Short) => stopped(p, Stop::NoRecord),
        Err(FrameFault::Wrong) => stopped(p, Stop::BadRecord),
        Ok(n) => list_whole(d, s, p, n),
    }
}

// Whether listing stopped.
fn is_over(stop: Stop) -> bool
    ensures { result ≡ is_over stop }
{
    !matches!(stop, Stop::GoesOn)
}

// Lists all whole records of a buffer, as far as the output has room.
pub fn list_records(d: &mut [u8], s: &[u8], begin: State) -> Place
    ensures { afterwards result d.new ≡ list_all d.old s.now begin }
{
    let mut p = Place {
        at: 0,
        out: 0,
        state: begin,
        stop: Stop::GoesOn,
    };
    for _ in 0..s.len() {
        p = step(d, s, p);
        if is_over(p.stop) {
            return p;
        }
    }
    stopped(p, Stop::NoRecord)
}

// What follows the last record: where the capture goes wrong there, the line that says so, then the last line; 123 octets of room are asked for.
pub fn end_lines(d: &mut [u8], at: usize, t: State, bad: bool) -> Option<usize>
    ensures { afterwards result d.new ≡ write_line 123 d.old at (end_lines t bad) }
{
    record_lines::closing_lines(d, at, bad, t.offset, t.records, t.refused, t.samples)
}

// The same where listing stops in front of these octets: none are left at the end of a capture; where some are, the capture goes wrong there.
pub fn end_text(d: &mut [u8], at: usize, t: State, rest: &[u8]) -> Option<usize>
    ensures { afterwards result d.new ≡ write_line 123 d.old at (end_text t rest.now) }
{
    end_lines(d, at, t, 0 < rest.len())
}
