#![tactic(auto)]
// Writing as functions on numbers and slices: a datagram started, a sample appended as octets, a counter sample written or appended. Each function answers 0
// and puts a length into the lent array, or answers a refusal's number; a refusal leaves the buffer and the array as they were. Crate export gives them to C
// and Rust.
ghost use Rattle.std.specs.Prelude.{◌≡◌};
ghost use Rattle.std.proofs.Math.Option.{some};
ghost use Rattle.sflow.specs.Datagram.{sample_type};
ghost use Rattle.sflow.specs.Decode.{value_in};
ghost use Rattle.form_writer.specs.Parts.{write_given};
ghost use Rattle.sample_writer.specs.CounterValues.{counters_value};
ghost use Rattle.writer.specs.Datagrams.{started, appended};
ghost use Rattle.numbers.specs.Reports.{handed};
ghost use Rattle.numbers.specs.Addresses.{address_with};
ghost use Rattle.write_reports.specs.WriteReports.{hand_over};

use fields::address::Address;
use write_reports::report;
use xdr::Quad;

// Appends a sample, given as octets, to the datagram that the buffer's first length octets are, within a limit. Answers 0, and the array takes the
// datagram's new length; or, tested in this order, 21 where the limit is outside 36 to 65,507 or above the buffer's length, 23 where the datagram so far is not
// well formed or is longer than the limit, 22 where the octets are not exactly one sample, 20 where the new end would pass the limit.
pub fn append(buffer: &mut [u8], limit: usize, length: usize, sample: &[u8], out: &mut [u64]) -> u32
    ensures { handed result buffer.new out.new
        ≡ hand_over (appended (value_in sample_type sample.now) limit length buffer.old) out.old }
{
    let answer = writer::append_octets(buffer, limit, length, sample);
    report(answer, out)
}

// Writes a datagram without samples into the buffer's front, within a limit: the agent's address has a type, 1 or 2, and the words a to d, of which type 1
// has the first alone. Answers 0, and the array takes the datagram's length; or 21 where the limit is outside 36 to 65,507 or above the buffer's length, 22
// where the agent's type is neither 1 nor 2. 20 cannot arise, for every limit has room.
pub fn start(
    buffer: &mut [u8],
    limit: usize,
    agent_type: u32,
    a: u32,
    b: u32,
    c: u32,
    d: u32,
    sequence_number: u32,
    uptime: u32,
    out: &mut [u64],
) -> u32
    ensures { handed result buffer.new out.new
        ≡ hand_over (started limit (address_with agent_type a b c d) sequence_number uptime buffer.old) out.old }
{
    let agent = Address {
        kind: agent_type,
        octets: Quad { a, b, c, d },
    };
    let answer = writer::start(buffer, limit, agent, sequence_number, uptime);
    report(answer, out)
}

// Writes a counter sample, with its type word, into the buffer's front: the counters are numbers in the order of the version's fields. Answers 0, and the
// array takes the length written; or 22 where the version is none of 1 to 7, or the numbers are not as many as its fields or one is too large for its field,
// 20 where the buffer is too short.
pub fn write_counters(
    sequence_number: u32,
    source_id: u32,
    interval: u32,
    version: u32,
    numbers: &[u64],
    buffer: &mut [u8],
    out: &mut [u64],
) -> u32
    ensures { handed result buffer.new out.new
        ≡ hand_over (write_given sample_type (some (counters_value sequence_number source_id interval version numbers.now)) buffer.old) out.old }
{
    let answer = sample_writer::counters::write_counters(
        buffer,
        sequence_number,
        source_id,
        interval,
        version,
        numbers,
    );
    report(answer, out)
}

// Appends a counter sample to the datagram that the buffer's first length octets are, within a limit: the counters are numbers in the order of the version's
// fields. Answers 0, and the array takes the datagram's new length; or, tested in this order, 21 where the limit is outside 36 to 65,507 or above the
// buffer's length, 23 where the datagram so far is not well formed or is longer than the limit, 22 where the version is none of 1 to 7, or the numbers are not
// as many as its fields or one is too large for its field, 20 where the new end would pass the limit.
pub fn append_counters(
    buffer: &mut [u8],
    limit: usize,
    length: usize,
    sequence_number: u32,
    source_id: u32,
    interval: u32,
    version: u32,
    numbers: &[u64],
    out: &mut [u64],
) -> u32
    ensures { handed result buffer.new out.new
        ≡ hand_over (appended (some (counters_value sequence_number source_id interval version numbers.now)) limit length buffer.old) out.old }
{
    let answer = writer::append_counters(
        buffer,
        limit,
        length,
        sequence_number,
        source_id,
        interval,
        version,
        numbers,
    );
    report(answer, out)
}
