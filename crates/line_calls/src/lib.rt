#![tactic(auto)]
// The listing of a capture as lines of text, as functions on numbers and slices. A capture may be listed in parts: the numbers that one call leaves are those
// that the next one begins with. Crate export gives them to C and Rust.
ghost use Rattle.std.specs.Prelude.{◌≤◌, ◌≡◌, not, length, eqb};
ghost use Rattle.xdr.specs.Writes.{afterwards};
ghost use Rattle.record_lines.specs.Lines.{write_line};
ghost use Rattle.listing.specs.Texts.{end_lines};
ghost use Rattle.numbers.specs.Reports.{tell, handed};
ghost use Rattle.line_calls.specs.ListedLines.{stop_number, state_in, place_report, listed_lines, counted_to, ended_at};

use listing::{Place, State, Stop};
use numbers::fill;

// The number of what stopped the listing. No `From`: it would have to stand in the crate of `Stop`, and these numbers are the C interface's.
fn stop_number(stop: Stop) -> u32
    ensures { result ≡ stop_number stop }
{
    match stop {
        Stop::GoesOn => 0,
        Stop::NoRecord => 0,
        Stop::Output => 1,
        Stop::BadRecord => 2,
    }
}

// What was listed so far.
fn state_in(state: &[u64]) -> State
    requires { 4 ≤ length state.now }
    ensures { result ≡ state_in state.now }
{
    State {
        offset: state[0],
        records: state[1],
        refused: state[2],
        samples: state[3],
    }
}

// The number of what stopped the listing; the place's numbers go into the state.
fn put_place(state: &mut [u64], place: Place) -> u32
    ensures { afterwards result state.new ≡ tell (place_report place) state.old }
{
    let after = place.state;
    let stop = place.stop;
    let numbers = [
        after.offset,
        after.records,
        after.refused,
        after.samples,
        place.at as u64,
        place.out as u64,
    ];
    fill(state, &numbers);
    stop_number(stop)
}

// Lists the whole records at a capture's front as lines at the output's front, as far as it has room. The state's first four numbers say what was listed
// before, all 0 at first: the octets of its records, how many records, how many of them refused, how many samples; afterwards they count the records listed
// now too. The fifth number is then how many octets of the capture were taken, the sixth how many of the output were written; numbers behind them stay.
// Answers 0 where no whole record is left, 1 where the output may be too short for the next record, 2 where the next record has a wrong mark or length; and 99
// where the state has fewer than six numbers: then nothing is changed. 99 is this function's own, not one of document 01's.
pub fn list(capture: &[u8], output: &mut [u8], state: &mut [u64]) -> u32
    ensures { handed result output.new state.new ≡ listed_lines capture.now output.old state.old }
{
    if state.len() < 6 {
        return 99;
    }
    let begin = state_in(state);
    let place = listing::list_records(output, capture, begin);
    put_place(state, place)
}

// Writes what follows a capture's last record to the output's front: "capture bad at" and the offset where bad is not 0, then the last line with the
// records, refused records and samples. Answers 0, and the array takes the length written; or 20 where the output has fewer than 123 octets: then nothing is
// changed. The flag and the numbers stand apart, as C hands them in.
pub fn end_lines(
    output: &mut [u8],
    offset: u64,
    records: u64,
    refused: u64,
    samples: u64,
    bad: u32,
    out: &mut [u64],
) -> u32
    ensures { handed result output.new out.new
        ≡ ended_at (write_line 123 output.old 0 (end_lines (counted_to offset records refused samples) (not (eqb bad 0)))) out.old }
{
    let state = State {
        offset,
        records,
        refused,
        samples,
    };
    let Some(n) = listing::end_lines(output, 0, state, bad != 0) else {
        return 20;
    };
    fill(out, &[n as u64]);
    0
}
