// Lists the capture on standard input: each record's lines, and the last line. Everything that is listed comes from crate listing; this program moves
// octets: it reads in large pieces, keeps at most an unfinished record, and writes in large pieces.
#![tactic(auto)]

ghost use Rattle.std.specs.Prelude.{◌-◌, ◌<◌, ◌≤◌, ◌≡◌, IfOk, IfSome, length, take, drop};
ghost use Rattle.std.specs.Io.KnownBytes.{Appends, Consumes, IsAtEnd};
ghost use Rattle.listing.specs.Texts.{nothing_listed, end_text};
ghost use Rattle.lister.specs.Held.{room_for_any, Listed, Lists, longest_record, ListsAll};

use listing::{State, Stop};
use std::env::FillError;
use std::io;
use std::io::{ErrorKind, IsTerminal, Read, Write};
use std::rt::Env;

// Tells on standard error what failed, and why in the system's words, which stand before its number.
fn fail<E: Eprint + AllocGlobal>(rt: &E, what: &str, error: io::Error) {
    let Ok(text) = format!(in rt.alloc(); "{error}") else {
        let _ = eprintln!(rt; "{what}");
        return;
    };
    match text.as_str().split_once(" (os error ") {
        Some((why, _)) => {
            let _ = eprintln!(rt; "{what}: {why}");
        }
        None => {
            let _ = eprintln!(rt; "{what}: {text}");
        }
    }
}

// Reads once behind the held octets and answers the end of the octets now held, which stays where the input has ended; a read that a signal interrupts is
// tried again. None where a read failed.
fn fill<E: Eprint + AllocGlobal, R: Read>(
    rt: &E,
    reader: &mut R,
    input: &mut [u8],
    held: usize,
) -> Option<usize>
    requires { held ≤ length input.old }
    ensures inside { IfSome result (λ end. (held ≤ end) × (end ≤ length input.new)) }
    ensures front { take held input.new ≡ take held input.old }
    ensures read { IfSome result (λ end. Consumes (R.remaining reader.old) (R.remaining reader.new)
        (take (end - held) (drop held input.new))) }
    ensures ended { IfSome result (λ end. end ≡ held → held < length input.old →
        IsAtEnd (R.remaining reader.new)) }
{
    for _ in 0..u64::MAX {
        match reader.read(&mut input[held..]) {
            Ok(more) => return Some(held + more),
            Err(error) => {
                if error.kind() != ErrorKind::Interrupted {
                    fail(rt, "lister: cannot read standard input", error);
                    return None;
                }
            }
        }
    }
    None
}

// Writes once and answers how many octets were taken, of which there is one at least. A write that a signal interrupts is tried again.
fn write_some<W: Write>(writer: &mut W, part: &[u8]) -> io::Result<usize>
    ensures some { IfOk result (λ n. 0 < n) }
    ensures inside { IfOk result (λ n. n ≤ length part.now) }
    ensures written { IfOk result (λ n. Appends (W.contents writer.old) (W.contents writer.new)
        (take n part.now)) }
{
    for _ in 0..u64::MAX {
        match writer.write(part) {
            Ok(0) => return Err(io::Error::from(ErrorKind::WriteZero)),
            Ok(n) => return Ok(n),
            Err(error) => {
                if error.kind() != ErrorKind::Interrupted {
                    return Err(error);
                }
            }
        }
    }
    Err(io::Error::from(ErrorKind::Interrupted))
}

// Writes the first n octets of the output. None where a write failed.
fn flush<E: Eprint + AllocGlobal, W: Write>(
    rt: &E,
    writer: &mut W,
    output: &[u8],
    n: usize,
) -> Option<()>
    requires { n ≤ length output.now }
    ensures { IfSome result (λ _. Appends (W.contents writer.old) (W.contents writer.new)
        (take n output.now)) }
{
    let mut done = 0;
    // goes on by what a write took: there is no index to count
    while done < n {
        match write_some(writer, &output[done..n]) {
            Ok(taken) => done += taken,
            Err(error) => {
                fail(rt, "lister: cannot write to standard output", error);
                return None;
            }
        }
    }
    Some(())
}

// What stands behind the records that were listed.
#[derive(Clone, Copy)]
enum Rest {
    // no whole record
    Unfinished,
    // a bad record
    Bad,
    // it is not known: the output failed, which is no error of its own, since what was listed is still promised (`Listed`, `Lists`)
    OutputFailed,
}

// Where listing stands: how many of the held octets are listed, what was counted, and what is left.
#[derive(Drop)]
struct Progress {
    listed: usize,
    state: State,
    rest: Rest,
}

// Lists all whole records held and writes their lines.
fn list_held<E: Eprint + AllocGlobal, W: Write>(
    rt: &E,
    writer: &mut W,
    output: &mut [u8],
    s: &[u8],
    begin: State,
) -> Progress
    requires { room_for_any ≤ length output.old }
    ensures listed { Listed begin s.now result }
    ensures records { Lists begin s.now result (W.contents writer.old) (W.contents writer.new) }
{
    let mut listed = 0;
    let mut state = begin;
    // goes on by what a call listed: there is no index to count
    while listed < s.len() {
        let p = listing::list_records(output, &s[listed..], state);
        listed += p.at;
        state = p.state;
        let rest = match flush(rt, writer, output, p.out) {
            None => Rest::OutputFailed,
            Some(()) => match p.stop {
                Stop::Output => continue,
                Stop::BadRecord => Rest::Bad,
                _ => Rest::Unfinished,
            },
        };
        return Progress {
            listed,
            state,
            rest,
        };
    }
    Progress {
        listed,
        state,
        rest: Rest::Unfinished,
    }
}

// Writes what follows the last record, in front of the octets that are left. None where a write failed.
fn finish<E: Eprint + AllocGlobal, W: Write>(
    rt: &E,
    writer: &mut W,
    output: &mut [u8],
    state: State,
    rest: &[u8],
) -> Option<()>
    ensures { IfSome result (λ _. Appends (W.contents writer.old) (W.contents writer.new)
        (end_text state rest.now)) }
{
    let n = listing::end_text(output, 0, state, rest)?;
    flush(rt, writer, output, n)
}

// The state in front of the first record.
fn nothing_listed() -> State
    ensures { result ≡ nothing_listed }
{
    State {
        offset: 0,
        records: 0,
        refused: 0,
        samples: 0,
    }
}

// Lists the input to its end or to a bad record. None where a read or a write failed.
fn list_input<E: Eprint + AllocGlobal, R: Read, W: Write>(
    rt: &E,
    reader: &mut R,
    writer: &mut W,
    input: &mut [u8],
    output: &mut [u8],
) -> Option<()>
    requires { room_for_any ≤ length output.old }
    ensures { IfSome result (λ _. longest_record ≤ length input.old →
        ListsAll (R.remaining reader.old) (W.contents writer.old) (W.contents writer.new)) }
{
    let mut state = nothing_listed();
    let mut held = 0;
    for _ in 0..u64::MAX {
        let end = fill(rt, reader, input, held)?;
        if end == held {
            return finish(rt, writer, output, state, &input[..held]);
        }
        let p = list_held(rt, writer, output, &input[..end], state);
        let listed = p.listed;
        state = p.state;
        match p.rest {
            Rest::Unfinished => {}
            Rest::Bad => return finish(rt, writer, output, state, &input[listed..end]),
            Rest::OutputFailed => return None,
        }
        // where no record was listed, they stand at the front already
        if listed != 0 {
            input.copy_within(listed..end, 0);
        }
        held = end - listed;
    }
    None
}

fn say<E: Eprint>(rt: &E, text: &str) {
    let _ = rt.eprint(text);
}

// Whether the program was given an argument behind its name, of any length.
fn has_arguments<E: Env>(rt: &E) -> bool {
    let mut first = [0u8; 1];
    !matches!(rt.arg(1, &mut first), Err(FillError::NotPresent))
}

fn main(rt: HostRuntime) {
    if has_arguments(&rt) {
        say(
            &rt,
            "lister takes no arguments. It lists the capture that it reads from standard input:\n  lister < CAPTURE\n",
        );
        return;
    }
    let mut reader = rt.stdin();
    if reader.is_terminal() {
        say(
            &rt,
            "lister reads a capture from standard input, which is a terminal here:\n  lister < CAPTURE\n",
        );
        return;
    }
    let mut writer = rt.stdout();
    let mut input = [0u8; 262144];
    let mut output = [0u8; 262144];
    let _ = list_input(&rt, &mut reader, &mut writer, &mut input, &mut output);
}
