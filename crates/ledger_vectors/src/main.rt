// Reads operations on a ledger from standard input, each a record of 16 words, and writes what the ledger answers: the number of each answer, and
// every value of the 64 rows where the table is asked for. The operations and the expected text come from the second program in conformance/.
#![tactic(auto)]

use fields::address::Address;
use ledger::{EntryRefusal, FlowEntry, ROWS, Row};
use reader::sample::FlowWords;
use std::io;
use std::io::{Read, Write};
use xdr::Quad;

fn show_row<W: Write>(out: &mut W, i: usize, row: Row) -> io::Result<()> {
    vector_io::line(
        out,
        b"row",
        &[
            i as u64,
            u64::from(row.used),
            row.agent.kind as u64,
            row.agent.octets.a as u64,
            row.agent.octets.b as u64,
            row.agent.octets.c as u64,
            row.agent.octets.d as u64,
            row.source_id as u64,
            row.sequence_number as u64,
            row.sample_pool as u64,
            row.lost_total,
            row.pool_total,
        ],
    )
}

fn show_table<W: Write>(out: &mut W, rows: &[Row; ROWS]) -> io::Result<()> {
    for (i, row) in rows.iter().enumerate() {
        show_row(out, i, *row)?;
    }
    Ok(())
}

fn show_answer<W: Write>(out: &mut W, answer: Result<(), EntryRefusal>) -> io::Result<()> {
    vector_io::line(out, b"answer", &[u64::from(ledger::answer_number(answer))])
}

// The word at a place of a record, which has all of its words.
fn word_at(s: &[u8], at: usize) -> u32 {
    let Ok((n, _)) = xdr::read_word(s, at) else {
        return 0;
    };
    n
}

// A total: the high word, then the low one.
fn total_at(s: &[u8], at: usize) -> u64 {
    let Ok((n, _)) = xdr::read_hyper(s, at) else {
        return 0;
    };
    n
}

// The address in words 2 to 6 of a record.
fn agent_of(s: &[u8]) -> Address {
    Address {
        kind: word_at(s, 8),
        octets: Quad {
            a: word_at(s, 12),
            b: word_at(s, 16),
            c: word_at(s, 20),
            d: word_at(s, 24),
        },
    }
}

// A row of any contents.
fn row_of(s: &[u8]) -> Row {
    let agent = agent_of(s);
    Row {
        used: word_at(s, 40) == 1,
        agent,
        source_id: word_at(s, 28),
        sequence_number: word_at(s, 32),
        sample_pool: word_at(s, 36),
        lost_total: total_at(s, 44),
        pool_total: total_at(s, 52),
    }
}

// A flow sample; the words that the ledger does not look at are 0. They are named, since nothing else would use a default of these words.
fn sample_of(s: &[u8]) -> FlowEntry {
    let agent = agent_of(s);
    FlowEntry {
        agent,
        words: FlowWords {
            sequence_number: word_at(s, 32),
            source_id: word_at(s, 28),
            sampling_rate: 0,
            sample_pool: word_at(s, 36),
            drops: 0,
            input: 0,
            output: 0,
        },
    }
}

// A table without sources.
fn empty_table() -> [Row; ROWS] {
    [ledger::free_row(); ROWS]
}

// The row that an operation names, if there is such a row.
fn row_named<'a>(rows: &'a mut [Row; ROWS], s: &[u8]) -> Option<&'a mut Row> {
    rows.get_mut(word_at(s, 4) as usize)
}

// An operation on a table: emptied, a row of any contents set, a flow sample entered, a row alone lent for one, or every row shown.
fn operate<W: Write>(out: &mut W, rows: &mut [Row; ROWS], s: &[u8]) -> io::Result<()> {
    match word_at(s, 0) {
        0 => *rows = empty_table(),
        1 => {
            if let Some(row) = row_named(rows, s) {
                *row = row_of(s);
            }
        }
        2 => show_answer(out, ledger::enter(rows, sample_of(s)))?,
        3 => {
            if let Some(row) = row_named(rows, s) {
                show_answer(out, ledger::update_row(row, sample_of(s)))?;
            }
        }
        4 => show_table(out, rows)?,
        _ => {}
    }
    Ok(())
}

fn main(rt: HostRuntime) -> io::Result<()> {
    let mut input = rt.stdin();
    let mut out = rt.stdout();
    let mut record = [0u8; 64];
    let mut rows = empty_table();
    for _ in 0..u64::MAX {
        if input.read_exact(&mut record).is_err() {
            return Ok(());
        }
        operate(&mut out, &mut rows, &record)?;
    }
    Ok(())
}
