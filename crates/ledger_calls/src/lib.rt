#![tactic(auto)]
// The ledger of lost flow samples as a function on numbers: its table is a lent array of 64 rows, each of eleven numbers. Crate export gives it to C and Rust.
ghost use Rattle.std.specs.Prelude.{◌+◌, ◌*◌, ◌%◌, ◌^◌, ◌≤◌, ◌<◌, ◌≡◌, length, drop, position};
ghost use Rattle.std.specs.Option.{option_or};
ghost use Rattle.xdr.specs.Writes.{afterwards};
ghost use Rattle.ledger.specs.Ledger.{source_of, updated, is_of, is_free, entry_number};
ghost use Rattle.numbers.specs.Reports.{filled};
ghost use Rattle.numbers.specs.Addresses.{address_with};
ghost use Rattle.ledger_calls.specs.LedgerTable.{agent_in, row_in, rows_in, row_numbers, flow_entry, numbers_after, rows_told, entered_table};

use fields::address::Address;
use ledger::{EntryRefusal, FlowEntry, ROWS, Row};
use numbers::fill;
use reader::sample::FlowWords;
use xdr::Quad;

fn word(x: u64) -> u32
    ensures { result ≡ x % 2 ^ 32 }
{
    (x % 4294967296) as u32
}

// The address that stands behind a row's first number.
fn agent_in(ns: &[u64]) -> Address
    requires { 11 ≤ length ns.now }
    ensures { result ≡ agent_in ns.now }
{
    Address {
        kind: word(ns[1]),
        octets: Quad {
            a: word(ns[2]),
            b: word(ns[3]),
            c: word(ns[4]),
            d: word(ns[5]),
        },
    }
}

// The row that numbers begin with.
fn row_in(ns: &[u64]) -> Row
    requires { 11 ≤ length ns.now }
    ensures { result ≡ row_in ns.now }
{
    Row {
        used: ns[0] != 0,
        agent: agent_in(ns),
        source_id: word(ns[6]),
        sequence_number: word(ns[7]),
        sample_pool: word(ns[8]),
        lost_total: ns[9],
        pool_total: ns[10],
    }
}

// Puts a row's numbers to the front of an array.
fn put_row(out: &mut [u64], row: Row)
    ensures { out.new ≡ filled (row_numbers row) out.old }
{
    let agent = row.agent;
    let q = agent.octets;
    let numbers = [
        u64::from(row.used),
        agent.kind as u64,
        q.a as u64,
        q.b as u64,
        q.c as u64,
        q.d as u64,
        row.source_id as u64,
        row.sequence_number as u64,
        row.sample_pool as u64,
        row.lost_total,
        row.pool_total,
    ];
    fill(out, &numbers);
}

// Whether row i is in use for a sample's source.
fn is_own(table: &[u64], i: usize, x: FlowEntry) -> bool
    requires { (704 ≤ length table.now) × (i < 64) }
    ensures { result ≡ is_of (source_of x) (row_in (drop (11 * i) table.now)) }
{
    let row = row_in(&table[11 * i..]);
    ledger::is_of(row, x)
}

// The lowest row of a sample's source.
fn own_row(table: &[u64], x: FlowEntry) -> Option<usize>
    requires { 704 ≤ length table.now }
    ensures { result ≡ position (is_of (source_of x)) (rows_in 64 table.now) }
{
    (0..ROWS).find(|&i| is_own(table, i, x))
}

// The lowest free row.
fn first_free(table: &[u64]) -> Option<usize>
    requires { 704 ≤ length table.now }
    ensures { result ≡ position is_free (rows_in 64 table.now) }
{
    (0..ROWS).find(|&i| table[11 * i] == 0)
}

// The row that a sample goes to: its source's lowest, else the lowest free one.
fn row_for(table: &[u64], x: FlowEntry) -> Option<usize>
    requires { 704 ≤ length table.now }
    ensures { result ≡ option_or (position (is_of (source_of x)) (rows_in 64 table.now)) (position is_free (rows_in 64 table.now)) }
{
    own_row(table, x).or_else(|| first_free(table))
}

// A flow sample for the ledger; the words of it that the ledger does not use are 0.
fn flow_entry(agent: Address, source_id: u32, sequence_number: u32, sample_pool: u32) -> FlowEntry
    ensures { result ≡ flow_entry agent source_id sequence_number sample_pool }
{
    FlowEntry {
        agent,
        words: FlowWords {
            sequence_number,
            source_id,
            sampling_rate: 0,
            sample_pool,
            drops: 0,
            input: 0,
            output: 0,
        },
    }
}

// Enters a sample in row i: where it is entered, the row's numbers are stored.
fn enter_row(table: &mut [u64], i: usize, x: FlowEntry) -> Result<(), EntryRefusal>
    requires { (704 ≤ length table.old) × (i < 64) }
    ensures answer { result ≡ (updated (row_in (drop (11 * i) table.old)) x).answer }
    ensures left { table.new ≡ numbers_after result i (updated (row_in (drop (11 * i) table.old)) x).row table.old }
{
    let row = ledger::update(row_in(&table[11 * i..]), x)?;
    put_row(&mut table[11 * i..], row);
    Ok(())
}

// Enters a sample in the rows of a table.
fn enter_table(table: &mut [u64], x: FlowEntry) -> Result<(), EntryRefusal>
    requires { 704 ≤ length table.old }
    ensures { afterwards (entry_number result) table.new ≡ rows_told (rows_in 64 table.old) x table.old }
{
    let Some(i) = row_for(table, x) else {
        return Err(EntryRefusal::TableFull);
    };
    enter_row(table, i, x)
}

// Enters a flow sample in a table: the agent's address by its type and the words a to d, the source id, the sequence number and the sample pool. The table is
// 64 rows one behind the other, each of eleven numbers in this order: used (0 where the row is free, any other number where it is in use; 1 is stored), agent
// type, the address's four words, source id, sequence number, sample pool, lost total, pool total; all 0 at first. Agent type to sample pool are read modulo
// 2^32. Answers 0, and the eleven numbers of the sample's row are those of the row afterwards, every other number as it was; or 40 where every row belongs to
// another source, 41 where the sequence number is the one kept, 42 where it went back, 99 where the table has fewer than 704 numbers: then the table is as it
// was. 43 cannot arise, for the row taken is the source's own or a free one. 99 is this function's own, not one of document 01's.
// The values stand apart, as C hands them in.
pub fn enter(
    table: &mut [u64],
    agent_type: u32,
    a: u32,
    b: u32,
    c: u32,
    d: u32,
    source_id: u32,
    sequence_number: u32,
    sample_pool: u32,
) -> u32
    ensures { afterwards result table.new
        ≡ entered_table (flow_entry (address_with agent_type a b c d) source_id sequence_number sample_pool) table.old }
{
    if table.len() < 704 {
        return 99;
    }
    let agent = Address {
        kind: agent_type,
        octets: Quad { a, b, c, d },
    };
    let x = flow_entry(agent, source_id, sequence_number, sample_pool);
    ledger::answer_number(enter_table(table, x))
}
