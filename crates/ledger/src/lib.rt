#![tactic(auto)]
// The ledger of lost flow samples (document 01, "Ledger"): what sequence numbers and sample pools say of each source, in a table of 64 rows.
ghost use Rattle.std.specs.Prelude.{◌≡◌, position};
ghost use Rattle.std.specs.Option.{option_or};
ghost use Rattle.ledger.specs.Ledger.{entry_number, free_row, same_address, source_of, same_source, row_or_refusal, opened, later, updated, is_of, is_free, entered};

use fields::address::Address;
use reader::sample::FlowWords;
use xdr::Quad;

// What the ledger takes of a flow sample: the agent's address, from the datagram's head, and the words that the sample begins with.
#[derive(Clone, Copy)]
pub struct FlowEntry {
    pub agent: Address,
    pub words: FlowWords,
}

// A row: whether it is in use, its source, the numbers that the source's last sample had, and the totals. A free row has values too, which stay as they are
// until it opens, so `used` stands beside them.
#[derive(Clone, Copy)]
pub struct Row {
    pub used: bool,
    pub agent: Address,
    pub source_id: u32,
    pub sequence_number: u32,
    pub sample_pool: u32,
    pub lost_total: u64,
    pub pool_total: u64,
}

// The rows of a table.
pub const ROWS: usize = 64;

// Why a sample is not entered.
#[derive(Clone, Copy, PartialEq, Eq)]
pub enum EntryRefusal {
    // every row belongs to another source
    TableFull,
    // the sequence number is the one kept
    Repeated,
    // the sequence number went back
    Backward,
    // the lent row belongs to another source
    OtherSource,
}

// Document 01's number of an answer; 0 where the sample is entered.
// The C interface gives a number for `Ok` too, which a refusal's `From` could not.
pub fn answer_number(answer: Result<(), EntryRefusal>) -> u32
    ensures { result ≡ entry_number answer }
{
    match answer {
        Ok(()) => 0,
        Err(EntryRefusal::TableFull) => 40,
        Err(EntryRefusal::Repeated) => 41,
        Err(EntryRefusal::Backward) => 42,
        Err(EntryRefusal::OtherSource) => 43,
    }
}

// A row that belongs to no source.
pub fn free_row() -> Row
    ensures { result ≡ free_row }
{
    let agent = Address {
        kind: 0,
        octets: Quad {
            a: 0,
            b: 0,
            c: 0,
            d: 0,
        },
    };
    Row {
        used: false,
        agent,
        source_id: 0,
        sequence_number: 0,
        sample_pool: 0,
        lost_total: 0,
        pool_total: 0,
    }
}

// Whether two agent addresses are the same: of type 1 the first 4 octets count, of any other type all 16.
fn same_address(x: Address, y: Address) -> bool
    ensures { result ≡ same_address x y }
{
    let p = x.octets;
    let q = y.octets;
    x.kind == y.kind && p.a == q.a && (x.kind == 1 || p == q)
}

// Whether a sample is of a row's source.
fn same_source(row: Row, x: FlowEntry) -> bool
    ensures { result ≡ same_source row x }
{
    row.source_id == x.words.source_id && same_address(row.agent, x.agent)
}

// Whether a row is in use for a sample's source.
pub fn is_of(row: Row, x: FlowEntry) -> bool
    ensures { result ≡ is_of (source_of x) row }
{
    row.used && same_source(row, x)
}

// The row that a new source opens.
fn open(x: FlowEntry) -> Row
    ensures { result ≡ opened x }
{
    let words = x.words;
    Row {
        used: true,
        agent: x.agent,
        source_id: words.source_id,
        sequence_number: words.sequence_number,
        sample_pool: words.sample_pool,
        lost_total: 0,
        pool_total: 0,
    }
}

// The row behind a later sample of its source.
#[inline(always)]
fn go_on(row: Row, x: FlowEntry) -> Result<Row, EntryRefusal>
    ensures { result ≡ row_or_refusal (later row x) }
{
    let words = x.words;
    let step = words.sequence_number.wrapping_sub(row.sequence_number);
    if step == 0 {
        return Err(EntryRefusal::Repeated);
    }
    if 2147483648 <= step {
        return Err(EntryRefusal::Backward);
    }
    let more = words.sample_pool.wrapping_sub(row.sample_pool);
    Ok(Row {
        used: true,
        sequence_number: words.sequence_number,
        sample_pool: words.sample_pool,
        lost_total: row.lost_total.wrapping_add((step - 1) as u64),
        pool_total: row.pool_total.wrapping_add(more as u64),
        ..row
    })
}

// A sample entered in one row, by value: the row afterwards.
#[inline(always)]
pub fn update(row: Row, x: FlowEntry) -> Result<Row, EntryRefusal>
    ensures { result ≡ row_or_refusal (updated row x) }
{
    if !row.used {
        return Ok(open(x));
    }
    if !same_source(row, x) {
        return Err(EntryRefusal::OtherSource);
    }
    go_on(row, x)
}

// A sample entered in a row that the caller lends; a refusal leaves the row as it was.
pub fn update_row(row: &mut Row, x: FlowEntry) -> Result<(), EntryRefusal>
    ensures answer { result ≡ (updated row.old x).answer }
    ensures left { row.new ≡ (updated row.old x).row }
{
    *row = update(*row, x)?;
    Ok(())
}

// The source's lowest row.
fn own_row(rows: &[Row; ROWS], x: FlowEntry) -> Option<usize>
    ensures { result ≡ position (is_of (source_of x)) rows.now }
{
    rows.iter().position(|row| is_of(*row, x))
}

// The lowest free row.
fn first_free(rows: &[Row; ROWS]) -> Option<usize>
    ensures { result ≡ position is_free rows.now }
{
    rows.iter().position(|row| !row.used)
}

// The row that a sample goes to: its source's lowest, else the lowest free one.
fn row_for(rows: &[Row; ROWS], x: FlowEntry) -> Option<usize>
    ensures { result ≡ option_or (position (is_of (source_of x)) rows.now) (position is_free rows.now) }
{
    own_row(rows, x).or_else(|| first_free(rows))
}

// A sample entered in a table: one row is brought up to date, the others stay; a refusal leaves every row as it was.
pub fn enter(rows: &mut [Row; ROWS], x: FlowEntry) -> Result<(), EntryRefusal>
    ensures answer { result ≡ (entered rows.old x).answer }
    ensures left { rows.new ≡ (entered rows.old x).rows }
{
    let Some(i) = row_for(rows, x) else {
        return Err(EntryRefusal::TableFull);
    };
    update_row(&mut rows[i], x)
}
