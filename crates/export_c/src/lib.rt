#![tactic(auto)]
// The functions of crate export as symbols of a static library for programs in C and Rust, with the same contracts.
ghost use Rattle.xdr.specs.Writes.{afterwards};
ghost use Rattle.engine.specs.Results.{engine_of};
ghost use Rattle.extended_data.specs.ExtendedData.{segment_of, extended_of};
ghost use Rattle.form_calls.specs.Forms.{ipv4_from, ipv6_from, flow_from, form_written};
ghost use Rattle.form_writer.specs.Parts.{write_given};
ghost use Rattle.form_writer.specs.Values.{header_value};
ghost use Rattle.ledger_calls.specs.LedgerTable.{flow_entry, entered_table};
ghost use Rattle.line_calls.specs.ListedLines.{listed_lines, counted_to, ended_at};
ghost use Rattle.record_lines.specs.Lines.{write_line};
ghost use Rattle.listing.specs.Texts.{end_lines};
ghost use Rattle.numbers.specs.Addresses.{address_with};
ghost use Rattle.numbers.specs.Reports.{tell, handed};
ghost use Rattle.read_calls.specs.Reading.{head_report, extended_report, segment_report};
ghost use Rattle.reader.specs.Datagrams.{datagram_read};
ghost use Rattle.reader.specs.Samples.{sample_of, as_sample};
ghost use Rattle.rule_calls.specs.RuleSets.{check_report, engine_report};
ghost use Rattle.rules.specs.Checks.{check};
ghost use Rattle.sample_calls.specs.SampleReports.{sample_report};
ghost use Rattle.sample_writer.specs.CounterValues.{counters_value};
ghost use Rattle.sflow.specs.Datagram.{as_path_type, extended_data_type, sample_type};
ghost use Rattle.sflow.specs.Decode.{decode, mapped, as_read, value_in};
ghost use Rattle.write_reports.specs.WriteReports.{hand_over};
ghost use Rattle.writer.specs.Datagrams.{started, appended};
ghost use Rattle.std.specs.Prelude.{eqb, length, not, ◌≡◌};
ghost use Rattle.std.proofs.Math.Option.{some};

// `export::sflow4_read`.
#[unsafe(no_mangle)]
pub extern "C" fn sflow4_read(octets: &[u8], out: &mut [u64]) -> u32
    ensures { afterwards result out.new ≡ tell (head_report (datagram_read octets.now)) out.old }
{
    export::sflow4_read(octets, out)
}

// `export::sflow4_sample`.
#[unsafe(no_mangle)]
pub extern "C" fn sflow4_sample(octets: &[u8], at: usize, out: &mut [u64]) -> u32
    ensures { afterwards result out.new
        ≡ tell (sample_report octets.now (as_sample at (mapped (sample_of at) (decode sample_type octets.now at)))) out.old }
{
    export::sflow4_sample(octets, at, out)
}

// `export::sflow4_extended`.
#[unsafe(no_mangle)]
pub extern "C" fn sflow4_extended(octets: &[u8], at: usize, out: &mut [u64]) -> u32
    ensures { afterwards result out.new
        ≡ tell (extended_report (as_read (mapped (extended_of at) (decode extended_data_type octets.now at)))) out.old }
{
    export::sflow4_extended(octets, at, out)
}

// `export::sflow4_segment`.
#[unsafe(no_mangle)]
pub extern "C" fn sflow4_segment(octets: &[u8], at: usize, out: &mut [u64]) -> u32
    ensures { afterwards result out.new
        ≡ tell (segment_report (as_read (mapped (segment_of at) (decode as_path_type octets.now at)))) out.old }
{
    export::sflow4_segment(octets, at, out)
}

// `export::rtfm_check`.
#[unsafe(no_mangle)]
pub extern "C" fn rtfm_check(rules: &[u8], out: &mut [u64]) -> u32
    ensures { afterwards result out.new ≡ tell (check_report (check rules.now)) out.old }
{
    export::rtfm_check(rules, out)
}

// `export::rtfm_run`.
#[unsafe(no_mangle)]
pub extern "C" fn rtfm_run(rules: &[u8], sample: &[u8], out: &mut [u64]) -> u32
    ensures { afterwards result out.new ≡ tell (engine_report (engine_of rules.now sample.now)) out.old }
{
    export::rtfm_run(rules, sample, out)
}

// `export::sflow4_append`.
#[unsafe(no_mangle)]
pub extern "C" fn sflow4_append(
    buffer: &mut [u8],
    limit: usize,
    length: usize,
    sample: &[u8],
    out: &mut [u64],
) -> u32
    ensures { handed result buffer.new out.new
        ≡ hand_over (appended (value_in sample_type sample.now) limit length buffer.old) out.old }
{
    export::sflow4_append(buffer, limit, length, sample, out)
}

// `export::sflow4_append_header`.
#[unsafe(no_mangle)]
pub extern "C" fn sflow4_append_header(
    buffer: &mut [u8],
    limit: usize,
    length: usize,
    words: &[u32],
    protocol: u32,
    frame_length: u32,
    header: &[u8],
    entries: &[u8],
    out: &mut [u64],
) -> u32
    ensures { handed result buffer.new out.new
        ≡ hand_over (appended (flow_from words.now (some (header_value protocol frame_length header.now)) entries.now) limit length buffer.old) out.old }
{
    export::sflow4_append_header(
        buffer,
        limit,
        length,
        words,
        protocol,
        frame_length,
        header,
        entries,
        out,
    )
}

// `export::sflow4_append_ipv4`.
#[unsafe(no_mangle)]
pub extern "C" fn sflow4_append_ipv4(
    buffer: &mut [u8],
    limit: usize,
    length: usize,
    words: &[u32],
    packet: &[u32],
    entries: &[u8],
    out: &mut [u64],
) -> u32
    ensures { handed result buffer.new out.new
        ≡ hand_over (appended (flow_from words.now (ipv4_from packet.now) entries.now) limit length buffer.old) out.old }
{
    export::sflow4_append_ipv4(buffer, limit, length, words, packet, entries, out)
}

// `export::sflow4_append_ipv6`.
#[unsafe(no_mangle)]
pub extern "C" fn sflow4_append_ipv6(
    buffer: &mut [u8],
    limit: usize,
    length: usize,
    words: &[u32],
    packet: &[u32],
    entries: &[u8],
    out: &mut [u64],
) -> u32
    ensures { handed result buffer.new out.new
        ≡ hand_over (appended (flow_from words.now (ipv6_from packet.now) entries.now) limit length buffer.old) out.old }
{
    export::sflow4_append_ipv6(buffer, limit, length, words, packet, entries, out)
}

// `export::sflow4_append_counters`.
#[unsafe(no_mangle)]
pub extern "C" fn sflow4_append_counters(
    buffer: &mut [u8],
    limit: usize,
    length: usize,
    sequence_number: u32,
    source_id: u32,
    interval: u32,
    version: u32,
    numbers: &[u64],
    out: &mut [u64],
) -> u32
    ensures { handed result buffer.new out.new
        ≡ hand_over (appended (some (counters_value sequence_number source_id interval version numbers.now)) limit length buffer.old) out.old }
{
    export::sflow4_append_counters(
        buffer,
        limit,
        length,
        sequence_number,
        source_id,
        interval,
        version,
        numbers,
        out,
    )
}

// `export::sflow4_start`.
#[unsafe(no_mangle)]
pub extern "C" fn sflow4_start(
    buffer: &mut [u8],
    limit: usize,
    agent_type: u32,
    a: u32,
    b: u32,
    c: u32,
    d: u32,
    sequence_number: u32,
    uptime: u32,
    out: &mut [u64],
) -> u32
    ensures { handed result buffer.new out.new
        ≡ hand_over (started limit (address_with agent_type a b c d) sequence_number uptime buffer.old) out.old }
{
    export::sflow4_start(
        buffer,
        limit,
        agent_type,
        a,
        b,
        c,
        d,
        sequence_number,
        uptime,
        out,
    )
}

// `export::sflow4_write_counters`.
#[unsafe(no_mangle)]
pub extern "C" fn sflow4_write_counters(
    sequence_number: u32,
    source_id: u32,
    interval: u32,
    version: u32,
    numbers: &[u64],
    buffer: &mut [u8],
    out: &mut [u64],
) -> u32
    ensures { handed result buffer.new out.new
        ≡ hand_over (write_given sample_type (some (counters_value sequence_number source_id interval version numbers.now)) buffer.old) out.old }
{
    export::sflow4_write_counters(
        sequence_number,
        source_id,
        interval,
        version,
        numbers,
        buffer,
        out,
    )
}

// `export::sflow4_write`.
#[unsafe(no_mangle)]
pub extern "C" fn sflow4_write(
    kind: u32,
    words: &[u32],
    first: &[u8],
    second: &[u8],
    buffer: &mut [u8],
    out: &mut [u64],
) -> u32
    ensures { handed result buffer.new out.new
        ≡ hand_over (form_written kind words.now first.now second.now buffer.old) out.old }
{
    export::sflow4_write(kind, words, first, second, buffer, out)
}

// `export::sflow4_ledger`.
#[unsafe(no_mangle)]
pub extern "C" fn sflow4_ledger(
    table: &mut [u64],
    agent_type: u32,
    a: u32,
    b: u32,
    c: u32,
    d: u32,
    source_id: u32,
    sequence_number: u32,
    sample_pool: u32,
) -> u32
    ensures { afterwards result table.new
        ≡ entered_table (flow_entry (address_with agent_type a b c d) source_id sequence_number sample_pool) table.old }
{
    export::sflow4_ledger(
        table,
        agent_type,
        a,
        b,
        c,
        d,
        source_id,
        sequence_number,
        sample_pool,
    )
}

// `export::sflow4_lines`.
#[unsafe(no_mangle)]
pub extern "C" fn sflow4_lines(capture: &[u8], output: &mut [u8], state: &mut [u64]) -> u32
    ensures { handed result output.new state.new ≡ listed_lines capture.now output.old state.old }
{
    export::sflow4_lines(capture, output, state)
}

// `export::sflow4_end_lines`.
#[unsafe(no_mangle)]
pub extern "C" fn sflow4_end_lines(
    output: &mut [u8],
    offset: u64,
    records: u64,
    refused: u64,
    samples: u64,
    bad: u32,
    out: &mut [u64],
) -> u32
    ensures { handed result output.new out.new
        ≡ ended_at (write_line 123 output.old 0 (end_lines (counted_to offset records refused samples) (not (eqb bad 0)))) out.old }
{
    export::sflow4_end_lines(output, offset, records, refused, samples, bad, out)
}
