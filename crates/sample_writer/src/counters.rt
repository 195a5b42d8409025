// Counter samples.
ghost use Rattle.std.specs.Prelude.{◌≡◌, ◌++◌, ◌+◌, ◌^◌, ◌<◌, ◌≤◌, T, ltb, length};
ghost use Rattle.std.proofs.Math.Option.{some};
ghost use Rattle.xdr.specs.Numbers.{octets_of};
ghost use Rattle.xdr.specs.Items.{total_width};
ghost use Rattle.xdr.specs.Writes.{stored, write_at, afterwards};
ghost use Rattle.sflow.specs.Grammar.{Fits, Each, each_fits, octets_of_each};
ghost use Rattle.sflow.specs.Datagram.{sample_type};
ghost use Rattle.counter_data.specs.CounterBodies.{words_and_hypers};
ghost use Rattle.form_writer.specs.Parts.{write_value, write_given, words_octets};
ghost use Rattle.sample_writer.specs.CounterValues.{WordOrHyper, counters_value};

use form_writer::parts;
use form_writer::parts::WriteRefusal;

// Whether a number fits a width, a word's or a hyper's.
fn fits_width(width: u8, v: u64) -> bool
    requires { WordOrHyper width }
    ensures { result ≡ ltb v (256 ^ width) }
{
    width == 8 || v < 4294967296
}

// Whether there are as many numbers as widths, and each fits its own.
fn each_fits(widths: &[u8], numbers: &[u64]) -> bool
    requires { Each WordOrHyper widths.now }
    ensures { result ≡ each_fits widths.now numbers.now }
{
    if numbers.len() != widths.len() {
        return false;
    }
    for (width, v) in widths.iter().zip(numbers) {
        if !fits_width(*width, *v) {
            return false;
        }
    }
    true
}

// A number that fits a width, a word's or a hyper's.
fn write_number(d: &mut [u8], at: usize, width: u8, v: u64) -> Option<usize>
    requires { WordOrHyper width × (v < 256 ^ width) }
    ensures { afterwards result d.new ≡ write_at d.old at (octets_of width v) }
{
    if width == 8 {
        return xdr_write::write_hyper(d, at, v);
    }
    xdr_write::write_word(d, at, v as u32)
}

// Numbers that fit their widths, in place of the octets from an offset on.
fn put_numbers(d: &mut [u8], at: usize, widths: &[u8], numbers: &[u64])
    requires { Each WordOrHyper widths.now × Fits widths.now numbers.now × (at + total_width widths.now ≤ length d.old) }
    ensures { d.new ≡ stored d.old at (octets_of_each widths.now numbers.now) }
{
    let mut p = at;
    for (width, v) in widths.iter().zip(numbers) {
        write_number(d, p, *width, *v);
        p += *width as usize;
    }
}

// Five words and numbers of widths behind them, total octets in all.
fn write_numbers(
    d: &mut [u8],
    head: &[u32],
    total: usize,
    widths: &[u8],
    numbers: &[u64],
) -> Result<usize, WriteRefusal>
    requires { T (words_and_hypers widths.now) × (length head.now ≡ 5) × (total ≡ 20 + total_width widths.now) }
    ensures { afterwards result d.new
        ≡ write_value (each_fits widths.now numbers.now) (words_octets head.now ++ octets_of_each widths.now numbers.now) d.old }
{
    if !each_fits(widths, numbers) {
        return Err(WriteRefusal::BadValue);
    }
    if d.len() < total {
        return Err(WriteRefusal::NoRoom);
    }
    // There is room.
    let _ = parts::write_words(d, head);
    put_numbers(d, 20, widths, numbers);
    Ok(total)
}

// A counter sample, with its type word: the counters are numbers in the order of the version's fields.
pub fn write_counters(
    d: &mut [u8],
    sequence_number: u32,
    source_id: u32,
    sampling_interval: u32,
    version: u32,
    numbers: &[u64],
) -> Result<usize, WriteRefusal>
    ensures { afterwards result d.new
        ≡ write_given sample_type (some (counters_value sequence_number source_id sampling_interval version numbers.now)) d.old }
{
    let head = [2, sequence_number, source_id, sampling_interval, version];
    match version {
        1 | 4 | 6 => write_numbers(d, &head, 108, &counter_data::IF_WIDTHS, numbers),
        2 => write_numbers(d, &head, 160, &counter_data::ETHERNET_WIDTHS, numbers),
        3 => write_numbers(d, &head, 180, &counter_data::TOKENRING_WIDTHS, numbers),
        5 => write_numbers(d, &head, 188, &counter_data::VG_WIDTHS, numbers),
        7 => write_numbers(d, &head, 48, &counter_data::VLAN_WIDTHS, numbers),
        _ => Err(WriteRefusal::BadValue),
    }
}
