// Samples of a datagram.
ghost use Rattle.std.specs.Prelude.{◌≡◌};
ghost use Rattle.sflow.specs.Grammar.{fixed};
ghost use Rattle.sflow.specs.Decode.{decode, mapped, as_read};
ghost use Rattle.sflow.specs.Datagram.{flow_words, flow_sample, counters_sample, sample_type};
ghost use Rattle.fields.specs.Parts.{as_passed};
ghost use Rattle.reader.specs.Samples.{flow_words_of, flow_of, counters_of, sample_of, as_sample};

use counter_data::CounterBody;
use fields::words::{Entries, read_words};
use packet_data::PacketData;
use sflow::{Refusal, Refused};

// The words that a flow sample begins with.
#[derive(Clone, Copy)]
pub struct FlowWords {
    pub sequence_number: u32,
    pub source_id: u32,
    pub sampling_rate: u32,
    pub sample_pool: u32,
    pub drops: u32,
    pub input: u32,
    pub output: u32,
}

#[derive(Clone, Copy)]
pub struct FlowSample {
    pub words: FlowWords,
    pub packet_data: PacketData,
    pub extended_data: Entries,
}

#[derive(Clone, Copy)]
pub struct CountersSample {
    pub sequence_number: u32,
    pub source_id: u32,
    pub sampling_interval: u32,
    pub counters: CounterBody,
}

#[derive(Clone, Copy)]
pub enum SampleValues {
    Flow(FlowSample),
    Counters(CountersSample),
}

// A sample's offset and length are both from its type word.
#[derive(Clone, Copy)]
pub struct Sample {
    pub offset: usize,
    pub length: usize,
    pub values: SampleValues,
}

#[inline(always)]
fn read_flow_words(s: &[u8], at: usize) -> Result<(FlowWords, usize), Refused>
    ensures { result ≡ as_read (mapped flow_words_of (decode (fixed flow_words) s.now at)) }
{
    let (values, next) = read_words::<7>(s, at)?;
    let [
        sequence_number,
        source_id,
        sampling_rate,
        sample_pool,
        drops,
        input,
        output,
    ] = values;
    let words = FlowWords {
        sequence_number,
        source_id,
        sampling_rate,
        sample_pool,
        drops,
        input,
        output,
    };
    Ok((words, next))
}

// A flow sample behind its type word.
#[inline(always)]
pub fn read_flow(s: &[u8], at: usize) -> Result<(FlowSample, usize), Refused>
    ensures { result ≡ as_read (mapped (flow_of at) (decode flow_sample s.now at)) }
{
    let (words, packet_at) = read_flow_words(s, at)?;
    let (packet_data, list_at) = packet_data::read_packet(s, packet_at)?;
    let (count, first) = xdr::read_word(s, list_at)?;
    let next = extended_data::pass_extended(s, first, count)?;
    let flow = FlowSample {
        words,
        packet_data,
        extended_data: Entries { at: first, count },
    };
    Ok((flow, next))
}

// A counter sample behind its type word.
#[inline(always)]
pub fn read_counters(s: &[u8], at: usize) -> Result<(CountersSample, usize), Refused>
    ensures { result ≡ as_read (mapped (counters_of at) (decode counters_sample s.now at)) }
{
    let ([sequence_number, source_id, sampling_interval], counters_at) = read_words::<3>(s, at)?;
    let (counters, next) = counter_data::read_counter_body(s, counters_at)?;
    let sample = CountersSample {
        sequence_number,
        source_id,
        sampling_interval,
        counters,
    };
    Ok((sample, next))
}

// A sample at its type word.
#[inline(always)]
pub fn read_sample(s: &[u8], at: usize) -> Result<(Sample, usize), Refused>
    ensures { result ≡ as_sample at (mapped (sample_of at) (decode sample_type s.now at)) }
{
    let (kind, start) = xdr::read_word(s, at)?;
    let (values, next) = match kind {
        1 => {
            let (flow, next) = read_flow(s, start)?;
            (SampleValues::Flow(flow), next)
        }
        2 => {
            let (counters, next) = read_counters(s, start)?;
            (SampleValues::Counters(counters), next)
        }
        _ => {
            return Err(Refused {
                why: Refusal::SampleType,
                at,
            });
        }
    };
    let sample = Sample {
        offset: at,
        length: next - at,
        values,
    };
    Ok((sample, next))
}

// A sample at its type word that is not handed out.
pub fn pass_sample(s: &[u8], at: usize) -> Result<usize, Refused>
    ensures { result ≡ as_passed (decode sample_type s.now at) }
{
    let (_, next) = read_sample(s, at)?;
    Ok(next)
}
