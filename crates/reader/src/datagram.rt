// Whole datagrams, and a cursor over their samples.
ghost use Rattle.std.specs.Prelude.{◌≡◌};
ghost use Rattle.sflow.specs.Decode.{decode, entries};
ghost use Rattle.sflow.specs.Datagram.{sample_type};
ghost use Rattle.fields.specs.Parts.{as_passed};
ghost use Rattle.reader.specs.Datagrams.{as_head, datagram_read, head_at, step_at};

use crate::sample::Sample;
use fields::address::Address;
use fields::words::{Entries, read_words};
use sflow::{Refusal, Refused};

// What stands before the samples; samples are the offset of the first one and their number.
#[derive(Clone, Copy)]
pub struct Head {
    pub agent: Address,
    pub sequence_number: u32,
    pub uptime: u32,
    pub samples: Entries,
}

// The head alone, and whether the datagram is too long. What it gives is provisional: the samples are not looked at.
pub fn read_head(s: &[u8]) -> Result<Head, Refused>
    ensures { result ≡ as_head (head_at s.now) }
{
    if 65507 < s.len() {
        return Err(Refused {
            why: Refusal::TooLong,
            at: 0,
        });
    }
    let (version, agent_at) = xdr::read_word(s, 0)?;
    if version != 4 {
        return Err(Refused {
            why: Refusal::Version,
            at: 0,
        });
    }
    let (agent, words_at) = fields::address::read_address(s, agent_at)?;
    let ([sequence_number, uptime, count], first) = read_words::<3>(s, words_at)?;
    Ok(Head {
        agent,
        sequence_number,
        uptime,
        samples: Entries { at: first, count },
    })
}

// So many samples.
fn pass_samples(s: &[u8], first: usize, count: u32) -> Result<usize, Refused>
    ensures { result ≡ as_passed (entries (decode sample_type s.now) count first) }
{
    fields::lists::pass_entries(first, count, |at| crate::sample::pass_sample(s, at))
}

// A whole datagram: its head, where all of it is well formed.
pub fn read(s: &[u8]) -> Result<Head, Refused>
    ensures { result ≡ datagram_read s.now }
{
    let head = read_head(s)?;
    let end = pass_samples(s, head.samples.at, head.samples.count)?;
    if end < s.len() {
        return Err(Refused {
            why: Refusal::Trailing,
            at: end,
        });
    }
    Ok(head)
}

// A place in a datagram: the offset of the next sample, and how many are left.
#[derive(Clone, Copy)]
pub struct Cursor {
    pub at: usize,
    pub left: u32,
}

// The cursor at the first sample.
pub fn start(head: Head) -> Cursor
    ensures { (result.at ≡ head.samples.at) × (result.left ≡ head.samples.count) }
{
    Cursor {
        at: head.samples.at,
        left: head.samples.count,
    }
}

// One step of the walk over a datagram's samples that begins with `read_head` and `start`: the next sample with the cursor behind it, or
// none at the datagram's end. The walk to its end accepts or refuses as `read` does; what it gives before its end is provisional.
pub fn next_sample(s: &[u8], c: Cursor) -> Result<Option<(Sample, Cursor)>, Refused>
    ensures { result ≡ step_at s.now c }
{
    if c.left == 0 {
        if c.at < s.len() {
            return Err(Refused {
                why: Refusal::Trailing,
                at: c.at,
            });
        }
        return Ok(None);
    }
    let (sample, next) = crate::sample::read_sample(s, c.at)?;
    let behind = Cursor {
        at: next,
        left: c.left - 1,
    };
    Ok(Some((sample, behind)))
}
