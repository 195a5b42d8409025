// Words in a row; lists of words.
ghost use Rattle.std.specs.Prelude.{◌≡◌};
ghost use Rattle.sflow.specs.Decode.{decode, entries, as_read};
ghost use Rattle.sflow.specs.Datagram.{word};
ghost use Rattle.fields.specs.Parts.{as_passed};
ghost use Rattle.fields.specs.Words.{words};

use sflow::{Refusal, Refused};

// So many words, each an item of its own; one comparison tells whether all are there.
#[inline(always)]
pub fn read_words<const N: usize>(s: &[u8], at: usize) -> Result<([u32; N], usize), Refused>
    ensures { result ≡ as_read (decode (words N) s.now at) }
{
    let left = s.len().saturating_sub(at);
    if left / 4 < N {
        return Err(Refused {
            why: Refusal::CutItem,
            at: at + left / 4 * 4,
        });
    }
    let mut values = [0; N];
    let mut next = at;
    for value in &mut values {
        *value = xdr::word_of(s[next], s[next + 1], s[next + 2], s[next + 3]);
        next += 4;
    }
    Ok((values, next))
}

// The offset of a list's first entry, and how many entries there are. Each entry says where the next one begins; words lie 4 octets
// apart and are read by `xdr::read_word`.
#[derive(Clone, Copy)]
pub struct Entries {
    pub at: usize,
    pub count: u32,
}

// So many words, in one comparison whatever the count.
pub fn pass_words(s: &[u8], first: usize, count: u32) -> Result<usize, Refused>
    ensures { result ≡ as_passed (entries (decode word s.now) count first) }
{
    if count == 0 {
        return Ok(first);
    }
    if s.len() < first {
        return Err(Refused {
            why: Refusal::CutItem,
            at: first,
        });
    }
    let left = s.len() - first;
    let whole = (count as usize) * 4;
    if left < whole {
        return Err(Refused {
            why: Refusal::CutItem,
            at: first + left / 4 * 4,
        });
    }
    Ok(first + whole)
}
