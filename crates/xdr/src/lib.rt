#![tactic(auto)]
// Items of XDR (RFC 1832) read out of octets. Crate xdr_write writes them.
// Every function answers for every slice and every offset, also an offset beyond the slice. A value is given with the offset behind it.
ghost use Rattle.std.specs.Prelude.{◌≡◌, ◌+◌, ◌*◌, ◌≤◌, length};
ghost use Rattle.xdr.specs.Numbers.{number_at};
ghost use Rattle.xdr.specs.Items.{word_at, hyper_at, quad_at, items_at, nonzero_at, padded_at};

// The offset of an item that is cut short.
#[derive(Clone, Copy, Debug, PartialEq, Eq)]
pub struct Cut {
    pub at: usize,
}

// A word, 4 octets.
pub fn read_word(s: &[u8], at: usize) -> Result<(u32, usize), Cut>
    ensures { result ≡ word_at s.now at }
{
    if s.len() < at || s.len() - at < 4 {
        return Err(Cut { at });
    }
    Ok((word_in(s, at), at + 4))
}

// The word that stands at an offset.
fn word_in(s: &[u8], at: usize) -> u32
    requires { at + 4 ≤ length s.now }
    ensures { result ≡ number_at s.now at 4 }
{
    word_of(s[at], s[at + 1], s[at + 2], s[at + 3])
}

// The number that two octets are, the most significant first.
pub fn pair_of(a: u8, b: u8) -> u32
    ensures { result ≡ a * 256 + b }
{
    u16::from_be_bytes([a, b]) as u32
}

// The number that four octets are, the most significant first.
pub fn word_of(a: u8, b: u8, c: u8, d: u8) -> u32
    ensures { result ≡ a * 16777216 + b * 65536 + c * 256 + d }
{
    u32::from_be_bytes([a, b, c, d])
}

// A hyper, 8 octets.
pub fn read_hyper(s: &[u8], at: usize) -> Result<(u64, usize), Cut>
    ensures { result ≡ hyper_at s.now at }
{
    if s.len() < at || s.len() - at < 8 {
        return Err(Cut { at });
    }
    let high = word_in(s, at) as u64;
    let low = word_in(s, at + 4) as u64;
    Ok((high * 4294967296 + low, at + 8))
}

// Sixteen octets as four words.
#[derive(Clone, Copy, Debug, PartialEq, Eq)]
pub struct Quad {
    pub a: u32,
    pub b: u32,
    pub c: u32,
    pub d: u32,
}

// The 16 octets of an IPv6 address, one item. (The 4 octets of an IPv4 address are read as a word.)
pub fn read_quad(s: &[u8], at: usize) -> Result<(Quad, usize), Cut>
    ensures { result ≡ quad_at s.now at }
{
    if s.len() < at || s.len() - at < 16 {
        return Err(Cut { at });
    }
    let quad = Quad {
        a: word_in(s, at),
        b: word_in(s, at + 4),
        c: word_in(s, at + 8),
        d: word_in(s, at + 12),
    };
    Ok((quad, at + 16))
}

// Items of these widths, whatever their values, one behind the other: the offset behind the last one.
pub fn read_run(s: &[u8], first: usize, widths: &[u8]) -> Result<usize, Cut>
    ensures { result ≡ items_at s.now first widths.now }
{
    let mut at = first;
    for width in widths {
        let width = *width as usize;
        if s.len() < at || s.len() - at < width {
            return Err(Cut { at });
        }
        at += width;
    }
    Ok(at)
}

// Why a string's octets with their padding, one item, are refused.
#[derive(Clone, Copy, Debug, PartialEq, Eq)]
pub enum Unpadded {
    // some of the octets or of their padding are missing: the offset of the octets
    CutShort(usize),
    // the offset of the first padding octet that is not zero
    NonzeroPadding(usize),
}

// A string's octets with their padding: the offset behind it.
pub fn read_padded(s: &[u8], at: usize, len: u32) -> Result<usize, Unpadded>
    ensures { result ≡ padded_at s.now at len }
{
    let count = len as usize;
    let whole = (count + 3) / 4 * 4;
    if s.len() < at || s.len() - at < whole {
        return Err(Unpadded::CutShort(at));
    }
    for p in at + count..at + whole {
        if s[p] != 0 {
            return Err(Unpadded::NonzeroPadding(p));
        }
    }
    Ok(at + whole)
}
