#![tactic(auto)]
// Items of XDR (RFC 1832) written into octets: each function answers the offset behind what it wrote.
// Every function answers for every buffer and every offset, also an offset beyond the buffer; where an item does not fit, every octet stays.
ghost use Rattle.std.specs.Prelude.{◌≡◌, ◌+◌, ◌≤◌, length};
ghost use Rattle.xdr.specs.Numbers.{octets_of};
ghost use Rattle.xdr.specs.Writes.{write_at, afterwards, padded_octets, stored};

pub fn write_word(d: &mut [u8], at: usize, v: u32) -> Option<usize>
    ensures { afterwards result d.new ≡ write_at d.old at (octets_of 4 v) }
{
    write_octets(d, at, &v.to_be_bytes())
}

pub fn write_hyper(d: &mut [u8], at: usize, v: u64) -> Option<usize>
    ensures { afterwards result d.new ≡ write_at d.old at (octets_of 8 v) }
{
    write_octets(d, at, &v.to_be_bytes())
}

pub fn write_octets(d: &mut [u8], at: usize, xs: &[u8]) -> Option<usize>
    ensures { afterwards result d.new ≡ write_at d.old at xs.now }
{
    let count = xs.len();
    if d.len() < at || d.len() - at < count {
        return None;
    }
    let end = at + count;
    copy(d, at, xs);
    Some(end)
}

// A string's octets with their padding.
pub fn write_padded(d: &mut [u8], at: usize, xs: &[u8]) -> Option<usize>
    ensures { afterwards result d.new ≡ write_at d.old at (padded_octets xs.now) }
{
    let count = xs.len();
    let whole = (count + 3) / 4 * 4;
    if d.len() < at || d.len() - at < whole {
        return None;
    }
    copy(d, at, xs);
    d[at + count..at + whole].fill(0);
    Some(at + whole)
}

// Octets in place of as many from an offset on. A loop: `copy_from_slice` asks the C library for memmove where nothing shows that the two lie apart, and the
// archive for C asks for memcpy and memset alone.
#[inline(always)]
fn copy(d: &mut [u8], at: usize, xs: &[u8])
    requires { at + length xs.now ≤ length d.old }
    ensures { d.new ≡ stored d.old at xs.now }
{
    for i in 0..xs.len() {
        d[at + i] = xs[i];
    }
}
