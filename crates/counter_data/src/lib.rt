#![tactic(auto)]
// Counters of a counter sample.
ghost use Rattle.std.specs.Prelude.{◌≡◌, []};
ghost use Rattle.xdr.specs.Items.{total_width};
ghost use Rattle.sflow.specs.Grammar.{fixed, chosen};
ghost use Rattle.sflow.specs.Decode.{decode, mapped, as_read};
ghost use Rattle.sflow.specs.Datagram.{counters_versions, counters_type};
ghost use Rattle.fields.specs.Parts.{as_passed};
ghost use Rattle.counter_data.specs.CounterBodies.{counter_body_of};

use sflow::{Refusal, Refused};

// A counters version, 1 to 7, and the offset of the first counter. The version stays the RFC's number: the C interface gives it, and the writer answers
// for any.
#[derive(Clone, Copy)]
pub struct CounterBody {
    pub version: u32,
    pub at: usize,
}

// The widths of the counters of each version; FDDI and WAN counters are those of every interface.
pub const IF_WIDTHS: [u8; 19] =
    *b"\x04\x04\x08\x04\x04\x08\x04\x04\x04\x04\x04\x04\x08\x04\x04\x04\x04\x04\x04";

pub const ETHERNET_WIDTHS: [u8; 32] =
    *b"\x04\x04\x08\x04\x04\x08\x04\x04\x04\x04\x04\x04\x08\x04\x04\x04\x04\x04\x04\x04\x04\x04\x04\x04\x04\x04\x04\x04\x04\x04\x04\x04";

pub const TOKENRING_WIDTHS: [u8; 37] =
    *b"\x04\x04\x08\x04\x04\x08\x04\x04\x04\x04\x04\x04\x08\x04\x04\x04\x04\x04\x04\x04\x04\x04\x04\x04\x04\x04\x04\x04\x04\x04\x04\x04\x04\x04\x04\x04\x04";

pub const VG_WIDTHS: [u8; 33] =
    *b"\x04\x04\x08\x04\x04\x08\x04\x04\x04\x04\x04\x04\x08\x04\x04\x04\x04\x04\x04\x04\x08\x04\x08\x04\x04\x04\x04\x04\x08\x04\x08\x08\x08";

pub const VLAN_WIDTHS: [u8; 6] = *b"\x04\x08\x04\x04\x04\x04";

// How many octets the counters of a version take: none where it is no version. Each is a constant: the widths could only be added up at every call.
pub fn body_size(version: u32) -> usize
    ensures { result ≡ total_width (chosen [] counters_versions version) }
{
    match version {
        1 | 4 | 6 => 88,
        2 => 140,
        3 => 160,
        5 => 168,
        7 => 28,
        _ => 0,
    }
}

// The counters of a version by their widths, for the place where they are cut short. The version is one of 1 to 7 here, and stays a number: a type for it
// would be built at every call.
fn pass_each(s: &[u8], at: usize, version: u32) -> Result<usize, Refused>
    ensures { result ≡ as_passed (decode (fixed (chosen [] counters_versions version)) s.now at) }
{
    match version {
        1 | 4 | 6 => fields::runs::pass_run(s, at, &IF_WIDTHS),
        2 => fields::runs::pass_run(s, at, &ETHERNET_WIDTHS),
        3 => fields::runs::pass_run(s, at, &TOKENRING_WIDTHS),
        5 => fields::runs::pass_run(s, at, &VG_WIDTHS),
        7 => fields::runs::pass_run(s, at, &VLAN_WIDTHS),
        _ => Ok(at),
    }
}

// The counters of a version, a run of free items: passed over as one item of all their octets, and by their widths only where some are missing.
#[inline(always)]
fn pass_body(s: &[u8], at: usize, version: u32) -> Result<usize, Refused>
    ensures { result ≡ as_passed (decode (fixed (chosen [] counters_versions version)) s.now at) }
{
    let Ok(next) = fields::runs::pass_item(s, at, body_size(version)) else {
        return pass_each(s, at, version);
    };
    Ok(next)
}

// Counters at their version word.
#[inline(always)]
pub fn read_counter_body(s: &[u8], at: usize) -> Result<(CounterBody, usize), Refused>
    ensures { result ≡ as_read (mapped (counter_body_of at) (decode counters_type s.now at)) }
{
    let (version, first) = xdr::read_word(s, at)?;
    if !(1..=7).contains(&version) {
        return Err(Refused {
            why: Refusal::CountersVersion,
            at,
        });
    }
    let next = pass_body(s, first, version)?;
    Ok((CounterBody { version, at: first }, next))
}

// Counters at their version word that are not handed out.
pub fn pass_counters(s: &[u8], at: usize) -> Result<usize, Refused>
    ensures { result ≡ as_passed (decode counters_type s.now at) }
{
    let (_, next) = read_counter_body(s, at)?;
    Ok(next)
}
