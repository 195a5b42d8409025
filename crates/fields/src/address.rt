// Addresses of agents and of next hops.
ghost use Rattle.std.specs.Prelude.{◌≡◌};
ghost use Rattle.sflow.specs.Decode.{decode, mapped, as_read};
ghost use Rattle.sflow.specs.Datagram.{address};
ghost use Rattle.fields.specs.Parts.{as_passed};
ghost use Rattle.fields.specs.Addresses.{address_of};

use sflow::{Refusal, Refused};
use xdr::Quad;

// A type, 1 for IPv4 or 2 for IPv6, and the octets; those of an IPv4 address are the first word, and the others are 0.
// The type stays a number: the writers and the ledger are given any, and answer for it.
#[derive(Clone, Copy)]
pub struct Address {
    pub kind: u32,
    pub octets: Quad,
}

pub fn read_address(s: &[u8], at: usize) -> Result<(Address, usize), Refused>
    ensures { result ≡ as_read (mapped address_of (decode address s.now at)) }
{
    let (kind, place) = xdr::read_word(s, at)?;
    let (octets, next) = match kind {
        1 => {
            let (a, next) = xdr::read_word(s, place)?;
            let octets = Quad {
                a,
                b: 0,
                c: 0,
                d: 0,
            };
            (octets, next)
        }
        2 => xdr::read_quad(s, place)?,
        _ => {
            return Err(Refused {
                why: Refusal::AddressType,
                at,
            });
        }
    };
    Ok((Address { kind, octets }, next))
}

// An address whose octets are not handed out.
pub fn pass_address(s: &[u8], at: usize) -> Result<usize, Refused>
    ensures { result ≡ as_passed (decode address s.now at) }
{
    let (_, next) = read_address(s, at)?;
    Ok(next)
}
