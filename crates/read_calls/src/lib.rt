#![tactic(auto)]
// Reading as functions on numbers and slices: a datagram, an extended entry, a path segment. One number is answered, further numbers go into a lent array, as
// many as it has room for. Crate export gives them to C and Rust.
ghost use Rattle.std.specs.Prelude.{◌≡◌, ◌∷◌};
ghost use Rattle.xdr.specs.Writes.{afterwards};
ghost use Rattle.sflow.specs.Decode.{decode, mapped, as_read};
ghost use Rattle.sflow.specs.Datagram.{as_path_type, extended_data_type};
ghost use Rattle.extended_data.specs.declared.Extended.TheVariants.{IsSwitch, IsRouter, IsGateway};
ghost use Rattle.extended_data.specs.ExtendedData.{segment_of, extended_of};
ghost use Rattle.reader.specs.Datagrams.{datagram_read};
ghost use Rattle.numbers.specs.Reports.{filled, tell};
ghost use Rattle.read_calls.specs.Reading.{head_report, extended_numbers, entry_numbers, extended_report, segment_report};

use extended_data::{Extended, Gateway, Router, Switch};
use numbers::{fill, refuse};

// Reads a whole datagram. Answers 0 where it is well formed; the array takes nine numbers:
//   0 agent address type, 1 for IPv4 or 2 for IPv6; 1 to 4 the address's words (of an IPv4 address the first, and three zeros);
//   5 sequence number; 6 uptime; 7 count of samples; 8 offset of the first sample.
// Else it answers the refusal's number, 1 to 14, and the array takes the refusal's offset.
pub fn read(octets: &[u8], out: &mut [u64]) -> u32
    ensures { afterwards result out.new ≡ tell (head_report (datagram_read octets.now)) out.old }
{
    match reader::datagram::read(octets) {
        Err(refused) => refuse(refused, out),
        Ok(h) => {
            fill(
                out,
                &[
                    h.agent.kind as u64,
                    h.agent.octets.a as u64,
                    h.agent.octets.b as u64,
                    h.agent.octets.c as u64,
                    h.agent.octets.d as u64,
                    h.sequence_number as u64,
                    h.uptime as u64,
                    h.samples.count as u64,
                    h.samples.at as u64,
                ],
            );
            0
        }
    }
}

// Puts a switch entry's numbers to the front of an array.
fn fill_switch(x: Switch, next: usize, out: &mut [u64])
    ensures { out.new ≡ filled (1 ∷ next ∷ extended_numbers (IsSwitch x)) out.old }
{
    fill(
        out,
        &[
            1,
            next as u64,
            x.src_vlan as u64,
            x.src_priority as u64,
            x.dst_vlan as u64,
            x.dst_priority as u64,
        ],
    );
}

// Puts a router entry's numbers to the front of an array.
fn fill_router(r: Router, next: usize, out: &mut [u64])
    ensures { out.new ≡ filled (2 ∷ next ∷ extended_numbers (IsRouter r)) out.old }
{
    fill(
        out,
        &[
            2,
            next as u64,
            r.nexthop.kind as u64,
            r.nexthop.octets.a as u64,
            r.nexthop.octets.b as u64,
            r.nexthop.octets.c as u64,
            r.nexthop.octets.d as u64,
            r.src_mask as u64,
            r.dst_mask as u64,
        ],
    );
}

// Puts a gateway entry's numbers to the front of an array.
fn fill_gateway(g: Gateway, next: usize, out: &mut [u64])
    ensures { out.new ≡ filled (3 ∷ next ∷ extended_numbers (IsGateway g)) out.old }
{
    fill(
        out,
        &[
            3,
            next as u64,
            g.router_as as u64,
            g.src_as as u64,
            g.src_peer_as as u64,
            g.dst_as_path.count as u64,
            g.dst_as_path.at as u64,
            g.communities.count as u64,
            g.communities.at as u64,
            g.localpref as u64,
        ],
    );
}

// Puts the numbers of an extended entry that ends at an offset to the front of an array.
fn fill_extended(x: Extended, next: usize, out: &mut [u64])
    ensures { out.new ≡ filled (entry_numbers x next) out.old }
{
    match x {
        Extended::IsSwitch(v) => fill_switch(v, next, out),
        Extended::IsRouter(v) => fill_router(v, next, out),
        Extended::IsGateway(v) => fill_gateway(v, next, out),
        Extended::IsUser(v) => fill(
            out,
            &[
                4,
                next as u64,
                v.src_user.at as u64,
                v.src_user.length as u64,
                v.dst_user.at as u64,
                v.dst_user.length as u64,
            ],
        ),
        Extended::IsUrl(v) => fill(
            out,
            &[
                5,
                next as u64,
                v.direction as u64,
                v.url.at as u64,
                v.url.length as u64,
            ],
        ),
    }
}

// Reads an entry of a flow sample's extended data at its type word. Answers 0 where it is well formed; the array takes:
//   0 type, 1 to 5; 1 the offset behind the entry, where the next one begins;
//   of type 1, switch: 2 source VLAN; 3 source priority; 4 destination VLAN; 5 destination priority;
//   of type 2, router: 2 the next hop's address type, 1 for IPv4 or 2 for IPv6; 3 to 6 its words; 7 source mask; 8 destination mask;
//   of type 3, gateway: 2 the router's autonomous system; 3 the source's; 4 the source peer's; 5 count of path segments; 6 offset of the first;
//     7 count of communities; 8 offset of the first; 9 local preference;
//   of type 4, user: 2 offset and 3 length of the source user's octets; 4 offset and 5 length of the destination user's;
//   of type 5, URL: 2 direction, 1 or 2; 3 offset and 4 length of the URL's octets.
// Else it answers the refusal's number, 1, 3, 8 to 10 or 12, and the array takes the refusal's offset.
pub fn extended(octets: &[u8], at: usize, out: &mut [u64]) -> u32
    ensures { afterwards result out.new
        ≡ tell (extended_report (as_read (mapped (extended_of at) (decode extended_data_type octets.now at)))) out.old }
{
    match extended_data::read_extended(octets, at) {
        Err(refused) => refuse(refused, out),
        Ok((x, next)) => {
            fill_extended(x, next, out);
            0
        }
    }
}

// Reads a path segment at its type word. Answers 0 where it is well formed; the array takes:
//   0 type, 1 for a set or 2 for a sequence; 1 the offset behind the segment, where the next one begins; 2 count of its words, the numbers of
//   autonomous systems; 3 offset of the first.
// Else it answers the refusal's number, 1 or 9, and the array takes the refusal's offset.
pub fn segment(octets: &[u8], at: usize, out: &mut [u64]) -> u32
    ensures { afterwards result out.new
        ≡ tell (segment_report (as_read (mapped (segment_of at) (decode as_path_type octets.now at)))) out.old }
{
    match extended_data::read_segment(octets, at) {
        Err(refused) => refuse(refused, out),
        Ok((x, next)) => {
            fill(
                out,
                &[
                    x.kind as u64,
                    next as u64,
                    x.numbers.count as u64,
                    x.numbers.at as u64,
                ],
            );
            0
        }
    }
}
