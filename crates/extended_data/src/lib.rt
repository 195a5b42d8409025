#![tactic(auto)]
// Extended data of a flow sample.
ghost use Rattle.std.specs.Prelude.{◌≡◌, ◌+◌};
ghost use Rattle.sflow.specs.Grammar.{list};
ghost use Rattle.sflow.specs.Decode.{decode, entries, mapped, as_read};
ghost use Rattle.sflow.specs.Datagram.{
  word,
  extended_switch,
  extended_router,
  as_path_type,
  extended_gateway,
  extended_user,
  extended_url,
  extended_data_type,
};
ghost use Rattle.fields.specs.Parts.{as_passed, entries_at};
ghost use Rattle.extended_data.specs.ExtendedData.{switch_of, router_of, segment_of, gateway_of, user_of, url_of, extended_of};

use fields::address::Address;
use fields::strings::Text;
use fields::words::{Entries, read_words};
use sflow::{Refusal, Refused};

#[derive(Clone, Copy)]
pub struct Switch {
    pub src_vlan: u32,
    pub src_priority: u32,
    pub dst_vlan: u32,
    pub dst_priority: u32,
}

#[derive(Clone, Copy)]
pub struct Router {
    pub nexthop: Address,
    pub src_mask: u32,
    pub dst_mask: u32,
}

// A path segment: 1 for a set or 2 for a sequence, and its words, the numbers of autonomous systems. The type stays the RFC's number: the C interface
// gives it and takes it back as one.
#[derive(Clone, Copy)]
pub struct Segment {
    pub kind: u32,
    pub numbers: Entries,
}

// dst_as_path is a list of segments, communities one of words.
#[derive(Clone, Copy)]
pub struct Gateway {
    pub router_as: u32,
    pub src_as: u32,
    pub src_peer_as: u32,
    pub dst_as_path: Entries,
    pub communities: Entries,
    pub localpref: u32,
}

#[derive(Clone, Copy)]
pub struct User {
    pub src_user: Text,
    pub dst_user: Text,
}

// The direction stays the RFC's number, as a segment's type does.
#[derive(Clone, Copy)]
pub struct Url {
    pub direction: u32,
    pub url: Text,
}

#[derive(Clone, Copy)]
pub enum Extended {
    IsSwitch(Switch),
    IsRouter(Router),
    IsGateway(Gateway),
    IsUser(User),
    IsUrl(Url),
}

#[inline(always)]
fn read_switch(s: &[u8], at: usize) -> Result<(Extended, usize), Refused>
    ensures { result ≡ as_read (mapped switch_of (decode extended_switch s.now at)) }
{
    let (words, next) = read_words::<4>(s, at)?;
    let [src_vlan, src_priority, dst_vlan, dst_priority] = words;
    let switch = Switch {
        src_vlan,
        src_priority,
        dst_vlan,
        dst_priority,
    };
    Ok((Extended::IsSwitch(switch), next))
}

#[inline(always)]
fn read_router(s: &[u8], at: usize) -> Result<(Extended, usize), Refused>
    ensures { result ≡ as_read (mapped router_of (decode extended_router s.now at)) }
{
    let (nexthop, masks_at) = fields::address::read_address(s, at)?;
    let ([src_mask, dst_mask], next) = read_words::<2>(s, masks_at)?;
    let router = Router {
        nexthop,
        src_mask,
        dst_mask,
    };
    Ok((Extended::IsRouter(router), next))
}

// A list of words.
#[inline(always)]
fn read_numbers(s: &[u8], at: usize) -> Result<(Entries, usize), Refused>
    ensures { result ≡ as_read (mapped (entries_at (at + 4)) (decode (list word) s.now at)) }
{
    let (count, first) = xdr::read_word(s, at)?;
    let next = fields::words::pass_words(s, first, count)?;
    Ok((Entries { at: first, count }, next))
}

// A path segment.
#[inline(always)]
pub fn read_segment(s: &[u8], at: usize) -> Result<(Segment, usize), Refused>
    ensures { result ≡ as_read (mapped (segment_of at) (decode as_path_type s.now at)) }
{
    let (kind, count_at) = xdr::read_word(s, at)?;
    if !(1..=2).contains(&kind) {
        return Err(Refused {
            why: Refusal::SegmentType,
            at,
        });
    }
    let (numbers, next) = read_numbers(s, count_at)?;
    Ok((Segment { kind, numbers }, next))
}

// A path segment that is not handed out.
fn pass_segment(s: &[u8], at: usize) -> Result<usize, Refused>
    ensures { result ≡ as_passed (decode as_path_type s.now at) }
{
    let (_, next) = read_segment(s, at)?;
    Ok(next)
}

// So many path segments.
pub fn pass_segments(s: &[u8], first: usize, count: u32) -> Result<usize, Refused>
    ensures { result ≡ as_passed (entries (decode as_path_type s.now) count first) }
{
    fields::lists::pass_entries(first, count, |at| pass_segment(s, at))
}

#[inline(always)]
fn read_gateway(s: &[u8], at: usize) -> Result<(Extended, usize), Refused>
    ensures { result ≡ as_read (mapped (gateway_of at) (decode extended_gateway s.now at)) }
{
    let ([router_as, src_as, src_peer_as], path_at) = read_words::<3>(s, at)?;
    let (count, first) = xdr::read_word(s, path_at)?;
    let communities_at = pass_segments(s, first, count)?;
    let (communities, end) = read_numbers(s, communities_at)?;
    let (localpref, next) = xdr::read_word(s, end)?;
    let gateway = Gateway {
        router_as,
        src_as,
        src_peer_as,
        dst_as_path: Entries { at: first, count },
        communities,
        localpref,
    };
    Ok((Extended::IsGateway(gateway), next))
}

#[inline(always)]
fn read_user(s: &[u8], at: usize) -> Result<(Extended, usize), Refused>
    ensures { result ≡ as_read (mapped (user_of at) (decode extended_user s.now at)) }
{
    let (src_user, second) = fields::strings::read_string(s, at)?;
    let (dst_user, next) = fields::strings::read_string(s, second)?;
    Ok((Extended::IsUser(User { src_user, dst_user }), next))
}

#[inline(always)]
fn read_url(s: &[u8], at: usize) -> Result<(Extended, usize), Refused>
    ensures { result ≡ as_read (mapped (url_of at) (decode extended_url s.now at)) }
{
    let (direction, start) = xdr::read_word(s, at)?;
    if !(1..=2).contains(&direction) {
        return Err(Refused {
            why: Refusal::UrlDirection,
            at,
        });
    }
    let (url, next) = fields::strings::read_string(s, start)?;
    Ok((Extended::IsUrl(Url { direction, url }), next))
}

// An extended entry at its type word.
#[inline(always)]
pub fn read_extended(s: &[u8], at: usize) -> Result<(Extended, usize), Refused>
    ensures { result ≡ as_read (mapped (extended_of at) (decode extended_data_type s.now at)) }
{
    let (kind, next) = xdr::read_word(s, at)?;
    match kind {
        1 => read_switch(s, next),
        2 => read_router(s, next),
        3 => read_gateway(s, next),
        4 => read_user(s, next),
        5 => read_url(s, next),
        _ => Err(Refused {
            why: Refusal::ExtendedDataType,
            at,
        }),
    }
}

// An extended entry at its type word that is not handed out.
fn pass_entry(s: &[u8], at: usize) -> Result<usize, Refused>
    ensures { result ≡ as_passed (decode extended_data_type s.now at) }
{
    let (_, next) = read_extended(s, at)?;
    Ok(next)
}

// So many extended entries.
pub fn pass_extended(s: &[u8], first: usize, count: u32) -> Result<usize, Refused>
    ensures { result ≡ as_passed (entries (decode extended_data_type s.now) count first) }
{
    fields::lists::pass_entries(first, count, |at| pass_entry(s, at))
}
