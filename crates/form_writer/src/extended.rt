// Extended data, with their type word, and path segments.
ghost use Rattle.std.specs.Prelude.{◌≡◌};
ghost use Rattle.std.proofs.Math.Option.{some};
ghost use Rattle.xdr.specs.Writes.{afterwards};
ghost use Rattle.sflow.specs.Datagram.{as_path_type, extended_data_type};
ghost use Rattle.form_writer.specs.Parts.{write_given};
ghost use Rattle.form_writer.specs.Values.{switch_value, router_value, segment_value, gateway_given, user_value, url_value};

use crate::parts;
use crate::parts::{Part, WriteRefusal};
use extended_data::{Router, Switch};

pub fn write_switch(d: &mut [u8], x: Switch) -> Result<usize, WriteRefusal>
    ensures { afterwards result d.new ≡ write_given extended_data_type (some (switch_value x)) d.old }
{
    parts::write_words(
        d,
        &[1, x.src_vlan, x.src_priority, x.dst_vlan, x.dst_priority],
    )
}

pub fn write_router(d: &mut [u8], x: Router) -> Result<usize, WriteRefusal>
    ensures { afterwards result d.new ≡ write_given extended_data_type (some (router_value x)) d.old }
{
    let q = x.nexthop.octets;
    match x.nexthop.kind {
        1 => parts::write_words(d, &[2, 1, q.a, x.src_mask, x.dst_mask]),
        2 => parts::write_words(d, &[2, 2, q.a, q.b, q.c, q.d, x.src_mask, x.dst_mask]),
        _ => Err(WriteRefusal::BadValue),
    }
}

// A path segment of a type, 1 or 2, and its numbers.
pub fn write_segment(d: &mut [u8], kind: u32, numbers: &[u32]) -> Result<usize, WriteRefusal>
    ensures { afterwards result d.new
        ≡ write_given as_path_type (some (segment_value kind numbers.now)) d.old }
{
    if !(1..=2).contains(&kind) {
        return Err(WriteRefusal::BadValue);
    }
    let length = u32::try_from(numbers.len())?;
    parts::write_parts(d, &[Part::Words(&[kind, length]), Part::Words(numbers)])
}

// A gateway: the autonomous systems of router, source and source peer, so many path segments as octets that write_segment wrote, the communities and the
// local preference.
pub fn write_gateway(
    d: &mut [u8],
    router_as: u32,
    src_as: u32,
    src_peer_as: u32,
    count: u32,
    path: &[u8],
    communities: &[u32],
    localpref: u32,
) -> Result<usize, WriteRefusal>
    ensures { afterwards result d.new
        ≡ write_given extended_data_type (gateway_given router_as src_as src_peer_as count path.now communities.now localpref) d.old }
{
    let Ok(end) = extended_data::pass_segments(path, 0, count) else {
        return Err(WriteRefusal::BadValue);
    };
    if end != path.len() {
        return Err(WriteRefusal::BadValue);
    }
    let length = u32::try_from(communities.len())?;
    parts::write_parts(
        d,
        &[
            Part::Words(&[3, router_as, src_as, src_peer_as, count]),
            Part::Octets(path),
            Part::Words(&[length]),
            Part::Words(communities),
            Part::Words(&[localpref]),
        ],
    )
}

pub fn write_user(d: &mut [u8], src_user: &[u8], dst_user: &[u8]) -> Result<usize, WriteRefusal>
    ensures { afterwards result d.new
        ≡ write_given extended_data_type (some (user_value src_user.now dst_user.now)) d.old }
{
    let src_length = u32::try_from(src_user.len())?;
    let dst_length = u32::try_from(dst_user.len())?;
    parts::write_parts(
        d,
        &[
            Part::Words(&[4, src_length]),
            Part::Padded(src_user),
            Part::Words(&[dst_length]),
            Part::Padded(dst_user),
        ],
    )
}

pub fn write_url(d: &mut [u8], direction: u32, url: &[u8]) -> Result<usize, WriteRefusal>
    ensures { afterwards result d.new
        ≡ write_given extended_data_type (some (url_value direction url.now)) d.old }
{
    if !(1..=2).contains(&direction) {
        return Err(WriteRefusal::BadValue);
    }
    let length = u32::try_from(url.len())?;
    parts::write_parts(
        d,
        &[Part::Words(&[5, direction, length]), Part::Padded(url)],
    )
}
