#![tactic(auto)]
// sFlow version 4 datagrams (RFC 3176, section 4): why a datagram is refused. The grammar itself, what reading by it finds and what is
// proved of it are in specs/ and proofs/.
ghost use Rattle.std.specs.Prelude.{◌≡◌};
ghost use Rattle.sflow.specs.Refusals.{refusal_number};
ghost use Rattle.sflow.specs.Decode.{cut_refused, unpadded_refused};

use xdr::{Cut, Unpadded};

// Why octets are refused.
#[derive(Clone, Copy, Debug, PartialEq, Eq)]
pub enum Refusal {
    // a word, a hyper or an address's octets are cut short
    CutItem,
    // a string's octets or their padding are cut short
    CutString,
    Version,
    AddressType,
    SampleType,
    PacketDataType,
    HeaderProtocol,
    // a sampled header of more than 256 octets
    HeaderLength,
    ExtendedDataType,
    SegmentType,
    UrlDirection,
    CountersVersion,
    // a padding octet that is not zero
    Padding,
    // octets after the last sample
    Trailing,
    // a datagram of more than 65,507 octets
    TooLong,
}

// A refusal and its offset.
#[derive(Clone, Copy, Debug, PartialEq, Eq)]
pub struct Refused {
    pub why: Refusal,
    pub at: usize,
}

impl From<Cut> for Refused {
    ghost from_gives = { λ cut r. r ≡ cut_refused cut };

    fn from(cut: Cut) -> Refused {
        Refused {
            why: Refusal::CutItem,
            at: cut.at,
        }
    }
}

impl From<Unpadded> for Refused {
    ghost from_gives = { λ unpadded r. r ≡ unpadded_refused unpadded };

    fn from(unpadded: Unpadded) -> Refused {
        match unpadded {
            Unpadded::CutShort(at) => Refused {
                why: Refusal::CutString,
                at,
            },
            Unpadded::NonzeroPadding(at) => Refused {
                why: Refusal::Padding,
                at,
            },
        }
    }
}

// The number of a refusal.
impl From<Refusal> for u32 {
    ghost from_gives = { λ why n. n ≡ refusal_number why };

    fn from(why: Refusal) -> u32 {
        match why {
            Refusal::CutItem => 1,
            Refusal::CutString => 1,
            Refusal::Version => 2,
            Refusal::AddressType => 3,
            Refusal::SampleType => 4,
            Refusal::PacketDataType => 5,
            Refusal::HeaderProtocol => 6,
            Refusal::HeaderLength => 7,
            Refusal::ExtendedDataType => 8,
            Refusal::SegmentType => 9,
            Refusal::UrlDirection => 10,
            Refusal::CountersVersion => 11,
            Refusal::Padding => 12,
            Refusal::Trailing => 13,
            Refusal::TooLong => 14,
        }
    }
}
