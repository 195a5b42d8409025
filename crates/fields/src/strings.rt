// Strings.
ghost use Rattle.std.specs.Prelude.{◌≡◌, take, drop};
ghost use Rattle.xdr.specs.Items.{padded_at};
ghost use Rattle.sflow.specs.Grammar.{opaque, unlimited};
ghost use Rattle.sflow.specs.Decode.{string_item, decode, mapped, as_read};
ghost use Rattle.fields.specs.Parts.{as_passed};
ghost use Rattle.fields.specs.Strings.{text_of};

use sflow::Refused;

// The offset of a string's octets, and how many they are without their padding.
#[derive(Clone, Copy)]
pub struct Text {
    pub at: usize,
    pub length: u32,
}

// The octets of a string of a length, behind its length word.
pub fn pass_octets(s: &[u8], at: usize, length: u32) -> Result<usize, Refused>
    ensures { result ≡ as_passed (string_item (take length (drop at s.now)) (padded_at s.now at length)) }
{
    let next = xdr::read_padded(s, at, length)?;
    Ok(next)
}

// A string of any length.
pub fn read_string(s: &[u8], at: usize) -> Result<(Text, usize), Refused>
    ensures { result ≡ as_read (mapped (text_of at) (decode (opaque unlimited) s.now at)) }
{
    let (length, start) = xdr::read_word(s, at)?;
    let next = pass_octets(s, start, length)?;
    Ok((Text { at: start, length }, next))
}

// A string that is not handed out.
pub fn pass_string(s: &[u8], at: usize) -> Result<usize, Refused>
    ensures { result ≡ as_passed (decode (opaque unlimited) s.now at) }
{
    let (_, next) = read_string(s, at)?;
    Ok(next)
}
