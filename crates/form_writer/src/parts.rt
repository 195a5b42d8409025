// Words and strings written one behind the other, all or nothing.
ghost use Rattle.std.specs.Prelude.{◌≡◌, ◌+◌, ◌*◌, ◌≤◌, length};
ghost use Rattle.xdr.specs.Writes.{stored, afterwards};
ghost use Rattle.form_writer.specs.declared.parts.WriteRefusal.TheVariants.{BadValue};
ghost use Rattle.form_writer.specs.Parts.{write_refusal_number, write_number, write_alone, words_octets, part_octets, parts_octets};

use std::num::TryFromIntError;

// Why a writer wrote nothing.
#[derive(Clone, Copy, Debug, PartialEq, Eq)]
pub enum WriteRefusal {
    // the limit is not one that a datagram can have, or the buffer is shorter
    BadLimit,
    // the datagram so far is not well formed, or is longer than the limit
    BadDatagram,
    // a value is not in the grammar
    BadValue,
    // there is no room
    NoRoom,
}

// The number of an answer; 0 where the octets are written.
pub fn answer_number(answer: Result<usize, WriteRefusal>) -> u32
    ensures { result ≡ write_number answer }
{
    match answer {
        Ok(_) => 0,
        Err(why) => u32::from(why),
    }
}

// The number of a refusal.
impl From<WriteRefusal> for u32 {
    ghost from_gives = { λ why n. n ≡ write_refusal_number why };

    fn from(why: WriteRefusal) -> u32 {
        match why {
            WriteRefusal::NoRoom => 20,
            WriteRefusal::BadLimit => 21,
            WriteRefusal::BadValue => 22,
            WriteRefusal::BadDatagram => 23,
        }
    }
}

// A length that no word holds is not in the grammar.
impl From<TryFromIntError> for WriteRefusal {
    ghost from_gives = { λ _ why. why ≡ BadValue };

    fn from(_error: TryFromIntError) -> WriteRefusal {
        WriteRefusal::BadValue
    }
}

// Words in place of the octets from an offset on.
#[inline(always)]
fn put_words(d: &mut [u8], at: usize, ws: &[u32])
    requires { at + length ws.now * 4 ≤ length d.old }
    ensures { d.new ≡ stored d.old at (words_octets ws.now) }
{
    let mut p = at;
    for w in ws {
        xdr_write::write_word(d, p, *w);
        p += 4;
    }
}

// A part of what is written.
#[derive(Clone, Copy)]
pub enum Part<'a> {
    Words(&'a [u32]),
    // a string, with its padding
    Padded(&'a [u8]),
    Octets(&'a [u8]),
}

impl<'a> Part<'a> {
    // How many octets it takes.
    #[inline(always)]
    fn size(self) -> usize
        ensures { result ≡ length (part_octets self.entry) }
    {
        match self {
            Part::Words(ws) => ws.len() * 4,
            Part::Padded(xs) => (xs.len() + 3) / 4 * 4,
            Part::Octets(xs) => xs.len(),
        }
    }

    // Puts it in place of the octets from an offset on.
    #[inline(always)]
    fn put(self, d: &mut [u8], at: usize)
        requires { at + length (part_octets self) ≤ length d.old }
        ensures { d.new ≡ stored d.old at (part_octets self.entry) }
    {
        match self {
            Part::Words(ws) => put_words(d, at, ws),
            Part::Padded(xs) => {
                xdr_write::write_padded(d, at, xs);
            }
            Part::Octets(xs) => {
                xdr_write::write_octets(d, at, xs);
            }
        }
    }
}

// Parts one behind the other.
#[inline(always)]
pub fn write_parts(d: &mut [u8], parts: &[Part]) -> Result<usize, WriteRefusal>
    ensures { afterwards result d.new ≡ write_alone (parts_octets parts.now) d.old }
{
    let mut room = d.len();
    for part in parts {
        let size = part.size();
        if room < size {
            return Err(WriteRefusal::NoRoom);
        }
        room -= size;
    }
    let mut at = 0;
    for part in parts {
        part.put(d, at);
        at += part.size();
    }
    Ok(at)
}

// Words alone.
pub fn write_words(d: &mut [u8], ws: &[u32]) -> Result<usize, WriteRefusal>
    ensures { afterwards result d.new ≡ write_alone (words_octets ws.now) d.old }
{
    write_parts(d, &[Part::Words(ws)])
}
