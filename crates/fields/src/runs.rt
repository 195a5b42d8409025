// Passing over items of fixed widths that are not handed out: the answer is the offset behind them.
ghost use Rattle.std.specs.Prelude.{◌≡◌, [], ◌∷◌};
ghost use Rattle.sflow.specs.Grammar.{fixed};
ghost use Rattle.sflow.specs.Decode.{decode};
ghost use Rattle.fields.specs.Parts.{as_passed};

use sflow::{Refusal, Refused};

// One item of a width.
#[inline(always)]
pub fn pass_item(s: &[u8], at: usize, width: usize) -> Result<usize, Refused>
    ensures { result ≡ as_passed (decode (fixed (width ∷ [])) s.now at) }
{
    if s.len() < at || s.len() - at < width {
        return Err(Refused {
            why: Refusal::CutItem,
            at,
        });
    }
    Ok(at + width)
}

// Items of these widths, one behind the other. (Words in a row take one comparison in `words::pass_words`.)
pub fn pass_run(s: &[u8], at: usize, widths: &[u8]) -> Result<usize, Refused>
    ensures { result ≡ as_passed (decode (fixed widths.now) s.now at) }
{
    let next = xdr::read_run(s, at, widths)?;
    Ok(next)
}
