#![tactic(auto)]
// Numbers into a lent array: what a function for C and Rust answers beyond one number.
ghost use Rattle.std.specs.Prelude.{◌≡◌};
ghost use Rattle.xdr.specs.Writes.{afterwards};
ghost use Rattle.numbers.specs.Reports.{filled, filled_behind, tell, refusal_report};

use sflow::Refused;

// Puts numbers to the front of an array, as many as it has room for; what lies behind them stays.
pub fn fill(out: &mut [u64], xs: &[u64])
    ensures { out.new ≡ filled xs.now out.old }
{
    let n = xs.len().min(out.len());
    out[..n].copy_from_slice(&xs[..n]);
}

// Puts numbers behind the first n of an array, as many as it has room for; the others stay.
pub fn fill_behind(out: &mut [u64], n: usize, xs: &[u64])
    ensures { out.new ≡ filled_behind n xs.now out.old }
{
    if out.len() < n {
        return;
    }
    fill(&mut out[n..], xs);
}

// A refusal's number; the array takes its offset.
pub fn refuse(refused: Refused, out: &mut [u64]) -> u32
    ensures { afterwards result out.new ≡ tell (refusal_report refused.why refused.at) out.old }
{
    fill(out, &[refused.at as u64]);
    u32::from(refused.why)
}
