// Lists of entries that say themselves where the next one begins.
ghost use Rattle.std.specs.Prelude.{◌≡◌, ℕ, Result};
ghost use Rattle.sflow.specs.declared.Refused.{Refused};
ghost use Rattle.fields.specs.Parts.{pass_each};

use sflow::Refused;

// So many entries, each passed over by a function from its offset: the offset behind the last one, or the first refusal.
pub fn pass_entries<F: Fn(usize) -> Result<usize, Refused>>(
    first: usize,
    count: u32,
    pass: F,
) -> Result<usize, Refused>
    requires { F.IsAlwaysCallable pass }
    ensures { (entry : ℕ → Result ℕ Refused) → ((at : ℕ) (r : Result ℕ Refused) → F.post pass at r → r ≡ entry at) →
        result ≡ pass_each entry count first }
{
    let mut at = first;
    for _ in 0..count {
        at = pass(at)?;
    }
    Ok(at)
}
