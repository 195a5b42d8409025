#![tactic(auto)]
// The check and the engine of rule sets as functions on numbers and slices. Crate export gives them to C and Rust.
ghost use Rattle.std.specs.Prelude.{◌≡◌, ◌++◌, length, Err};
ghost use Rattle.xdr.specs.Writes.{afterwards};
ghost use Rattle.rules.specs.Checks.{check};
ghost use Rattle.engine.specs.Results.{rule_named, engine_of};
ghost use Rattle.numbers.specs.Reports.{filled_behind, tell};
ghost use Rattle.rule_calls.specs.RuleSets.{check_report, engine_report};

use engine::{ATTRIBUTES, EngineRefusal, FlowKey};
use numbers::{fill, fill_behind};

// Checks a rule set. Answers 0 where it is accepted, else the refusal's number, 30 to 39; the array takes the number of the rule named, or 0.
pub fn check(rules: &[u8], out: &mut [u64]) -> u32
    ensures { afterwards result out.new ≡ tell (check_report (check rules.now)) out.old }
{
    match check_rules::check(rules) {
        Ok(()) => {
            fill(out, &[0]);
            0
        }
        Err(refused) => {
            fill(out, &[refused.rule as u64]);
            u32::from(refused.why)
        }
    }
}

// The rule that a refusal names, or 0.
fn rule_named(why: EngineRefusal) -> u64
    ensures { result ≡ rule_named (Err why) }
{
    match why {
        EngineRefusal::NotOneFlowSample => 0,
        EngineRefusal::RuleSet(refused) => refused.rule as u64,
    }
}

// Words as numbers of 64 bits.
fn widened(xs: [u32; ATTRIBUTES]) -> [u64; ATTRIBUTES]
    ensures { (result ≡ xs) × (length result ≡ 23) }
{
    // `xs.map(..)` builds its array in memory apart and took four times as many instructions
    let mut wide = [0; ATTRIBUTES];
    for i in 0..ATTRIBUTES {
        wide[i] = u64::from(xs[i]);
    }
    wide
}

// Puts a key's masks and then its values behind the first 2 numbers of an array.
fn fill_key(key: FlowKey, out: &mut [u64])
    ensures { out.new ≡ filled_behind 2 (key.masks ++ key.values) out.old }
{
    let front = widened(key.masks);
    let back = widened(key.values);
    fill_behind(out, 2, &front);
    fill_behind(out, 25, &back);
}

// Runs a rule set on a flow sample, both as octets. Answers 1 Ignore, 2 NoMatch, 3 Count, 4 CountPkt; or the check's refusal, 30 to 39; or 18 where
// the octets are not exactly one flow sample. The array takes 48 numbers:
//   0 the rule that a refusal names, or 0; 1 how many rules were come to; 2 to 24 the key's masks, at each attribute's number from 0 to 22;
//   25 to 47 its values.
pub fn run(rules: &[u8], sample: &[u8], out: &mut [u64]) -> u32
    ensures { afterwards result out.new ≡ tell (engine_report (engine_of rules.now sample.now)) out.old }
{
    let answer = engine::run(rules, sample);
    let number = engine::answer_number(&answer);
    match answer {
        Ok(ended) => {
            fill(out, &[0, ended.rules]);
            fill_key(ended.key, out);
        }
        Err(why) => {
            fill(out, &[rule_named(why), 0]);
            fill_behind(out, 2, &[0; 46]);
        }
    }
    number
}
