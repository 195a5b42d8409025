// Reads pairs of a rule set and a sample from standard input, each behind its length in four octets, and writes what the engine says of each pair:
// the answer, the number of rules come to and the flow key, or the number of its refusal and the rule named. The pairs and the expected text come from
// the second program in conformance/.
#![tactic(auto)]

use engine::{EngineRefusal, FlowKey};
use std::io;
use std::io::{Read, Write};

// Whether a number is an attribute's.
fn known(attribute: usize) -> bool {
    matches!(attribute, 4 | 8 | 9 | 11 | 12 | 14 | 18 | 19 | 21 | 22)
}

// The mask and the value of each attribute.
fn key<W: Write>(out: &mut W, k: FlowKey) -> io::Result<()> {
    for (i, (mask, value)) in k.masks.iter().zip(&k.values).enumerate() {
        if known(i) {
            vector_io::show(out, b"", &[u64::from(*mask), u64::from(*value)])?;
        }
    }
    vector_io::line(out, b"", &[])
}

fn pair<W: Write>(out: &mut W, s: &[u8], x: &[u8]) -> io::Result<()> {
    let answer = engine::run(s, x);
    let number = engine::answer_number(&answer);
    match answer {
        Ok(ended) => {
            vector_io::show(out, b"answer", &[u64::from(number)])?;
            vector_io::show(out, b" rules", &[ended.rules])?;
            vector_io::show(out, b" key", &[])?;
            key(out, ended.key)
        }
        Err(EngineRefusal::NotOneFlowSample) => vector_io::refused(out, number, 0),
        Err(EngineRefusal::RuleSet(refused)) => vector_io::refused(out, number, refused.rule),
    }
}

// Reads one pair and answers whether there was one.
fn turn<R: Read, W: Write>(input: &mut R, out: &mut W) -> io::Result<bool> {
    let mut rules = vector_io::room();
    let mut sample = vector_io::room();
    let Some(n) = vector_io::read_record(input, &mut rules) else {
        return Ok(false);
    };
    let Some(m) = vector_io::read_record(input, &mut sample) else {
        return Ok(false);
    };
    pair(
        out,
        vector_io::part(&rules, 0, n),
        vector_io::part(&sample, 0, m),
    )?;
    Ok(true)
}

fn main(rt: HostRuntime) -> io::Result<()> {
    let mut input = rt.stdin();
    let mut out = rt.stdout();
    for _ in 0..u64::MAX {
        if !turn(&mut input, &mut out)? {
            return Ok(());
        }
    }
    Ok(())
}
