// Reads rule sets from standard input, each behind its length in four octets, and writes for each that it is accepted, or the number of its refusal
// and the rule named. The rule sets and the expected text come from the second program in conformance/.
#![tactic(auto)]

use std::io;
use std::io::Write;

fn rule_set<W: Write>(out: &mut W, s: &[u8]) -> io::Result<()> {
    match check_rules::check(s) {
        Ok(()) => vector_io::line(out, b"accepted", &[]),
        Err(refused) => vector_io::refused(out, u32::from(refused.why), refused.rule),
    }
}

fn main(rt: HostRuntime) -> io::Result<()> {
    let mut input = rt.stdin();
    let mut out = rt.stdout();
    vector_io::each_record(&mut input, &mut out, rule_set)
}
