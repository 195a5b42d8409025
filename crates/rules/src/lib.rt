#![tactic(auto)]
// Rule sets of RTFM meters (RFC 2722, section 4; document 01, "Rule sets"): rule records and what opcodes do. The machine, the check of a rule set
// and what is proved of them are in specs/ and proofs/.
ghost use Rattle.std.specs.Prelude.{◌≡◌, true, ◌+◌, ◌*◌, ◌≤◌, length};
ghost use Rattle.xdr.specs.Items.{numbers_at};
ghost use Rattle.rules.specs.Opcodes.{action_of, machine_number, sets, flags_of};
ghost use Rattle.rules.specs.Records.{record_widths, rule_in, declared_in, no_record, rule_count, record_of};
ghost use Rattle.rules.specs.Checks.{check_number};

// The octets of a rule record.
pub const RECORD_SIZE: usize = 16;

// What a rule set is limited to: its rules, the calls open at a time, the items queued at a time.
pub const MAX_RULES: usize = 255;

pub const MAX_CALLS: usize = 4;

pub const MAX_ITEMS: usize = 16;

// A rule as the machine is fed it.
#[derive(Clone, Copy, Default)]
pub struct Rule {
    pub attribute: u8,
    pub opcode: u8,
    pub mask: u32,
    pub value: u32,
    pub parameter: usize,
}

// What a rule declares of its arrival, in document 01's terms: home is 0 for the main part, else the number of its subroutine's first rule; depth
// counts the open calls, held the queued items.
#[derive(Clone, Copy, Default)]
pub struct Declared {
    pub home: usize,
    pub depth: u8,
    pub held: u8,
}

#[derive(Clone, Copy, Default)]
pub struct RuleRecord {
    pub mark: u32,
    pub rule: Rule,
    pub declared: Declared,
}

// An item of the pattern queue.
#[derive(Clone, Copy)]
pub struct Item {
    pub attribute: u8,
    pub mask: u32,
    pub value: u32,
}

// What an opcode does; the bool of those that go to their parameter is the test flag.
#[derive(Clone, Copy)]
pub enum Action {
    Unknown,
    Ignore,
    NoMatch,
    Count,
    CountPkt,
    Return,
    Gosub(bool),
    Goto(bool),
    PushRule(bool),
    PushPkt(bool),
    PopTo(bool),
}

// What the machine ends in: the name of an opcode from 1 to 4.
#[derive(Clone, Copy)]
pub enum MachineAnswer {
    Ignore,
    NoMatch,
    Count,
    CountPkt,
}

// Why a rule set is refused.
#[derive(Clone, Copy)]
pub enum CheckRefusal {
    // no rule, a part of a record, or over 255 rules
    Length,
    Mark,
    Attribute,
    Opcode,
    // depth over 4 or held over 16
    Limits,
    // rule 1 declares something
    FirstRule,
    // a Return outside of subroutines
    ReturnInMain,
    // a rule that does not exist or does not lie ahead
    Target,
    // an item taken from an empty queue or put to a full one
    Queue,
    // a successor declares otherwise
    Successor,
}

// A refusal, and the rule that it names; 0 with a wrong length.
#[derive(Clone, Copy)]
pub struct CheckRefused {
    pub why: CheckRefusal,
    pub rule: usize,
}

// Document 01's number of a refusal.
impl From<CheckRefusal> for u32 {
    ghost from_gives = { λ why number. number ≡ check_number why };

    fn from(why: CheckRefusal) -> u32 {
        match why {
            CheckRefusal::Length => 30,
            CheckRefusal::Mark => 31,
            CheckRefusal::Attribute => 32,
            CheckRefusal::Opcode => 33,
            CheckRefusal::Limits => 34,
            CheckRefusal::FirstRule => 35,
            CheckRefusal::ReturnInMain => 36,
            CheckRefusal::Target => 37,
            CheckRefusal::Queue => 38,
            CheckRefusal::Successor => 39,
        }
    }
}

// Document 01's number of an answer: its opcode's.
impl From<MachineAnswer> for u32 {
    ghost from_gives = { λ answer number. number ≡ machine_number answer };

    fn from(answer: MachineAnswer) -> u32 {
        match answer {
            MachineAnswer::Ignore => 1,
            MachineAnswer::NoMatch => 2,
            MachineAnswer::Count => 3,
            MachineAnswer::CountPkt => 4,
        }
    }
}

// Whether an opcode's goto flag is set: always, from 6 up to the last, 17.
#[tactic(auto, using(std::proofs::lemmas::Bool::Decides::nat_tests, crate::proofs::Flags::goto_exactly))]
fn goto_flag(opcode: u8) -> bool
    ensures { result ≡ (flags_of opcode).goto }
{
    6 <= opcode && opcode <= 17
}

// The test flag of an opcode whose goto flag is set: on exactly for even numbers.
fn test_flag(opcode: u8) -> bool
    requires { (flags_of opcode).goto ≡ true }
    ensures { (flags_of opcode).test ≡ sets result }
{
    opcode % 2 == 0
}

// What an opcode does.
pub fn action_of(opcode: u8) -> Action
    ensures { result ≡ action_of opcode }
{
    if goto_flag(opcode) {
        let test = test_flag(opcode);
        return match opcode {
            6 | 7 => Action::Gosub(test),
            12 | 13 => Action::PushRule(test),
            14 | 15 => Action::PushPkt(test),
            16 | 17 => Action::PopTo(test),
            // a Goto, or an Assign, which only goes to its parameter
            _ => Action::Goto(test),
        };
    }
    match opcode {
        1 => Action::Ignore,
        2 => Action::NoMatch,
        3 => Action::Count,
        4 => Action::CountPkt,
        5 => Action::Return,
        _ => Action::Unknown,
    }
}

// What stands for a record that is not there.
fn no_record() -> RuleRecord
    ensures { result ≡ no_record }
{
    RuleRecord::default()
}

// What the machine is fed of the record at an offset.
fn rule_in(s: &[u8], at: usize) -> Rule
    requires { at + 16 ≤ length s.now }
    ensures { result ≡ rule_in (numbers_at s.now at record_widths) }
{
    Rule {
        attribute: s[at + 2],
        opcode: s[at + 3],
        mask: xdr::word_of(s[at + 4], s[at + 5], s[at + 6], s[at + 7]),
        value: xdr::word_of(s[at + 8], s[at + 9], s[at + 10], s[at + 11]),
        parameter: usize::from(s[at + 12]),
    }
}

// What the record at an offset declares.
fn declared_in(s: &[u8], at: usize) -> Declared
    requires { at + 16 ≤ length s.now }
    ensures { result ≡ declared_in (numbers_at s.now at record_widths) }
{
    Declared {
        home: usize::from(s[at + 13]),
        depth: s[at + 14],
        held: s[at + 15],
    }
}

// How many rules there are in octets.
pub fn rule_count(s: &[u8]) -> usize
    ensures { result ≡ rule_count s.now }
{
    s.len() / RECORD_SIZE
}

// Record i of a rule set, the first being 1; what stands for it where there is none.
pub fn record_at(s: &[u8], i: usize) -> RuleRecord
    ensures { result ≡ record_of s.now i }
{
    if i < 1 || rule_count(s) < i {
        return no_record();
    }
    let at = RECORD_SIZE * (i - 1);
    let mark = xdr::pair_of(s[at], s[at + 1]);
    let rule = rule_in(s, at);
    let declared = declared_in(s, at);
    RuleRecord {
        mark,
        rule,
        declared,
    }
}
