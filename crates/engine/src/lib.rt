#![tactic(auto, using(std::proofs::lemmas::Bool::Decides::nat_tests, rules::proofs::Bits::masked_is), unfolding(rules::specs::Machine::passes, crate::specs::EngineStates::acted_of, crate::specs::EngineStates::failed_of, crate::specs::EngineStates::item_of, crate::specs::Results::put, crate::specs::Results::flow_in, crate::specs::Results::engine_of))]
// The engine: a rule set's octets and a flow sample's octets give the machine's answer, the flow key and the number of rules come to (document 01, "Rule
// sets"; RFC 2722, section 4.4).
ghost use Rattle.std.specs.Prelude.{◌≡◌, ◌+◌, ◌≤◌, ◌<◌, [], ◌∷◌, length, get_or, not, ◌&&◌, Ok, Err};
ghost use Rattle.packet.specs.Attributes.{attribute};
ghost use Rattle.rules.specs.declared.Action.TheVariants.{Return};
ghost use Rattle.rules.specs.Records.{rule_count, rule_of};
ghost use Rattle.rules.specs.Machine.{passes, step, after};
ghost use Rattle.rules.specs.Room.{Room};
ghost use Rattle.rules.specs.Checks.{accepted, check};
ghost use Rattle.rules.specs.Demand.{bound};
ghost use Rattle.engine.specs.EngineStates.{Live, initial_state, goes_of, ends_of, acted_of, failed_of, queues_packet, item_of, state_of, outcome_by, queued};
ghost use Rattle.engine.specs.Results.{engine_number, put, key_of, result_of, flow_in, of_sample, engine_of};
ghost use Rattle.engine.specs.declared.EngineRefusal.TheVariants.{RuleSet};

use packet::Attributes;
use reader::sample::{FlowSample, Sample, SampleValues};
use rules::{Action, CheckRefused, Item, MAX_CALLS, MAX_ITEMS, MachineAnswer, Rule};
use stack::Stack;

mod stack;

// The machine's state; its stacks hold rule numbers.
#[derive(Drop)]
struct EngineState {
    number: usize,
    testing: bool,
    calls: Stack<MAX_CALLS>,
    queue: Stack<MAX_ITEMS>,
    rules: u64,
}

// How many numbers there are from 0 to that of the last attribute.
pub const ATTRIBUTES: usize = 23;

// A mask and a value at each attribute's number: two arrays, as C gets them.
#[derive(Clone, Copy, Default)]
pub struct FlowKey {
    pub masks: [u32; ATTRIBUTES],
    pub values: [u32; ATTRIBUTES],
}

// What the machine ends with: its answer, the key, which is zero unless the answer is Count or CountPkt, and how many rules were come to.
#[derive(Clone, Copy)]
pub struct EngineResult {
    pub answer: MachineAnswer,
    pub key: FlowKey,
    pub rules: u64,
}

// Why there is no result.
#[derive(Clone, Copy)]
pub enum EngineRefusal {
    // the octets are not exactly one flow sample
    NotOneFlowSample,
    // the check refuses the rule set
    RuleSet(CheckRefused),
}

impl From<CheckRefused> for EngineRefusal {
    ghost from_gives = { λ refused why. why ≡ RuleSet refused };

    fn from(refused: CheckRefused) -> EngineRefusal {
        EngineRefusal::RuleSet(refused)
    }
}

// A refusal's number.
impl From<EngineRefusal> for u32 {
    ghost from_gives = { λ why number. number ≡ engine_number (Err why) };

    fn from(why: EngineRefusal) -> u32 {
        match why {
            EngineRefusal::NotOneFlowSample => 18,
            EngineRefusal::RuleSet(refused) => u32::from(refused.why),
        }
    }
}

// Document 01's number of an answer: 1 to 4, 18, or the check's.
// The C interface gives a number for `Ok` too, which a refusal's `From` could not.
pub fn answer_number(answer: &Result<EngineResult, EngineRefusal>) -> u32
    ensures { result ≡ engine_number answer.now }
{
    match *answer {
        Ok(ended) => u32::from(ended.answer),
        Err(why) => u32::from(why),
    }
}

// ---- steps of the state

impl EngineState {
    fn new() -> Self
        ensures { result ≡ initial_state }
    {
        EngineState {
            number: 1,
            testing: true,
            calls: Stack::new(),
            queue: Stack::new(),
            rules: 0,
        }
    }

    // Goes to a rule; the machine runs on.
    fn goes_to(&mut self, to: usize, testing: bool) -> Option<MachineAnswer>
        ensures { (result, self.new) ≡ goes_of self.old to testing }
    {
        self.number = to;
        self.testing = testing;
        None
    }

    // The machine ends with nothing queued.
    fn ends_empty(&mut self, answer: MachineAnswer) -> Option<MachineAnswer>
        ensures { (result, self.new) ≡ ends_of answer self.old [] }
    {
        self.queue.clear();
        Some(answer)
    }

    // The machine ends with the present rule's item queued behind the others.
    fn ends_queuing(&mut self, answer: MachineAnswer) -> Option<MachineAnswer>
        requires { length self.old.queue < MAX_ITEMS }
        ensures { (result, self.new) ≡ ends_of answer self.old (self.old.number ∷ self.old.queue) }
    {
        self.queue.push(self.number);
        Some(answer)
    }

    // What an action makes of the state, and the answer that the machine ends with, if it does.
    fn acts(&mut self, a: Action, parameter: usize) -> Option<MachineAnswer>
        requires room { Room a (length self.old.calls) (length self.old.queue) }
        requires back { a ≡ Return → get_or self.old.calls 0 0 + parameter ≤ 255 }
        ensures { (result, self.new) ≡ acted_of a parameter self.old }
    {
        match a {
            Action::Unknown => None,
            Action::Ignore => self.ends_empty(MachineAnswer::Ignore),
            Action::NoMatch => self.ends_empty(MachineAnswer::NoMatch),
            Action::Count => self.ends_queuing(MachineAnswer::Count),
            Action::CountPkt => self.ends_queuing(MachineAnswer::CountPkt),
            Action::Return => {
                let gosub = self.calls.pop();
                self.goes_to(gosub + parameter, false)
            }
            Action::Gosub(t) => {
                self.calls.push(self.number);
                self.goes_to(parameter, t)
            }
            Action::Goto(t) => self.goes_to(parameter, t),
            Action::PushRule(t) | Action::PushPkt(t) => {
                self.queue.push(self.number);
                self.goes_to(parameter, t)
            }
            Action::PopTo(t) => {
                self.queue.pop();
                self.goes_to(parameter, t)
            }
        }
    }

    // What a failed test makes of it: it goes to the next rule, or ends in NoMatch after the last.
    fn fails(&mut self, n: usize) -> Option<MachineAnswer>
        ensures { (result, self.new) ≡ failed_of n self.old }
    {
        if self.number < n {
            return self.goes_to(self.number + 1, true);
        }
        self.queue.clear();
        Some(MachineAnswer::NoMatch)
    }
}

// ---- the machine

// The test of a rule at its attribute's value; a test of Null always succeeds.
fn rule_passes(r: Rule, v: u32) -> bool
    ensures { result ≡ passes r v }
{
    r.attribute == 0 || v & r.mask == r.value
}

// Whether the test indicator is on and the test fails.
fn test_fails(testing: bool, r: Rule, v: u32) -> bool
    ensures { result ≡ (testing && not (passes r v)) }
{
    testing && !rule_passes(r, v)
}

// One step of the machine; answers what it ends with, if it does.
fn step_once(s: &[u8], n: usize, a: Attributes, m: &mut EngineState) -> Option<MachineAnswer>
    requires { Live n (rule_of s.now) m.old }
    ensures { outcome_by (rule_of s.now) (attribute a) (result, m.new)
        ≡ step n (rule_of s.now) (attribute a) (state_of (rule_of s.now) (attribute a) m.old) }
{
    let r = rules::record_at(s, m.number).rule;
    m.rules += 1;
    if test_fails(m.testing, r, packet::attribute(a, r.attribute)) {
        return m.fails(n);
    }
    m.acts(rules::action_of(r.opcode), r.parameter)
}

// ---- the flow key

// Whether an action queues the packet's masked value.
fn queues_packet(a: Action) -> bool
    ensures { result ≡ queues_packet a }
{
    matches!(a, Action::CountPkt | Action::PushPkt(_))
}

// The item that a rule queues.
fn item_of(s: &[u8], a: Attributes, i: usize) -> Item
    ensures { result ≡ item_of (rule_of s.now) (attribute a) i }
{
    let r = rules::record_at(s, i).rule;
    let value = if queues_packet(rules::action_of(r.opcode)) {
        packet::attribute(a, r.attribute) & r.mask
    } else {
        r.value
    };
    Item {
        attribute: r.attribute,
        mask: r.mask,
        value,
    }
}

impl FlowKey {
    // Puts an item's mask and value at its attribute; a Null item changes nothing.
    fn put(&mut self, x: Item)
        ensures { self.new ≡ put self.old x }
    {
        let a = usize::from(x.attribute);
        if a == 0 || ATTRIBUTES <= a {
            return;
        }
        self.masks[a] = x.mask;
        self.values[a] = x.value;
    }
}

// The key of the queued items, the oldest first.
fn key_of(s: &[u8], a: Attributes, queue: &Stack<MAX_ITEMS>) -> FlowKey
    ensures { result ≡ key_of (queued (rule_of s.now) (attribute a) queue.now) }
{
    let mut key = FlowKey::default();
    let items = queue.oldest_first();
    for &i in items {
        key.put(item_of(s, a, i));
    }
    key
}

// ---- the result

// The machine to its end, over a rule set that the check accepts.
fn run_machine(s: &[u8], a: Attributes) -> EngineResult
    requires { check s.now ≡ accepted }
    ensures { Ok result ≡ result_of (after (rule_count s.now) (rule_of s.now) (attribute a) (bound (rule_count s.now))) }
{
    let n = rules::rule_count(s);
    let mut m = EngineState::new();
    loop {
        if let Some(answer) = step_once(s, n, a, &mut m) {
            let key = key_of(s, a, &m.queue);
            return EngineResult {
                answer,
                key,
                rules: m.rules,
            };
        }
    }
}

// An accepted rule set on octets that should be exactly one flow sample.
fn run_accepted(s: &[u8], x: &[u8]) -> Result<EngineResult, EngineRefusal>
    requires { check s.now ≡ accepted }
    ensures { result ≡ of_sample s.now x.now (flow_in x.now) }
{
    let (found, end) = reader::sample::read_sample(x, 0).map_err(
        |_| EngineRefusal::NotOneFlowSample,
    )?;
    if end != x.len() {
        return Err(EngineRefusal::NotOneFlowSample);
    }
    let SampleValues::Flow(f) = found.values else {
        return Err(EngineRefusal::NotOneFlowSample);
    };
    Ok(run_machine(s, packet::attributes_of(x, f)))
}

// A rule set on a flow sample, both as octets: the check's refusal first, then 18, then the machine's answer.
pub fn run(s: &[u8], x: &[u8]) -> Result<EngineResult, EngineRefusal>
    ensures { result ≡ engine_of s.now x.now }
{
    check_rules::check(s)?;
    run_accepted(s, x)
}
