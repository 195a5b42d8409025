#![tactic(auto, using(std::proofs::lemmas::Bool::Decides::nat_tests), unfolding(rules::specs::Checks::known, rules::specs::Checks::form_of, rules::specs::Checks::alone_of, rules::specs::Checks::rest_of, rules::specs::Checks::check))]
// The check of a rule set (document 01, "Rule sets"): its length, then rules in number order, each from refusal 31 up; the first rule that breaks one is
// named.
ghost use Rattle.std.specs.Prelude.{◌≡◌, false, ◌&&◌, ◌||◌, ◌≤◌, eqb, ltb};
ghost use Rattle.rules.specs.Opcodes.{action_of, is_return, is_gosub, goto_flag};
ghost use Rattle.rules.specs.Records.{rule_count, rule_of, declared_of};
ghost use Rattle.rules.specs.Checks.{unless_broken, known, bad_opcode, form_of, differs, bad_target, alone_of, bad_queue, held_after, comes_back_nowhere, comes_back_otherwise, next_differs, target_differs, return_differs, rest_of, rule_check, first_broken, bad_length, check};

use rules::{
    Action, CheckRefusal, CheckRefused, Declared, MAX_CALLS, MAX_ITEMS, MAX_RULES, RECORD_SIZE,
    Rule, RuleRecord,
};

// ---- by a record alone

// The mark of a rule record, 52 75.
const MARK: u32 = 0x5275;

// The attributes that a rule may test.
const ATTRIBUTES: [u8; 11] = [0, 4, 8, 9, 11, 12, 14, 18, 19, 21, 22];

fn is_known(attribute: u8) -> bool
    ensures { result ≡ known attribute }
{
    ATTRIBUTES.contains(&attribute)
}

fn is_bad_opcode(opcode: u8) -> bool
    ensures { result ≡ bad_opcode opcode }
{
    matches!(opcode, 0 | 8 | 9) || 17 < opcode
}

// Refusals 31 to 33.
fn check_form(mark: u32, attribute: u8, opcode: u8) -> Result<(), CheckRefusal>
    ensures { result ≡ form_of mark attribute opcode }
{
    if mark != MARK {
        return Err(CheckRefusal::Mark);
    }
    if !is_known(attribute) {
        return Err(CheckRefusal::Attribute);
    }
    if is_bad_opcode(opcode) {
        return Err(CheckRefusal::Opcode);
    }
    Ok(())
}

fn is_return(action: Action) -> bool
    ensures { result ≡ is_return action }
{
    matches!(action, Action::Return)
}

fn is_gosub(action: Action) -> bool
    ensures { result ≡ is_gosub action }
{
    matches!(action, Action::Gosub(_))
}

// Whether an action goes to the rule that its parameter names.
fn has_goto_flag(action: Action) -> bool
    ensures { result ≡ goto_flag action }
{
    matches!(
        action,
        Action::Gosub(_)
            | Action::Goto(_)
            | Action::PushRule(_)
            | Action::PushPkt(_)
            | Action::PopTo(_)
    )
}

// Whether a rule declares otherwise than this.
fn declares_otherwise(declared: Declared, home: usize, depth: usize, held: usize) -> bool
    ensures { result ≡ differs declared home depth held }
{
    declared.home != home
        || usize::from(declared.depth) != depth
        || usize::from(declared.held) != held
}

fn is_over_limits(declared: Declared) -> bool
    ensures { result ≡ (ltb 4 declared.depth || ltb 16 declared.held) }
{
    MAX_CALLS < usize::from(declared.depth) || MAX_ITEMS < usize::from(declared.held)
}

// Whether this is rule 1 and it declares something.
fn is_bad_first(i: usize, declared: Declared) -> bool
    ensures { result ≡ (eqb i 1 && differs declared 0 0 0) }
{
    i == 1 && declares_otherwise(declared, 0, 0, 0)
}

fn is_return_in_main(action: Action, home: usize) -> bool
    ensures { result ≡ (is_return action && eqb home 0) }
{
    is_return(action) && home == 0
}

// Refusal 37 of rule i of n, but for the Gosubs of a Return.
fn is_bad_target(action: Action, n: usize, i: usize, parameter: usize) -> bool
    ensures { result ≡ bad_target action n i parameter }
{
    if has_goto_flag(action) {
        return parameter <= i || n < parameter;
    }
    is_return(action) && parameter == 0
}

// Refusals 34 to 37, but for the Gosubs of a Return.
fn check_alone(n: usize, i: usize, own: RuleRecord) -> Result<(), CheckRefusal>
    ensures { result ≡ alone_of n i own.rule own.declared }
{
    let action = rules::action_of(own.rule.opcode);
    if is_over_limits(own.declared) {
        return Err(CheckRefusal::Limits);
    }
    if is_bad_first(i, own.declared) {
        return Err(CheckRefusal::FirstRule);
    }
    if is_return_in_main(action, own.declared.home) {
        return Err(CheckRefusal::ReturnInMain);
    }
    if is_bad_target(action, n, i, own.rule.parameter) {
        return Err(CheckRefusal::Target);
    }
    Ok(())
}

// Refusals 31 to 37 of rule i of n, but for the Gosubs of a Return.
fn check_record(n: usize, i: usize, own: RuleRecord) -> Result<(), CheckRefusal>
    ensures { result ≡ unless_broken (form_of own.mark own.rule.attribute own.rule.opcode) (alone_of n i own.rule own.declared) }
{
    check_form(own.mark, own.rule.attribute, own.rule.opcode)?;
    check_alone(n, i, own)
}

// ---- by other rules as they stand

// Whether a rule is a Gosub aimed at a home.
fn is_aimed(gosub: Rule, home: usize) -> bool
    ensures { result ≡ (is_gosub (action_of gosub.opcode) && eqb gosub.parameter home) }
{
    is_gosub(rules::action_of(gosub.opcode)) && gosub.parameter == home
}

// Whether rule g of n is a Gosub aimed at a Return's home, and the Return comes back from it at no rule.
fn comes_back_nowhere(s: &[u8], n: usize, back: RuleRecord, g: usize) -> bool
    requires { g ≤ n }
    ensures { result ≡ comes_back_nowhere n (rule_of s.now) (declared_of s.now) back.declared.home back.rule.parameter g }
{
    let call = rules::record_at(s, g);
    is_aimed(call.rule, back.declared.home) && n - g < back.rule.parameter
}

// Whether rule g is a Gosub aimed at a Return's home, and the rule that the Return comes back to declares otherwise.
fn comes_back_otherwise(s: &[u8], back: RuleRecord, g: usize) -> bool
    requires { comes_back_nowhere (rule_count s.now) (rule_of s.now) (declared_of s.now) back.declared.home back.rule.parameter g ≡ false }
    ensures { result ≡ comes_back_otherwise (rule_count s.now) (rule_of s.now) (declared_of s.now)
        back.declared.home back.rule.parameter back.declared.held g }
{
    let call = rules::record_at(s, g);
    if !is_aimed(call.rule, back.declared.home) {
        return false;
    }
    let target = rules::record_at(s, g + back.rule.parameter);
    let here = call.declared;
    declares_otherwise(
        target.declared,
        here.home,
        usize::from(here.depth),
        usize::from(back.declared.held),
    )
}

fn is_bad_queue(action: Action, held: u8) -> bool
    ensures { result ≡ bad_queue action held }
{
    match action {
        Action::Count | Action::CountPkt | Action::PushRule(_) | Action::PushPkt(_) => {
            usize::from(held) == MAX_ITEMS
        }
        Action::PopTo(_) => held == 0,
        _ => false,
    }
}

// How many items are queued at an action's target.
fn held_after(action: Action, held: u8) -> usize
    requires { bad_queue action held ≡ false }
    ensures { result ≡ held_after action held }
{
    let items = usize::from(held);
    match action {
        Action::PushRule(_) | Action::PushPkt(_) => items + 1,
        Action::PopTo(_) => items - 1,
        _ => items,
    }
}

// Whether rule i of n can go to the next rule, and that declares otherwise.
fn next_differs(s: &[u8], n: usize, i: usize, own: RuleRecord) -> bool
    ensures { result ≡ next_differs n (rule_of s.now) (declared_of s.now) i own.rule own.declared }
{
    let rule = own.rule;
    if rule.mask == 0 && rule.value == 0 || n <= i {
        return false;
    }
    let next = rules::record_at(s, i + 1);
    let here = own.declared;
    declares_otherwise(
        next.declared,
        here.home,
        usize::from(here.depth),
        usize::from(here.held),
    )
}

// Whether a rule's action has a goto flag, and its target declares otherwise.
fn target_differs(s: &[u8], own: RuleRecord, action: Action) -> bool
    requires { (action ≡ action_of own.rule.opcode) × (bad_queue action own.declared.held ≡ false) }
    ensures { result ≡ target_differs (rule_count s.now) (rule_of s.now) (declared_of s.now) own.rule own.declared }
{
    if !has_goto_flag(action) {
        return false;
    }
    let parameter = own.rule.parameter;
    let here = own.declared;
    let depth = usize::from(here.depth);
    let target = rules::record_at(s, parameter);
    if is_gosub(action) {
        return declares_otherwise(
            target.declared,
            parameter,
            depth + 1,
            usize::from(here.held),
        );
    }
    declares_otherwise(
        target.declared,
        here.home,
        depth,
        held_after(action, here.held),
    )
}

// Refusals 38 and 39 of rule i of n, but for the Gosubs of a Return.
fn check_rest(
    s: &[u8],
    n: usize,
    i: usize,
    own: RuleRecord,
    action: Action,
) -> Result<(), CheckRefusal>
    requires own { action ≡ action_of own.rule.opcode }
    requires comes_back { return_differs n (rule_of s.now) (declared_of s.now) own.rule own.declared ≡ false }
    ensures { result ≡ rest_of n (rule_of s.now) (declared_of s.now) i own.rule own.declared }
{
    if is_bad_queue(action, own.declared.held) {
        return Err(CheckRefusal::Queue);
    }
    if target_differs(s, own, action) || next_differs(s, n, i, own) {
        return Err(CheckRefusal::Successor);
    }
    Ok(())
}

// ---- the rule set

fn is_bad_length(len: usize) -> bool
    ensures { result ≡ bad_length len }
{
    len == 0 || len % RECORD_SIZE != 0 || MAX_RULES * RECORD_SIZE < len
}

// Refusals 31 to 39: the first rule that breaks one. A Return is looked at with every Gosub for 37 before any for 39.
fn first_refusal(s: &[u8]) -> Result<(), CheckRefused>
    ensures { result ≡ first_broken (rule_check s.now) (rule_count s.now) }
{
    let n = rules::rule_count(s);
    // document 01 names this form: an outer loop with a label, left from the inner ones
    let mut found = Ok(());
    let mut rule = 0;
    'rules: for i in 1..n + 1 {
        rule = i;
        let own = rules::record_at(s, i);
        found = check_record(n, i, own);
        if found.is_err() {
            break 'rules;
        }
        let action = rules::action_of(own.rule.opcode);
        if is_return(action) {
            for g in 1..n + 1 {
                if comes_back_nowhere(s, n, own, g) {
                    found = Err(CheckRefusal::Target);
                    break 'rules;
                }
            }
            for h in 1..n + 1 {
                if comes_back_otherwise(s, own, h) {
                    found = Err(CheckRefusal::Successor);
                    break 'rules;
                }
            }
        }
        found = check_rest(s, n, i, own, action);
        if found.is_err() {
            break 'rules;
        }
    }
    found.map_err(|why| CheckRefused { why, rule })
}

// Whether a rule set is accepted, or else its first refusal and the rule that breaks it.
pub fn check(s: &[u8]) -> Result<(), CheckRefused>
    ensures { result ≡ check s.now }
{
    if is_bad_length(s.len()) {
        return Err(CheckRefused {
            why: CheckRefusal::Length,
            rule: 0,
        });
    }
    first_refusal(s)
}
