// Why a subject gets what it gets of a kind: the rule that gave it, and the advertisement that decides or holds the value.
// Any bytes, any subject and any code are taken; every refusal is a question's own.

#![tactic(auto)]

ghost use Rattle.std.specs.Prelude.{◌≡◌, true, false, List, [], ℕ, Ok};
ghost use Rattle.linkstate.specs.Replies.{accepted, run_b};
ghost use Rattle.linkstate.specs.Elements.{elements, faults};
ghost use Rattle.linkstate.specs.Kinds.{is_code};
ghost use Rattle.linkstate.specs.Questions.{number_too_high};
ghost use Rattle.linkstate.specs.BgpLs.{run_side};
ghost use Rattle.linkstate.specs.Why.{because, first, holder, legacy_why, carried_why};
ghost use Rattle.linkstate.specs.RunWhy.{top_why, run_why};
ghost use Rattle.isis.specs.RunB.{check_b, side_b};
ghost use Rattle.isis.specs.Why.{link_why};
ghost use Rattle.replies.specs.Told.{told_holder, told_rule, told_why, subject_of};
ghost use Rattle.rules.specs.Names.{TellsSide};
ghost use Rattle.linkstate.specs.Sides.{named, named_with_l};
ghost use Rattle.rules.specs.Rules.{application_rule, subject_rule};
ghost use Rattle.isis_link.specs.Asked.{AskedInA};
ghost use Rattle.advertisements.specs.Tests.{passing};
ghost use Rattle.advertisements.specs.Walks.{held};
ghost use Rattle.why.specs.Runs.{standing, Ready, IsType, with_kind, number_of, is_rsvp_te, link_answer, run_answer};
ghost use Rattle.why.specs.Rules.{general_rule, naming_why, naming_first_why, legacy_first_why, why_by, bandwidth_by};

use advertisements::{Test, first_such};
use bgpls_check::AcceptedRun;
use replies::{Holder, Place, Refusal, Rule, Run, Subject, Why};
use rules::SideNames;

// ---- the advertisement

// The type of a code in the lists of a run.
fn type_in(s: &[u8], run: Run, code: usize) -> usize
    requires { Ready run s.now code }
    ensures { IsType run result code }
{
    match run {
        Run::A => usize::from(isis_grids::type_of(code)),
        Run::B | Run::C | Run::BgpLs => code,
    }
}

// The first advertisement that passes and has a value of the kind.
fn first_with(s: &[u8], run: Run, test: Test, code: usize) -> Option<Place>
    requires { Ready run s.now code }
    ensures { held result ≡ first (standing run s.now) (with_kind test code) }
{
    first_such(s, run, test, Some(type_in(s, run, code)))
}

// Of those that pass, the one that holds the value; of SRLG the first, if they have a number.
fn holder_of(s: &[u8], run: Run, test: Test, code: usize) -> Option<Place>
    requires { Ready run s.now code }
    ensures { held result ≡ holder (standing run s.now) code (passing test) }
{
    let place = first_with(s, run, test, code)?;
    if code == 1096 {
        return first_such(s, run, test, None);
    }
    Some(place)
}

// ---- the rules

// By a rule, with the advertisement that was found.
fn because(rule: Rule, found: Option<Place>) -> Why
    ensures { told_why (Ok result) ≡ because (told_rule rule) (held found) }
{
    let holder = match found {
        Some(place) => Holder::At(place),
        None => Holder::Nowhere,
    };
    Why { rule, holder }
}

// The run of the legacy values of a run's side.
fn legacy_why(run: Run) -> Why
    ensures { (s : List ℕ) → told_why (Ok result) ≡ legacy_why (standing run s) }
{
    let legacy = match run {
        Run::A => Run::A,
        Run::B => Run::C,
        Run::C => Run::C,
        Run::BgpLs => Run::BgpLs,
    };
    Why {
        rule: Rule::Legacy,
        holder: Holder::Legacy(legacy),
    }
}

// The number of an application among both kinds; the general set has none.
#[tactic(auto, unfolding(crate::specs::Runs::number_of, linkstate::specs::Masks::user))]
fn number_of(whom: Subject) -> u32
    requires { number_too_high (subject_of whom) ≡ false }
    ensures { result ≡ number_of (subject_of whom) }
{
    match whom {
        Subject::General => 0,
        Subject::Standard(n) => n,
        Subject::User(n) => 64 + n,
    }
}

// The rule that is told where the general ones count.
#[tactic(auto, unfolding(crate::specs::Rules::general_rule))]
fn general_rule(whom: Subject) -> Rule
    ensures { told_rule result ≡ general_rule (subject_of whom) }
{
    match whom {
        Subject::General => Rule::General,
        Subject::Standard(_) | Subject::User(_) => Rule::Unnamed,
    }
}

// Those that name an application: the one that holds the value, else the first.
fn naming_why(s: &[u8], run: Run, n: u32, code: usize) -> Why
    requires { Ready run s.now code }
    ensures { told_why (Ok result) ≡ naming_why n code (standing run s.now) }
{
    let test = Test::Names(n);
    let found = holder_of(s, run, test, code).or_else(|| first_such(s, run, test, None));
    because(Rule::Named, found)
}

// Those that name RSVP-TE, where they have the kind, else legacy.
fn naming_first_why(s: &[u8], run: Run, code: usize) -> Why
    requires { Ready run s.now code }
    ensures { told_why (Ok result) ≡ naming_first_why code (standing run s.now) }
{
    let Some(place) = holder_of(s, run, Test::Names(0), code) else {
        return legacy_why(run);
    };
    because(Rule::Named, Some(place))
}

// By the rule of a subject: for an L-flag the first that names it so, else the one that holds the value.
fn why_by(s: &[u8], run: Run, rule: rules::Rule, whom: Subject, code: usize) -> Why
    requires { Ready run s.now code × (number_too_high (subject_of whom) ≡ false) }
    ensures { told_why (Ok result) ≡ why_by rule (subject_of whom) code (standing run s.now) }
{
    match rule {
        rules::Rule::ByL => because(
            Rule::ByL,
            first_such(s, run, Test::WithL(number_of(whom)), None),
        ),
        rules::Rule::Naming(n) => naming_why(s, run, n, code),
        rules::Rule::General => because(general_rule(whom), holder_of(s, run, Test::General, code)),
        rules::Rule::NamingFirst => naming_first_why(s, run, code),
        _ => legacy_why(run),
    }
}

// What the top level of a BGP-LS run gives.
#[tactic(auto, unfolding(linkstate::specs::RunWhy::top_why))]
fn top_why() -> Why
    ensures { told_why (Ok result) ≡ top_why }
{
    Why {
        rule: Rule::Top,
        holder: Holder::Nowhere,
    }
}

// A bandwidth that an ASLA which passes gives, else legacy.
fn carried_why(a: &[u8], test: Test, code: usize) -> Why
    requires { Ready Run.A a.now code }
    ensures { told_why (Ok result) ≡ carried_why code (passing test) (standing Run.A a.now) }
{
    let Some(place) = holder_of(a, Run::A, test, code) else {
        return legacy_why(Run::A);
    };
    because(Rule::Carried, Some(place))
}

// Legacy, if it has the kind, else an ASLA without L that has it.
fn legacy_first_why(a: &[u8], code: usize) -> Why
    requires { Ready Run.A a.now code }
    ensures { told_why (Ok result) ≡ legacy_first_why code (standing Run.A a.now) }
{
    if advertisements::has_kind(a, Run::A, type_in(a, Run::A, code)) {
        return legacy_why(Run::A);
    }
    carried_why(a, Test::WithoutL, code)
}

// By the rule of a bandwidth of the link; an L-flag is not told.
fn bandwidth_why(a: &[u8], rule: rules::Rule, code: usize) -> Why
    requires { Ready Run.A a.now code }
    ensures { told_why (Ok result) ≡ bandwidth_by rule code (standing Run.A a.now) }
{
    match rule {
        rules::Rule::LegacyFirst => legacy_first_why(a, code),
        rules::Rule::AloneFirst => carried_why(a, Test::RsvpTeAlone, code),
        _ => legacy_why(Run::A),
    }
}

// ---- the entries

// A subject's kind on side A, by what the rule asks of it.
fn why_in_a(a: &[u8], whom: Subject, code: usize, side: SideNames) -> Why
    requires { AskedInA a.now (subject_of whom) code side }
    ensures { (b c : List ℕ) → told_why (Ok result) ≡ link_answer a.now b c (subject_of whom) code }
{
    let rule = rules::decide(whom, code, side);
    if answering::is_link_code(code) {
        return bandwidth_why(a, rule, code);
    }
    why_by(a, Run::A, rule, whom, code)
}

// SRLG, by what the rule asks of side B.
fn why_in_b(b: &[u8], whom: Subject, side: SideNames) -> Why
    requires { (faults run_b check_b (elements 1 0 b.now) ≡ accepted) × (number_too_high (subject_of whom) ≡ false) }
    ensures { (a c : List ℕ) → TellsSide (side_b b.now c) side → told_why (Ok result) ≡ link_answer a b.now c (subject_of whom) 1096 }
{
    why_by(b, Run::B, rules::decide(whom, 1096, side), whom, 1096)
}

// Why a link gives a subject what it gives of a kind.
pub fn link_why(a: &[u8], b: &[u8], c: &[u8], whom: Subject, code: usize) -> Result<Why, Refusal>
    ensures { told_why result ≡ link_why a.now b.now c.now (subject_of whom) code }
{
    let sides = isis_link::check_asked(a, b, c, whom, code)?;
    if code == 1096 {
        return Ok(why_in_b(b, whom, sides.b));
    }
    Ok(why_in_a(a, whom, code, sides.a))
}

// The rule of an application, and of a subject other than RSVP-TE, in a BGP-LS run, where nothing has L.
fn named_rule(run: AcceptedRun<'_>, n: u32) -> rules::Rule
    ensures { result ≡ application_rule n (named_with_l n (run_side run.entry.bytes.now)) (named n (run_side run.entry.bytes.now)) }
{
    if first_such(run.bytes, Run::BgpLs, Test::Names(n), None).is_some() {
        return rules::Rule::Naming(n);
    }
    rules::Rule::General
}

fn run_rule(run: AcceptedRun<'_>, whom: Subject) -> rules::Rule
    requires { (number_too_high (subject_of whom) ≡ false) × (is_rsvp_te (subject_of whom) ≡ false) }
    ensures { result ≡ subject_rule (subject_of whom) (run_side run.entry.bytes.now) }
{
    match whom {
        Subject::General => rules::Rule::General,
        Subject::Standard(n) => named_rule(run, n),
        Subject::User(n) => named_rule(run, 64 + n),
    }
}

#[tactic(auto, unfolding(crate::specs::Runs::is_rsvp_te))]
fn is_rsvp_te(whom: Subject) -> bool
    ensures { result ≡ is_rsvp_te (subject_of whom) }
{
    matches!(whom, Subject::Standard(0))
}

fn why_of_run(run: AcceptedRun<'_>, whom: Subject, code: usize) -> Why
    requires { (number_too_high (subject_of whom) ≡ false) × (is_code code ≡ true) }
    ensures { told_why (Ok result) ≡ run_answer run.entry.bytes.now (subject_of whom) code }
{
    if answering::is_link_code(code) || is_rsvp_te(whom) {
        return top_why();
    }
    why_by(run.bytes, Run::BgpLs, run_rule(run, whom), whom, code)
}

// Why a BGP-LS run gives a subject what it gives of a kind.
pub fn run_why(r: &[u8], whom: Subject, code: usize) -> Result<Why, Refusal>
    ensures { told_why result ≡ run_why r.now (subject_of whom) code }
{
    let run = bgpls_reader::check_asked(r, whom, code)?;
    Ok(why_of_run(run, whom, code))
}
