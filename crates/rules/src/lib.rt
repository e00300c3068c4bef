// By which rule a subject gets a kind, from whom a side names, whom it names with L (document 01, "Who gets what"), and whether its legacy attributes have a
// value for RSVP-TE (document 02, E2). No byte of any format is read here.

#![tactic(auto)]

ghost use Rattle.std.specs.Prelude.{◌≡◌, [], ◌∷◌, ◌+◌, ◌≤◌, ◌<◌, length, false};
ghost use Rattle.linkstate.specs.Sides.{Side, has_legacy};
ghost use Rattle.replies.specs.Told.{subject_of};
ghost use Rattle.rules.specs.Names.{advertised_at, Tells, Adds, Joins};
ghost use Rattle.masks.specs.Applications.{in_set};
ghost use Rattle.rules.specs.declared.Names.{Names};
ghost use Rattle.linkstate.specs.Questions.{number_too_high};
ghost use Rattle.rules.specs.Rules.{application_rule, rsvp_te_rule, bandwidth_rule, subject_rule, rule_on, taken_by, given_on};

use masks::Applications;
use replies::Subject;

// The applications that are named, and those that are named with L.
#[derive(Clone, Copy)]
pub struct Names {
    pub named: Applications,
    pub flagged: Applications,
}

// What the rule asks of a side: whom it names, and whether its legacy attributes have a value of the kinds of applications.
#[derive(Clone, Copy)]
pub struct SideNames {
    pub names: Names,
    pub legacy: bool,
}

impl Names {
    pub fn nobody() -> Names
        ensures { Tells [] result }
    {
        let named = masks::nobody();
        Names {
            named,
            flagged: named,
        }
    }

    // Whom either names.
    pub fn both(self, other: Names) -> Names
        ensures { Joins self other result }
    {
        let named = masks::join(self.named, other.named);
        let flagged = masks::join(self.flagged, other.flagged);
        Names { named, flagged }
    }

    // The names with those of an advertisement: its L-flag, and its masks, of so many bytes, that stand at a place of the run.
    pub fn with_advertisement(
        self,
        l: bool,
        standard: usize,
        user: usize,
        s: &[u8],
        at: usize,
    ) -> Names
        requires { (standard ≤ 8) × (user ≤ 8) × (at + standard + user ≤ length s.now) × (length s.now < 4294967296) }
        ensures { Adds self (advertised_at l standard user s.now at ∷ []) result }
    {
        let m = masks::with_masks(masks::nobody(), s, at, standard, user);
        let named = masks::join(self.named, m);
        if l {
            let flagged = masks::join(self.flagged, m);
            return Names { named, flagged };
        }
        let flagged = self.flagged;
        Names { named, flagged }
    }

    // Whether application n is named, and whether it is so with L.
    pub fn is_named(self, n: u32) -> bool
        requires { n < 128 }
        ensures { result ≡ in_set self.named n }
    {
        masks::is_in(self.named, n)
    }

    pub fn is_named_with_l(self, n: u32) -> bool
        requires { n < 128 }
        ensures { result ≡ in_set self.flagged n }
    {
        masks::is_in(self.flagged, n)
    }
}

// Where a value is looked for.
#[derive(Clone, Copy)]
pub enum Rule {
    // legacy, since an advertisement names the application with L
    ByL,
    // those that name the application of this number
    Naming(u32),
    // the general ones
    General,
    // legacy
    Legacy,
    // those that name RSVP-TE, where they have a value, else legacy
    NamingFirst,
    // those that name RSVP-TE alone, then legacy
    AloneFirst,
    // legacy, then all without L
    LegacyFirst,
}

// Application n, which is not RSVP-TE.
fn application_rule(n: u32, l: bool, named: bool) -> Rule
    ensures { result ≡ application_rule n l named }
{
    if l {
        return Rule::ByL;
    }
    if named {
        return Rule::Naming(n);
    }
    Rule::General
}

// RSVP-TE, by whether it is named with L and named, and whether legacy has a value of the kinds of applications: it takes the general ones only where there is
// nothing else.
pub fn rsvp_te_rule(l: bool, named: bool, legacy: bool) -> Rule
    ensures { result ≡ rsvp_te_rule l named legacy }
{
    if l {
        return Rule::ByL;
    }
    if named {
        return Rule::NamingFirst;
    }
    if legacy {
        return Rule::Legacy;
    }
    Rule::General
}

// A bandwidth of the link, by how RSVP-TE is named.
fn bandwidth_rule(code: usize, l: bool, named: bool) -> Rule
    ensures { result ≡ bandwidth_rule code l named }
{
    if code == 1089 {
        return Rule::LegacyFirst;
    }
    if l {
        return Rule::ByL;
    }
    if named {
        return Rule::AloneFirst;
    }
    Rule::Legacy
}

// A subject, for a kind that is no bandwidth of the link.
fn subject_rule(whom: Subject, side: SideNames) -> Rule
    requires { number_too_high (subject_of whom) ≡ false }
    ensures { (s : Side) → Tells s.live side.names → side.legacy ≡ has_legacy s → result ≡ subject_rule (subject_of whom) s }
{
    let names = side.names;
    match whom {
        Subject::General => Rule::General,
        Subject::Standard(n) => {
            let l = names.is_named_with_l(n);
            let named = names.is_named(n);
            if n == 0 {
                return rsvp_te_rule(l, named, side.legacy);
            }
            return application_rule(n, l, named);
        }
        Subject::User(n) => {
            let k = 64 + n;
            let l = names.is_named_with_l(k);
            let named = names.is_named(k);
            return application_rule(k, l, named);
        }
    }
}

// The rule by which a subject gets a kind on a side with these names, and with a legacy value of the kinds of applications or without; what it takes there is
// what the subject gets.
pub fn decide(whom: Subject, code: usize, side: SideNames) -> Rule
    requires { number_too_high (subject_of whom) ≡ false }
    ensures taken { (s : Side) → Tells s.live side.names → side.legacy ≡ has_legacy s → taken_by result code s ≡ given_on (subject_of whom) code s }
    ensures rule { (s : Side) → Tells s.live side.names → side.legacy ≡ has_legacy s → result ≡ rule_on (subject_of whom) code s }
{
    if answering::is_link_code(code) {
        let names = side.names;
        let l = names.is_named_with_l(0);
        let named = names.is_named(0);
        return bandwidth_rule(code, l, named);
    }
    subject_rule(whom, side)
}
