// Questions to an IS-IS link: ask, value and named. A link is three lent runs: A, the sub-TLVs of its neighbour entry; B, its TLVs 238, whole; C, its legacy SRLG values.
// An answer is one look-up in run A by the rule.

#![tactic(auto)]

ghost use Rattle.std.specs.Prelude.{◌≡◌, true, false, List, ◌++◌, ℕ, eqb};
ghost use Rattle.linkstate.specs.Replies.{accepted, run_a, place};
ghost use Rattle.linkstate.specs.Elements.{elements, faults};
ghost use Rattle.linkstate.specs.Kinds.{is_code};
ghost use Rattle.linkstate.specs.Attributes.{of_kind, srlgs};
ghost use Rattle.linkstate.specs.Sides.{of_live};
ghost use Rattle.linkstate.specs.Questions.{given, first_of, bytes_of_first, number_too_high, srlg_answer, answer, ask, value, list_named};
ghost use Rattle.isis.specs.Types.{code_of_type};
ghost use Rattle.isis.specs.RunA.{check_a, side_a};
ghost use Rattle.isis.specs.Link.{link_source};
ghost use Rattle.replies.specs.Told.{subject_of, told_answer, told_asked, told_named};
ghost use Rattle.rules.specs.Rules.{taken_by, given_on};
ghost use Rattle.isis_grids.specs.Grid.{row_of};
ghost use Rattle.isis_grids.specs.Selected.{selects};
ghost use Rattle.isis_grids.specs.declared.Which.TheVariants.{WithoutL};
ghost use Rattle.isis_link.specs.Asked.{ChecksAsked, AskedInA, Asked};
ghost use Rattle.isis.specs.RunB.{side_b};
ghost use Rattle.rules.specs.Names.{TellsSide};
ghost use Rattle.isis_tlvs_238.specs.Runs.{Passed};

use isis_check::Sides;
use isis_grids::Which;
use octets::Span;
use replies::{Named, Reading, Refusal, Run, Subject};
use rules::{Rule, SideNames};

// What comes before the answer to a question: its first refusal, or what the sides of the link tell.
pub fn check_asked(
    a: &[u8],
    b: &[u8],
    c: &[u8],
    whom: Subject,
    code: usize,
) -> Result<Sides, Refusal>
    ensures { ChecksAsked a.now b.now c.now (subject_of whom) code result }
{
    answering::check_question(whom, code)?;
    isis_check::check_sides(a, b, c)
}

// The row of a kind, by its type, in the ASLA sub-TLVs that are selected, else in legacy.
fn live_first(a: &[u8], which: Which, t: u8) -> Option<Span>
    requires { (code_of_type t ≡ 0 → ⊥) × (faults run_a check_a (elements 1 0 a.now) ≡ accepted) }
    ensures { result ≡ row_of (code_of_type t) (of_live (selects which) (side_a a.now) ++ (side_a a.now).legacy) }
{
    isis_grids::live_row(a, which, t).or_else(|| isis_grids::legacy_row(a, t))
}

// In legacy, else in the ASLA sub-TLVs without L.
fn legacy_first(a: &[u8], t: u8) -> Option<Span>
    requires { (code_of_type t ≡ 0 → ⊥) × (faults run_a check_a (elements 1 0 a.now) ≡ accepted) }
    ensures { result ≡ row_of (code_of_type t) ((side_a a.now).legacy ++ of_live (selects WithoutL) (side_a a.now)) }
{
    isis_grids::legacy_row(a, t).or_else(|| isis_grids::live_row(a, Which::WithoutL, t))
}

// In what a rule takes on side A.
fn row_by(a: &[u8], rule: Rule, t: u8) -> Option<Span>
    requires { (code_of_type t ≡ 0 → ⊥) × (faults run_a check_a (elements 1 0 a.now) ≡ accepted) × (is_code (code_of_type t) ≡ true) × (eqb (code_of_type t) 1096 ≡ false) }
    ensures { result ≡ row_of (code_of_type t) (taken_by rule (code_of_type t) (side_a a.now)) }
{
    match rule {
        Rule::ByL => isis_grids::legacy_row(a, t),
        Rule::Naming(n) => isis_grids::live_row(a, Which::Naming(n), t),
        Rule::General => isis_grids::live_row(a, Which::General, t),
        Rule::Legacy => isis_grids::legacy_row(a, t),
        Rule::NamingFirst => live_first(a, Which::Naming(0), t),
        Rule::AloneFirst => live_first(a, Which::RsvpTeAlone, t),
        Rule::LegacyFirst => legacy_first(a, t),
    }
}

// Where the value that a question asks for stands, by whom side A names and whether its legacy has a value.
pub fn find_row(a: &[u8], whom: Subject, code: usize, side: SideNames) -> Option<Span>
    requires { AskedInA a.now (subject_of whom) code side }
    ensures { (b c : List ℕ) → result ≡ row_of code (given (link_source a.now b c) (subject_of whom) code) }
{
    let rule = rules::decide(whom, code, side);
    row_by(a, rule, isis_grids::type_of(code))
}

// The reply of a kind other than SRLG.
pub fn answer_value(a: &[u8], whom: Subject, code: usize, side: SideNames) -> Option<Reading>
    requires { AskedInA a.now (subject_of whom) code side }
    ensures { (b c : List ℕ) → told_answer (Ok result) ≡ first_of (place run_a) (of_kind code (given (link_source a.now b c) (subject_of whom) code)) }
{
    answering::answer_row(a, Run::A, code, find_row(a, whom, code, side))
}

// The value's bytes as a part of run A.
pub fn part_of(a: &[u8], whom: Subject, code: usize, side: SideNames) -> &[u8]
    requires { AskedInA a.now (subject_of whom) code side }
    ensures { (b c : List ℕ) → result.now ≡ bytes_of_first a.now (of_kind code (given (link_source a.now b c) (subject_of whom) code)) }
{
    let Some(Span { place, len }) = find_row(a, whom, code, side) else {
        return &a[0..0];
    };
    &a[place..place + len]
}

// Any bytes, any subject and any code are taken; every refusal is one of the eight, and after one nothing was written.

// The reply of SRLG, by whom side B names and whether run C has a value. Without TLVs 238 and legacy values there is none.
fn answer_srlg(
    b: &[u8],
    c: &[u8],
    whom: Subject,
    side: SideNames,
    list: &mut [u32],
) -> Result<Option<Reading>, Refusal>
    requires { Passed b.now c.now × (number_too_high (subject_of whom) ≡ false) × TellsSide (side_b b.now c.now) side }
    ensures { told_asked result list.new ≡ srlg_answer (srlgs (given_on (subject_of whom) 1096 (side_b b.now c.now))) list.old }
{
    if (b.len() == 0) & (c.len() == 0) {
        return Ok(None);
    }
    let mut ns = [0u32; 512];
    let k = isis_tlvs_238::srlgs_of(b, c, whom, side, &mut ns);
    answering::answer_front(&ns, k, list)
}

// The answer to a question that nothing refuses but 5, by what the sides tell: what a kind's own side tells counts.
fn answer_accepted(
    a: &[u8],
    b: &[u8],
    c: &[u8],
    whom: Subject,
    code: usize,
    sides: Sides,
    list: &mut [u32],
) -> Result<Option<Reading>, Refusal>
    requires { Asked a.now b.now c.now (subject_of whom) code sides }
    ensures { told_asked result list.new ≡ answer (place run_a) code (given (link_source a.now b.now c.now) (subject_of whom) code) list.old }
{
    if code == 1096 {
        return answer_srlg(b, c, whom, sides.b, list);
    }
    Ok(answer_value(a, whom, code, sides.a))
}

// One kind of one subject: absent, found with its reading, or refused. SRLGs go ascending to the front of the lent list; for every other answer the list stays as it was.
// Left free: which NaN a bandwidth is, where its bytes are a pattern of one (`value` hands back the bytes).
pub fn ask(
    a: &[u8],
    b: &[u8],
    c: &[u8],
    whom: Subject,
    code: usize,
    list: &mut [u32],
) -> Result<Option<Reading>, Refusal>
    ensures { told_asked result list.new ≡ ask (link_source a.now b.now c.now) (subject_of whom) code list.old }
{
    let sides = check_asked(a, b, c, whom, code)?;
    answer_accepted(a, b, c, whom, code, sides, list)
}

// The same question: the value's bytes as a part of run A; empty where it is absent, refused, or SRLG.
// The contract settles the bytes. Left free: which part of run A they are, where the same bytes stand more than once, since a slice has no offset in the
// language; it is the one at the place that `find_row` gives, which the C interface tells.
pub fn value<'a, 'b, 'c>(
    a: &'a [u8],
    b: &'b [u8],
    c: &'c [u8],
    whom: Subject,
    code: usize,
) -> &'a [u8]
    ensures { result.now ≡ value (link_source a.now b.now c.now) (subject_of whom) code }
{
    let Ok(sides) = check_asked(a, b, c, whom, code) else {
        return &a[0..0];
    };
    if code == 1096 {
        return &a[0..0];
    }
    part_of(a, whom, code, sides.a)
}

// The applications other than RSVP-TE that the link names on either side.
pub fn named(a: &[u8], b: &[u8], c: &[u8]) -> Result<Named, Refusal>
    ensures { told_named result ≡ list_named (link_source a.now b.now c.now) }
{
    let sides = isis_check::check_sides(a, b, c)?;
    let x = sides.a.names;
    let y = sides.b.names;
    let m = x.both(y);
    let who = masks::turned_set(m.named);
    Ok(Named {
        standard: masks::without(who.standard, 1),
        user: who.user,
    })
}
