// Answers as a C program reads them: a status and four numbers. What each status says is `specs/Words.antt`.

#![tactic(auto)]

ghost use Rattle.std.specs.Prelude.{◌≡◌, false, List, ◌∷◌, ℕ, ◌+◌, ◌≤◌, eqb, length};
ghost use Rattle.linkstate.specs.Bytes.{number, bytes_at};
ghost use Rattle.linkstate.specs.Kinds.{form_of};
ghost use Rattle.linkstate.specs.Replies.{place};
ghost use Rattle.linkstate.specs.Attributes.{Attribute, reading_as};
ghost use Rattle.linkstate.specs.Questions.{ask};
ghost use Rattle.linkstate.specs.BgpLs.{run_source};
ghost use Rattle.octets.specs.Spans.{found_in};
ghost use Rattle.isis.specs.Link.{link_source};
ghost use Rattle.replies.specs.Told.{subject_of, told_spot, told_run, told_refusal, told_reading, told_answer, told_named, told_written, told_rule, told_holder, told_why};
ghost use Rattle.answering.specs.Rows.{ReadableRow};
ghost use Rattle.answering.specs.Standing.{Readable, standing};
ghost use Rattle.statuses.specs.Words.{words, reading_words, ask_words, place_words, value_words, two, nothing, placed, whom_of, least, run_number, refusal_words, reply_words, named_words, length_words, held_numbers, why_words};
ghost use Rattle.statuses.specs.Answered.{Answers, row_words};
ghost use Rattle.linkstate.specs.Why.{rule_number};

use kinds::Form;
use octets::Span;
use replies::{Holder, Named, Place, Reading, Refusal, Rule, Run, Subject, Why};

// A status with the four numbers of its reply.
#[derive(Clone, Copy)]
pub struct Words {
    pub status: u64,
    pub reply: [u64; 4],
}

impl Words {
    fn two(status: u64, first: u64, second: u64) -> Words
        ensures { words result ≡ two status first second }
    {
        Words {
            status,
            reply: [first, second, 0, 0],
        }
    }

    // Absent.
    pub fn nothing() -> Words
        ensures { words result ≡ nothing }
    {
        Words::two(0, 0, 0)
    }

    // A value by where it stands in a run.
    pub fn of_span(run: Run, span: Span) -> Words
        ensures { words result ≡ placed 4 span.place span.len (told_run run) }
    {
        let of_run = run_number(run);
        Words {
            status: 4,
            reply: [span.place as u64, span.len as u64, of_run, 0],
        }
    }

    // A bandwidth, by the four bytes of its value.
    pub fn of_bits(v: &[u8]) -> Words
        requires { length v.now ≡ 4 }
        ensures { words result ≡ two 3 (number v.now) 0 }
    {
        let bits = u64::from(octets::read32(v, 0));
        Words::two(3, bits, 0)
    }

    // The four numbers of the reply are written, and the status is the result.
    pub fn hand_over(self, reply: &mut [u64; 4]) -> u64
        ensures { result ∷ reply.new ≡ words self }
    {
        let numbers = self.reply;
        *reply = numbers;
        self.status
    }
}

// The runs by number, in the order of the C header.
fn run_number(run: Run) -> u64
    ensures { result ≡ run_number (told_run run) }
{
    match run {
        Run::A => 0,
        Run::B => 1,
        Run::BgpLs => 2,
        Run::C => 7,
    }
}

impl From<Refusal> for Words {
    ghost from_gives = { λ x w. words w ≡ refusal_words (told_refusal x) };

    #[tactic(auto, unfolding(linkstate::specs::Replies::place))]
    fn from(x: Refusal) -> Words {
        let number = u64::from(u8::from(x.reason));
        let Place { run, offset } = x.place;
        let of_run = run_number(run);
        Words {
            status: 128 + number,
            reply: [offset as u64, 0, of_run, 0],
        }
    }
}

// A reading; a bandwidth without its bits.
impl From<Reading> for Words {
    ghost from_gives = { λ x w. words w ≡ reading_words 0 (told_reading x) };

    #[tactic(auto, unfolding(linkstate::specs::Replies::place))]
    fn from(x: Reading) -> Words {
        match x {
            Reading::Number(n) => Words::two(1, u64::from(n), 0),
            Reading::Pair(m, n) => Words::two(2, u64::from(m), u64::from(n)),
            Reading::Bandwidth(_) => Words::two(3, 0, 0),
            Reading::Part { place, length } => {
                let Place { run, offset } = place;
                Words::of_span(
                    run,
                    Span {
                        place: offset,
                        len: length,
                    },
                )
            }
            Reading::Count(n) => Words::two(5, n as u64, 0),
        }
    }
}

// The answer to a question; a bandwidth without its bits.
impl From<Result<Option<Reading>, Refusal>> for Words {
    ghost from_gives = { λ x w. words w ≡ reply_words 0 (told_answer x) };

    fn from(x: Result<Option<Reading>, Refusal>) -> Words {
        match x {
            Ok(None) => Words::nothing(),
            Ok(Some(reading)) => Words::from(reading),
            Err(refusal) => Words::from(refusal),
        }
    }
}

impl From<Result<Named, Refusal>> for Words {
    ghost from_gives = { λ x w. words w ≡ named_words (told_named x) };

    fn from(x: Result<Named, Refusal>) -> Words {
        match x {
            Ok(Named { standard, user }) => Words::two(6, standard, user),
            Err(refusal) => Words::from(refusal),
        }
    }
}

// How many bytes an export has.
impl From<Result<usize, Refusal>> for Words {
    ghost from_gives = { λ x w. words w ≡ length_words (told_written x) };

    fn from(x: Result<usize, Refusal>) -> Words {
        match x {
            Ok(n) => Words::two(7, n as u64, 0),
            Err(refusal) => Words::from(refusal),
        }
    }
}

// The rules by number, in the order of the C header.
#[tactic(auto, unfolding(linkstate::specs::Why::rule_number))]
fn rule_number(rule: Rule) -> u64
    ensures { result ≡ rule_number (told_rule rule) }
{
    match rule {
        Rule::ByL => 0,
        Rule::Named => 1,
        Rule::General => 2,
        Rule::Unnamed => 3,
        Rule::Legacy => 4,
        Rule::Carried => 5,
        Rule::Top => 6,
    }
}

// A rule by its number, and what decides by it.
#[tactic(auto, unfolding(linkstate::specs::Replies::place))]
fn because(rule: u64, holder: Holder) -> Words
    ensures { words result ≡ 16 ∷ rule ∷ held_numbers (told_holder holder) }
{
    let (offset, of_run) = match holder {
        Holder::At(Place { run, offset }) => (offset as u64, run_number(run)),
        Holder::Legacy(run) => (u64::MAX, run_number(run)),
        Holder::Nowhere => (u64::MAX, 0),
    };
    Words {
        status: 16,
        reply: [rule, offset, of_run, 0],
    }
}

impl From<Result<Why, Refusal>> for Words {
    ghost from_gives = { λ x w. words w ≡ why_words (told_why x) };

    fn from(x: Result<Why, Refusal>) -> Words {
        match x {
            Ok(Why { rule, holder }) => {
                let number = rule_number(rule);
                because(number, holder)
            }
            Err(refusal) => Words::from(refusal),
        }
    }
}

// What the value of a code that stands in a run reads as; the bits of a bandwidth are its own bytes.
fn standing_words(s: &[u8], run: Run, code: usize, span: Span) -> Words
    requires { (span.place + span.len ≤ length s.now) × Readable (form_of code) span.len }
    ensures { words result ≡ reading_words (number (bytes_at s.now span.place span.len)) (reading_as (form_of code) (told_spot run) (standing s.now span.place span.len)) }
{
    let Span { place, len } = span;
    let form = kinds::form_of(code);
    if let Form::Float = form {
        return Words::of_bits(&s[place..place + len]);
    }
    Words::from(answering::read_value(s, run, form, place, len))
}

// The same where there may be no value.
fn row_words(s: &[u8], run: Run, code: usize, row: Option<Span>) -> Words
    requires { ReadableRow (form_of code) (length s.now) row }
    ensures { words result ≡ row_words s.now (told_spot run) code row }
{
    match row {
        Some(span) => standing_words(s, run, code, span),
        None => Words::nothing(),
    }
}

// Where the value stands that was looked for, if there is one.
fn place_row(run: Run, row: Option<Span>) -> Words
    ensures { (ts : List Attribute) → row ≡ found_in ts → words result ≡ place_words (place (told_run run)) ts }
{
    match row {
        Some(span) => Words::of_span(run, span),
        None => Words::nothing(),
    }
}

// Every kind but SRLG, of a link.
fn ask_link_value(a: &[u8], b: &[u8], c: &[u8], whom: Subject, code: usize) -> Words
    requires { eqb code 1096 ≡ false }
    ensures { (list : List ℕ) → Answers (link_source a.now b.now c.now) (subject_of whom) code list (words result) list }
{
    match isis_link::check_asked(a, b, c, whom, code) {
        Ok(sides) => row_words(a, Run::A, code, isis_link::find_row(a, whom, code, sides.a)),
        Err(refusal) => Words::from(refusal),
    }
}

// One kind of one subject of a link.
pub fn ask_link(a: &[u8], b: &[u8], c: &[u8], whom: Subject, code: usize, list: &mut [u32]) -> Words
    ensures { (words result ≡ ask_words (link_source a.now b.now c.now) (subject_of whom) code list.old) × (list.new ≡ (ask (link_source a.now b.now c.now) (subject_of whom) code list.old).list) }
{
    if code == 1096 {
        return Words::from(isis_link::ask(a, b, c, whom, code, list));
    }
    ask_link_value(a, b, c, whom, code)
}

// The same of a run.
fn ask_run_value(r: &[u8], whom: Subject, code: usize) -> Words
    requires { eqb code 1096 ≡ false }
    ensures { (list : List ℕ) → Answers (run_source r.now) (subject_of whom) code list (words result) list }
{
    match bgpls_reader::check_asked(r, whom, code) {
        Ok(run) => row_words(
            r,
            Run::BgpLs,
            code,
            bgpls_reader::find_value(run, whom, code),
        ),
        Err(refusal) => Words::from(refusal),
    }
}

pub fn ask_run(r: &[u8], whom: Subject, code: usize, list: &mut [u32]) -> Words
    ensures { (words result ≡ ask_words (run_source r.now) (subject_of whom) code list.old) × (list.new ≡ (ask (run_source r.now) (subject_of whom) code list.old).list) }
{
    if code == 1096 {
        return Words::from(bgpls_reader::ask(r, whom, code, list));
    }
    ask_run_value(r, whom, code)
}

// Where the value of a question to a link stands in run A.
pub fn value_link(a: &[u8], b: &[u8], c: &[u8], whom: Subject, code: usize) -> Words
    ensures { words result ≡ value_words (link_source a.now b.now c.now) (subject_of whom) code }
{
    let Ok(sides) = isis_link::check_asked(a, b, c, whom, code) else {
        return Words::nothing();
    };
    if code == 1096 {
        return Words::nothing();
    }
    place_row(Run::A, isis_link::find_row(a, whom, code, sides.a))
}

// Where the value of a question to a run stands.
pub fn value_run(r: &[u8], whom: Subject, code: usize) -> Words
    ensures { words result ≡ value_words (run_source r.now) (subject_of whom) code }
{
    let Ok(run) = bgpls_reader::check_asked(r, whom, code) else {
        return Words::nothing();
    };
    if code == 1096 {
        return Words::nothing();
    }
    place_row(Run::BgpLs, bgpls_reader::find_value(run, whom, code))
}

// An application's number in 32 bits: every number above 63 is refused alike.
fn lowered(number: u64) -> u32
    ensures { result ≡ least number }
{
    number.min(64) as u32
}

// Whom a call asks about.
pub fn subject(who: u8, number: u64) -> Subject
    ensures { subject_of result ≡ whom_of who (least number) }
{
    match who {
        0 => Subject::General,
        1 => Subject::Standard(lowered(number)),
        2 => Subject::User(lowered(number)),
        _ => Subject::Standard(64),
    }
}
