// The steps that every question shares, whatever it is put to: the question's own refusals, the reply of a value by its place, and that of SRLGs.

#![tactic(auto)]

ghost use Rattle.std.specs.Prelude.{◌≡◌, ◌+◌, ◌≤◌, length, take, not, Ok};
ghost use Rattle.linkstate.specs.Bytes.{number, bytes_at};
ghost use Rattle.linkstate.specs.Attributes.{reading_as};
ghost use Rattle.kinds.specs.Rules.{told_form};
ghost use Rattle.replies.specs.Told.{told_reading, told_spot, told_answer, told_asked, told_checked, subject_of};
ghost use Rattle.answering.specs.Standing.{Readable, standing};
ghost use Rattle.linkstate.specs.Kinds.{is_code, is_link_code, form_of};
ghost use Rattle.linkstate.specs.Replies.{refused_if, ◌then◌};
ghost use Rattle.linkstate.specs.Questions.{number_too_high, srlg_answer};
ghost use Rattle.answering.specs.Rows.{ReadableRow, row_answer};

use kinds::Form;
use octets::Span;
use replies::{Place, Reading, Reason, Refusal, Run, Subject};

// The number of three or four bytes: a TE metric has three in IS-IS.
fn read_number(s: &[u8], at: usize, len: usize) -> u32
    requires { (at + len ≤ length s.now) × (3 ≤ len) × (len ≤ 4) }
    ensures { result ≡ number (bytes_at s.now at len) }
{
    if len == 3 {
        octets::read24(s, at)
    } else {
        octets::read32(s, at)
    }
}

// What the value at a place of a run reads as. Its length is one that its kind may have. SRLGs are not read here: no length is Readable for their form,
// so the last arm is never taken and its 0 is nobody's answer; the form has its arm because a match names every case.
pub fn read_value(s: &[u8], run: Run, form: Form, at: usize, len: usize) -> Reading
    requires { (at + len ≤ length s.now) × Readable (told_form form) len }
    ensures { told_reading result ≡ reading_as (told_form form) (told_spot run) (standing s.now at len) }
{
    match form {
        Form::WholeNumber => Reading::Number(read_number(s, at, len)),
        Form::TwoNumbers => {
            let first = octets::read32(s, at);
            let second = octets::read32(s, at + 4);
            Reading::Pair(first, second)
        }
        Form::Float => Reading::Bandwidth(octets::float_at(s, at)),
        Form::PlaceAndLength => Reading::Part {
            place: Place { run, offset: at },
            length: len,
        },
        Form::SrlgCount => Reading::Count(0),
    }
}

// Whether a code is one of the fourteen.
pub fn is_code(code: usize) -> bool
    ensures { result ≡ is_code code }
{
    let kind = kinds::classify_code(code).kind;
    kind.is_known()
}

// Whether a code is one of the link's three.
pub fn is_link_code(code: usize) -> bool
    ensures { result ≡ is_link_code code }
{
    let kind = kinds::classify_code(code).kind;
    kind.is_link()
}

// The refusals of a question for its own sake: 6, then 7.
pub fn check_question(whom: Subject, code: usize) -> Result<(), Refusal>
    ensures { told_checked result ≡ (refused_if (number_too_high (subject_of whom)) 6 then refused_if (not (is_code code)) 7) }
{
    if replies::number_too_high(whom) {
        return Err(replies::refuse_call(Reason::NoApplication));
    }
    if !is_code(code) {
        return Err(replies::refuse_call(Reason::NoKind));
    }
    Ok(())
}

// The reply of a kind other than SRLG, by where its first value stands in the run.
pub fn answer_row(s: &[u8], run: Run, code: usize, row: Option<Span>) -> Option<Reading>
    requires { ReadableRow (form_of code) (length s.now) row }
    ensures { told_answer (Ok result) ≡ row_answer s.now (told_spot run) code row }
{
    let form = kinds::form_of(code);
    row.map(|span| read_value(s, run, form, span.place, span.len))
}

// The reply of SRLG, from the different numbers, ascending: they go to the front of the lent list if they fit.
pub fn answer_srlgs(ns: &[u32], list: &mut [u32]) -> Result<Option<Reading>, Refusal>
    ensures { told_asked result list.new ≡ srlg_answer ns.now list.old }
{
    if ns.len() == 0 {
        return Ok(None);
    }
    if list.len() < ns.len() {
        return Err(replies::refuse_call(Reason::NoRoom));
    }
    srlg::copy_words(ns, list);
    Ok(Some(Reading::Count(ns.len())))
}

// The same from the first k numbers of a list.
pub fn answer_front(ns: &[u32], k: usize, list: &mut [u32]) -> Result<Option<Reading>, Refusal>
    requires { k ≤ length ns.now }
    ensures { told_asked result list.new ≡ srlg_answer (take k ns.now) list.old }
{
    answer_srlgs(&ns[0..k], list)
}
