// The C interface (include/nakhshirul.h): ten functions over the entries. A run is a pointer and a length, the reply four 64-bit numbers, the result a status.
// What each status and reply says is `ask_words`, `value_words`, `why_words`, `named_words` and `length_words` of the crate statuses. Every call is answered: no
// function has a `requires`.

#![tactic(auto)]

ghost use Rattle.std.specs.Prelude.{◌≡◌, ◌∷◌};
ghost use Rattle.linkstate.specs.Questions.{ask, list_named};
ghost use Rattle.linkstate.specs.BgpLs.{run_source};
ghost use Rattle.linkstate.specs.RunWhy.{run_why};
ghost use Rattle.isis.specs.Link.{link_source, export_link};
ghost use Rattle.isis.specs.Why.{link_why};
ghost use Rattle.isis_export.specs.Answers.{export_length};
ghost use Rattle.statuses.specs.Words.{whom_of, ask_words, value_words, named_words, length_words, why_words};

use statuses::Words;

// One kind of one subject of a link: status 0 to 5, or refused.
#[unsafe(no_mangle)]
pub extern "C" fn nakhshirul_ask(
    a: &[u8],
    b: &[u8],
    c: &[u8],
    who: u8,
    number: u64,
    code: u16,
    list: &mut [u32],
    reply: &mut [u64; 4],
) -> u64
    ensures { (result ∷ reply.new ≡ ask_words (link_source a.now b.now c.now) (whom_of who number) code list.old) × (list.new ≡ (ask (link_source a.now b.now c.now) (whom_of who number) code list.old).list) }
{
    let whom = statuses::subject(who, number);
    let code = usize::from(code);
    statuses::ask_link(a, b, c, whom, code, list).hand_over(reply)
}

// Where the value of the same question stands in run A: status 0 or 4.
#[unsafe(no_mangle)]
pub extern "C" fn nakhshirul_value(
    a: &[u8],
    b: &[u8],
    c: &[u8],
    who: u8,
    number: u64,
    code: u16,
    reply: &mut [u64; 4],
) -> u64
    ensures { result ∷ reply.new ≡ value_words (link_source a.now b.now c.now) (whom_of who number) code }
{
    let whom = statuses::subject(who, number);
    let code = usize::from(code);
    statuses::value_link(a, b, c, whom, code).hand_over(reply)
}

// By which rule the subject gets the kind, and which advertisement decides: status 16, or refused.
#[unsafe(no_mangle)]
pub extern "C" fn nakhshirul_why(
    a: &[u8],
    b: &[u8],
    c: &[u8],
    who: u8,
    number: u64,
    code: u16,
    reply: &mut [u64; 4],
) -> u64
    ensures { result ∷ reply.new ≡ why_words (link_why a.now b.now c.now (whom_of who number) code) }
{
    let whom = statuses::subject(who, number);
    let code = usize::from(code);
    let why = why::link_why(a, b, c, whom, code);
    Words::from(why).hand_over(reply)
}

// The named applications of a link: status 6, or refused.
#[unsafe(no_mangle)]
pub extern "C" fn nakhshirul_named(a: &[u8], b: &[u8], c: &[u8], reply: &mut [u64; 4]) -> u64
    ensures { result ∷ reply.new ≡ named_words (list_named (link_source a.now b.now c.now)) }
{
    let named = isis_link::named(a, b, c);
    Words::from(named).hand_over(reply)
}

// A link as BGP-LS TLVs: status 7, or refused.
#[unsafe(no_mangle)]
pub extern "C" fn nakhshirul_export(
    a: &[u8],
    b: &[u8],
    c: &[u8],
    out: &mut [u8],
    reply: &mut [u64; 4],
) -> u64
    ensures { (result ∷ reply.new ≡ length_words (export_link a.now b.now c.now out.old).reply) × (out.new ≡ (export_link a.now b.now c.now out.old).buffer) }
{
    let written = isis_export::export(a, b, c, out);
    Words::from(written).hand_over(reply)
}

// How much room the export of a link needs: status 7 with nothing written, or refused.
#[unsafe(no_mangle)]
pub extern "C" fn nakhshirul_export_length(
    a: &[u8],
    b: &[u8],
    c: &[u8],
    reply: &mut [u64; 4],
) -> u64
    ensures { result ∷ reply.new ≡ length_words (export_length a.now b.now c.now) }
{
    let length = isis_export::export_length(a, b, c);
    Words::from(length).hand_over(reply)
}

// One kind of one subject of a BGP-LS run: status 0 to 5, or refused.
#[unsafe(no_mangle)]
pub extern "C" fn nakhshirul_run_ask(
    run: &[u8],
    who: u8,
    number: u64,
    code: u16,
    list: &mut [u32],
    reply: &mut [u64; 4],
) -> u64
    ensures { (result ∷ reply.new ≡ ask_words (run_source run.now) (whom_of who number) code list.old) × (list.new ≡ (ask (run_source run.now) (whom_of who number) code list.old).list) }
{
    let whom = statuses::subject(who, number);
    let code = usize::from(code);
    statuses::ask_run(run, whom, code, list).hand_over(reply)
}

// Where the value of the same question stands in the run: status 0 or 4.
#[unsafe(no_mangle)]
pub extern "C" fn nakhshirul_run_value(
    run: &[u8],
    who: u8,
    number: u64,
    code: u16,
    reply: &mut [u64; 4],
) -> u64
    ensures { result ∷ reply.new ≡ value_words (run_source run.now) (whom_of who number) code }
{
    let whom = statuses::subject(who, number);
    let code = usize::from(code);
    statuses::value_run(run, whom, code).hand_over(reply)
}

// By which rule the subject gets the kind of a run, and which advertisement decides: status 16, or refused.
#[unsafe(no_mangle)]
pub extern "C" fn nakhshirul_run_why(
    run: &[u8],
    who: u8,
    number: u64,
    code: u16,
    reply: &mut [u64; 4],
) -> u64
    ensures { result ∷ reply.new ≡ why_words (run_why run.now (whom_of who number) code) }
{
    let whom = statuses::subject(who, number);
    let code = usize::from(code);
    let why = why::run_why(run, whom, code);
    Words::from(why).hand_over(reply)
}

// The named applications of a run: status 6, or refused.
#[unsafe(no_mangle)]
pub extern "C" fn nakhshirul_run_named(run: &[u8], reply: &mut [u64; 4]) -> u64
    ensures { result ∷ reply.new ≡ named_words (list_named (run_source run.now)) }
{
    let named = bgpls_reader::named(run);
    Words::from(named).hand_over(reply)
}
