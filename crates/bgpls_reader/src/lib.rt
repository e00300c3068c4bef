// Questions to a BGP-LS run that anybody may have written: ask, value and named.

#![tactic(auto)]

ghost use Rattle.std.specs.Prelude.{◌≡◌, true, false, ◌||◌, ℕ, ◌*◌, ◌≤◌, ◌<◌, length, eqb, Ok, IfOk};
ghost use Rattle.linkstate.specs.Masks.{user, in_masks, as_number};
ghost use Rattle.linkstate.specs.Replies.{run_bgp_ls, place};
ghost use Rattle.linkstate.specs.BgpLs.{not_ignored, asla_header, aslas, run_source};
ghost use Rattle.linkstate.specs.Lists.{any};
ghost use Rattle.linkstate.specs.Sides.{names};
ghost use Rattle.masks.specs.Applications.{in_set};
ghost use Rattle.linkstate.specs.Kinds.{is_code};
ghost use Rattle.linkstate.specs.Attributes.{of_kind, srlgs};
ghost use Rattle.linkstate.specs.Questions.{number_too_high, given, first_of, bytes_of_first, srlg_answer, before_answer, answer, ask, value, list_named};
ghost use Rattle.replies.specs.Told.{subject_of, told_answer, told_asked, told_checked, told_named};
ghost use Rattle.bgpls_find.specs.Sets.{attributes_in};
ghost use Rattle.octets.specs.Spans.{found_in};
ghost use Rattle.bgpls_find.specs.Walks.{Starts, standard_mask, user_mask};
ghost use Rattle.bgpls_reader.specs.Room.{Counted};

use bgpls_check::{AcceptedRun, read_asla_header};
use bgpls_find::{Set, Start, is_chosen};
use frames::{Two, Whole};
use masks::Applications;
use octets::Span;
use replies::{Named, Reading, Refusal, Run, Subject};

// With the masks of a 1122.
fn join_masks(v: &[u8], m: Applications) -> Applications
    requires { (4 ≤ length v.now) × (not_ignored v.now ≡ true) × (asla_header v.now ≤ length v.now) × (length v.now < 4294967296) }
    ensures { (n : ℕ) → in_set result n ≡ in_set m n || in_masks (standard_mask v.now) (user_mask v.now) n }
{
    let h = read_asla_header(v);
    masks::with_masks(m, v, 4, h.standard, h.user)
}

// Whom the 1122s that are not ignored name.
fn all_masks(run: AcceptedRun<'_>) -> Applications
    ensures { (n : ℕ) → in_set result n ≡ any (names n) (aslas run.entry.bytes.now) }
{
    let mut m = masks::nobody();
    for e in Whole::<Two>::new(run.bytes, 0) {
        if is_chosen(e.value, e.kind, Set::Every) {
            m = join_masks(e.value, m);
        }
    }
    m
}

// The named applications other than RSVP-TE, which is standard 0, application n at place n.
pub fn named_masks(run: AcceptedRun<'_>) -> Applications
    ensures standard { result.standard ≡ as_number (run_source run.entry.bytes.now).names }
    ensures user { result.user ≡ as_number (λ n. (run_source run.entry.bytes.now).names (user n)) }
{
    let m = masks::turned_set(all_masks(run));
    Applications {
        standard: masks::without(m.standard, 1),
        user: m.user,
    }
}

// The set of attributes that a question is about.
pub fn set_asked(run: AcceptedRun<'_>, whom: Subject, code: usize) -> Start
    requires { number_too_high (subject_of whom) ≡ false }
    ensures begins { Starts result.set run.entry.bytes.now result.first result.next }
    ensures all { attributes_in result.set run.entry.bytes.now ≡ given (run_source run.entry.bytes.now) (subject_of whom) code }
{
    if answering::is_link_code(code) {
        return Start {
            set: Set::Top,
            first: 0,
            next: run.bytes.len(),
        };
    }
    match whom {
        Subject::General => bgpls_find::general_start(run),
        Subject::Standard(n) => {
            if n == 0 {
                return Start {
                    set: Set::Top,
                    first: 0,
                    next: run.bytes.len(),
                };
            }
            bgpls_find::set_of(run, n)
        }
        Subject::User(n) => bgpls_find::set_of(run, 64 + n),
    }
}

// Where the value that a question asks for stands.
pub fn find_value(run: AcceptedRun<'_>, whom: Subject, code: usize) -> Option<Span>
    requires { number_too_high (subject_of whom) ≡ false }
    ensures { result ≡ found_in (of_kind code (given (run_source run.entry.bytes.now) (subject_of whom) code)) }
{
    let start = set_asked(run, whom, code);
    bgpls_find::first_in(run, start, code)
}

// The reply of a kind other than SRLG.
pub fn answer_value(run: AcceptedRun<'_>, whom: Subject, code: usize) -> Option<Reading>
    requires { (number_too_high (subject_of whom) ≡ false) × (is_code code ≡ true) × (eqb code 1096 ≡ false) }
    ensures { told_answer (Ok result) ≡ first_of (place run_bgp_ls) (of_kind code (given (run_source run.entry.bytes.now) (subject_of whom) code)) }
{
    answering::answer_row(run.bytes, Run::BgpLs, code, find_value(run, whom, code))
}

// The value's bytes as a part of the run.
pub fn part_of<'a>(run: AcceptedRun<'a>, whom: Subject, code: usize) -> &'a [u8]
    requires { (number_too_high (subject_of whom) ≡ false) × (is_code code ≡ true) × (eqb code 1096 ≡ false) }
    ensures { result.now ≡ bytes_of_first run.entry.bytes.now (of_kind code (given (run_source run.entry.bytes.now) (subject_of whom) code)) }
{
    let Some(Span { place, len }) = find_value(run, whom, code) else {
        return &run.bytes[0..0];
    };
    &run.bytes[place..place + len]
}

// Any bytes, any subject and any code are taken; every refusal is document 01's, and after one nothing was written.

// The reply of SRLG: the numbers of a set go into a list, are sorted there, and are counted before any is written. tmp is room to work in, half as long or more.
fn answer_words(
    r: &[u8],
    start: Start,
    n: usize,
    list: &mut [u32],
    xs: &mut [u32],
    tmp: &mut [u32],
) -> Result<Option<Reading>, Refusal>
    requires { Counted r.now start n × (n ≤ length xs.old) × (n ≤ 2 * length tmp.old) }
    ensures { told_asked result list.new ≡ srlg_answer (srlgs (attributes_in start.set r.now)) list.old }
{
    bgpls_find::write_words(r, start, n, xs);
    let k = srlg_sort::sort_long(&mut xs[0..n], tmp);
    answering::answer_front(xs, k, list)
}

// With room for N numbers, and M to work in.
fn answer_with<const N: usize, const M: usize>(
    r: &[u8],
    start: Start,
    n: usize,
    list: &mut [u32],
) -> Result<Option<Reading>, Refusal>
    requires counted { Counted r.now start n × (n ≤ N) }
    requires room { (N ≤ 2 * M) × (M ≤ N) × (N ≤ 131072) }
    ensures { told_asked result list.new ≡ srlg_answer (srlgs (attributes_in start.set r.now)) list.old }
{
    let mut xs = [0u32; N];
    let mut tmp = [0u32; M];
    answer_words(r, start, n, list, &mut xs, &mut tmp)
}

// With eight times the room until it is enough: for few numbers, for those of most runs, and for as many as a run can have. The call of itself keeps the large arrays apart: without it the compiler lays them into the frame of every question, whose pages are touched one by one.
fn answer_in_room(
    r: &[u8],
    start: Start,
    n: usize,
    room: usize,
    list: &mut [u32],
) -> Result<Option<Reading>, Refusal>
    requires { Counted r.now start n × (n ≤ 131072) × (64 ≤ room) }
    ensures { told_asked result list.new ≡ srlg_answer (srlgs (attributes_in start.set r.now)) list.old }
{
    if room < n {
        return answer_in_room(r, start, n, room * 8, list);
    }
    if room <= 64 {
        return answer_with::<64, 64>(r, start, n, list);
    }
    if room <= 512 {
        return answer_with::<512, 512>(r, start, n, list);
    }
    answer_with::<131072, 65536>(r, start, n, list)
}

// The reply of SRLG, of a run that passed its checks.
fn answer_srlg(
    run: AcceptedRun<'_>,
    whom: Subject,
    list: &mut [u32],
) -> Result<Option<Reading>, Refusal>
    requires { number_too_high (subject_of whom) ≡ false }
    ensures { told_asked result list.new ≡ srlg_answer (srlgs (given (run_source run.entry.bytes.now) (subject_of whom) 1096)) list.old }
{
    let start = set_asked(run, whom, 1096);
    let n = bgpls_find::count_words(run, start);
    if n == 0 {
        return Ok(None);
    }
    answer_in_room(run.bytes, start, n, 64, list)
}

// The answer to a question that nothing refuses but 5.
fn answer_accepted(
    run: AcceptedRun<'_>,
    whom: Subject,
    code: usize,
    list: &mut [u32],
) -> Result<Option<Reading>, Refusal>
    requires { (number_too_high (subject_of whom) ≡ false) × (is_code code ≡ true) }
    ensures { told_asked result list.new ≡ answer (place run_bgp_ls) code (given (run_source run.entry.bytes.now) (subject_of whom) code) list.old }
{
    if code == 1096 {
        return answer_srlg(run, whom, list);
    }
    Ok(answer_value(run, whom, code))
}

// What comes before the answer to a question: its first refusal, for its own sake or for the run's bytes; else the run that passed.
pub fn check_asked(r: &[u8], whom: Subject, code: usize) -> Result<AcceptedRun<'_>, Refusal>
    ensures verdict { told_checked result ≡ before_answer (run_source r.now) (subject_of whom) code }
    ensures bytes { IfOk result (λ run. run.bytes.now ≡ r.now) }
{
    answering::check_question(whom, code)?;
    bgpls_check::accept(r)
}

// One kind of one subject: absent, found with its reading, or refused. SRLGs go ascending to the front of the lent list; for every other answer the list stays as it was.
// Left free: which NaN a bandwidth is, where its bytes are a pattern of one (`value` hands back the bytes).
pub fn ask(
    r: &[u8],
    whom: Subject,
    code: usize,
    list: &mut [u32],
) -> Result<Option<Reading>, Refusal>
    ensures { told_asked result list.new ≡ ask (run_source r.now) (subject_of whom) code list.old }
{
    let run = check_asked(r, whom, code)?;
    answer_accepted(run, whom, code, list)
}

// The same question: the value's bytes as a part of the run; empty where it is absent, refused, or SRLG.
// The contract settles the bytes. Left free: which part of the run they are, where the same bytes stand more than once, since a slice has no offset in the
// language; it is the one at the place that `find_value` gives, which the C interface tells.
pub fn value(r: &[u8], whom: Subject, code: usize) -> &[u8]
    ensures { result.now ≡ value (run_source r.now) (subject_of whom) code }
{
    let Ok(run) = check_asked(r, whom, code) else {
        return &r[0..0];
    };
    if code == 1096 {
        return &r[0..0];
    }
    part_of(run, whom, code)
}

// The applications other than RSVP-TE that the run names.
pub fn named(r: &[u8]) -> Result<Named, Refusal>
    ensures { told_named result ≡ list_named (run_source r.now) }
{
    let run = bgpls_check::accept(r)?;
    let Applications { standard, user } = named_masks(run);
    Ok(Named { standard, user })
}
