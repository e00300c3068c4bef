// The checks of a BGP-LS run that anybody may have written.

#![tactic(auto)]

ghost use Rattle.std.specs.Prelude.{IfOk, ◌≡◌, ◌&&◌, List, [], ℕ, ◌+◌, ◌≤◌, ◌<◌, length};
ghost use Rattle.linkstate.specs.Replies.{accepted, run_bgp_ls};
ghost use Rattle.linkstate.specs.Lists.{member};
ghost use Rattle.linkstate.specs.Elements.{elements, faults_once};
ghost use Rattle.linkstate.specs.Kinds.{wrong_inside, wrong_at_top};
ghost use Rattle.linkstate.specs.BgpLs.{sabm_length, udabm_length, is_mask_length, check_inner, known_inside, check_asla, check_top, run_verdict};
ghost use Rattle.repeats.specs.Walked.{Walked};
ghost use Rattle.replies.specs.Told.{told_checked};

use frames::{Element, Elements, Two};
use kinds::{classify_code, fits};
use replies::{Reason, Refusal, Run, refuse_at, refuse_call};

// Whether a value of n bytes is wrong for its code inside a 1122, where the link's kinds are unknown.
// The rule is looked up where none of the commonest tests tells.
fn wrong_inside(code: usize, n: usize) -> bool
    ensures { result ≡ wrong_inside code n }
{
    if n == 4 {
        return code == 1115;
    }
    if code == 1096 {
        return n % 4 != 0;
    }
    if code == 1115 {
        return n != 8;
    }
    let rule = classify_code(code);
    let kind = rule.kind;
    let size = rule.size;
    if kind.is_link() {
        return false;
    }
    !fits(size, n)
}

// The same at the top of a run.
fn wrong_at_top(code: usize, n: usize) -> bool
    ensures { result ≡ wrong_at_top code n }
{
    if n == 4 {
        return (code == 1091) | (code == 1115);
    }
    let size = classify_code(code).size;
    !fits(size, n)
}

// Whether a code is known inside a 1122: that of a kind of applications.
fn is_known(code: usize) -> bool
    ensures { result ≡ known_inside code }
{
    let kind = classify_code(code).kind;
    kind.is_of_applications()
}

// Whether the code is known and stands before a place in its list.
fn known_before(s: &[u8], at: usize, code: usize) -> bool
    requires { (ts : List ℕ) × Walked 2 s.now at 0 ts }
    ensures { (ts : List ℕ) → Walked 2 s.now at 0 ts → result ≡ known_inside code && member code ts }
{
    is_known(code) && repeats::stood::<Two>(s, 0, at, code)
}

// The inner elements of a 1122, the first of which is at the offset `base` of the run.
pub fn check_inner(s: &[u8], base: usize) -> Result<(), Refusal>
    requires { base + length s.now ≤ 524288 }
    ensures { told_checked result ≡ faults_once run_bgp_ls known_inside check_inner [] (elements 2 base s.now) }
{
    let mut seen: u64 = 0;
    for e in Elements::<Two>::new(s, base) {
        let Element { at, kind, value } = match e {
            Ok(e) => e,
            Err(cut) => return Err(refuse_at(Reason::Cut, Run::BgpLs, cut.at)),
        };
        let place = at - base;
        if wrong_inside(kind, value.len()) {
            return Err(refuse_at(Reason::Length, Run::BgpLs, at));
        }
        let doubt = repeats::may_have_stood(seen, kind);
        seen = repeats::with_kind(seen, kind);
        if doubt {
            if known_before(s, place, kind) {
                return Err(refuse_at(Reason::Twice, Run::BgpLs, at));
            }
        }
    }
    Ok(())
}

// The lengths of the two masks of a 1122, as sent.
#[derive(Clone, Copy)]
pub struct AslaHeader {
    pub standard: usize,
    pub user: usize,
}

#[tactic(auto, unfolding(linkstate::specs::BgpLs::sabm_length, linkstate::specs::BgpLs::udabm_length))]
pub fn read_asla_header(v: &[u8]) -> AslaHeader
    requires { 4 ≤ length v.now }
    ensures { (result.standard ≡ sabm_length v.now) × (result.user ≡ udabm_length v.now) × (result.standard < 256) × (result.user < 256) }
{
    AslaHeader {
        standard: usize::from(v[0]),
        user: usize::from(v[1]),
    }
}

// 0, 4 or 8. A match of the three is some four instructions a 1122 more.
#[tactic(auto, unfolding(linkstate::specs::BgpLs::is_mask_length))]
fn is_mask_length(n: usize) -> bool
    ensures { result ≡ is_mask_length n }
{
    (n % 4 == 0) & (n <= 8)
}

// Whether a 1122 with these mask lengths is not ignored.
pub fn not_ignored(h: AslaHeader) -> bool
    ensures { result ≡ is_mask_length h.standard && is_mask_length h.user }
{
    is_mask_length(h.standard) & is_mask_length(h.user)
}

// The value of a 1122 whose first byte is at the offset `at` of the run.
pub fn check_asla(v: &[u8], at: usize) -> Result<(), Refusal>
    requires { at + 4 + length v.now ≤ 524288 }
    ensures { told_checked result ≡ check_asla at v.now }
{
    if v.len() < 4 {
        return Err(refuse_at(Reason::Cut, Run::BgpLs, at));
    }
    let h = read_asla_header(v);
    let first = 4 + h.standard + h.user;
    if !not_ignored(h) {
        return Ok(());
    }
    if v.len() < first {
        return Err(refuse_at(Reason::Cut, Run::BgpLs, at));
    }
    check_inner(&v[first..], at + 4 + first)
}

// A top-level element by its type, its value and the offset of its first byte.
#[tactic(auto, unfolding(linkstate::specs::BgpLs::check_top, linkstate::specs::Replies::fault))]
fn check_top(v: &[u8], code: usize, at: usize) -> Result<(), Refusal>
    requires { at + 4 + length v.now ≤ 524288 }
    ensures { told_checked result ≡ check_top at code v.now }
{
    if code == 1122 {
        return check_asla(v, at);
    }
    if wrong_at_top(code, v.len()) {
        return Err(refuse_at(Reason::Length, Run::BgpLs, at));
    }
    Ok(())
}

// A whole run.
#[tactic(auto, using(crate::proofs::Laws::run_walk), unfolding(linkstate::specs::Elements::faults, linkstate::specs::Replies::fault))]
pub fn check_run(r: &[u8]) -> Result<(), Refusal>
    ensures { told_checked result ≡ run_verdict r.now }
{
    if 524288 < r.len() {
        return Err(refuse_call(Reason::TooLong));
    }
    for e in Elements::<Two>::new(r, 0) {
        match e {
            Ok(e) => check_top(e.value, e.kind, e.at)?,
            Err(cut) => return Err(refuse_at(Reason::Cut, Run::BgpLs, cut.at)),
        }
    }
    Ok(())
}

// A run that passed its checks: its bytes, which its verdict lets pass.
#[derive(Clone, Copy)]
pub struct AcceptedRun<'a> {
    pub bytes: &'a [u8],
    pub ghost passed: { run_verdict bytes.now ≡ accepted },
}

// The one place that makes such a run, of bytes that anybody may have written. Inlined: else the run comes back through memory.
#[inline(always)]
pub fn accept(r: &[u8]) -> Result<AcceptedRun<'_>, Refusal>
    ensures verdict { told_checked result ≡ run_verdict r.now }
    ensures bytes { IfOk result (λ run. run.bytes.now ≡ r.now) }
{
    check_run(r)?;
    Ok(AcceptedRun { bytes: r })
}
