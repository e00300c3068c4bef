// The advertisements of a run, whatever its bytes: the first that passes a test and, where a kind is asked for, has it.

#![tactic(auto)]

ghost use Rattle.std.specs.Prelude.{◌≡◌, ◌&&◌, false, List, ℕ, ◌+◌, ◌<◌, ◌≤◌, leb, length};
ghost use Rattle.linkstate.specs.Lists.{any};
ghost use Rattle.linkstate.specs.Elements.{elements};
ghost use Rattle.isis.specs.MaskHeader.{mask_too_long};
ghost use Rattle.isis.specs.RunA.{live_asla};
ghost use Rattle.frames.specs.Left.{of_whole, shown};
ghost use Rattle.advertisements.specs.Widths.{width_of};
ghost use Rattle.advertisements.specs.Tests.{seen, passing, is_advertised, is_of, in_list, carries_a, carries_b, such_in};
ghost use Rattle.advertisements.specs.Walks.{first_with, first_such, held};

use frames::{Cut, Element, Elements, One, Two, Width};
use replies::{Place, Run};

// ---- kinds

// Whether an element is of a kind, by its type; an SRLG TLV needs a number.
#[tactic(auto, unfolding(crate::specs::Tests::is_of))]
fn is_of(e: Element<'_>, kind: usize) -> bool
    ensures { result ≡ is_of kind (of_whole e.entry) }
{
    (e.kind == kind) & ((kind != 1096) | (4 <= e.value.len()))
}

// The same of what an iterator gives; nothing that is cut off is of a kind.
#[tactic(auto, unfolding(crate::specs::Tests::is_of))]
fn item_is_of(e: Result<Element<'_>, Cut>, kind: usize) -> bool
    ensures { result ≡ is_of kind (shown e.entry) }
{
    match e {
        Ok(e) => is_of(e, kind),
        Err(_) => false,
    }
}

// Whether a list has an element of a kind.
fn list_has<W: Width>(s: &[u8], kind: usize) -> bool
    ensures { result ≡ any (is_of kind) (elements W.BYTES 0 s.now) }
{
    Elements::<W>::new(s, 0).any(|e| item_is_of(e, kind))
}

// The same of a list of a run.
#[tactic(auto, unfolding(crate::specs::Widths::width_of))]
pub fn has_kind(s: &[u8], run: Run, kind: usize) -> bool
    ensures { result ≡ any (is_of kind) (elements (width_of run) 0 s.now) }
{
    match run {
        Run::A | Run::B | Run::C => list_has::<One>(s, kind),
        Run::BgpLs => list_has::<Two>(s, kind),
    }
}

// The same of the list of a 1122, where a kind may be asked for.
#[tactic(auto, unfolding(crate::specs::Tests::in_list))]
fn tlv_carries(s: &[u8], kind: Option<usize>) -> bool
    ensures { result ≡ in_list 2 kind s.now }
{
    let Some(kind) = kind else {
        return true;
    };
    list_has::<Two>(s, kind)
}

// The same of the attribute list of an ASLA, by its value; with L it is not read.
fn asla_carries(v: &[u8], kind: Option<usize>) -> bool
    requires { 2 ≤ length v.now }
    ensures { result ≡ carries_a kind v.now }
{
    let Some(kind) = kind else {
        return true;
    };
    let h = isis_check_a::read_header(v);
    let l = h.l;
    if l {
        return false;
    }
    let e = isis_check_a::header_length(h);
    if v.len() < e {
        return false;
    }
    list_has::<One>(&v[e..], kind)
}

// The same of a TLV 238, by what follows its neighbour bytes: whether SRLG values that are read follow the identifiers.
fn srlg_carries(v: &[u8], kind: Option<usize>) -> bool
    requires { 2 ≤ length v.now }
    ensures { result ≡ carries_b kind v.now }
{
    let Some(_) = kind else {
        return true;
    };
    let h = isis_check_a::read_header(v);
    let l = h.l;
    if l {
        return false;
    }
    let e = isis_check_a::header_length(h);
    if v.len() <= e {
        return false;
    }
    let n = usize::from(v[e]);
    e + 1 + n + 4 <= v.len()
}

// ---- tests

// What an advertisement is looked for by: that it names an application, names it with L, is general, has no L, or names RSVP-TE alone.
#[derive(Clone, Copy)]
pub enum Test {
    Names(u32),
    WithL(u32),
    General,
    WithoutL,
    RsvpTeAlone,
}

// Whether an advertisement of these masks passes, by its L-flag.
fn passes(standard: &[u8], user: &[u8], l: bool, test: Test) -> bool
    requires { (length standard.now ≤ 8) × (length user.now ≤ 8) }
    ensures { result ≡ passing test (seen l standard.now user.now) }
{
    match test {
        Test::Names(n) => masks::names(standard, user, n),
        Test::WithL(n) => l & masks::names(standard, user, n),
        Test::General => (standard.len() == 0) & (user.len() == 0),
        Test::WithoutL => !l,
        Test::RsvpTeAlone => masks::rsvp_te_alone(standard, user),
    }
}

// The same of what begins with the byte of the L-flag: an ASLA's value, or a 238's behind the neighbour.
fn header_passes(v: &[u8], test: Test) -> bool
    requires { (2 ≤ length v.now) × (mask_too_long v.now ≡ false) }
    ensures { result ≡ is_advertised test v.now }
{
    let h = isis_check_a::read_header(v);
    let l = h.l;
    let m = 2 + h.standard;
    let e = m + h.user;
    if v.len() < e {
        return false;
    }
    passes(&v[2..m], &v[m..e], l, test)
}

// Whether an ASLA is live, by its value.
fn live_asla(v: &[u8]) -> bool
    ensures { result ≡ leb 2 (length v.now) && live_asla v.now }
{
    if v.len() < 2 {
        return false;
    }
    let h = isis_check_a::read_header(v);
    if isis_check_a::mask_too_long(h) {
        return false;
    }
    !isis_check_a::l_for_nobody(h)
}

fn asla_passes(e: Element<'_>, test: Test, kind: Option<usize>) -> bool
    ensures { result ≡ such_in Run.A test kind (of_whole e.entry) }
{
    let v = e.value;
    if e.kind != 16 {
        return false;
    }
    if !live_asla(v) {
        return false;
    }
    header_passes(v, test) && asla_carries(v, kind)
}

fn srlg_passes(e: Element<'_>, test: Test, kind: Option<usize>) -> bool
    ensures { result ≡ such_in Run.B test kind (of_whole e.entry) }
{
    let value = e.value;
    if e.kind != 238 {
        return false;
    }
    if value.len() < 9 {
        return false;
    }
    let v = &value[7..];
    if !isis_check::live_srlg(v) {
        return false;
    }
    header_passes(v, test) && srlg_carries(v, kind)
}

fn tlv_passes(e: Element<'_>, test: Test, kind: Option<usize>) -> bool
    ensures { result ≡ such_in Run.BgpLs test kind (of_whole e.entry) }
{
    let v = e.value;
    if e.kind != 1122 {
        return false;
    }
    if v.len() < 4 {
        return false;
    }
    let h = bgpls_check::read_asla_header(v);
    if !bgpls_check::not_ignored(h) {
        return false;
    }
    let m = 4 + h.standard;
    let end = m + h.user;
    if v.len() < end {
        return false;
    }
    passes(&v[4..m], &v[m..end], false, test) && tlv_carries(&v[end..], kind)
}

// Whether an element is an advertisement that passes and has the kind.
#[tactic(auto, unfolding(crate::specs::Tests::such_in))]
fn is_such(e: Element<'_>, run: Run, test: Test, kind: Option<usize>) -> bool
    ensures { result ≡ such_in run test kind (of_whole e.entry) }
{
    match run {
        Run::A => asla_passes(e, test, kind),
        Run::B => srlg_passes(e, test, kind),
        Run::C => false,
        Run::BgpLs => tlv_passes(e, test, kind),
    }
}

// The first of a list; nothing that is cut off advertises.
fn first_in<W: Width>(s: &[u8], run: Run, test: Test, kind: Option<usize>) -> Option<Place>
    ensures { held result ≡ first_with run (such_in run test kind) (elements W.BYTES 0 s.now) }
{
    for e in Elements::<W>::new(s, 0) {
        let Ok(e) = e else {
            return None;
        };
        if is_such(e, run, test, kind) {
            return Some(Place { run, offset: e.at });
        }
    }
    None
}

// The first advertisement of a run that passes and, where a kind is asked for by its type in the run's lists, has it; every 238 has SRLGs alone.
#[tactic(auto, unfolding(crate::specs::Walks::first_such, crate::specs::Widths::width_of))]
pub fn first_such(s: &[u8], run: Run, test: Test, kind: Option<usize>) -> Option<Place>
    ensures { held result ≡ first_such run test kind s.now }
{
    match run {
        Run::A | Run::B | Run::C => first_in::<One>(s, run, test, kind),
        Run::BgpLs => first_in::<Two>(s, run, test, kind),
    }
}
