// The checks of run A: framing, the mask header of an ASLA sub-TLV, and the lengths of attributes (document 01, "Advertisements in A").

#![tactic(auto)]

ghost use Rattle.std.specs.Prelude.{◌≡◌, ◌&&◌, List, [], ◌∷◌, ℕ, ◌+◌, ◌≤◌, ◌<◌, length, drop};
ghost use Rattle.linkstate.specs.Replies.{run_a};
ghost use Rattle.linkstate.specs.Lists.{member};
ghost use Rattle.linkstate.specs.Elements.{element, elements, faults, faults_once};
ghost use Rattle.replies.specs.Told.{told_checked};
ghost use Rattle.rules.specs.Names.{ChecksBehind, ChecksSide};
ghost use Rattle.isis.specs.Types.{wrong_in_a};
ghost use Rattle.repeats.specs.Walked.{Walked};
ghost use Rattle.isis.specs.RunA.{check_attribute, known_type, check_asla, check_a, asla_advertisements, side_a};
ghost use Rattle.isis_check_a.specs.Legacy.{for_applications};
ghost use Rattle.isis_check_a.specs.Headers.{header_of, too_long, for_nobody, bytes_before, masks_in, value_in};

use frames::{Element, Elements, One};
use replies::{Reason, Refusal, Run, refuse_at};
use rules::{Names, SideNames};

// The first bytes of an ASLA, and of what follows the neighbour in a TLV 238: the L-flag, and how many bytes each mask has.
#[derive(Clone, Copy)]
pub struct Header {
    pub l: bool,
    pub standard: usize,
    pub user: usize,
}

pub fn read_header(v: &[u8]) -> Header
    requires { 2 ≤ length v.now }
    ensures { (result ≡ header_of v.now) × (result.standard < 128) × (result.user < 128) }
{
    let first = v[0];
    let second = v[1];
    Header {
        l: 128 <= first,
        standard: (first % 128) as usize,
        user: (second % 128) as usize,
    }
}

// A mask of more than 8 bytes: the advertisement is ignored unread.
pub fn mask_too_long(h: Header) -> bool
    ensures { result ≡ too_long h }
{
    8 < h.standard || 8 < h.user
}

// The L-flag with two empty masks: the advertisement is ignored.
pub fn l_for_nobody(h: Header) -> bool
    ensures { result ≡ for_nobody h }
{
    h.l && h.standard == 0 && h.user == 0
}

// How many bytes stand before what follows the masks.
pub fn header_length(h: Header) -> usize
    requires { (h.standard < 128) × (h.user < 128) }
    ensures { result ≡ bytes_before h }
{
    2 + h.standard + h.user
}

// The masks of an advertisement are longer than its value: they would end here.
#[derive(Clone, Copy)]
pub struct Past {
    pub end: usize,
}

// Where the masks of a header end in a value of n bytes, its two length bytes among them; nowhere where the advertisement is ignored.
pub fn masks_within(h: Header, n: usize) -> Result<Option<usize>, Past>
    requires { (h.standard < 128) × (h.user < 128) }
    ensures { result ≡ masks_in h n }
{
    let end = header_length(h);
    let past = n < end;
    if mask_too_long(h) {
        return Ok(None);
    }
    if past {
        return Err(Past { end });
    }
    Ok(Some(end))
}

// Whether the type is known and does not let a value have n bytes, by its rule.
fn wrong_by_rule(t: usize, n: usize) -> bool
    ensures { result ≡ wrong_in_a t n }
{
    let rule = isis_kinds::classify_type(t);
    let size = rule.size;
    !kinds::fits(size, n)
}

// The same; the lengths that most values have are tested first. The bits are those of the types that four bytes do not fit.
fn wrong_length(t: usize, n: usize) -> bool
    ensures { result ≡ wrong_in_a t n }
{
    if n == 4 {
        let unfit: u64 = 0x400040800;
        if !masks::has(unfit, (t % 64) as u32) {
            return false;
        }
    }
    if (n == 3) & (t == 18) {
        return false;
    }
    if (n == 8) & (t == 34) {
        return false;
    }
    if (n == 8) & (t == 14) {
        return false;
    }
    wrong_by_rule(t, n)
}

// Whether run A knows the type.
fn is_known(t: usize) -> bool
    ensures { result ≡ known_type t }
{
    let kind = isis_kinds::classify_type(t).kind;
    kind.is_known()
}

// Whether the type is known and stands before a place in its list.
fn known_before(s: &[u8], from: usize, at: usize, t: usize) -> bool
    requires { (ts : List ℕ) × Walked 1 s.now at from ts }
    ensures { (ts : List ℕ) → Walked 1 s.now at from ts → result ≡ known_type t && member t ts }
{
    is_known(t) && repeats::stood::<One>(s, from, at, t)
}

// The attribute list that stands in run A from a place on, as far as s goes.
fn check_list(s: &[u8], from: usize) -> Result<(), Refusal>
    requires { from ≤ length s.now }
    ensures { told_checked result ≡ faults_once run_a known_type check_attribute [] (elements 1 from (drop from s.now)) }
{
    let mut seen: u64 = 0;
    for e in Elements::<One>::behind(s, from) {
        let Element { at, kind, value } = match e {
            Ok(e) => e,
            Err(cut) => return Err(refuse_at(Reason::Cut, Run::A, cut.at)),
        };
        if wrong_length(kind, value.len()) {
            return Err(refuse_at(Reason::Length, Run::A, at));
        }
        let doubt = repeats::may_have_stood(seen, kind);
        seen = repeats::with_kind(seen, kind);
        if doubt {
            if known_before(s, from, at, kind) {
                return Err(refuse_at(Reason::Twice, Run::A, at));
            }
        }
    }
    Ok(())
}

// The ASLA sub-TLV that stands in run A from one place to another, behind elements that name `names`. With L its list is not read, whoever it names.
fn check_asla(a: &[u8], at: usize, end: usize, names: Names) -> Result<Names, Refusal>
    requires { (at + 2 ≤ end) × (end ≤ length a.now) × (length a.now < 4294967296) }
    ensures { ChecksBehind names (check_asla at (value_in a.now at end)) (asla_advertisements (element at 16 (value_in a.now at end))) result }
{
    let value = at + 2;
    if end < value + 2 {
        return Err(refuse_at(Reason::Cut, Run::A, at));
    }
    let h = read_header(&a[value..end]);
    let Ok(masks) = masks_within(h, end - value) else {
        return Err(refuse_at(Reason::Cut, Run::A, at));
    };
    let Some(list) = masks else {
        return Ok(names);
    };
    let all = names.with_advertisement(h.l, h.standard, h.user, a, value + 2);
    let l = h.l;
    if l {
        return Ok(all);
    }
    check_list(&a[0..end], value + list)?;
    Ok(all)
}

// Whether a type carries a kind of applications: 3, 14, 18 or 33 to 39, each a bit of the number.
fn for_applications(t: usize) -> bool
    ensures { result ≡ for_applications t }
{
    if 40 <= t {
        return false;
    }
    masks::has(0xFE00044008, t as u32)
}

// Run A whole: its refusal, or the applications that it names, those that it names with L, and whether a kind of applications stands outside its ASLA sub-TLVs.
pub fn check_a(a: &[u8]) -> Result<SideNames, Refusal>
    requires { length a.now < 4294967296 }
    ensures { ChecksSide (faults run_a check_a (elements 1 0 a.now)) (side_a a.now) result }
{
    let mut names = Names::nobody();
    let mut legacy = false;
    for e in Elements::<One>::new(a, 0) {
        let Element { at, kind, value } = match e {
            Ok(e) => e,
            Err(cut) => return Err(refuse_at(Reason::Cut, Run::A, cut.at)),
        };
        if kind == 16 {
            names = check_asla(a, at, at + 2 + value.len(), names)?;
        } else {
            if wrong_length(kind, value.len()) {
                return Err(refuse_at(Reason::Length, Run::A, at));
            }
            legacy = legacy | for_applications(kind);
        }
    }
    Ok(SideNames { names, legacy })
}
