// The checks of an IS-IS link: all that can refuse it, in document 01's order.

#![tactic(auto)]

ghost use Rattle.std.specs.Prelude.{◌≡◌, List, [], ◌∷◌, ℕ, ◌+◌, ◌≤◌, ◌<◌, length, ◌||◌, ltb};
ghost use Rattle.linkstate.specs.Replies.{run_b};
ghost use Rattle.linkstate.specs.Elements.{element, elements, faults};
ghost use Rattle.rules.specs.Names.{Checks, ChecksBehind};
ghost use Rattle.isis_check_a.specs.Headers.{header_of, value_in};
ghost use Rattle.isis.specs.RunB.{check_identifier, check_b, live_srlg, srlg_advertisements, side_b};
ghost use Rattle.isis_check.specs.Identifiers.{known_of, tally_of, identified_by, identified_in, once_and_paired, identifiers_in, Lists};
ghost use Rattle.isis_check.specs.Parts.{parts_verdict, behind_in, Within, Judges};
ghost use Rattle.isis_check.specs.Sides.{ChecksLink};

use frames::{Element, Elements, One};
use isis_check_a::Header;
use replies::{Reason, Refusal, Run, refuse_at, refuse_call};
use rules::{Names, SideNames};

// A known type of link identifier: the length of its value, and its weight in a tally of types.
#[derive(Clone, Copy)]
pub struct Known {
    pub length: usize,
    pub weight: u64,
}

fn known_identifier(t: usize) -> Option<Known>
    ensures { result ≡ known_of t }
{
    let (length, weight) = match t {
        4 => (8, 1),
        6 => (4, 256),
        8 => (4, 65536),
        12 => (16, 16777216),
        13 => (16, 4294967296),
        _ => return None,
    };
    Some(Known { length, weight })
}

// The identifier list that stands in run B from a place on, as far as s goes, in one walk: its first refusal, or how often each known type stands in it, a byte
// of the tally for each.
fn read_identifiers(s: &[u8], from: usize) -> Result<u64, Refusal>
    requires { (from ≤ length s.now) × (length s.now < from + 256) }
    ensures { Lists (faults run_b check_identifier (identifiers_in s.now from)) (identifiers_in s.now from) result }
{
    let mut tally: u64 = 0;
    for e in Elements::<One>::behind(s, from) {
        let Element { at, kind, value } = match e {
            Ok(e) => e,
            Err(cut) => return Err(refuse_at(Reason::Cut, Run::B, cut.at)),
        };
        if let Some(known) = known_identifier(kind) {
            if value.len() != known.length {
                return Err(refuse_at(Reason::Length, Run::B, at));
            }
            tally = tally + known.weight;
        }
    }
    Ok(tally)
}

// How often each known type stands in an identifier list: a byte of the tally for each.
fn tally_identifiers(s: &[u8]) -> u64
    requires { length s.now < 256 }
    ensures { result ≡ tally_of (elements 1 0 s.now) }
{
    let mut tally: u64 = 0;
    for e in Elements::<One>::new(s, 0) {
        let Ok(e) = e else {
            continue;
        };
        if let Some(known) = known_identifier(e.kind) {
            tally = tally + known.weight;
        }
    }
    tally
}

// By the counts of types 4, 6, 8, 12 and 13: none is there twice, and a 4, both 6 and 8, or both 12 and 13 are.
fn identifies(a: u64, b: u64, c: u64, d: u64, e: u64) -> bool
    ensures { result ≡ identified_by a b c d e }
{
    if 1 < a {
        return false;
    }
    if 1 < b {
        return false;
    }
    if 1 < c {
        return false;
    }
    if 1 < d {
        return false;
    }
    if 1 < e {
        return false;
    }
    if a == 1 {
        return true;
    }
    if b + c == 2 {
        return true;
    }
    d + e == 2
}

// The same by a tally; most lists have a 4 and no other known type.
fn tally_identifies(tally: u64) -> bool
    ensures { result ≡ identified_in tally }
{
    if tally == 1 {
        return true;
    }
    identifies(
        tally % 256,
        tally / 256 % 256,
        tally / 65536 % 256,
        tally / 16777216 % 256,
        tally / 4294967296 % 256,
    )
}

// Whether an identifier list identifies the link: no known type repeats, and a 4, both 6 and 8, or both 12 and 13 are there.
pub fn identifies_link(s: &[u8]) -> bool
    requires { length s.now < 256 }
    ensures { (base : ℕ) → result ≡ once_and_paired (elements 1 base s.now) }
{
    tally_identifies(tally_identifiers(s))
}

// The identifiers, then the SRLG values, of the TLV 238 that stands in run B from `at` to `end`; its identifiers stand from `list` to `values`.
// An odd rest is a fault only without L, and where the identifiers identify the link. Where there is none: whether the TLV is live, unless it has L for nobody.
fn check_parts(
    b: &[u8],
    l: bool,
    list: usize,
    values: usize,
    end: usize,
    at: usize,
) -> Result<bool, Refusal>
    requires { Within b.now l list values end at × (length b.now < 4294967296) }
    ensures { Judges (parts_verdict at (behind_in b.now at end)) at (behind_in b.now at end) result }
{
    let tally = read_identifiers(&b[0..values], list)?;
    if !tally_identifies(tally) {
        return Ok(false);
    }
    if (end - values) % 4 == 0 {
        return Ok(true);
    }
    if l {
        return Ok(true);
    }
    Err(refuse_at(Reason::Length, Run::B, at))
}

// The TLV 238 that stands in run B from `at` to `end`, by its header.
fn check_srlg(b: &[u8], h: Header, at: usize, end: usize) -> Result<bool, Refusal>
    requires { (at + 11 ≤ end) × (end ≤ length b.now) × (length b.now < 4294967296) × (h ≡ header_of (behind_in b.now at end)) × (h.standard < 128) × (h.user < 128) }
    ensures { Judges (check_b at 238 (value_in b.now at end)) at (behind_in b.now at end) result }
{
    let head = at + 9;
    let Ok(masks) = isis_check_a::masks_within(h, end - head - 1) else {
        return Err(refuse_at(Reason::Cut, Run::B, at));
    };
    let Some(masks) = masks else {
        return Ok(false);
    };
    let list = head + masks + 1;
    let values = list + usize::from(b[head + masks]);
    if end < values {
        return Err(refuse_at(Reason::Cut, Run::B, at));
    }
    let l = h.l;
    check_parts(b, l, list, values, end, at)
}

// The same TLV, behind elements that name `names`.
fn check_tlv(b: &[u8], at: usize, end: usize, names: Names) -> Result<Names, Refusal>
    requires { (at + 2 ≤ end) × (end ≤ length b.now) × (length b.now < 4294967296) }
    ensures { ChecksBehind names (check_b at 238 (value_in b.now at end)) (srlg_advertisements (element at 238 (value_in b.now at end))) result }
{
    let head = at + 9;
    if end < head + 2 {
        return Err(refuse_at(Reason::Cut, Run::B, at));
    }
    let h = isis_check_a::read_header(&b[head..end]);
    let live = check_srlg(b, h, at, end)?;
    if !live {
        return Ok(names);
    }
    Ok(names.with_advertisement(h.l, h.standard, h.user, b, head + 2))
}

// Run B whole: its refusal, or the applications that it names, and those that it names with L.
pub fn check_b(b: &[u8]) -> Result<Names, Refusal>
    requires { length b.now < 4294967296 }
    ensures { (c : List ℕ) → Checks (faults run_b check_b (elements 1 0 b.now)) (side_b b.now c).live result }
{
    let mut names = Names::nobody();
    for e in Elements::<One>::new(b, 0) {
        let Element { at, kind, value } = match e {
            Ok(e) => e,
            Err(cut) => return Err(refuse_at(Reason::Cut, Run::B, cut.at)),
        };
        if kind == 238 {
            names = check_tlv(b, at, at + 2 + value.len(), names)?;
        }
    }
    Ok(names)
}

// Whether a TLV 238 is live, by what follows its neighbour bytes: any bytes, also those of a TLV that the checks refuse.
pub fn live_srlg(v: &[u8]) -> bool
    ensures { (at : ℕ) → result ≡ live_srlg at v.now }
{
    if v.len() < 2 {
        return false;
    }
    let h = isis_check_a::read_header(v);
    if isis_check_a::l_for_nobody(h) {
        return false;
    }
    let Ok(masks) = isis_check_a::masks_within(h, v.len() - 1) else {
        return false;
    };
    let Some(length_byte) = masks else {
        return false;
    };
    let list = length_byte + 1;
    let end = (list + usize::from(v[length_byte])).min(v.len());
    identifies_link(&v[list..end])
}

// Whether a run is longer than it may be, by the lengths of runs A, B and C.
fn too_long(a: usize, b: usize, c: usize) -> bool
    ensures { result ≡ ltb 2048 a || ltb 2048 b || ltb 1024 c }
{
    if 2048 < a {
        return true;
    }
    if 2048 < b {
        return true;
    }
    1024 < c
}

// Whom the two sides of a link name, and whether their legacy attributes have a value of the kinds of applications.
#[derive(Clone, Copy)]
pub struct Sides {
    pub a: SideNames,
    pub b: SideNames,
}

// Side B: run B whole; most links have none.
fn check_side_b(b: &[u8]) -> Result<Names, Refusal>
    requires { length b.now < 4294967296 }
    ensures { (c : List ℕ) → Checks (faults run_b check_b (elements 1 0 b.now)) (side_b b.now c).live result }
{
    if b.len() == 0 {
        return Ok(Names::nobody());
    }
    check_b(b)
}

// Checks a link before anything is read from it. `a` holds the sub-TLVs of its neighbour entry, `b` its TLVs 238, `c` its legacy SRLG values.
// Takes any bytes, walks each run once, and keeps nothing.
// Accepted, with whom its sides name and whether their legacy has a value: every question to the link and its export can be answered from these runs, and the rule of a question is known by the names
// before a value is looked for.
// Refused: the first fault by its number, 1 a run too long, 2 run C no multiple of 4 bytes, 3 an element, mask or list cut off, 4 a wrong length;
// 1 and 2 name run A and offset 0, 3 and 4 the run and the first byte of the innermost element at fault.
pub fn check_sides(a: &[u8], b: &[u8], c: &[u8]) -> Result<Sides, Refusal>
    ensures { ChecksLink a.now b.now c.now result }
{
    if too_long(a.len(), b.len(), c.len()) {
        return Err(refuse_call(Reason::TooLong));
    }
    if c.len() % 4 != 0 {
        return Err(refuse_call(Reason::OddSrlgs));
    }
    let side_a = isis_check_a::check_a(a)?;
    let names = check_side_b(b)?;
    Ok(Sides {
        a: side_a,
        b: SideNames {
            names,
            legacy: c.len() != 0,
        },
    })
}
