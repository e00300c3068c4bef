// Look-ups in a BGP-LS run that passed its checks.

#![tactic(auto)]

ghost use Rattle.std.specs.Prelude.{◌≡◌, ℕ, ◌+◌, ◌*◌, ◌≤◌, ◌<◌, length, false, ◌&&◌, eqb};
ghost use Rattle.linkstate.specs.Lists.{put, each};
ghost use Rattle.linkstate.specs.BgpLs.{not_ignored, attributes_of, run_side};
ghost use Rattle.bgpls_find.specs.Sets.{attributes_in, is_top, chosen_by, ends_before};
ghost use Rattle.octets.specs.Spans.{found_in};
ghost use Rattle.bgpls_find.specs.Walks.{Uncut, Starts, Passes, Sound, standard_mask, user_mask, NextPart};
ghost use Rattle.bgpls_find.specs.Words.{srlg_words, list_words, element_words};
ghost use Rattle.linkstate.specs.Elements.{elements};
ghost use Rattle.linkstate.specs.Attributes.{of_kind};
ghost use Rattle.linkstate.specs.Sides.{general_set, application_set};

use bgpls_check::{AcceptedRun, AslaHeader, not_ignored, read_asla_header};
use frames::{Element, Two, Whole};
use masks::names;
use octets::Span;

// A set of attributes: the TLVs at the top of the run, or those inside its 1122s: all that are not ignored, the general ones, or those that name an application.
#[derive(Clone, Copy)]
pub enum Set {
    Top,
    Every,
    General,
    Naming(u32),
}

// A list of elements: its first byte, and the byte after it.
#[derive(Clone, Copy)]
pub struct Part {
    pub first: usize,
    pub next: usize,
}

// Whether the mask that an application's bit is in ends before that bit, by the lengths of the masks. `as`: std has no From<u32> for usize.
fn ends_before(h: AslaHeader, set: Set) -> bool
    ensures { result ≡ ends_before set h.standard h.user }
{
    match set {
        Set::Top => false,
        Set::Every => false,
        Set::General => false,
        Set::Naming(a) => {
            if a < 64 {
                return h.standard <= (a / 8) as usize;
            }
            h.user <= ((a - 64) / 8) as usize
        }
    }
}

// Whether an element is a 1122 that is not ignored and that the set takes. The quickest test comes first.
pub fn is_chosen(v: &[u8], code: usize, set: Set) -> bool
    requires { code ≡ 1122 → Sound v.now }
    ensures { result ≡ eqb code 1122 && not_ignored v.now && chosen_by set (standard_mask v.now) (user_mask v.now) }
{
    if code != 1122 {
        return false;
    }
    let h = read_asla_header(v);
    if ends_before(h, set) {
        return false;
    }
    if !not_ignored(h) {
        return false;
    }
    let standard = h.standard;
    let user = h.user;
    let end = 4 + standard;
    match set {
        Set::Top => false,
        Set::Every => true,
        Set::General => (standard == 0) & (user == 0),
        Set::Naming(a) => names(&v[4..end], &v[end..end + user], a),
    }
}

// The next list of elements that a set has attributes in, inside a 1122.
pub fn next_part(r: &[u8], from: usize, set: Set) -> Option<Part>
    requires { (from ≤ length r.now) × (is_top set ≡ false) × Passes r.now from }
    ensures { NextPart set r.now from result }
{
    for Element { at, kind, value } in Whole::<Two>::behind(r, from) {
        if is_chosen(value, kind, set) {
            let h = read_asla_header(value);
            return Some(Part {
                first: at + 8 + h.standard + h.user,
                next: at + 4 + value.len(),
            });
        }
    }
    None
}

// The first element of a code in a list whose first byte is at the offset `base` of the run.
fn first_element(s: &[u8], base: usize, code: usize) -> Option<Span>
    requires { (base + length s.now ≤ 524288) × Uncut base s.now }
    ensures { result ≡ found_in (of_kind code (each attributes_of (elements 2 base s.now))) }
{
    for Element { at, kind, value } in Whole::<Two>::new(s, base) {
        if kind == code {
            return Some(Span {
                place: at + 4,
                len: value.len(),
            });
        }
    }
    None
}

// A set, and the first list of elements that it has attributes in.
#[derive(Clone, Copy)]
pub struct Start {
    pub set: Set,
    pub first: usize,
    pub next: usize,
}

// The first attribute of a kind in a set. A loop, here and below: the next list is looked for only where the one at hand did not end the search.
pub fn first_in(run: AcceptedRun<'_>, start: Start, code: usize) -> Option<Span>
    requires { Starts start.set run.bytes.now start.first start.next }
    ensures { result ≡ found_in (of_kind code (attributes_in start.set run.entry.bytes.now)) }
{
    let r = run.bytes;
    let set = start.set; // the set that is looked in
    let mut first = start.first;
    let mut next = start.next;
    'lists: loop {
        let found = first_element(&r[first..next], first, code);
        if found.is_some() || r.len() <= next { // found, or no part is left
            return found;
        }
        let part = next_part(r, next, set)?;
        first = part.first;
        next = part.next;
    }
}

// The general set.
pub fn general_start(run: AcceptedRun<'_>) -> Start
    ensures begins { Starts result.set run.entry.bytes.now result.first result.next }
    ensures all { attributes_in result.set run.entry.bytes.now ≡ general_set (run_side run.entry.bytes.now) }
{
    match next_part(run.bytes, 0, Set::General) {
        Some(Part { first, next }) => Start {
            set: Set::General,
            first,
            next,
        },
        None => Start {
            set: Set::General,
            first: run.bytes.len(),
            next: run.bytes.len(),
        },
    }
}

// The set that an application other than RSVP-TE gets: of those that name it, else the general one.
pub fn set_of(run: AcceptedRun<'_>, application: u32) -> Start
    ensures begins { Starts result.set run.entry.bytes.now result.first result.next }
    ensures all { attributes_in result.set run.entry.bytes.now ≡ application_set application (run_side run.entry.bytes.now) }
{
    match next_part(run.bytes, 0, Set::Naming(application)) {
        Some(Part { first, next }) => Start {
            set: Set::Naming(application),
            first,
            next,
        },
        None => general_start(run),
    }
}

// ---- the SRLGs of a set

// How many numbers an element has.
fn count_element(v: &[u8], code: usize) -> usize
    ensures { (result ≡ length (element_words code v.now)) × (result * 4 ≤ length v.now) }
{
    if code != 1096 {
        return 0;
    }
    v.len() / 4
}

// How many numbers a list of elements has.
fn count_list(s: &[u8]) -> usize
    requires { (base : ℕ) × Uncut base s.now }
    ensures { (result ≡ length (list_words s.now)) × (result * 4 ≤ length s.now) }
{
    let mut n = 0;
    for e in Whole::<Two>::new(s, 0) {
        n += count_element(e.value, e.kind);
    }
    n
}

// How many numbers a set has: the room that they need.
pub fn count_words(run: AcceptedRun<'_>, start: Start) -> usize
    requires { Starts start.set run.bytes.now start.first start.next }
    ensures { (result ≡ length (srlg_words (attributes_in start.set run.entry.bytes.now))) × (result * 4 ≤ length run.entry.bytes.now) }
{
    let r = run.bytes;
    let set = start.set;
    let mut n = 0;
    let mut first = start.first;
    let mut next = start.next;
    loop {
        n += count_list(&r[first..next]);
        if r.len() <= next { // no part is left
            return n;
        }
        let Some(part) = next_part(r, next, set) else {
            return n;
        };
        first = part.first;
        next = part.next;
    }
}

// The numbers of an element, written from a place of the list on; the place after them.
fn write_element(v: &[u8], code: usize, out: &mut [u32], k: usize) -> usize
    requires { k + length (element_words code v.now) ≤ length out.old }
    ensures { (result ≡ k + length (element_words code v.now)) × (out.new ≡ put out.old k (element_words code v.now)) }
{
    if code != 1096 {
        return k;
    }
    srlg::words_into(v, out, k)
}

// The numbers of a list of elements, likewise.
fn write_list(s: &[u8], out: &mut [u32], start: usize) -> usize
    requires { (start + length (list_words s.now) ≤ length out.old) × ((base : ℕ) × Uncut base s.now) }
    ensures { (result ≡ start + length (list_words s.now)) × (out.new ≡ put out.old start (list_words s.now)) }
{
    let mut k = start;
    for e in Whole::<Two>::new(s, 0) {
        k = write_element(e.value, e.kind, out, k);
    }
    k
}

// The n numbers of a set, written to the front of the list.
pub fn write_words(r: &[u8], start: Start, n: usize, out: &mut [u32])
    requires { Starts start.set r.now start.first start.next × (n ≡ length (srlg_words (attributes_in start.set r.now))) × (n ≤ length out.old) }
    ensures { out.new ≡ put out.old 0 (srlg_words (attributes_in start.set r.now)) }
{
    let set = start.set;
    let mut k = 0;
    let mut first = start.first;
    let mut next = start.next;
    loop {
        k = write_list(&r[first..next], out, k);
        if n <= k {
            return;
        }
        let Some(part) = next_part(r, next, set) else {
            return;
        };
        first = part.first;
        next = part.next;
    }
}
