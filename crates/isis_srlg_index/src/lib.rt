// The sources of SRLGs of an IS-IS link: the numbers of run B's TLVs 238 and of run C as keys, each with the source that has it (document 01, "Who gets what").

#![tactic(auto)]

ghost use Rattle.std.specs.Prelude.{◌≡◌, true, false, ℕ, ◌+◌, ◌*◌, ◌/◌, ◌≤◌, ◌<◌, length, take};
ghost use Rattle.linkstate.specs.Replies.{accepted, run_b};
ghost use Rattle.linkstate.specs.Elements.{element, elements, faults};
ghost use Rattle.srlg_table.specs.Blocks.{named_by};
ghost use Rattle.srlg_classes.specs.Sided.{Carried};
ghost use Rattle.isis.specs.MaskHeader.{l_flag};
ghost use Rattle.isis.specs.RunB.{check_b, live_srlg, side_b};
ghost use Rattle.isis_srlg_index.specs.Sources.{Passed, Readable, Lives, Reads, RoomAt, Adds, Gathered, Unused, WithLegacy, Room, Ready, Indexes};

use frames::{One, Whole};
use isis_check_a::Header;
use masks::Applications;
use rules::Names;
use srlg_sources::Keys;

// What a TLV of run B says of SRLGs: whether its numbers are general ones, or for whom they are, and where in its value they begin.
#[derive(Clone, Copy)]
struct Tlv {
    general: bool,
    who: Applications,
    start: usize,
}

// A live TLV 238 without L, by what follows its neighbour bytes and has the header h.
fn live_tlv(v: &[u8], h: Header) -> Tlv
    requires { Readable v.now h }
    ensures { Lives v.now result }
{
    let who = masks::with_masks(masks::nobody(), v, 2, h.standard, h.user);
    let length_byte = 2 + h.standard + h.user;
    let identifiers = usize::from(v[length_byte]);
    Tlv {
        general: (h.standard == 0) & (h.user == 0),
        who,
        start: 7 + length_byte + 1 + identifiers,
    }
}

// Whether its identifiers tell the link, which is all that a TLV 238 without L and with masks that can be read needs to be live.
fn tells_link(v: &[u8], h: Header) -> bool
    requires { Readable v.now h × (l_flag v.now ≡ false) }
    ensures { (at : ℕ) → result ≡ live_srlg at v.now }
{
    let length_byte = isis_check_a::header_length(h);
    let list = length_byte + 1;
    let end = list + usize::from(v[length_byte]);
    isis_check::identifies_link(&v[list..end])
}

// A TLV of run B, if it has a number that is read: none is with L.
fn read_tlv(t: usize, value: &[u8]) -> Option<Tlv>
    requires { Passed t value.now × (length value.now ≤ 2048) }
    ensures { (at : ℕ) → Reads (element at t value.now) value.now result }
{
    if t != 238 {
        return None;
    }
    let v = &value[7..];
    let h = isis_check_a::read_header(v);
    let unread = h.l;
    if unread {
        return None;
    }
    if isis_check_a::mask_too_long(h) {
        return None;
    }
    if !tells_link(v, h) {
        return None;
    }
    Some(live_tlv(v, h))
}

// The keys of one TLV of run B, behind those that are there.
fn add_tlv(t: usize, value: &[u8], keys: &mut [u64], rows: &mut [[u64; 18]], k: Keys) -> Keys
    requires { RoomAt t value.now keys.old rows.old k }
    ensures by_index { (at : ℕ) → Adds (element at t value.now) keys.old rows.old k result keys.new rows.new }
    ensures count_bound { (result.count ≤ k.count + length value.now / 4) × (27 * result.sources ≤ 27 * k.sources + 2 + length value.now) }
{
    let Some(tlv) = read_tlv(t, value) else {
        return k;
    };
    let start = tlv.start;
    if value.len() - start < 4 {
        return k;
    }
    if tlv.general {
        let count = srlg_sources::add_words(&value[start..], 1, keys, k.count);
        return Keys {
            count,
            sources: k.sources,
        };
    }
    let who = tlv.who;
    if who.standard | who.user == 0 {
        return k;
    }
    srlg_sources::add_source(&value[start..], who.standard, who.user, keys, rows, k)
}

// The keys of run B's TLVs, in byte order at the front of the list, and a row for each source. Source 0 has none yet.
fn gather_b(b: &[u8], keys: &mut [u64], rows: &mut [[u64; 18]]) -> Keys
    requires { (faults run_b check_b (elements 1 0 b.now) ≡ accepted) × Room (length b.now) 0 (length keys.old) (length rows.old) }
    ensures { Gathered b.now keys.old keys.new rows.new result × (result.count ≤ length b.now / 4) }
{
    let none = [0u64; 18];
    rows[0] = none;
    rows[1] = none;
    let mut k = Keys {
        count: 0,
        sources: 2,
    };
    for e in Whole::<One>::new(b, 0) {
        k = add_tlv(e.kind, e.value, keys, rows, k);
    }
    k
}

// Whether the row of a source names RSVP-TE, which is bit 7 of a standard mask as sent.
fn names_rsvp_te(rows: &[[u64; 18]], sources: usize) -> bool
    requires { sources ≤ length rows.now }
    ensures { result ≡ true → (j : ℕ) × (1 < j) × (j < sources) × (named_by rows.now j 7 ≡ true) }
{
    for j in 2..sources {
        if masks::has(rows[j][16], 7) {
            return true;
        }
    }
    false
}

// Whether somebody can get a legacy number: one that is named with L, or RSVP-TE where no TLV has a number for it.
fn legacy_used(named: Names, rows: &[[u64; 18]], sources: usize) -> bool
    requires { sources ≤ length rows.now }
    ensures { result ≡ false → Unused named rows.now sources }
{
    let flagged = named.flagged;
    if flagged.standard | flagged.user != 0 {
        return true;
    }
    !names_rsvp_te(rows, sources)
}

// Behind the keys of run B those of run C, as far as somebody can get them. Source 0 is theirs.
fn add_legacy(c: &[u8], named: Names, keys: &mut [u64], rows: &[[u64; 18]], k: Keys) -> Keys
    requires { (k.count + length c.now / 4 ≤ length keys.old) × (k.sources ≤ length rows.now) }
    ensures with_legacy { WithLegacy c.now named keys.old rows.now k result keys.new }
    ensures count_bound { result.count ≤ k.count + length c.now / 4 }
{
    if !legacy_used(named, rows, k.sources) {
        return k;
    }
    let count = srlg_sources::add_words(c, 0, keys, k.count);
    Keys {
        count,
        sources: k.sources,
    }
}

// The numbers of a link as keys, and a row for each source: 0 legacy, as far as somebody can get it, 1 general,
// and one for each TLV 238 that names somebody and has a number.
pub fn gather(b: &[u8], c: &[u8], named: Names, keys: &mut [u64], rows: &mut [[u64; 18]]) -> Keys
    requires { Ready b.now c.now named (length keys.old) (length rows.old) }
    ensures carried { Carried (take result.count keys.new) rows.new result.sources (side_b b.now c.now) }
    ensures count_in_bounds { (result.count ≤ length keys.old) × (result.count ≤ 768) }
{
    let k = gather_b(b, keys, rows);
    add_legacy(c, named, keys, rows, k)
}

// How many different numbers a link has, and how many sources.
#[derive(Clone, Copy)]
pub struct Indexed {
    pub count: usize,
    pub sources: usize,
}

// The different numbers of a link, ascending at the front of a list, and a row for each source with the bits of its numbers. The keys are room to work in.
pub fn index_srlgs(
    b: &[u8],
    c: &[u8],
    named: Names,
    keys: &mut [u64],
    values: &mut [u64],
    rows: &mut [[u64; 18]],
) -> Indexed
    requires { Ready b.now c.now named (length keys.old) (length rows.old) × (length keys.old ≤ length values.old) }
    ensures { Indexes (side_b b.now c.now) values.new rows.new result }
{
    let k = gather(b, c, named, keys, rows);
    let count = srlg_sources::order(keys, values, rows, k.count);
    Indexed {
        count,
        sources: k.sources,
    }
}
