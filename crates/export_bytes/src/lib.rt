// An export, from the tables of a link's sets, SRLGs and groups: measured first, and written only where it fits (document 01, "BGP-LS bytes").

#![tactic(auto)]

ghost use Rattle.std.specs.Prelude.{◌≡◌, ◌-◌, ◌≤◌, ◌<◌, ℕ, ◌+◌, length, get_or};
ghost use Rattle.linkstate.specs.Limits.{most_numbers};
ghost use Rattle.set_bytes.specs.Standing.{count_in, numbers_in, Written as Wrote};
ghost use Rattle.export_bytes.specs.Sizes.{asla_of, set_size, asla_size, row_size, link_size, first_entry, sum_from, entry_size, whole_size, Measurable};
ghost use Rattle.linkstate.specs.Lists.{put};
ghost use Rattle.linkstate.specs.Meaning.{Meaning};
ghost use Rattle.linkstate.specs.Export.{export};
ghost use Rattle.replies.specs.Told.{told_exported};
ghost use Rattle.tlv_bytes.specs.Tlvs.{in_tlvs};
ghost use Rattle.grids.specs.Slots.{cell, cell_row, IsSet};
ghost use Rattle.set_bytes.specs.Sets.{low_codes};
ghost use Rattle.export_bytes.specs.Whole.{asla_tlv, asla_tlvs, top_set, whole_bytes, Tables, Entered, Open, answered};
ghost use Rattle.export_bytes.specs.Describes.{Describes};

use grids::Sets;
use masks::Applications;
use replies::{Reason, Refusal};
use set_bytes::Srlgs;

// An ASLA TLV: its members, and the slot and the class of its set.
#[derive(Clone, Copy)]
pub struct Asla {
    pub members: Applications,
    pub slot: usize,
    pub class: usize,
}

impl Asla {
    // That of an entry of the groups.
    pub fn read(h: &[u64; 3]) -> Asla
        ensures { result ≡ asla_of h.now }
    {
        let members = Applications {
            standard: h[0],
            user: h[1],
        };
        Asla {
            members,
            slot: set_groups::slot_in(h[2]),
            class: set_groups::class_in(h[2]),
        }
    }

    // How many bytes it has.
    fn size(self, sets: Sets<'_>, srlgs: Srlgs<'_>) -> usize
        requires { (self.slot < length sets.rows.now) × (self.class < length srlgs.classes.now) × (count_in srlgs.classes.now self.class ≤ most_numbers) }
        ensures { (result ≡ asla_size sets.entry.rows.now srlgs.entry.classes.now self) × (result ≤ 5000000024) }
    {
        tlv_bytes::front_size(self.members) + set_size(sets, srlgs, self.slot, self.class)
    }

    // Its TLV: the front with the size of the set, then the set; the place after it.
    fn write(
        self,
        sets: Sets<'_>,
        srlgs: Srlgs<'_>,
        places: &mut [usize],
        out: &mut [u8],
        at: usize,
    ) -> usize
        requires { Open sets.run.now sets.rows.now srlgs.values.now srlgs.rows.now srlgs.classes.now places.old out.old at × IsSet sets.rows.now self.slot × (self.class < length srlgs.classes.now) × (at + length (asla_tlv sets.run.now sets.rows.now (numbers_in srlgs.values.now srlgs.rows.now srlgs.classes.now) self) ≤ length out.old) }
        ensures { Wrote (numbers_in srlgs.entry.values.now srlgs.entry.rows.now srlgs.entry.classes.now) out.old at (asla_tlv sets.entry.run.now sets.entry.rows.now (numbers_in srlgs.entry.values.now srlgs.entry.rows.now srlgs.entry.classes.now) self) result places.new out.new }
    {
        let size = set_size(sets, srlgs, self.slot, self.class);
        let inner = tlv_bytes::write_front(self.members, size, out, at);
        let g = &sets.rows[self.slot];
        set_bytes::write_set(sets.run, g, srlgs, places, self.class, out, inner)
    }
}

// How many bytes the TLVs of a set have: of its slot, and of its class.
pub fn set_size(sets: Sets<'_>, srlgs: Srlgs<'_>, s: usize, c: usize) -> usize
    requires { (s < length sets.rows.now) × (c < length srlgs.classes.now) × (count_in srlgs.classes.now c ≤ most_numbers) }
    ensures { (result ≡ set_size sets.entry.rows.now srlgs.entry.classes.now s c) × (result ≤ 5000000000) }
{
    sets.rows[s][11] as usize + srlgs.size(c)
}

// How many bytes the TLV of a bandwidth of the link has, none where it has no value.
fn bandwidth_size(sets: &[[u32; 12]], k: usize) -> usize
    requires { (2 < length sets.now) × (k < 3) }
    ensures { (result ≡ row_size (cell_row (cell sets.now 2 k))) × (result ≤ 65540) }
{
    match grids::value_at(sets, 2, k) {
        Some(v) => tlv_bytes::value_size(v.len),
        None => 0,
    }
}

// How many bytes the TLVs of the link's bandwidths have.
fn link_size(sets: &[[u32; 12]]) -> usize
    requires { 2 < length sets.now }
    ensures { (result ≡ link_size sets.now 3) × (result ≤ 200000) }
{
    let mut total = 0;
    for k in 0..3 {
        total += bandwidth_size(sets, k);
    }
    total
}

// The number of the first entry that is written: the general set's, which is entry 0, unless it is empty.
pub fn first_entry(sets: Sets<'_>, srlgs: Srlgs<'_>, groups: &[[u64; 3]]) -> usize
    requires { Measurable sets.rows.now srlgs.classes.now groups.now }
    ensures { (result ≡ first_entry sets.entry.rows.now srlgs.entry.classes.now groups.now) × (result ≤ 1) }
{
    let e = Asla::read(&groups[0]);
    if set_size(sets, srlgs, e.slot, e.class) == 0 {
        return 1;
    }
    0
}

// How many bytes the ASLA TLVs of entries have, from one on.
fn aslas_size(sets: Sets<'_>, srlgs: Srlgs<'_>, groups: &[[u64; 3]], first: usize) -> usize
    requires { Measurable sets.rows.now srlgs.classes.now groups.now × (first ≤ 1) }
    ensures { (result ≡ sum_from (entry_size sets.entry.rows.now srlgs.entry.classes.now groups.now) first (length groups.now - first)) × (result ≤ 640000003072) }
{
    let mut total = 0;
    for h in &groups[first..] {
        total += Asla::read(h).size(sets, srlgs);
    }
    total
}

// The slot and the class of RSVP-TE's set.
#[derive(Clone, Copy)]
pub struct Top {
    pub slot: usize,
    pub class: usize,
}

// How many bytes all TLVs have, with RSVP-TE's set.
pub fn measure(
    sets: Sets<'_>,
    srlgs: Srlgs<'_>,
    groups: &[[u64; 3]],
    first: usize,
    top: Top,
) -> usize
    requires { Measurable sets.rows.now srlgs.classes.now groups.now × (first ≤ 1) × (top.slot < length sets.rows.now) × (top.class < length srlgs.classes.now) }
    ensures { result ≡ whole_size sets.entry.rows.now srlgs.entry.classes.now groups.now first top.slot top.class }
{
    let link = link_size(sets.rows);
    let own = set_size(sets, srlgs, top.slot, top.class);
    let aslas = aslas_size(sets, srlgs, groups, first);
    link + own + aslas
}

// The ASLA TLVs of entries, from one on; the place after them.
fn write_aslas(
    sets: Sets<'_>,
    srlgs: Srlgs<'_>,
    places: &mut [usize],
    groups: &[[u64; 3]],
    first: usize,
    out: &mut [u8],
    at: usize,
) -> usize
    requires { Open sets.run.now sets.rows.now srlgs.values.now srlgs.rows.now srlgs.classes.now places.old out.old at × Entered sets.rows.now srlgs.classes.now groups.now × (first ≤ 1) × (at + length (asla_tlvs sets.run.now sets.rows.now (numbers_in srlgs.values.now srlgs.rows.now srlgs.classes.now) groups.now first (length groups.now - first)) ≤ length out.old) }
    ensures { Wrote (numbers_in srlgs.entry.values.now srlgs.entry.rows.now srlgs.entry.classes.now) out.old at (asla_tlvs sets.entry.run.now sets.entry.rows.now (numbers_in srlgs.entry.values.now srlgs.entry.rows.now srlgs.entry.classes.now) groups.now first (length groups.now - first)) result places.new out.new }
{
    let mut next = at;
    for e in &groups[first..] {
        next = Asla::read(e).write(sets, srlgs, places, out, next);
    }
    next
}

// What stands at the top before the ASLA TLVs: the first kind, the link's bandwidths, and the kinds up to 1120; the place after them.
fn write_low(
    sets: Sets<'_>,
    srlgs: Srlgs<'_>,
    places: &mut [usize],
    top: Top,
    out: &mut [u8],
) -> usize
    requires { Open sets.run.now sets.rows.now srlgs.values.now srlgs.rows.now srlgs.classes.now places.old out.old 0 × IsSet sets.rows.now top.slot × (top.class < length srlgs.classes.now) × (length (in_tlvs (top_set sets.run.now sets.rows.now (numbers_in srlgs.values.now srlgs.rows.now srlgs.classes.now) top.slot top.class) low_codes) ≤ length out.old) }
    ensures { Wrote (numbers_in srlgs.entry.values.now srlgs.entry.rows.now srlgs.entry.classes.now) out.old 0 (in_tlvs (top_set sets.entry.run.now sets.entry.rows.now (numbers_in srlgs.entry.values.now srlgs.entry.rows.now srlgs.entry.classes.now) top.slot top.class) low_codes) result places.new out.new }
{
    let g = &sets.rows[top.slot];
    let first = set_bytes::write_kind(sets.run, g, 1088, out, 0);
    let bandwidths = set_bytes::write_bandwidths(sets, out, first);
    set_bytes::write_middle(sets.run, g, srlgs, places, top.class, out, bandwidths)
}

// All TLVs, ascending by type, from the buffer's front on; how many bytes they have.
fn write_whole(
    sets: Sets<'_>,
    srlgs: Srlgs<'_>,
    places: &mut [usize],
    groups: &[[u64; 3]],
    first: usize,
    top: Top,
    out: &mut [u8],
) -> usize
    requires { Open sets.run.now sets.rows.now srlgs.values.now srlgs.rows.now srlgs.classes.now places.old out.old 0 × Entered sets.rows.now srlgs.classes.now groups.now × (first ≤ 1) × IsSet sets.rows.now top.slot × (top.class < length srlgs.classes.now) × (length (whole_bytes sets.run.now sets.rows.now (numbers_in srlgs.values.now srlgs.rows.now srlgs.classes.now) groups.now first top.slot top.class) ≤ length out.old) }
    ensures { (result ≡ length (whole_bytes sets.entry.run.now sets.entry.rows.now (numbers_in srlgs.entry.values.now srlgs.entry.rows.now srlgs.entry.classes.now) groups.now first top.slot top.class)) × (out.new ≡ put out.old 0 (whole_bytes sets.entry.run.now sets.entry.rows.now (numbers_in srlgs.entry.values.now srlgs.entry.rows.now srlgs.entry.classes.now) groups.now first top.slot top.class)) }
{
    let low = write_low(sets, srlgs, places, top, out);
    let aslas = write_aslas(sets, srlgs, places, groups, first, out, low);
    set_bytes::write_kind(sets.run, &sets.rows[top.slot], 1173, out, aslas)
}

// The export of the meaning that tables describe, refused where the buffer has no room for it; or its length alone, and nothing is written.
pub fn export_sets(
    sets: Sets<'_>,
    srlgs: Srlgs<'_>,
    places: &mut [usize],
    groups: &[[u64; 3]],
    top: Top,
    measuring: bool,
    out: &mut [u8],
) -> Result<usize, Refusal>
    requires { Tables sets.run.now sets.rows.now srlgs.values.now srlgs.rows.now srlgs.classes.now × Entered sets.rows.now srlgs.classes.now groups.now × IsSet sets.rows.now top.slot × (top.class < length srlgs.classes.now) × (length srlgs.classes.now ≤ length places.old) × ((c : ℕ) → get_or places.old c 0 ≡ 0) }
    ensures { (m : Meaning) → Describes m sets.entry.run.now sets.entry.rows.now (numbers_in srlgs.entry.values.now srlgs.entry.rows.now srlgs.entry.classes.now) groups.now top.slot top.class → told_exported result out.new ≡ answered measuring (export m) out.old }
{
    let first = first_entry(sets, srlgs, groups);
    let size = measure(sets, srlgs, groups, first, top);
    if measuring {
        return Ok(size);
    }
    if out.len() < size {
        return Err(replies::refuse_call(Reason::NoRoom));
    }
    Ok(write_whole(sets, srlgs, places, groups, first, top, out))
}
