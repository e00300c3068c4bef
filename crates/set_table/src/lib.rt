// The table of a link's sets, filled: a value goes to a slot, or to the slots of the applications that two masks name, unless one of its kind is there (document 01, "Who gets what").

#![tactic(auto)]

ghost use Rattle.std.specs.Prelude.{◌≡◌, Bool, List, [], ℕ, ◌+◌, ◌%◌, ◌≤◌, ◌<◌, length, get_or};
ghost use Rattle.linkstate.specs.Bytes.{words, bytes_at};
ghost use Rattle.linkstate.specs.Masks.{in_number};
ghost use Rattle.tlv_bytes.specs.Tlvs.{front, value_at};
ghost use Rattle.grids.specs.Slots.{slot_size, IsSet};
ghost use Rattle.set_table.specs.Marks.{mixed, value_mark};
ghost use Rattle.set_table.specs.Tables.{cell_of, Table, Given, only_at, Value, entered_row, entered, Entry, to_reached, Free, to_named, Fresh, Slotted, Having, Within, Owned, has_place, Gave, how_many, empty_row, Assigned, Begun};
ghost use Rattle.masks.specs.Applications.{at_place};

use masks::{Applications, Bits};

// The numbers of a part of a run, mixed. A rest of under four bytes is no number.
fn mix(run: &[u8], place: usize, n: usize) -> u64
    requires { place + n ≤ length run.now }
    ensures { result ≡ mixed 0 (words (bytes_at run.now place n)) }
{
    let mut h = 0;
    for word in run[place..place + n].chunks_exact(4) {
        h = h % 4294967296 * 37 + u64::from(octets::read32(word, 0));
    }
    h
}

// The numbers of a value, mixed; one of three bytes is a number of four.
fn mix_value(run: &[u8], place: usize, n: usize) -> u64
    requires { place + n ≤ length run.now }
    ensures { result ≡ mixed 0 (words (value_at run.now place n)) }
{
    if n == 3 {
        return octets::read24(run, place) as u64;
    }
    mix(run, place, n)
}

// The mark of a value of kind k.
fn value_mark(run: &[u8], place: usize, n: usize, k: usize) -> u32
    requires { Value run.now place n × (k < 10) }
    ensures { result ≡ value_mark k (value_at run.now place n) }
{
    let h = mix_value(run, place, n);
    let p = (h % 4294967296 + k as u64) * 2654435769;
    (p / 65536 % 4294967296) as u32
}

// How many bytes the TLV of a value has: one of three bytes is written in four.
fn value_size(n: usize) -> u32
    requires { n ≤ 4096 }
    ensures { result ≡ 4 + (length (front n) + n) }
{
    if n == 3 {
        return 8;
    }
    (4 + n) as u32
}

// A cell of place and length.
fn cell_of(place: usize, n: usize) -> u32
    requires { (place < 65536) × (n ≤ 4096) }
    ensures { result ≡ cell_of place n }
{
    (place + 65536 * n) as u32
}

// What a value leaves in a slot: its cell, its mark, and the size of its TLV.
#[derive(Clone, Copy)]
struct Filing {
    cell: u32,
    mark: u32,
    size: u32,
}

// What a value of kind k leaves.
fn filing_of(run: &[u8], place: usize, n: usize, k: usize) -> Filing
    requires { Value run.now place n × (k < 10) }
    ensures { Entry run.now k place n result.cell result.mark result.size }
{
    Filing {
        cell: cell_of(place, n),
        mark: value_mark(run, place, n, k),
        size: value_size(n),
    }
}

// A value for a row that has none of its kind.
fn enter_row(row: &mut [u32; 12], k: usize, e: Filing)
    requires { (k < 10) × (get_or row.old 11 0 + e.size < 4294967296) }
    ensures { row.new ≡ entered_row row.old k e.cell e.mark e.size }
{
    row[10] = row[10].wrapping_add(e.mark);
    row[11] += e.size;
    row[k] = e.cell;
}

// The same for a slot.
fn enter(sets: &mut [[u32; 12]], s: usize, k: usize, e: Filing)
    requires { (s < length sets.old) × (k < 10) × (slot_size sets.old s + e.size < 4294967296) }
    ensures { sets.new ≡ entered sets.old s k e.cell e.mark e.size }
{
    enter_row(&mut sets[s], k, e);
}

// A value for one slot, unless it has one of the kind.
pub fn enter_one(run: &[u8], sets: &mut [[u32; 12]], s: usize, k: usize, place: usize, n: usize)
    requires { Table run.now sets.old × IsSet sets.old s × (k < 10) × Value run.now place n }
    ensures { Table run.now sets.new × Given sets.old sets.new (only_at s k (cell_of place n)) }
{
    if sets[s][k] == 0 {
        let e = filing_of(run, place, n, k);
        enter(sets, s, k, e);
    }
}

// A cell of the link's, unless it is there.
pub fn enter_link(sets: &mut [[u32; 12]], k: usize, place: usize, n: usize)
    requires { (2 < length sets.old) × (length (get_or sets.old 2 []) ≡ 12) × (k < 10) × (place < 65536) × (n ≤ 4096) }
    ensures { ((run : List ℕ) → Table run sets.old → Value run place n → Table run sets.new) × Given sets.old sets.new (only_at 2 k (cell_of place n)) }
{
    if sets[2][k] == 0 {
        sets[2][k] = cell_of(place, n);
    }
}

// A value for the slots of some applications, each of which has none of its kind.
fn enter_bits(
    sets: &mut [[u32; 12]],
    own: &[[u8; 2]; 128],
    base: usize,
    bits: u64,
    k: usize,
    e: Filing,
)
    requires { (base ≤ 64) × (k < 10) × Free sets.old own.now base bits k × ((run : List ℕ) × (place : ℕ) × (n : ℕ) × Table run sets.old × Entry run k place n e.cell e.mark e.size) }
    ensures { Given sets.old sets.new (to_reached own.now base bits k e.cell) × ((run : List ℕ) (place n : ℕ) → Table run sets.old → Entry run k place n e.cell e.mark e.size → Table run sets.new) }
{
    for t in Bits(bits) {
        let s = usize::from(own[base + t][0]);
        enter(sets, s, k, e);
    }
}

// A value for the applications of a set, each of which has none of its kind.
fn enter_both(
    run: &[u8],
    sets: &mut [[u32; 12]],
    own: &[[u8; 2]; 128],
    k: usize,
    place: usize,
    n: usize,
    m: Applications,
)
    requires { Table run.now sets.old × (k < 10) × Value run.now place n × Fresh sets.old own.now m k }
    ensures { Table run.now sets.new × Given sets.old sets.new (to_named own.now m k (cell_of place n)) }
{
    let e = filing_of(run, place, n, k);
    enter_bits(sets, own, 0, m.standard, k, e);
    enter_bits(sets, own, 64, m.user, k, e);
}

// A value for the applications of a set that have none of its kind yet.
pub fn enter_named(
    run: &[u8],
    sets: &mut [[u32; 12]],
    own: &[[u8; 2]; 128],
    have: &mut [[u64; 2]; 10],
    k: usize,
    place: usize,
    n: usize,
    m: Applications,
)
    requires { Table run.now sets.old × (k < 10) × Value run.now place n × ((names : ℕ → Bool) × Slotted sets.old own.now names × Having sets.old own.now have.old names × Within m names) }
    ensures { Table run.now sets.new × Given sets.old sets.new (to_named own.now m k (cell_of place n)) × ((names : ℕ → Bool) → Slotted sets.old own.now names → Having sets.old own.now have.old names → Within m names → Having sets.new own.now have.new names) }
{
    let old = Applications {
        standard: have[k][0],
        user: have[k][1],
    };
    let fresh = masks::except(m, old);
    if (fresh.standard == 0) & (fresh.user == 0) {
        return;
    }
    let all = masks::join(old, m);
    have[k] = [all.standard, all.user];
    enter_both(run, sets, own, k, place, n, fresh);
}

// Applications that take another slot's set: those of a mask as sent, whose lowest bit is at place `base`.
pub fn give_slot(bits: u64, base: usize, s: usize, own: &mut [[u8; 2]; 128])
    requires { (base ≤ 64) × (s < 256) × Owned own.old }
    ensures { Gave own.old own.new (has_place base bits) s }
{
    let slot = s as u8;
    for t in Bits(bits) {
        own[base + t][0] = slot;
    }
}

// The slots of the applications of a set, n as 2 to the n, in the order of their numbers from `from` on, their rows made empty; how far the slots go.
fn assign_bits(
    set: u64,
    base: usize,
    own: &mut [[u8; 2]; 128],
    sets: &mut [[u32; 12]],
    from: usize,
) -> usize
    requires { (base ≤ 64) × Owned own.old × (from + how_many (in_number set) 64 ≤ length sets.old) × (length sets.old ≤ 256) }
    ensures { (result ≡ from + how_many (in_number set) 64) × Assigned own.old sets.old own.new sets.new base (in_number set) from result }
{
    let mut k = from;
    for t in Bits(set) {
        let p = masks::turned_place(t);
        own[base + p][0] = k as u8;
        sets[k] = [0; 12];
        k += 1;
    }
    k
}

// The first three rows made empty.
fn empty_first(sets: &mut [[u32; 12]])
    requires { 3 ≤ length sets.old }
    ensures { (length sets.new ≡ length sets.old) × ((s : ℕ) → s < 3 → get_or sets.new s [] ≡ empty_row) }
{
    sets[..3].fill([0; 12]);
}

// The slots of the applications of a set, n at place n, in the order of their numbers, from 3 on; those and the first three made empty. How many slots there are.
pub fn assign_slots(m: Applications, own: &mut [[u8; 2]; 128], sets: &mut [[u32; 12]]) -> usize
    requires { Owned own.old × (3 + how_many (at_place m) 128 ≤ length sets.old) × (length sets.old ≤ 256) }
    ensures { (result ≡ 3 + how_many (at_place m) 128) × Begun own.old own.new sets.new m result × (length sets.new ≡ length sets.old) }
{
    empty_first(sets);
    let k = assign_bits(m.standard, 0, own, sets, 3);
    assign_bits(m.user, 64, own, sets, k)
}
