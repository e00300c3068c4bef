// The groups of applications with equal sets, in a table that applications join one by one (document 01, "BGP-LS bytes"). Entries of one bucket are chained, and only they are compared.

#![tactic(auto)]

ghost use Rattle.std.specs.Prelude.{◌≡◌, Bool, ℕ, ◌+◌, ◌≤◌, ◌<◌, eqb, length, replicate};
ghost use Rattle.masks.specs.Applications.{in_set, at_place};
ghost use Rattle.grids.specs.Slots.{slot_mark, IsSet, Slots};
ghost use Rattle.set_groups.specs.Table.{word, slot_in, class_in, next_in, bucket_of, bucket_in, Same, Tells, Latest, Entries, Chained, Finds, Joined, left, Placed, Begun, Ahead, Filled};
ghost use Rattle.set_groups.specs.Members.{with_member};

use grids::Sets;
use masks::{Applications, Bits};

// The slot, the class and the next entry that the third number of an entry says: packed, since an entry is three words of the caller's memory.
pub fn slot_in(x: u64) -> usize
    ensures { (result ≡ slot_in x) × (result < 256) }
{
    (x % 256) as usize
}

pub fn class_in(x: u64) -> usize
    ensures { (result ≡ class_in x) × (result < 256) }
{
    (x / 256 % 256) as usize
}

fn next_in(x: u64) -> usize
    ensures { result ≡ next_in x }
{
    (x / 65536) as usize
}

// The bucket of a mark and a class.
fn bucket_of(mark: u32, class: usize) -> usize
    requires { class < 256 }
    ensures { (result ≡ bucket_of mark class) × (result < 128) }
{
    ((mark ^ (mark / 65536) ^ (class as u32)) % 128) as usize
}

// Whether the third number of an entry says the set of a slot and a class. Marks that differ rule it out.
fn same_set(sets: Sets<'_>, x: u64, s: usize, c: usize) -> bool
    requires { Slots sets.run.now sets.rows.now × IsSet sets.rows.now (slot_in x) × IsSet sets.rows.now s }
    ensures { Tells (Same sets.entry.run.now sets.entry.rows.now x s c) result }
{
    let t = slot_in(x);
    if class_in(x) != c {
        return false;
    }
    if sets.rows[t][10] != sets.rows[s][10] {
        return false;
    }
    sets.same_cells(t, s) || sets.same_values(t, s)
}

// The entry with the set of a slot and a class, if there is one, from the last of its bucket on. Entry 0 is in no bucket, and ends each chain:
// an entry's number is one byte of fixed memory.
fn find(
    sets: Sets<'_>,
    groups: &[[u64; 3]],
    count: usize,
    first: usize,
    s: usize,
    c: usize,
) -> Option<usize>
    requires { Slots sets.run.now sets.rows.now × IsSet sets.rows.now s × Entries sets.run.now sets.rows.now (word groups.now) count × (count ≤ length groups.now) × Latest (bucket_in sets.rows.now (word groups.now)) (bucket_of (slot_mark sets.rows.now s) c) count first }
    ensures { Finds sets.entry.run.now sets.entry.rows.now (word groups.now) count s c result }
{
    let mut i = first;
    while i != 0 {
        let x = groups[i][2];
        if same_set(sets, x, s, c) {
            return Some(i);
        }
        i = next_in(x);
    }
    None
}

// A member more for an entry: an application of its first mask, or of its second.
fn add_member(h: &mut [u64; 3], n: usize)
    requires { n < 128 }
    ensures { h.new ≡ with_member h.old n }
{
    h[n / 64] |= 1 << masks::turned_place(n % 64);
}

// Application n joins with the set of a slot and a class; how many entries there are then.
fn join(
    sets: Sets<'_>,
    groups: &mut [[u64; 3]],
    buckets: &mut [u8; 128],
    count: usize,
    n: usize,
    s: usize,
    c: usize,
) -> usize
    requires { Slots sets.run.now sets.rows.now × IsSet sets.rows.now s × (s < 256) × (c < 256) × (n < 128) × Chained sets.run.now sets.rows.now (word groups.old) buckets.old count × (count < 128) × (count < length groups.old) }
    ensures { Joined sets.entry.run.now sets.entry.rows.now n s c groups.old count result groups.new buckets.new }
{
    let b = bucket_of(sets.rows[s][10], c);
    let first = usize::from(buckets[b]);
    if let Some(i) = find(sets, groups, count, first, s, c) {
        add_member(&mut groups[i], n);
        return count;
    }
    let x = (s as u64) + 256 * (c as u64) + 65536 * (first as u64);
    let mut h = [0, 0, x];
    add_member(&mut h, n);
    groups[count] = h;
    buckets[b] = count as u8;
    count + 1
}

// The applications of a mask join, ascending: application `base` is its lowest bit; how many entries there are then.
fn join_mask(
    sets: Sets<'_>,
    own: &[[u8; 2]; 128],
    base: usize,
    bits: u64,
    groups: &mut [[u64; 3]],
    buckets: &mut [u8; 128],
    entries: usize,
) -> usize
    requires { (base ≤ 64) × Slots sets.run.now sets.rows.now × ((p : ℕ → Bool) × (from : ℕ) × Placed sets.rows.now own.now p × Begun sets.run.now sets.rows.now own.now p from entries groups.old buckets.old × Ahead p base from bits) }
    ensures { (length groups.new ≡ length groups.old) × ((p : ℕ → Bool) (from : ℕ) → Placed sets.entry.rows.now own.now p → Begun sets.entry.run.now sets.entry.rows.now own.now p from entries groups.old buckets.old → Ahead p base from bits → Begun sets.entry.run.now sets.entry.rows.now own.now p (base + 64) result groups.new buckets.new) }
{
    let mut count = entries;
    for t in Bits(bits) {
        let n = base + t;
        let [slot, class] = own[masks::turned_place(n)];
        count = join(
            sets,
            groups,
            buckets,
            count,
            n,
            usize::from(slot),
            usize::from(class),
        );
    }
    count
}

// All applications of a set, n at place n, but RSVP-TE join, ascending; how many entries there are then.
fn join_all(
    sets: Sets<'_>,
    own: &[[u8; 2]; 128],
    m: Applications,
    groups: &mut [[u64; 3]],
    buckets: &mut [u8; 128],
) -> usize
    requires { Slots sets.run.now sets.rows.now × Placed sets.rows.now own.now (at_place m) × (1 + left (at_place m) 1 ≤ length groups.old) × (buckets.old ≡ replicate 128 0) }
    ensures { Filled sets.entry.run.now sets.entry.rows.now own.now (at_place m) groups.new result }
{
    let others = masks::without(m.standard, 1);
    let count = join_mask(sets, own, 0, others, groups, buckets, 1);
    join_mask(sets, own, 64, m.user, groups, buckets, count)
}

// The groups of the applications of a set, RSVP-TE apart; how many entries the table has then, from 1 on.
pub fn fill_groups(
    sets: Sets<'_>,
    own: &[[u8; 2]; 128],
    m: Applications,
    groups: &mut [[u64; 3]],
) -> usize
    requires { Slots sets.run.now sets.rows.now × Placed sets.rows.now own.now (in_set m) × (1 + left (in_set m) 1 ≤ length groups.old) }
    ensures { Filled sets.entry.run.now sets.entry.rows.now own.now (in_set m) groups.new result }
{
    let mut buckets = [0u8; 128];
    join_all(sets, own, masks::turned_set(m), groups, &mut buckets)
}
