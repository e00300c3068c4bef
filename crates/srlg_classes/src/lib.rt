// The classes of what a side's subjects get of SRLGs: of each application, of the general set and of RSVP-TE, from the sources of the side's advertisements
// (document 01, "Who gets what"). No byte of any format is read here.

#![tactic(auto)]

ghost use Rattle.std.specs.Prelude.{◌≡◌, true, false, List, [], ◌∷◌, ℕ, ◌+◌, ◌*◌, ◌≤◌, ◌<◌, length, get_or};
ghost use Rattle.srlg_ranks.specs.Ranks.{in_words};
ghost use Rattle.srlg_table.specs.Blocks.{size_of};
ghost use Rattle.srlg_table.specs.Tables.{Rowed, Table};
ghost use Rattle.srlg_classes.specs.Owned.{class_at, Slots, in_half, Gave, Firsts, Assigned, NamedOwn, rsvp_class, FirstOwn, most_blocks, Roomy};
ghost use Rattle.srlg_classes.specs.Sided.{ClassifiesAll};

use masks::{Applications, Bits};
use rules::{Names, Rule, SideNames};
use srlg_table::Used;

// The classes of the general set and of RSVP-TE, and how many classes there are.
#[derive(Clone, Copy)]
pub struct Classes {
    pub general: usize,
    pub rsvp: usize,
    pub count: usize,
}

// The applications of a mask of 64 bits from `base` on get a class.
fn give(bits: u64, base: usize, c: u8, own: &mut [[u8; 2]; 128])
    requires { (base ≤ 64) × (length own.old ≡ 128) }
    ensures { Gave (in_half base bits) c own.old own.new }
{
    for t in Bits(bits) {
        let j = base + t;
        own[j] = [own[j][0], c];
    }
}

// The applications of two masks get a class.
fn give_both(standard: u64, user: u64, c: u8, own: &mut [[u8; 2]; 128])
    requires { length own.old ≡ 128 }
    ensures { Gave (in_words (standard ∷ user ∷ [])) c own.old own.new }
{
    give(standard, 0, c, own);
    give(user, 64, c, own);
}

// The classes of legacy and of general values, and how many classes there are then.
#[derive(Clone, Copy)]
struct First {
    legacy: usize,
    general: usize,
    count: usize,
}

fn first_classes(
    rows: &[[u64; 18]],
    used: Used,
    classes: &mut [[u64; 4]],
    heads: &mut [[u32; 2]],
    buckets: &mut [u8],
) -> First
    requires { (used.words ≤ 16) × (2 ≤ used.sources) × (used.sources ≤ length rows.now) × (3 ≤ length classes.old) × (3 ≤ length heads.old) × (length buckets.old ≡ 128) × ((b : ℕ) → b < 128 → get_or buckets.old b 0 ≡ 0) }
    ensures { Firsts rows.now used.sources used.words classes.new heads.new buckets.new result }
{
    classes[0] = [0; 4];
    let legacy = srlg_table::class_of(rows, [1, 0], used, classes, heads, buckets, 1);
    let one = srlg_table::with_class(1, legacy);
    let general = srlg_table::class_of(rows, [2, 0], used, classes, heads, buckets, one);
    let count = srlg_table::with_class(one, general);
    First {
        legacy,
        general,
        count,
    }
}

// The applications of m blocks get the class of their block's sources; how many classes there are then.
fn assign(
    rows: &[[u64; 18]],
    used: Used,
    blocks: &[[u64; 4]],
    m: usize,
    classes: &mut [[u64; 4]],
    heads: &mut [[u32; 2]],
    buckets: &mut [u8],
    own: &mut [[u8; 2]; 128],
    first: usize,
) -> usize
    requires { (used.words ≤ 16) × (used.sources ≤ length rows.now) × (m ≤ length blocks.now) × (first + m ≤ length classes.old) × (first + m ≤ length heads.old) × (first + m ≤ 256) × (length buckets.old ≡ 128) × (length own.old ≡ 128) × ((k : ℕ) → k < m → Rowed used.sources (get_or (get_or blocks.now k []) 2 0 ∷ get_or (get_or blocks.now k []) 3 0 ∷ [])) × Table rows.now used.sources used.words classes.old heads.old buckets.old first }
    ensures { Assigned rows.now used.sources used.words blocks.now m classes.old own.old classes.new heads.new buckets.new own.new first result }
{
    let mut count = first;
    for b in &blocks[..m] {
        let sources = [b[2], b[3]];
        let c = srlg_table::class_of(rows, sources, used, classes, heads, buckets, count);
        count = srlg_table::with_class(count, c);
        give_both(b[0], b[1], c as u8, own);
    }
    count
}

// The applications that are named without L get the class of what the advertisements that name them carry.
fn give_named(
    rows: &[[u64; 18]],
    used: Used,
    named: Names,
    classes: &mut [[u64; 4]],
    heads: &mut [[u32; 2]],
    buckets: &mut [u8],
    own: &mut [[u8; 2]; 128],
    blocks: &mut [[u64; 4]],
    count: usize,
) -> usize
    requires { (used.words ≤ 16) × (2 ≤ used.sources) × (used.sources ≤ 128) × (used.sources ≤ length rows.now) × (most_blocks named ≤ length blocks.old) × (count + most_blocks named ≤ length classes.old) × (count + most_blocks named ≤ length heads.old) × (length classes.old ≤ 256) × (length buckets.old ≡ 128) × (length own.old ≡ 128) × Table rows.now used.sources used.words classes.old heads.old buckets.old count }
    ensures { NamedOwn rows.now used.sources used.words named classes.old own.old classes.new heads.new buckets.new own.new count result }
{
    let by = named.named;
    let flagged = named.flagged;
    let s = masks::without(by.standard, flagged.standard);
    let u = masks::without(by.user, flagged.user);
    if !srlg_table::meets(s, u) {
        return count;
    }
    let m = srlg_table::blocks_of(rows, used.sources, s, u, blocks);
    assign(rows, used, blocks, m, classes, heads, buckets, own, count)
}

// The class of RSVP-TE by its rule: of its own numbers, where it is named without L and has some, of the general ones, else of the legacy ones. It has
// place 7.
fn rsvp_class(side: SideNames, own: &[[u8; 2]; 128], first: First) -> usize
    ensures { result ≡ rsvp_class side.names side.legacy own.now first }
{
    let named = side.names;
    let l = named.is_named_with_l(0);
    let n = named.is_named(0);
    match rules::rsvp_te_rule(l, n, side.legacy) {
        Rule::NamingFirst => {
            let c = usize::from(own[7][1]);
            if c == 0 { first.legacy } else { c }
        }
        Rule::General => first.general,
        _ => first.legacy,
    }
}

// The applications that nothing names get the general numbers, and those that are named with L the legacy ones.
fn give_firsts(who: Applications, named: Names, first: First, own: &mut [[u8; 2]; 128])
    requires { (length own.old ≡ 128) × (first.legacy < 256) × (first.general < 256) }
    ensures { FirstOwn who named first own.old own.new }
{
    let by = named.named;
    let flagged = named.flagged;
    let s = masks::without(who.standard, by.standard);
    let u = masks::without(who.user, by.user);
    give_both(s, u, first.general as u8, own);
    give_both(flagged.standard, flagged.user, first.legacy as u8, own);
}

// The classes of all subjects, with lent room: heads for the classes, and blocks.
fn classify_in(
    rows: &[[u64; 18]],
    used: Used,
    who: Applications,
    side: SideNames,
    classes: &mut [[u64; 4]],
    own: &mut [[u8; 2]; 128],
    heads: &mut [[u32; 2]],
    blocks: &mut [[u64; 4]],
) -> Classes
    requires { Roomy rows.now used side.names classes.old own.old × (3 + most_blocks side.names ≤ length heads.old) × (most_blocks side.names ≤ length blocks.old) }
    ensures { ClassifiesAll rows.now used who side own.old classes.new own.new result }
{
    let mut buckets = [0u8; 128];
    let first = first_classes(rows, used, classes, heads, &mut buckets);
    give_firsts(who, side.names, first, own);
    let count = give_named(
        rows,
        used,
        side.names,
        classes,
        heads,
        &mut buckets,
        own,
        blocks,
        first.count,
    );
    Classes {
        general: first.general,
        rsvp: rsvp_class(side, own, first),
        count,
    }
}

// The same, with room for the heads and the blocks of a table of so many classes. Room that is filled with 1 is not cleared byte by byte.
fn classify_with<const ROOM: usize>(
    rows: &[[u64; 18]],
    used: Used,
    who: Applications,
    side: SideNames,
    classes: &mut [[u64; 4]],
    own: &mut [[u8; 2]; 128],
) -> Classes
    requires { Roomy rows.now used side.names classes.old own.old × (length classes.old ≤ ROOM) × (ROOM ≤ 99) }
    ensures { ClassifiesAll rows.now used who side own.old classes.new own.new result }
{
    let mut heads = [[1u32; 2]; ROOM];
    let mut blocks = [[1u64; 4]; ROOM];
    classify_in(rows, used, who, side, classes, own, &mut heads, &mut blocks)
}

// The classes of what subjects get: of the applications of a set, which are all that are asked for, of the general set and of RSVP-TE, by what the rule asks of this side.
// Where no word of bits is used nobody has a number, and all applications keep class 0.
pub fn classify(
    rows: &[[u64; 18]],
    used: Used,
    who: Applications,
    side: SideNames,
    classes: &mut [[u64; 4]],
    own: &mut [[u8; 2]; 128],
) -> Classes
    requires { (0 < used.words → Roomy rows.now used side.names classes.old own.old) × (used.words ≡ 0 → (0 < length classes.old) × (length own.old ≡ 128) × ((a : ℕ) → a < 128 → class_at own.old a ≡ 0)) }
    ensures { ClassifiesAll rows.now used who side own.old classes.new own.new result }
{
    if used.words == 0 {
        classes[0] = [0; 4];
        return Classes {
            general: 0,
            rsvp: 0,
            count: 1,
        };
    }
    if classes.len() <= 16 {
        return classify_with::<16>(rows, used, who, side, classes, own);
    }
    classify_with::<99>(rows, used, who, side, classes, own)
}
