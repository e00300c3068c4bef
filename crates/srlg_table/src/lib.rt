// A table of the different sets of SRLGs that sources have together: the class of some sources is one that is there, or a new one.

#![tactic(auto)]

ghost use Rattle.std.specs.Prelude.{◌≡◌, true, false, [], ◌∷◌, ℕ, suc, ◌+◌, ◌≤◌, ◌<◌, ◌*◌, length, get_or};
ghost use Rattle.srlg_ranks.specs.Ranks.{in_words};
ghost use Rattle.srlg_table.specs.Blocks.{size_of, Alike, Part, Rest, Split, Blocks};
ghost use Rattle.linkstate.specs.Masks.{as_number, in_number};
ghost use Rattle.srlg_sources.specs.Classes.{in_class};
ghost use Rattle.srlg_table.specs.Tables.{Equal, Counts, Rowed, Table, Finds, Adds, with_class, Given};
ghost use Rattle.srlg_table.specs.Marks as marks;

// A block is two masks as sent, and its sources as two words of bits.

// Whether two masks have an application.
pub fn meets(x: u64, y: u64) -> bool
    ensures { (result ≡ true → 0 < size_of (in_words (x ∷ y ∷ []))) × (result ≡ false → (a : ℕ) → a < 128 → in_words (x ∷ y ∷ []) a ≡ false) }
{
    x | y != 0
}

// Whether two masks have the same applications as two others.
fn fills(x: u64, y: u64, standard: u64, user: u64) -> bool
    ensures { (result ≡ true → Alike (x ∷ y ∷ []) (standard ∷ user ∷ [])) × (result ≡ false → Alike (x ∷ y ∷ []) (standard ∷ user ∷ []) → ⊥) }
{
    let d = (x ^ standard) | (y ^ user);
    d == 0
}

// The part of a block that source i names too.
fn with_source(b: &[u64; 4], x: u64, y: u64, i: usize) -> [u64; 4]
    requires { i < 128 }
    ensures { Part b.now x y i result }
{
    // Two arms: one store, to word 2 + i / 64, makes `blocks_of` 7% dearer.
    if i < 64 {
        return [x, y, b[2] | (1 << i), b[3]];
    }
    [x, y, b[2], b[3] | (1 << (i - 64))]
}

// The rest of it.
fn without_part(b: &[u64; 4], x: u64, y: u64) -> [u64; 4]
    ensures { Rest b.now x y result }
{
    [masks::without(b[0], x), masks::without(b[1], y), b[2], b[3]]
}

// Block k of n, of whose applications source i names those of x and y: if it has others, they stay, and those that are named are a block behind the last.
fn split(blocks: &mut [[u64; 4]], k: usize, n: usize, x: u64, y: u64, i: usize) -> usize
    requires { (i < 128) × (k < n) × (n ≤ length blocks.old) × ((Alike (x ∷ y ∷ []) (get_or blocks.old k []) → ⊥) → n < length blocks.old) }
    ensures { Split blocks.old blocks.new k n result x y i }
{
    let b = blocks[k];
    let part = with_source(&b, x, y, i);
    if fills(x, y, b[0], b[1]) {
        blocks[k] = part;
        return n;
    }
    let rest = without_part(&b, x, y);
    blocks[k] = rest;
    blocks[n] = part;
    n + 1
}

// The blocks by the sources below i, with source i: how many there are then.
fn refine(
    rows: &[[u64; 18]],
    i: usize,
    standard: u64,
    user: u64,
    blocks: &mut [[u64; 4]],
    count: usize,
) -> usize
    requires { (1 < i) × (i < 128) × (i < length rows.now) × (size_of (in_words (standard ∷ user ∷ [])) ≤ length blocks.old) × Blocks rows.now standard user blocks.old count i }
    ensures { Blocks rows.now standard user blocks.new result (suc i) }
{
    let mut n = count;
    let mut s = rows[i][16] & standard;
    let mut u = rows[i][17] & user;
    for k in 0..count {
        if s | u == 0 {
            break;
        }
        let x = blocks[k][0] & s;
        let y = blocks[k][1] & u;
        if meets(x, y) {
            n = split(blocks, k, n, x, y, i);
            s = masks::without(s, x);
            u = masks::without(u, y);
        }
    }
    n
}

// The blocks of the applications of two masks, by all sources of advertisements; how many there are.
pub fn blocks_of(
    rows: &[[u64; 18]],
    sources: usize,
    standard: u64,
    user: u64,
    blocks: &mut [[u64; 4]],
) -> usize
    requires { (2 ≤ sources) × (sources ≤ 128) × (sources ≤ length rows.now) × (0 < size_of (in_words (standard ∷ user ∷ []))) × (size_of (in_words (standard ∷ user ∷ [])) ≤ length blocks.old) }
    ensures { Blocks rows.now standard user blocks.new result sources }
{
    blocks[0] = [standard, user, 0, 0];
    let mut n = 1;
    for i in 2..sources {
        n = refine(rows, i, standard, user, blocks, n);
    }
    n
}

// How many words of bits are used, and how many sources there are. No one struct for this, `Keys` and `Indexed` is plainer: each counts another thing.
#[derive(Clone, Copy)]
pub struct Used {
    pub words: usize,
    pub sources: usize,
}

// Whether bits are the same.
fn same_bits(x: &[u64; 16], y: &[u64; 16], words: usize) -> bool
    requires { words ≤ 16 }
    ensures { (result ≡ true → Equal (64 * words) (in_words x.now) (in_words y.now)) × (result ≡ false → Equal (64 * words) (in_words x.now) (in_words y.now) → ⊥) }
{
    x[..words] == y[..words]
}

// A mark with a word more.
fn mix(h: u64, x: u64) -> u64
    ensures { result ≡ marks.mixed h (as_number (in_number x)) }
{
    (h << 3) ^ (h >> 61) ^ x
}

// The part of a mark that is kept.
fn fold(h: u64) -> u32
    ensures { result ≡ marks.folded h }
{
    let low = h % 4294967296;
    let high = h / 4294967296;
    ((low ^ high) * 2654435769 / 65536 % 4294967296) as u32
}

// The mark of bits.
fn mark_of(x: &[u64; 16], words: usize) -> u32
    requires { words ≤ 16 }
    ensures { result ≡ marks.mark_of words (in_words x.now) }
{
    let mut h: u64 = 0;
    for word in &x[..words] {
        h = mix(h, *word);
    }
    fold(h)
}

// How many bits are set.
fn count_of(x: &[u64; 16], words: usize) -> u64
    requires { words ≤ 16 }
    ensures { Counts (64 * words) (in_words x.now) result }
{
    let mut n = 0;
    for word in &x[..words] {
        n += srlg_ranks::word_count(*word);
    }
    n as u64
}

// Whether a class has these bits. Its mark rules out most.
fn has_bits(
    x: &[u64; 16],
    words: usize,
    rows: &[[u64; 18]],
    class: &[u64; 4],
    head: &[u32; 2],
    mark: u32,
) -> bool
    requires { (words ≤ 16) × Rowed (length rows.now) class.now }
    ensures { (result ≡ true → Equal (64 * words) (in_words x.now) (in_class rows.now class.now)) × (result ≡ false → get_or head.now 0 0 ≡ mark → Equal (64 * words) (in_words x.now) (in_class rows.now class.now) → ⊥) }
{
    if head[0] != mark {
        return false;
    }
    let y = srlg_sources::bits_of(rows, class[0], class[1], words);
    same_bits(x, &y, words)
}

// The class that has these bits, unless it is class 0, which has none and stands in no chain: 0 ends one.
fn find(
    x: &[u64; 16],
    used: Used,
    rows: &[[u64; 18]],
    classes: &[[u64; 4]],
    heads: &[[u32; 2]],
    buckets: &[u8],
    mark: u32,
) -> Option<usize>
    requires { (used.words ≤ 16) × (used.sources ≤ length rows.now) × (length buckets.now ≡ 128) × (mark ≡ marks.mark_of used.words (in_words x.now)) × ((count : ℕ) × Table rows.now used.sources used.words classes.now heads.now buckets.now count) }
    ensures { (count : ℕ) → Table rows.now used.sources used.words classes.now heads.now buckets.now count → Finds rows.now used.words x.now classes.now count result }
{
    let b = (mark % 128) as usize;
    let mut i = usize::from(buckets[b]);
    while i != 0 {
        if has_bits(x, used.words, rows, &classes[i], &heads[i], mark) {
            return Some(i);
        }
        i = heads[i][1] as usize;
    }
    None
}

// A new class behind the others, first of its bucket's chain; or class 0, where no bit is set.
fn new_class(
    x: &[u64; 16],
    words: usize,
    sources: [u64; 2],
    mark: u32,
    classes: &mut [[u64; 4]],
    heads: &mut [[u32; 2]],
    buckets: &mut [u8],
    count: usize,
) -> usize
    requires { (words ≤ 16) × (length buckets.old ≡ 128) × (count < length classes.old) × (count < length heads.old) × (count < 256) }
    ensures { Adds words x.now (get_or sources 0 0) (get_or sources 1 0) mark classes.old heads.old buckets.old count result classes.new heads.new buckets.new }
{
    let n = count_of(x, words);
    if n == 0 {
        return 0;
    }
    classes[count] = [sources[0], sources[1], n, 0];
    let b = (mark % 128) as usize;
    heads[count] = [mark, u32::from(buckets[b])];
    buckets[b] = count as u8;
    count
}

// The class of the numbers of some sources, given as two words of bits: 0 where they have none, one that is there, or a new one.
pub fn class_of(
    rows: &[[u64; 18]],
    sources: [u64; 2],
    used: Used,
    classes: &mut [[u64; 4]],
    heads: &mut [[u32; 2]],
    buckets: &mut [u8],
    count: usize,
) -> usize
    requires { (used.words ≤ 16) × (used.sources ≤ length rows.now) × (length buckets.old ≡ 128) × (count < length classes.old) × (count < length heads.old) × (count < 256) × Rowed used.sources (get_or sources 0 0 ∷ get_or sources 1 0 ∷ []) × Table rows.now used.sources used.words classes.old heads.old buckets.old count }
    ensures { Given rows.now used.sources used.words (get_or sources 0 0) (get_or sources 1 0) classes.old classes.new heads.new buckets.new count result }
{
    let x = srlg_sources::bits_of(rows, sources[0], sources[1], used.words);
    let mark = mark_of(&x, used.words);
    match find(&x, used, rows, classes, heads, buckets, mark) {
        Some(i) => i,
        None => new_class(
            &x, used.words, sources, mark, classes, heads, buckets, count,
        ),
    }
}

// How many classes there are with class c, which may be a new one.
pub fn with_class(count: usize, c: usize) -> usize
    requires { count < 256 }
    ensures { result ≡ with_class count c }
{
    if c == count {
        return count + 1;
    }
    count
}
