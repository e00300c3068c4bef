// The SRLGs of a link as sources: a row of bits over one ascending list of numbers for each, made from keys that are sorted; and the bits of several joined.

#![tactic(auto)]

ghost use Rattle.std.specs.Prelude.{◌≡◌, true, ◌||◌, List, [], ◌∷◌, map, ℕ, ◌+◌, ◌*◌, ◌/◌, ◌≤◌, ◌<◌, eqb, length, take, set};
ghost use Rattle.linkstate.specs.Lists.{put, all};
ghost use Rattle.linkstate.specs.Bytes.{words};
ghost use Rattle.srlg_ranks.specs.Ranks.{in_words};
ghost use Rattle.key_sort.specs.Keys.{number, Climbs, Sorted};
ghost use Rattle.srlg_sources.specs.Classes.{in_class, has_source};
ghost use Rattle.srlg_sources.specs.Sources.{Small, key_of, in_rows, source_row, Marked, Ranked, Ordered, InRows, in_some};

use key_sort::Key;
use masks::Bits;

// How many keys there are, repeats too, and how many sources.
#[derive(Clone, Copy)]
pub struct Keys {
    pub count: usize,
    pub sources: usize,
}

// What a key of a source has above its number. The quotient is 0: with it a key stays a sum for the compiler, and the four bytes of its number are read at once.
fn above(source: usize) -> u64
    requires { source < 128 }
    ensures { result ≡ source * 4294967296 }
{
    let s = source as u64;
    s * 4294967296 + s / 128
}

// The numbers of a value as keys of a source, written from a place of the list on; the place after them. A rest of under four bytes is no number.
pub fn add_words(s: &[u8], source: usize, keys: &mut [u64], at: usize) -> usize
    requires { (source < 128) × (at + length s.now / 4 ≤ length keys.old) }
    ensures value { (result ≡ at + length (words s.now)) × (keys.new ≡ put keys.old at (map (key_of source) (words s.now))) }
    ensures small { Small (words s.now) }
{
    let high = above(source);
    let mut place = at;
    for word in s.chunks_exact(4) {
        keys[place] = u64::from(octets::read32(word, 0)) + high;
        place += 1;
    }
    place
}

// A source more, with the numbers of a value, for the applications of two masks.
pub fn add_source(
    s: &[u8],
    standard: u64,
    user: u64,
    keys: &mut [u64],
    rows: &mut [[u64; 18]],
    k: Keys,
) -> Keys
    requires { (k.sources < 128) × (k.sources < length rows.old) × (k.count + length s.now / 4 ≤ length keys.old) }
    ensures count_value { (result.count ≡ k.count + length (words s.now)) × (result.sources ≡ k.sources + 1) × (rows.new ≡ set rows.old k.sources (source_row standard user)) }
    ensures keys_after { (keys.new ≡ put keys.old k.count (map (key_of k.sources) (words s.now))) × Small (words s.now) }
{
    let source = k.sources;
    let mut row = [0u64; 18];
    row[16] = standard;
    row[17] = user;
    rows[source] = row;
    let count = add_words(s, source, keys, k.count);
    Keys {
        count,
        sources: source + 1,
    }
}

// A source's row with the bit of place p.
fn mark(rows: &mut [[u64; 18]], source: usize, p: usize)
    requires { (source < length rows.old) × (p < 1024) }
    ensures { Marked rows.old source p rows.new }
{
    rows[source][p / 64] |= 1 << (p % 64);
}

// The different numbers of keys that climb, ascending at the front of a list, and in the row of each source the bits of its numbers;
// how many numbers there are.
pub fn rank(keys: &[u64], values: &mut [u64], rows: &mut [[u64; 18]]) -> usize
    requires { Climbs number keys.now × (length keys.now ≤ 1024) × (length keys.now ≤ length values.old) × (all (in_rows (length rows.old)) keys.now ≡ true) }
    ensures { Ranked keys.now values.new result rows.old rows.new }
{
    let mut count = 0;
    for (i, key) in keys.iter().enumerate() {
        let n = key.number();
        if i == 0 || keys[i - 1].number() != n {
            values[count] = u64::from(n);
            count += 1;
        }
        let source = (*key / 4294967296) as usize;
        mark(rows, source, count - 1);
    }
    count
}

// The first m keys sorted; the list of values is room to work in.
fn sort_first(keys: &mut [u64], values: &mut [u64], m: usize)
    requires { (m ≤ length keys.old) × (m ≤ length values.old) }
    ensures { Sorted number (take m keys.old) (take m keys.new) }
{
    key_sort::sort_keys(&mut keys[0..m], &mut values[0..m]);
}

// The first m keys sorted, and ranked: the different numbers, ascending at the front of a list, and in the row of each source the bits of its numbers;
// how many numbers there are.
pub fn order(keys: &mut [u64], values: &mut [u64], rows: &mut [[u64; 18]], m: usize) -> usize
    requires { (m ≤ 1024) × (m ≤ length keys.old) × (m ≤ length values.old) × (all (in_rows (length rows.old)) (take m keys.old) ≡ true) }
    ensures { Ordered (take m keys.old) values.new result rows.old rows.new }
{
    sort_first(keys, values, m);
    rank(&keys[0..m], values, rows)
}

// The bits of a set with those of a source.
fn join_row(x: &mut [u64; 16], row: &[u64; 18], words: usize)
    requires { (length x.old ≡ 16) × (words ≤ 16) }
    ensures { (length x.new ≡ 16) × ((i : ℕ) → i < 64 * words → in_words x.new i ≡ in_words x.old i || in_words row.now i) }
{
    // By index: of elements that `iter_mut` lends beside another list, nothing would be known.
    for i in 0..words {
        x[i] |= row[i];
    }
}

// The bits of a set with those of the sources that are set in a word, its lowest bit for source `base`.
fn join_rows(x: &mut [u64; 16], rows: &[[u64; 18]], base: usize, set: u64, words: usize)
    requires { (length x.old ≡ 16) × (words ≤ 16) × (base ≤ 64) × InRows rows.now base set }
    ensures { (length x.new ≡ 16) × ((i : ℕ) → i < 64 * words → in_words x.new i ≡ in_words x.old i || in_some rows.now base set i) }
{
    for t in Bits(set) {
        join_row(x, &rows[base + t], words);
    }
}

// The joined bits of the sources that are set in two words.
pub fn bits_of(rows: &[[u64; 18]], low: u64, high: u64, words: usize) -> [u64; 16]
    requires { (words ≤ 16) × ((j : ℕ) → j < 128 → has_source (low ∷ high ∷ []) j ≡ true → j < length rows.now) }
    ensures { (i : ℕ) → i < 64 * words → in_words result i ≡ in_class rows.now (low ∷ high ∷ []) i }
{
    let mut x = [0u64; 16];
    join_rows(&mut x, rows, 0, low, words);
    join_rows(&mut x, rows, 64, high, words);
    x
}
