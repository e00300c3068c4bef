// The TLVs of one set, written kind by kind: of an application's set, and of what stands at the top of a BGP-LS run. The classifier tells the row and the code of a kind.

#![tactic(auto)]

ghost use Rattle.std.specs.Prelude.{◌≡◌, false, ℕ, ◌+◌, ◌*◌, ◌/◌, ◌≤◌, ◌<◌, length, get_or, take, drop, [], ◌∷◌};
ghost use Rattle.linkstate.specs.Limits.{most_numbers};
ghost use Rattle.linkstate.specs.Bytes.{bytes_of_words};
ghost use Rattle.linkstate.specs.Masks.{in_number};
ghost use Rattle.srlg_ranks.specs.Ranks.{keep_from, in_words, picked, Inside};
ghost use Rattle.tlv_bytes.specs.Tlvs.{Wrote, in_tlvs};
ghost use Rattle.set_bytes.specs.Standing.{srlg_tlv, srlg_size, count_in, numbers_in, count_read, Classes, Standing, Written};
ghost use Rattle.linkstate.specs.Kinds.{link_codes, application_codes};
ghost use Rattle.kinds.specs.Rules.{grid_codes};
ghost use Rattle.grids.specs.Grids.{row_value, grid_value, set_of, bandwidth_of, RowFits, Fits};
ghost use Rattle.grids.specs.Slots.{link_rows};
ghost use Rattle.set_bytes.specs.Sets.{extended_codes, middle_codes, Among, Writable};

use grids::{Grid, Sets};
use kinds::Kind;
use masks::Bits;

// The numbers of one word's bits, written as four bytes each from an offset on; the offset after them.
fn write_word(values: &[u64], base: usize, bits: u64, out: &mut [u8], at: usize) -> usize
    requires { (base ≤ length values.now) × Inside (drop base values.now) bits × ((i : ℕ) → get_or values.now i 0 < 4294967296) × (at + 4 * length (keep_from (in_number bits) 0 (take 64 (drop base values.now))) ≤ length out.old) }
    ensures { Wrote out.old at (bytes_of_words (keep_from (in_number bits) 0 (take 64 (drop base values.now)))) result out.new }
{
    let mut k = at;
    for t in Bits(bits) {
        octets::write32(out, k, values[base + t] as u32);
        k += 4;
    }
    k
}

// The numbers that bits stand for, ascending, written as four bytes each from an offset on; the offset after them.
fn write_bits(values: &[u64], bits: &[u64; 16], out: &mut [u8], at: usize) -> usize
    requires { (length values.now ≤ most_numbers) × ((i : ℕ) → get_or values.now i 0 < 4294967296) × ((i : ℕ) → length values.now ≤ i → i < 64 * ((length values.now + 63) / 64) → in_words bits.now i ≡ false) × (at + 4 * length (picked values.now bits.now) ≤ length out.old) }
    ensures { Wrote out.old at (bytes_of_words (picked values.now bits.now)) result out.new }
{
    let n = (values.len() + 63) / 64;
    let mut k = at;
    // By index: it says the word, and where its values begin.
    for w in 0..n {
        k = write_word(values, 64 * w, bits[w], out, k);
    }
    k
}

// The SRLGs of a link, ascending, the bits of its sources over them, and the classes of sources that subjects get.
#[derive(Clone, Copy)]
pub struct Srlgs<'a> {
    pub values: &'a [u64],
    pub rows: &'a [[u64; 18]],
    pub classes: &'a [[u64; 4]],
}

impl Srlgs<'_> {
    // How many numbers a class has, if any.
    fn count(self, c: usize) -> Option<usize>
        requires { c < length self.classes.now }
        ensures { result ≡ count_read (count_in self.entry.classes.now c) }
    {
        let n = self.classes[c][2] as usize;
        if n == 0 {
            return None;
        }
        Some(n)
    }

    // How many bytes the TLV of a class has.
    pub fn size(self, c: usize) -> usize
        requires { (c < length self.classes.now) × (count_in self.classes.now c ≤ most_numbers) }
        ensures { (result ≡ srlg_size (count_in self.entry.classes.now c)) × (result ≤ 4100) }
    {
        match self.count(c) {
            Some(n) => 4 + 4 * n,
            None => 0,
        }
    }

    // The numbers of a class that are not written yet.
    fn write_first(self, c: usize, out: &mut [u8], at: usize) -> usize
        requires { Classes self.values.now self.rows.now self.classes.now × (c < length self.classes.now) × (at + length (bytes_of_words (numbers_in self.values.now self.rows.now self.classes.now c)) ≤ length out.old) }
        ensures { Wrote out.old at (bytes_of_words (numbers_in self.entry.values.now self.entry.rows.now self.entry.classes.now c)) result out.new }
    {
        let low = self.classes[c][0];
        let high = self.classes[c][1];
        let words = (self.values.len() + 63) / 64;
        let bits = srlg_sources::bits_of(self.rows, low, high, words);
        write_bits(self.values, &bits, out, at)
    }

    // The n numbers of a class, made or copied, and where they stand then; the place after them. Place 0 is a head's: a class with it is not
    // written yet, and `places` is fixed memory that begins with zeros.
    fn write_numbers(
        self,
        places: &mut [usize],
        c: usize,
        n: usize,
        out: &mut [u8],
        at: usize,
    ) -> usize
        requires { Classes self.values.now self.rows.now self.classes.now × (c < length self.classes.now) × (c < length places.old) × (n ≡ length (numbers_in self.values.now self.rows.now self.classes.now c)) × (n ≤ most_numbers) × Standing (numbers_in self.values.now self.rows.now self.classes.now) places.old out.old at × (at + length (bytes_of_words (numbers_in self.values.now self.rows.now self.classes.now c)) ≤ length out.old) }
        ensures { Written (numbers_in self.entry.values.now self.entry.rows.now self.entry.classes.now) out.old at (bytes_of_words (numbers_in self.entry.values.now self.entry.rows.now self.entry.classes.now c)) result places.new out.new }
    {
        let from = places[c];
        if from != 0 {
            octets::copy_on(out, from, 4 * n, at);
            return at + 4 * n;
        }
        places[c] = at;
        self.write_first(c, out, at)
    }

    // The TLV of a class, if it has numbers; the place after it.
    pub fn write(self, places: &mut [usize], c: usize, out: &mut [u8], at: usize) -> usize
        requires { Classes self.values.now self.rows.now self.classes.now × (c < length self.classes.now) × (c < length places.old) × Standing (numbers_in self.values.now self.rows.now self.classes.now) places.old out.old at × (at + length (srlg_tlv (numbers_in self.values.now self.rows.now self.classes.now c)) ≤ length out.old) }
        ensures { Written (numbers_in self.entry.values.now self.entry.rows.now self.entry.classes.now) out.old at (srlg_tlv (numbers_in self.entry.values.now self.entry.rows.now self.entry.classes.now c)) result places.new out.new }
    {
        let Some(n) = self.count(c) else {
            return at;
        };
        let size = 4 * n;
        tlv_bytes::write_head(out, at, 1096, size as u16);
        self.write_numbers(places, c, n, out, at + 4)
    }
}

// The TLV of a grid's value of a kind, by its row, if it has one; the place after it.
fn write_cell<G: Grid>(run: &[u8], g: &G, k: usize, code: u16, out: &mut [u8], at: usize) -> usize
    requires { (k < 10) × RowFits run.now (get_or (G.rows g.now) k []) × (at + length (in_tlvs (λ _. row_value run.now (get_or (G.rows g.now) k [])) (code ∷ [])) ≤ length out.old) }
    ensures { Wrote out.old at (in_tlvs (λ _. row_value run.now (get_or (G.rows g.now) k [])) (code ∷ [])) result out.new }
{
    let Some(v) = g.value(k) else {
        return at;
    };
    tlv_bytes::write_value(run, v.place, v.len, code, out, at)
}

// The TLV of a kind of a grid, if it has a value; the place after it.
pub fn write_kind<G: Grid>(run: &[u8], g: &G, c: usize, out: &mut [u8], at: usize) -> usize
    requires { Fits run.now (G.rows g.now) × Among grid_codes c × (at + length (in_tlvs (grid_value run.now (G.rows g.now)) (c ∷ [])) ≤ length out.old) }
    ensures { Wrote out.old at (in_tlvs (grid_value run.now (G.rows g.now)) (c ∷ [])) result out.new }
{
    let rule = kinds::classify_code(c);
    let kind = rule.kind;
    let Kind::Application(k) = kind else {
        return at;
    };
    write_cell(run, g, k, rule.code, out, at)
}

// The TLV of a bandwidth of the link, if it has one; the place after it.
fn write_bandwidth(sets: Sets<'_>, c: usize, out: &mut [u8], at: usize) -> usize
    requires { Fits sets.run.now (link_rows sets.rows.now) × (2 < length sets.rows.now) × Among link_codes c × (at + length (in_tlvs (bandwidth_of sets.run.now (link_rows sets.rows.now)) (c ∷ [])) ≤ length out.old) }
    ensures { Wrote out.old at (in_tlvs (bandwidth_of sets.entry.run.now (link_rows sets.entry.rows.now)) (c ∷ [])) result out.new }
{
    let rule = kinds::classify_code(c);
    let kind = rule.kind;
    let Kind::Link(k) = kind else {
        return at;
    };
    write_cell(sets.run, &sets.rows[2], k, rule.code, out, at)
}

// The TLVs of the link's bandwidths, 1089 to 1091; the place after them.
pub fn write_bandwidths(sets: Sets<'_>, out: &mut [u8], at: usize) -> usize
    requires { Fits sets.run.now (link_rows sets.rows.now) × (2 < length sets.rows.now) × (at + length (in_tlvs (bandwidth_of sets.run.now (link_rows sets.rows.now)) link_codes) ≤ length out.old) }
    ensures { Wrote out.old at (in_tlvs (bandwidth_of sets.entry.run.now (link_rows sets.entry.rows.now)) link_codes) result out.new }
{
    let maximum = write_bandwidth(sets, 1089, out, at);
    let reservable = write_bandwidth(sets, 1090, out, maximum);
    write_bandwidth(sets, 1091, out, reservable)
}

// The TLVs of the kinds 1114 to 1120, ascending; the place after them.
fn write_extended<G: Grid>(run: &[u8], g: &G, out: &mut [u8], at: usize) -> usize
    requires { Fits run.now (G.rows g.now) × (at + length (in_tlvs (grid_value run.now (G.rows g.now)) extended_codes) ≤ length out.old) }
    ensures { Wrote out.old at (in_tlvs (grid_value run.now (G.rows g.now)) extended_codes) result out.new }
{
    let mut next = at;
    for c in 1114..1121 {
        next = write_kind(run, g, c, out, next);
    }
    next
}

// The TLVs of the kinds 1092 to 1120 of a grid with the SRLGs of class c, ascending; the place after them.
pub fn write_middle<G: Grid>(
    run: &[u8],
    g: &G,
    srlgs: Srlgs<'_>,
    places: &mut [usize],
    c: usize,
    out: &mut [u8],
    at: usize,
) -> usize
    requires { Writable run.now (G.rows g.now) srlgs.values.now srlgs.rows.now srlgs.classes.now places.old c out.old at × (at + length (in_tlvs (set_of run.now (G.rows g.now) (numbers_in srlgs.values.now srlgs.rows.now srlgs.classes.now c)) middle_codes) ≤ length out.old) }
    ensures { Written (numbers_in srlgs.entry.values.now srlgs.entry.rows.now srlgs.entry.classes.now) out.old at (in_tlvs (set_of run.now (G.rows g.now) (numbers_in srlgs.entry.values.now srlgs.entry.rows.now srlgs.entry.classes.now c)) middle_codes) result places.new out.new }
{
    let metric = write_kind(run, g, 1092, out, at);
    let shared = srlgs.write(places, c, out, metric);
    write_extended(run, g, out, shared)
}

// The TLVs of an application's set, of a grid and class c of SRLGs, ascending; the place after them.
pub fn write_set<G: Grid>(
    run: &[u8],
    g: &G,
    srlgs: Srlgs<'_>,
    places: &mut [usize],
    c: usize,
    out: &mut [u8],
    at: usize,
) -> usize
    requires { Writable run.now (G.rows g.now) srlgs.values.now srlgs.rows.now srlgs.classes.now places.old c out.old at × (at + length (in_tlvs (set_of run.now (G.rows g.now) (numbers_in srlgs.values.now srlgs.rows.now srlgs.classes.now c)) application_codes) ≤ length out.old) }
    ensures { Written (numbers_in srlgs.entry.values.now srlgs.entry.rows.now srlgs.entry.classes.now) out.old at (in_tlvs (set_of run.now (G.rows g.now) (numbers_in srlgs.entry.values.now srlgs.entry.rows.now srlgs.entry.classes.now c)) application_codes) result places.new out.new }
{
    let first = write_kind(run, g, 1088, out, at);
    let middle = write_middle(run, g, srlgs, places, c, out, first);
    write_kind(run, g, 1173, out, middle)
}
