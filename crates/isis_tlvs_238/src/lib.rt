// The live TLVs 238, Application-Specific SRLG, of a run B that passed its checks: the numbers of the SRLG values of those that pass a test; and what a rule
// takes: numbers of such TLVs or the legacy values of run C.

#![tactic(auto)]

ghost use Rattle.std.specs.Prelude.{◌≡◌, false, ◌&&◌, ◌/◌, ◌≤◌, ℕ, ◌+◌, ◌<◌, length, take, drop, List, []};
ghost use Rattle.linkstate.specs.Bytes.{distinct, words};
ghost use Rattle.linkstate.specs.Attributes.{srlgs};
ghost use Rattle.linkstate.specs.Questions.{number_too_high};
ghost use Rattle.replies.specs.Told.{subject_of};
ghost use Rattle.rules.specs.Names.{TellsSide};
ghost use Rattle.rules.specs.Rules.{taken_by, given_on};
ghost use Rattle.rules.specs.declared.Rule.TheVariants.{NamingFirst};
ghost use Rattle.isis.specs.RunB.{side_b, check_b, live_srlg};
ghost use Rattle.isis_tlvs_238.specs.Selected.{srlg_words, selects, masked, words_in, Listed, Whole};
ghost use Rattle.isis_tlvs_238.specs.Runs.{Passed, Fronts, OnSideB};
ghost use Rattle.linkstate.specs.Lists.{put};
ghost use Rattle.linkstate.specs.Replies.{accepted, run_b};
ghost use Rattle.linkstate.specs.Elements.{element, elements, faults};
ghost use Rattle.linkstate.specs.Sides.{of_live};
ghost use Rattle.isis.specs.MaskHeader.{sabm_length, udabm_length, header_length, advertisement};
ghost use Rattle.isis_check_a.specs.Headers.{header_of};

use frames::One;
use isis_check_a::Header;
use replies::Subject;
use rules::{Rule, SideNames};

// The numbers of the TLVs 238 that name RSVP-TE, and those of run C where these carry none, at the front of the list; how many there are.
fn naming_first(b: &[u8], c: &[u8], out: &mut [u32]) -> usize
    requires { Passed b.now c.now × (length b.now / 4 ≤ length out.old) × (length c.now / 4 ≤ length out.old) }
    ensures { Fronts out.old out.new result (srlg_words (taken_by NamingFirst 1096 (side_b b.now c.now))) }
{
    let k = collect(b, Which::Naming(0), out, 0);
    if 0 < k {
        return k;
    }
    srlg::words_into(c, out, 0)
}

// The numbers of what a rule takes on side B. No rule of a bandwidth is one of SRLG's.
fn words_by(b: &[u8], c: &[u8], rule: Rule, out: &mut [u32]) -> usize
    requires { Passed b.now c.now × (length b.now / 4 ≤ length out.old) × (length c.now / 4 ≤ length out.old) × OnSideB rule }
    ensures { Fronts out.old out.new result (srlg_words (taken_by rule 1096 (side_b b.now c.now))) }
{
    match rule {
        Rule::ByL => srlg::words_into(c, out, 0),
        Rule::Naming(n) => collect(b, Which::Naming(n), out, 0),
        Rule::General => collect(b, Which::General, out, 0),
        Rule::Legacy => srlg::words_into(c, out, 0),
        Rule::NamingFirst => naming_first(b, c, out),
        Rule::AloneFirst => 0,
        Rule::LegacyFirst => 0,
    }
}

// The first k numbers of a list put in order, repeats dropped; how many are left. tmp is room to work in.
fn sort_through(out: &mut [u32], k: usize, tmp: &mut [u32]) -> usize
    requires { (k ≤ length out.old) × (k ≤ length tmp.old) }
    ensures { (take result out.new ≡ distinct (take k out.old)) × (result ≤ k) }
{
    srlg_sort::sort_in(&mut out[0..k], tmp)
}

// The same with room of its own for N numbers.
fn sort_with<const N: usize>(out: &mut [u32], k: usize) -> usize
    requires { (k ≤ length out.old) × (k ≤ N) × (N ≤ 512) }
    ensures { (take result out.new ≡ distinct (take k out.old)) × (result ≤ k) }
{
    let mut tmp = [0u32; N];
    sort_through(out, k, &mut tmp)
}

// For few numbers, and for as many as a link can have.
fn sort_front(out: &mut [u32], k: usize) -> usize
    requires { (k ≤ length out.old) × (k ≤ 512) }
    ensures { (take result out.new ≡ distinct (take k out.old)) × (result ≤ k) }
{
    if k <= 64 {
        return sort_with::<64>(out, k);
    }
    sort_with::<512>(out, k)
}

// The SRLGs of a subject, ascending, at the front of the list, by whom side B names and whether run C has a value; how many there are. What stands behind them is of no meaning.
pub fn srlgs_of(b: &[u8], c: &[u8], whom: Subject, side: SideNames, out: &mut [u32]) -> usize
    requires { Passed b.now c.now × (length b.now / 4 ≤ length out.old) × (length c.now / 4 ≤ length out.old) × (number_too_high (subject_of whom) ≡ false) × TellsSide (side_b b.now c.now) side }
    ensures { (take result out.new ≡ srlgs (given_on (subject_of whom) 1096 (side_b b.now c.now))) × (result ≤ 512) × (result ≤ length out.old) }
{
    let rule = rules::decide(whom, 1096, side);
    let k = words_by(b, c, rule, out);
    sort_front(out, k)
}

// Which live TLVs 238 are read: those that name an application, or the general ones. The type of isis_grids has two more, which nobody asks of a TLV 238.
#[derive(Clone, Copy)]
pub enum Which {
    Naming(u32),
    General,
}

// Whether an advertisement of these masks is selected.
fn passes(which: Which, standard: &[u8], user: &[u8]) -> bool
    ensures { result ≡ selects which (masked standard.now user.now) }
{
    match which {
        Which::Naming(n) => masks::names(standard, user, n),
        Which::General => {
            if standard.len() != 0 {
                return false;
            }
            user.len() == 0
        }
    }
}

// Whether a TLV 238 is live and selected, by what follows its neighbour bytes. The masks are looked at first: that is the quicker test.
fn taken(v: &[u8], h: Header, which: Which) -> bool
    requires { (h ≡ header_of v.now) × Listed v.now }
    ensures { (at : ℕ) → result ≡ live_srlg at v.now && selects which (advertisement v.now []) }
{
    if isis_check_a::mask_too_long(h) {
        return false;
    }
    let middle = 2 + h.standard;
    if !passes(which, &v[2..middle], &v[middle..middle + h.user]) {
        return false;
    }
    isis_check::live_srlg(v)
}

// The bytes of the SRLG values of a TLV 238: none where they are not read, or the TLV is not selected.
fn values_in(value: &[u8], which: Which) -> &[u8]
    requires { Whole 238 value.now }
    ensures { ((at : ℕ) → words result.now ≡ words_in which (element at 238 value.now)) × (length result.now ≤ length value.now) }
{
    let v = &value[7..];
    let h = isis_check_a::read_header(v);
    if h.l {
        return &[];
    }
    if !taken(v, h, which) {
        return &[];
    }
    let length_byte = isis_check_a::header_length(h);
    let start = length_byte + 1 + usize::from(v[length_byte]);
    &v[start..]
}

// The SRLG numbers of one TLV of run B, if it is selected, written from a place of the list on; the place after them.
fn add_words(t: usize, value: &[u8], which: Which, out: &mut [u32], k: usize) -> usize
    requires { Whole t value.now × (k + length value.now / 4 ≤ length out.old) }
    ensures by_index { (at : ℕ) → (result ≡ k + length (words_in which (element at t value.now))) × (out.new ≡ put out.old k (words_in which (element at t value.now))) }
    ensures upper_bound { result ≤ k + length value.now / 4 }
{
    if t != 238 {
        return k;
    }
    srlg::words_into(values_in(value, which), out, k)
}

// The SRLG numbers of the live TLVs 238 that are selected, in byte order, written from a place of the list on; the place after them.
pub fn collect(b: &[u8], which: Which, out: &mut [u32], at: usize) -> usize
    requires { (faults run_b check_b (elements 1 0 b.now) ≡ accepted) × (at + length b.now / 4 ≤ length out.old) }
    ensures by_index { (c : List ℕ) → (result ≡ at + length (srlg_words (of_live (selects which) (side_b b.now c)))) × (out.new ≡ put out.old at (srlg_words (of_live (selects which) (side_b b.now c)))) }
    ensures upper_bound { result ≤ at + length b.now / 4 }
{
    let mut k = at;
    for e in frames::Whole::<One>::new(b, 0) {
        k = add_words(e.kind, e.value, which, out, k);
    }
    k
}
