// Sets of SRLGs as bits over one ascending list of numbers: counted and compared, word by word; what bits stand for, and its laws.

#![tactic(auto)]

ghost use Rattle.std.specs.Prelude.{◌≡◌, List, ℕ, ◌≤◌, ◌<◌, length, take};
ghost use Rattle.linkstate.specs.Masks.{in_number};
ghost use Rattle.srlg_ranks.specs.Ranks.{keep_from, Inside};

// How many bits a word has.
pub fn word_count(x: u64) -> usize
    ensures { (result ≤ 64) × ((l : List ℕ) → Inside l x → result ≡ length (keep_from (in_number x) 0 (take 64 l))) }
{
    u64::count_ones(x) as usize
}

// The bits in which two words differ.
pub fn differing(x: u64, y: u64) -> u64
    ensures { (result ≡ 0 → x ≡ y) × (((j : ℕ) → j < 64 → in_number x j ≡ in_number y j) → result ≡ 0) }
{
    x ^ y
}
