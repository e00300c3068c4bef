// Whether the type of an element stood before in its list (request E5): by a bit for each type, and where the bit is set, by a look at the elements before.

#![tactic(auto)]

ghost use Rattle.std.specs.Prelude.{◌≡◌, List, ◌∷◌, ℕ, ◌%◌, ◌≤◌, ◌<◌};
ghost use Rattle.linkstate.specs.Lists.{member};
ghost use Rattle.linkstate.specs.Masks.{in_number};
ghost use Rattle.repeats.specs.Walked.{Walked, Remembers};

use frames::{Whole, Width};

// The types that stood in a list, each by its last six bits: where the bit of a type is not set, it did not stand.
pub fn may_have_stood(seen: u64, kind: usize) -> bool
    ensures { result ≡ in_number seen (kind % 64) }
{
    let n = (kind % 64) as u32;
    (seen >> n) % 2 == 1
}

// The same with one type more.
pub fn with_kind(seen: u64, kind: usize) -> u64
    ensures { (ts : List ℕ) → Remembers seen ts → Remembers result (kind ∷ ts) }
{
    let n = (kind % 64) as u32;
    seen | (1 << n)
}

// Whether an element of the type begins in s between two places.
pub fn stood<W: Width>(s: &[u8], from: usize, at: usize, kind: usize) -> bool
    requires { (ts : List ℕ) × Walked W.BYTES s.now at from ts }
    ensures { (ts : List ℕ) → Walked W.BYTES s.now at from ts → result ≡ member kind ts }
{
    // The contract says of a place before which nothing stands not even that it is one of s.
    if from == at {
        return false;
    }
    Whole::<W>::behind(&s[..at], from).any(|e| e.kind == kind)
}
