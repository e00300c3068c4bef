// Masks of applications: read from their bytes, kept as 64-bit numbers (application n is 2 to the n; or as sent, the first byte the lowest), and written.

#![tactic(auto)]

ghost use Rattle.std.specs.Prelude.{◌≡◌, false, ◌||◌, ◌&&◌, not, ℕ, ◌+◌, ◌≤◌, ◌<◌, length, take, drop};
ghost use Rattle.linkstate.specs.Lists.{any, put};
ghost use Rattle.linkstate.specs.Masks.{bit, in_masks, others, as_number, in_number, last_below, mask_size, mask};
ghost use Rattle.std.specs.Iterator.{at_most};
ghost use Rattle.masks.specs.Sets.{last_of, Takes, little_endian, in_sent, turned_place, four_bytes, exchanged};
ghost use Rattle.masks.specs.Applications.{in_set, at_place, user_bytes};

// A set of applications, standard and user, as masks have them: the number of a mask's bytes, the first the lowest.
#[derive(Clone, Copy)]
pub struct Applications {
    pub standard: u64,
    pub user: u64,
}

// The bits of m at the places of q, and those k above them, in each other's place.
fn exchange(q: u64, m: u64, k: u32) -> u64
    requires { k < 64 }
    ensures { (n : ℕ) → n < 64 → in_number result n ≡ exchanged (in_number q) (in_number m) k n }
{
    (q & (m >> k)) | ((q & m) << k)
}

// The number whose bytes have their bits in the other order: neighbours change places, then twos, then fours.
pub fn turned(m: u64) -> u64
    ensures { (n : ℕ) → n < 64 → in_number result n ≡ in_sent m n }
{
    let a = exchange(0x5555555555555555, m, 1);
    let b = exchange(0x3333333333333333, a, 2);
    exchange(0x0F0F0F0F0F0F0F0F, b, 4)
}

// Where the bit of application n stands in a mask as sent.
pub fn turned_place(n: usize) -> usize
    requires { n < 128 }
    ensures { (result ≡ turned_place n) × (result < 128) }
{
    n ^ 7
}

// The number whose bytes these are, the first the lowest.
fn few_bytes(s: &[u8]) -> u64
    requires { length s.now ≤ 8 }
    ensures { result ≡ little_endian s.now }
{
    let mut m = 0;
    for b in s.iter().rev() {
        m = m * 256 + u64::from(*b);
    }
    m
}

// The same; masks of four and of eight bytes, as most are, are read at once.
fn little_endian(s: &[u8]) -> u64
    requires { length s.now ≤ 8 }
    ensures { result ≡ little_endian s.now }
{
    match s {
        [a, b, c, d] => u64::from(u32::from_le_bytes([*a, *b, *c, *d])),
        [a, b, c, d, e, f, g, h] => u64::from_le_bytes([*a, *b, *c, *d, *e, *f, *g, *h]),
        _ => few_bytes(s),
    }
}

// The number of the first n of eight bytes, which are read at once.
fn front_bytes(s: &[u8; 8], n: usize) -> u64
    requires { (0 < n) × (n ≤ 8) }
    ensures { result ≡ little_endian (take n s.now) }
{
    let unused = (64 - 8 * n) as u32;
    (u64::from_le_bytes(*s) << unused) >> unused
}

// A set in the order of a mask's bytes, with the applications of the mask of n bytes at a place of a run. Eight bytes are read where the run has them.
fn with_sent(m: u64, s: &[u8], at: usize, n: usize) -> u64
    requires { (at + n ≤ length s.now) × (n ≤ 8) × (length s.now < 4294967296) }
    ensures { (k : ℕ) → in_sent result k ≡ in_sent m k || bit (take n (drop at s.now)) k }
{
    if n == 0 {
        return m;
    }
    if let Some(eight) = s[at..].first_chunk() {
        return joined(m, front_bytes(eight, n));
    }
    joined(m, few_bytes(&s[at..at + n]))
}

// The applications of a mask, as a number.
pub fn mask_number(s: &[u8]) -> u64
    requires { length s.now ≤ 8 }
    ensures { result ≡ as_number (bit s.now) }
{
    turned(little_endian(s))
}

// Whether application n is in the set m.
pub fn has(m: u64, n: u32) -> bool
    requires { n < 64 }
    ensures { result ≡ in_number m n }
{
    (m >> n) % 2 == 1
}

// Whether bit n of the mask of `len` bytes at a place of a run is set. Bits not sent are 0.
pub fn bit_at(s: &[u8], at: usize, len: usize, n: u32) -> bool
    requires { at + len ≤ length s.now }
    ensures { result ≡ bit (take len (drop at s.now)) n }
{
    let i = (n / 8) as usize;
    if len <= i {
        return false;
    }
    (s[at + i] >> (7 - n % 8)) % 2 == 1
}

// The same of a mask by itself.
pub fn has_bit(s: &[u8], n: u32) -> bool
    ensures { result ≡ bit s.now n }
{
    bit_at(s, 0, s.len(), n)
}

// Whether a standard and a user mask name application a.
pub fn names(standard: &[u8], user: &[u8], a: u32) -> bool
    ensures { result ≡ in_masks standard.now user.now a }
{
    if a < 64 {
        return has_bit(standard, a);
    }
    if a < 96 {
        return has_bit(user, a - 64);
    }
    false
}

// How many bytes of a user mask of n bytes are read: four at most, as its bits from 32 on are retired.
#[tactic(auto, using(crate::proofs::UserBytes::few_bytes_read, crate::proofs::UserBytes::four_bytes_read))]
fn user_bytes(n: usize) -> usize
    ensures { (result ≡ user_bytes n) × (result ≤ n) × (result ≤ 4) }
{
    if n < 4 {
        return n;
    }
    4
}

// Whether RSVP-TE is all that a standard and a user mask name.
pub fn rsvp_te_alone(standard: &[u8], user: &[u8]) -> bool
    requires { (length standard.now ≤ 8) × (length user.now ≤ 8) }
    ensures { result ≡ in_masks standard.now user.now 0 && not (any (in_masks standard.now user.now) others) }
{
    if mask_number(standard) != 1 {
        return false;
    }
    let n = user_bytes(user.len());
    mask_number(&user[0..n]) == 0
}

// No application.
pub fn nobody() -> Applications
    ensures { (p : ℕ) → at_place result p ≡ false }
{
    Applications {
        standard: 0,
        user: 0,
    }
}

// Whether application n is in a set: 64 and more are the user's.
pub fn is_in(m: Applications, n: u32) -> bool
    requires { n < 128 }
    ensures { result ≡ in_set m n }
{
    if n < 64 {
        return has(m.standard, n / 8 * 8 + (7 - n % 8));
    }
    let k = n - 64;
    has(m.user, k / 8 * 8 + (7 - k % 8))
}

// The applications of either set.
pub fn join(a: Applications, b: Applications) -> Applications
    ensures { (p : ℕ) → at_place result p ≡ at_place a p || at_place b p }
{
    Applications {
        standard: joined(a.standard, b.standard),
        user: joined(a.user, b.user),
    }
}

// The applications of the first set that are not in the second.
pub fn except(a: Applications, b: Applications) -> Applications
    ensures { (p : ℕ) → at_place result p ≡ at_place a p && not (at_place b p) }
{
    Applications {
        standard: without(a.standard, b.standard),
        user: without(a.user, b.user),
    }
}

// The set with application n at place n: as 2 to the n.
pub fn turned_set(m: Applications) -> Applications
    ensures { (n : ℕ) → at_place result n ≡ in_set m n }
{
    Applications {
        standard: turned(m.standard),
        user: turned(m.user),
    }
}

// A set with the applications of two masks, a standard one at a place of a run and the user's behind it: the one reader of masks.
pub fn with_masks(
    m: Applications,
    s: &[u8],
    at: usize,
    standard: usize,
    user: usize,
) -> Applications
    requires { (standard ≤ 8) × (user ≤ 8) × (at + standard + user ≤ length s.now) × (length s.now < 4294967296) }
    ensures { (n : ℕ) → in_set result n ≡ in_set m n || in_masks (take standard (drop at s.now)) (take user (drop (at + standard) s.now)) n }
{
    let few = user_bytes(user);
    Applications {
        standard: with_sent(m.standard, s, at, standard),
        user: with_sent(m.user, s, at + standard, few),
    }
}

// The last application of a set, if any.
pub fn last_bit(m: u64) -> Option<u32>
    ensures { last_of result ≡ last_below 64 (in_number m) }
{
    m.checked_ilog2()
}

// A walk over the places of a word's set bits, the lowest first: `for t in Bits(m)`.
#[derive(Clone, Copy, Drop)]
pub struct Bits(pub u64);

impl Iterator for Bits {
    type Item = usize;

    ghost next_gives = { Takes };

    ghost remaining = { λ s. at_most s.0 };

    fn next(&mut self) -> Option<usize> {
        if self.0 == 0 {
            return None;
        }
        let t = self.0.trailing_zeros() as usize;
        self.0 = self.0 & (self.0 - 1);
        Some(t)
    }
}

// The applications of either set.
pub fn joined(a: u64, b: u64) -> u64
    ensures { (n : ℕ) → in_number result n ≡ in_number a n || in_number b n }
{
    a | b
}

// The applications of the first set that are not in the second.
pub fn without(a: u64, b: u64) -> u64
    ensures { (n : ℕ) → in_number result n ≡ in_number a n && not (in_number b n) }
{
    a ^ (a & b)
}

// How many bytes a mask as sent is written in: the last bit of its number stands in the same byte as its own.
pub fn mask_size(m: u64) -> usize
    ensures { (result ≡ mask_size (in_sent m)) × (result ≤ 8) }
{
    match last_bit(m) {
        None => 0,
        Some(n) => if n < 32 { 4 } else { 8 },
    }
}

// The low four bytes of a number, the lowest first.
fn write_four(m: u64, out: &mut [u8], at: usize)
    requires { at + 4 ≤ length out.old }
    ensures { out.new ≡ put out.old at (four_bytes m) }
{
    let low = (m % 4294967296) as u32;
    out[at..at + 4].copy_from_slice(&low.to_le_bytes());
}

// A mask as sent, written at a place of a buffer; the place after it.
pub fn write_mask(m: u64, out: &mut [u8], at: usize) -> usize
    requires { at + mask_size (in_sent m) ≤ length out.old }
    ensures { (result ≡ at + mask_size (in_sent m)) × (out.new ≡ put out.old at (mask (in_sent m))) }
{
    if m == 0 {
        return at;
    }
    write_four(m, out, at);
    let high = m / 4294967296;
    if high == 0 {
        return at + 4;
    }
    write_four(high, out, at + 4);
    at + 8
}
