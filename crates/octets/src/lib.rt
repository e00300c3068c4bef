// Octets of a run: big-endian numbers read and written, parts compared and copied, and a float from its bits.

#![tactic(auto)]

ghost use Rattle.std.specs.Prelude.{◌≡◌, ◌+◌, ◌≤◌, ◌<◌, length};
ghost use Rattle.std.specs.Float.Ieee.{of_bits};
ghost use Rattle.std.specs.Float.{binary32};
ghost use Rattle.linkstate.specs.Bytes.{number, two, four, bytes_at};
ghost use Rattle.linkstate.specs.Lists.{put, same_bytes};

// Where a value stands in a run: `len` bytes from `place` on.
#[derive(Clone, Copy)]
pub struct Span {
    pub place: usize,
    pub len: usize,
}

// The number that two bytes write.
pub fn read16(s: &[u8], at: usize) -> usize
    requires { at + 2 ≤ length s.now }
    ensures { (result ≡ number (bytes_at s.now at 2)) × (result < 65536) }
{
    usize::from(u16::from_be_bytes([s[at], s[at + 1]]))
}

// The number that three bytes write.
pub fn read24(s: &[u8], at: usize) -> u32
    requires { at + 3 ≤ length s.now }
    ensures { (result ≡ number (bytes_at s.now at 3)) × (result < 16777216) }
{
    u32::from_be_bytes([0, s[at], s[at + 1], s[at + 2]])
}

// The number that four bytes write.
pub fn read32(s: &[u8], at: usize) -> u32
    requires { at + 4 ≤ length s.now }
    ensures { (result ≡ number (bytes_at s.now at 4)) × (result < 4294967296) }
{
    u32::from_be_bytes([s[at], s[at + 1], s[at + 2], s[at + 3]])
}

// A number written as two bytes.
pub fn write16(out: &mut [u8], at: usize, x: u16)
    requires { at + 2 ≤ length out.old }
    ensures { out.new ≡ put out.old at (two x) }
{
    copy_all(&x.to_be_bytes(), out, at);
}

// A number written as four bytes.
pub fn write32(out: &mut [u8], at: usize, x: u32)
    requires { at + 4 ≤ length out.old }
    ensures { out.new ≡ put out.old at (four x) }
{
    copy_all(&x.to_be_bytes(), out, at);
}

// Whether two runs are equal.
pub fn same(x: &[u8], y: &[u8]) -> bool
    ensures { result ≡ same_bytes x.now y.now }
{
    x == y
}

// Whether n bytes of s from p on equal m bytes of t from q on.
pub fn same_parts(s: &[u8], p: usize, n: usize, t: &[u8], q: usize, m: usize) -> bool
    requires { (p + n ≤ length s.now) × (q + m ≤ length t.now) }
    ensures { result ≡ same_bytes (bytes_at s.now p n) (bytes_at t.now q m) }
{
    same(&s[p..p + n], &t[q..q + m])
}

// A run copied whole to an offset of a buffer. By index, here and below: the compiler makes a call of `memmove` of `copy_from_slice`.
pub fn copy_all(src: &[u8], out: &mut [u8], at: usize)
    requires { at + length src.now ≤ length out.old }
    ensures { out.new ≡ put out.old at src.now }
{
    for i in 0..src.len() {
        out[at + i] = src[i];
    }
}

// n bytes of a run, from a on, copied to an offset of a buffer.
pub fn copy_part(src: &[u8], a: usize, n: usize, out: &mut [u8], at: usize)
    requires { (a + n ≤ length src.now) × (at + n ≤ length out.old) }
    ensures { out.new ≡ put out.old at (bytes_at src.now a n) }
{
    copy_all(&src[a..a + n], out, at);
}

// n bytes of a buffer, copied to a later place of it.
pub fn copy_on(out: &mut [u8], from: usize, n: usize, to: usize)
    requires { (from + n ≤ to) × (to + n ≤ length out.old) }
    ensures { out.new ≡ put out.old to (bytes_at out.old from n) }
{
    for i in 0..n {
        out[to + i] = out[from + i];
    }
}

// The float whose bits these are. Every NaN pattern lies above that of infinity, and gives the one NaN.
pub fn float_of(bits: u32) -> f32
    ensures { result ≡ of_bits binary32 bits }
{
    if 2139095040 < bits % 2147483648 {
        return f32::NAN;
    }
    f32::from_bits(bits)
}

// The float that four bytes write.
pub fn float_at(s: &[u8], at: usize) -> f32
    requires { at + 4 ≤ length s.now }
    ensures { result ≡ of_bits binary32 (number (bytes_at s.now at 4)) }
{
    float_of(read32(s, at))
}
