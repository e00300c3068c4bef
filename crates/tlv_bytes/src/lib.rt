// TLVs written: their heads, and values that stand in a run (document 01, "BGP-LS bytes").

#![tactic(auto)]

ghost use Rattle.std.specs.Prelude.{◌≡◌, ◌∷◌, [], ◌++◌, ◌+◌, ◌≤◌, ◌<◌, length};
ghost use Rattle.linkstate.specs.Lists.{put};
ghost use Rattle.linkstate.specs.Bytes.{two, four};
ghost use Rattle.linkstate.specs.Masks.{mask_size, mask};
ghost use Rattle.masks.specs.Sets.{in_sent};
ghost use Rattle.tlv_bytes.specs.Tlvs.{Wrote, value_at, value_size};
ghost use Rattle.tlv_bytes.specs.Fronts.{front_size, asla_front};
ghost use Rattle.linkstate.specs.Export.{tlv, bytes_of};

use masks::Applications;

// How many bytes it has.
pub fn front_size(m: Applications) -> usize
    ensures { (result ≡ front_size m) × (result ≤ 24) }
{
    8 + masks::mask_size(m.standard) + masks::mask_size(m.user)
}

// The masks as they were sent; the place after them.
fn write_masks(m: Applications, out: &mut [u8], at: usize) -> usize
    requires { at + (mask_size (in_sent m.standard) + mask_size (in_sent m.user)) ≤ length out.old }
    ensures { Wrote out.old at (mask (in_sent m.standard) ++ mask (in_sent m.user)) result out.new }
{
    let next = masks::write_mask(m.standard, out, at);
    masks::write_mask(m.user, out, next)
}

// The first eight bytes: type and length of the value, the lengths s and u of the masks, and two zero bytes.
fn write_asla_head(s: usize, u: usize, len: usize, out: &mut [u8], at: usize)
    requires { (s ≤ 8) × (u ≤ 8) × (len < 65536) × (at + 8 ≤ length out.old) }
    ensures { out.new ≡ put out.old at (two 1122 ++ two len ++ (s ∷ u ∷ 0 ∷ 0 ∷ [])) }
{
    write_head(out, at, 1122, len as u16);
    octets::write32(out, at + 4, (s as u32) * 16777216 + (u as u32) * 65536);
}

// The whole, before a set whose TLVs have so many bytes; the place after it.
pub fn write_front(m: Applications, size: usize, out: &mut [u8], at: usize) -> usize
    requires { (size < 65000) × (at + front_size m ≤ length out.old) }
    ensures { Wrote out.old at (asla_front m size) result out.new }
{
    let s = masks::mask_size(m.standard);
    let u = masks::mask_size(m.user);
    write_asla_head(s, u, 4 + s + u + size, out, at);
    write_masks(m, out, at + 8)
}

// How many bytes the TLV of a value of n bytes has: what is in front of it counts.
pub fn value_size(n: usize) -> usize
    requires { n < 65536 }
    ensures { (result ≡ value_size n) × (result ≤ n + 5) }
{
    if n == 3 {
        return 8;
    }
    4 + n
}

// Type and length of a TLV.
pub fn write_head(out: &mut [u8], at: usize, code: u16, len: u16)
    requires { at + 4 ≤ length out.old }
    ensures { out.new ≡ put out.old at (two code ++ two len) }
{
    octets::write32(out, at, (code as u32) * 65536 + (len as u32));
}

// The TLV of a number of four bytes; the place after it.
fn write_number(x: u32, code: u16, out: &mut [u8], at: usize) -> usize
    requires { at + length (bytes_of (tlv code (four x))) ≤ length out.old }
    ensures { Wrote out.old at (bytes_of (tlv code (four x))) result out.new }
{
    write_head(out, at, code, 4);
    octets::write32(out, at + 4, x);
    at + 8
}

// The TLV of a value that stands in a run; the place after it. A value of three bytes, before which a zero byte comes, is a number of four.
pub fn write_value(
    run: &[u8],
    place: usize,
    n: usize,
    code: u16,
    out: &mut [u8],
    at: usize,
) -> usize
    requires { (place + n ≤ length run.now) × (n < 65536) × (at + length (bytes_of (tlv code (value_at run.now place n))) ≤ length out.old) }
    ensures { Wrote out.old at (bytes_of (tlv code (value_at run.now place n))) result out.new }
{
    if n == 4 {
        return write_number(octets::read32(run, place), code, out, at);
    }
    if n == 3 {
        return write_number(octets::read24(run, place), code, out, at);
    }
    write_head(out, at, code, n as u16);
    octets::copy_part(run, place, n, out, at + 4);
    at + 4 + n
}
