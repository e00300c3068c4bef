// Rows of sets on side A, place and length of a kind's first value in run A: of its legacy attributes, and of the ASLA sub-TLVs that pass a test (document 01,
// "Who gets what").

#![tactic(auto)]

ghost use Rattle.std.specs.Prelude.{◌≡◌, true, false, ◌&&◌, not, [], ◌+◌, ◌<◌, eqb, length, get_or};
ghost use Rattle.linkstate.specs.Replies.{accepted, run_a};
ghost use Rattle.linkstate.specs.Lists.{each};
ghost use Rattle.linkstate.specs.Elements.{elements, faults};
ghost use Rattle.linkstate.specs.Kinds.{is_code};
ghost use Rattle.linkstate.specs.Sides.{names, rsvp_te_alone, of_live};
ghost use Rattle.isis.specs.Types.{code_of_type};
ghost use Rattle.isis.specs.MaskHeader.{l_flag, mask_too_long, advertisement};
ghost use Rattle.isis.specs.RunA.{attributes_of, check_a, side_a};
ghost use Rattle.frames.specs.Left.{of_whole};
ghost use Rattle.frames.specs.Uncut.{Uncut};
ghost use Rattle.isis_grids.specs.Grid.{row_of};
ghost use Rattle.isis_grids.specs.Selected.{selects, selected, is_taken, Headed, Read, ListIn};
ghost use Rattle.isis_grids.specs.declared.Which.TheVariants.{General};

use frames::{Element, One, Whole};
use octets::Span;

// The type in run A of a code; SRLG has none. `as`: that the difference fits a byte is proved, and TryFrom would add a case that never comes.
pub fn type_of(code: usize) -> u8
    requires { (is_code code ≡ true) × (eqb code 1096 ≡ false) }
    ensures { code_of_type result ≡ code }
{
    match code {
        1088 => 3,
        1092 => 18,
        1173 => 14,
        _ => {
            if code < 1092 {
                return (code - 1080) as u8;
            }
            (code - 1081) as u8
        }
    }
}

// Which live ASLA sub-TLVs are read: those that name an application, the general ones, those whose only set bit is RSVP-TE's, or all without L.
#[derive(Clone, Copy)]
pub enum Which {
    Naming(u32),
    General,
    RsvpTeAlone,
    WithoutL,
}

// Whether the ASLA of a value is without L, and its masks are not too long to be read: with L the first byte is 128 or more.
fn is_read(v: &[u8]) -> bool
    requires { Headed v.now }
    ensures { result ≡ not (l_flag v.now) && not (mask_too_long v.now) }
{
    if 8 < v[0] {
        return false;
    }
    v[1] % 128 <= 8
}

// Whether such an ASLA names an application.
fn names_in(v: &[u8], n: u32) -> bool
    requires { Read v.now }
    ensures { result ≡ names n (advertisement v.now []) }
{
    let standard = usize::from(v[0]);
    if n < 64 {
        return masks::bit_at(v, 2, standard, n);
    }
    if 96 <= n {
        return false;
    }
    let user = usize::from(v[1] % 128);
    masks::bit_at(v, 2 + standard, user, n - 64)
}

// Whether RSVP-TE's is its only bit.
fn is_alone(v: &[u8]) -> bool
    requires { Read v.now }
    ensures { result ≡ rsvp_te_alone (advertisement v.now []) }
{
    if !names_in(v, 0) {
        return false;
    }
    let m = 2 + usize::from(v[0]);
    let e = m + usize::from(v[1] % 128);
    masks::rsvp_te_alone(&v[2..m], &v[m..e])
}

// Whether both its masks have no byte; with L the first byte is not 0.
fn is_general(v: &[u8]) -> bool
    requires { Headed v.now }
    ensures { result ≡ is_taken General v.now }
{
    if v[0] != 0 {
        return false;
    }
    v[1] % 128 == 0
}

// Whether the ASLA of a value is selected, and its list read.
fn is_selected(v: &[u8], which: Which) -> bool
    requires { Headed v.now }
    ensures { result ≡ is_taken which v.now }
{
    match which {
        Which::Naming(n) => {
            if !is_read(v) {
                return false;
            }
            names_in(v, n)
        }
        Which::General => is_general(v),
        Which::RsvpTeAlone => {
            if !is_read(v) {
                return false;
            }
            is_alone(v)
        }
        Which::WithoutL => is_read(v),
    }
}

// Where in the value of an ASLA its list begins, if it is selected and its list read.
fn list_in(v: &[u8], which: Which) -> Option<usize>
    requires { Headed v.now }
    ensures { ListIn which v.now result }
{
    if !is_selected(v, which) {
        return None;
    }
    Some(2 + usize::from(v[0]) + usize::from(v[1] % 128))
}

// The row of one kind, by its type, in a list whose first byte is at an offset of run A.
fn row_in(s: &[u8], base: usize, t: u8) -> Option<Span>
    requires { (code_of_type t ≡ 0 → ⊥) × (base + length s.now < 18446744073709551616) × Uncut (elements 1 base s.now) }
    ensures { result ≡ row_of (code_of_type t) (each attributes_of (elements 1 base s.now)) }
{
    for Element { at, kind, value } in Whole::<One>::new(s, base) {
        if kind == usize::from(t) {
            return Some(Span {
                place: at + 2,
                len: value.len(),
            });
        }
    }
    None
}

// The row of one kind, by its type, among run A's own elements.
pub fn legacy_row(a: &[u8], t: u8) -> Option<Span>
    requires { (code_of_type t ≡ 0 → ⊥) × (faults run_a check_a (elements 1 0 a.now) ≡ accepted) }
    ensures { result ≡ row_of (code_of_type t) (side_a a.now).legacy }
{
    row_in(a, 0, t)
}

// The row of one kind, by its type, in the list of a sub-TLV of run A, if that is an ASLA which is selected.
fn row_of_one(e: Element, which: Which, t: u8) -> Option<Span>
    requires { (code_of_type t ≡ 0 → ⊥) × (e.at + 2 + length e.value.now < 18446744073709551616) × (check_a e.at e.kind e.value.now ≡ accepted) }
    ensures { result ≡ row_of (code_of_type t) (selected which (of_whole e.entry)) }
{
    if e.kind != 16 {
        return None;
    }
    let first = list_in(e.value, which)?;
    row_in(&e.value[first..], e.at + 2 + first, t)
}

// The row of one kind, by its type, in the live ASLA sub-TLVs that are selected.
pub fn live_row(a: &[u8], which: Which, t: u8) -> Option<Span>
    requires { (code_of_type t ≡ 0 → ⊥) × (faults run_a check_a (elements 1 0 a.now) ≡ accepted) }
    ensures { result ≡ row_of (code_of_type t) (of_live (selects which) (side_a a.now)) }
{
    for e in Whole::<One>::new(a, 0) {
        let row = row_of_one(e, which, t);
        if row.is_some() {
            return row;
        }
    }
    None
}
