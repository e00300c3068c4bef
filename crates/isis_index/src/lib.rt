// The walk of an accepted run A: each value goes to the slots of those that get it, in the table of the link's sets.

#![tactic(auto)]

ghost use Rattle.std.specs.Prelude.{◌≡◌, true, List, [], ◌∷◌, ℕ, ◌+◌, ◌≤◌, ◌<◌, length, get_or, set};
ghost use Rattle.linkstate.specs.Lists.{each};
ghost use Rattle.linkstate.specs.Replies.{accepted, run_a};
ghost use Rattle.linkstate.specs.Elements.{elements, faults};
ghost use Rattle.rules.specs.Names.{TellsSide};
ghost use Rattle.masks.specs.Applications.{in_set, at_place};
ghost use Rattle.isis.specs.RunA.{check_a, attributes_of, asla_advertisements, side_a};
ghost use Rattle.grids.specs.Slots.{cell, IsSet};
ghost use Rattle.set_table.specs.Tables.{first, Table, Given, only_at, slot_at, Within, Owned, Gave};
ghost use Rattle.isis_index.specs.Index.{owning, Right, Listed, attribute_at, Took, TookFor, Ready, from_legacy, heard_by_all, heard};
ghost use Rattle.isis_index.specs.Index.{takes, part_of, here_in, Here, Ground, Owning, ReadAs, Gains, Empty, Walked};
ghost use Rattle.isis_index.specs.Started.{Started};
ghost use Rattle.isis_index.specs.Settled.{settled, Settled, from_old, rsvp_te_slot, filled_slot};
ghost use Rattle.isis_index.specs.Indexed.{Indexed};

use frames::{Element, One, Whole};
use kinds::Kind;
use masks::Applications;
use rules::{Names, Rule, SideNames};

// A legacy attribute, by its type.
fn enter_legacy(a: &[u8], sets: &mut [[u32; 12]], t: usize, place: usize, n: usize)
    requires { Table a.now sets.old × (3 ≤ length sets.old) × Right a.now t place n }
    ensures { (v : List ℕ) → Took a.now sets.old sets.new from_legacy (attribute_at t place n v ∷ []) }
{
    let rule = isis_kinds::classify_type(t);
    let kind = rule.kind;
    match kind {
        Kind::Link(k) => set_table::enter_link(sets, k, place, n),
        Kind::Application(k) => set_table::enter_one(a, sets, 1, k, place, n),
        Kind::Srlg | Kind::Asla | Kind::Unknown => (),
    }
}

// An attribute of a general advertisement, by its type. No twin of the one above: of the link's kinds only the first is taken, and to another cell.
fn enter_general(a: &[u8], sets: &mut [[u32; 12]], t: usize, place: usize, n: usize)
    requires { Table a.now sets.old × (3 ≤ length sets.old) × Right a.now t place n }
    ensures { (v : List ℕ) → Took a.now sets.old sets.new heard_by_all (attribute_at t place n v ∷ []) }
{
    let rule = isis_kinds::classify_type(t);
    let kind = rule.kind;
    match kind {
        Kind::Link(k) => {
            if k == 0 {
                set_table::enter_link(sets, 3, place, n);
            }
        }
        Kind::Application(k) => set_table::enter_one(a, sets, 0, k, place, n),
        Kind::Srlg | Kind::Asla | Kind::Unknown => (),
    }
}

// An attribute of an advertisement that names a set, by its type.
fn enter_for(
    a: &[u8],
    sets: &mut [[u32; 12]],
    own: &[[u8; 2]; 128],
    have: &mut [[u64; 2]; 10],
    t: usize,
    place: usize,
    n: usize,
    who: Applications,
)
    requires { Ready a.now own.now sets.old have.old × Right a.now t place n × Within who (owning own.now) }
    ensures { (v : List ℕ) → TookFor a.now own.now sets.old have.old sets.new have.new (heard who) (attribute_at t place n v ∷ []) }
{
    let rule = isis_kinds::classify_type(t);
    let kind = rule.kind;
    match kind {
        Kind::Link(k) => {
            if k == 0 {
                return set_table::enter_link(sets, 3, place, n);
            }
            if (who.standard == 128) & (who.user == 0) {
                set_table::enter_link(sets, 3 + k, place, n);
            }
        }
        Kind::Application(k) => { set_table::enter_named(a, sets, own, have, k, place, n, who) }
        Kind::Srlg | Kind::Asla | Kind::Unknown => (),
    }
}

// The list of a general advertisement, which stands in run A from one place to another.
fn general_list(a: &[u8], from: usize, end: usize, sets: &mut [[u32; 12]])
    requires { Table a.now sets.old × (3 ≤ length sets.old) × Listed a.now from end }
    ensures { Took a.now sets.old sets.new heard_by_all (each attributes_of (elements 1 from (part_of a.now from end))) }
{
    for Element { at, kind, value } in Whole::<One>::new(&a[from..end], from) {
        enter_general(a, sets, kind, at + 2, value.len());
    }
}

// The list of an advertisement that names a set. Apart from the one above, since one function would ask for whom at each attribute.
fn named_list(
    a: &[u8],
    from: usize,
    end: usize,
    sets: &mut [[u32; 12]],
    own: &[[u8; 2]; 128],
    have: &mut [[u64; 2]; 10],
    who: Applications,
)
    requires { Ready a.now own.now sets.old have.old × Listed a.now from end × Within who (owning own.now) }
    ensures { TookFor a.now own.now sets.old have.old sets.new have.new (heard who) (each attributes_of (elements 1 from (part_of a.now from end))) }
{
    for Element { at, kind, value } in Whole::<One>::new(&a[from..end], from) {
        enter_for(a, sets, own, have, kind, at + 2, value.len(), who);
    }
}

// What is read of an ASLA: its list from a place on, for all or for those that it names.
#[derive(Clone, Copy)]
enum Asla {
    ForAll(usize),
    ForNamed(usize, Applications),
}

// The header of an ASLA of an accepted run. With L, or with a mask too long to be read, nobody hears its list.
fn read_asla(a: &[u8], at: usize, end: usize) -> Option<Asla>
    requires { Here a.now at end × (get_or a.now at 0 ≡ 16) }
    ensures { ReadAs a.now at end result }
{
    let value = at + 2;
    let h = isis_check_a::read_header(&a[value..end]);
    if h.l {
        return None;
    }
    if isis_check_a::mask_too_long(h) {
        return None;
    }
    let masks = value + 2;
    let from = masks + h.standard + h.user;
    if from == masks {
        return Some(Asla::ForAll(from));
    }
    let who = masks::with_masks(masks::nobody(), a, masks, h.standard, h.user);
    Some(Asla::ForNamed(from, who))
}

// An ASLA of an accepted run.
fn add_asla(
    a: &[u8],
    at: usize,
    end: usize,
    sets: &mut [[u32; 12]],
    own: &[[u8; 2]; 128],
    have: &mut [[u64; 2]; 10],
)
    requires { Ready a.now own.now sets.old have.old × Here a.now at end × (get_or a.now at 0 ≡ 16) × Owning own.now (asla_advertisements (here_in a.now at)) }
    ensures { Gains a.now own.now sets.old sets.new have.new (λ src. takes src (here_in a.now at)) }
{
    match read_asla(a, at, end) {
        None => (),
        Some(Asla::ForAll(from)) => general_list(a, from, end, sets),
        Some(Asla::ForNamed(from, who)) => named_list(a, from, end, sets, own, have, who),
    }
}

// An element of an accepted run A.
fn add_element(
    a: &[u8],
    e: Element<'_>,
    sets: &mut [[u32; 12]],
    own: &[[u8; 2]; 128],
    have: &mut [[u64; 2]; 10],
)
    requires { Ready a.now own.now sets.old have.old × Here a.now e.at (e.at + 2 + length e.value.now) × (get_or a.now e.at 0 ≡ e.kind)
        × Owning own.now (asla_advertisements (here_in a.now e.at)) }
    ensures { Gains a.now own.now sets.old sets.new have.new (λ src. takes src (here_in a.now e.entry.at)) }
{
    let place = e.at + 2;
    let n = e.value.len();
    if e.kind == 16 {
        return add_asla(a, e.at, place + n, sets, own, have);
    }
    enter_legacy(a, sets, e.kind, place, n);
}

// The whole of an accepted run A, for a table of empty rows.
fn walk(a: &[u8], sets: &mut [[u32; 12]], own: &[[u8; 2]; 128])
    requires { (faults run_a check_a (elements 1 0 a.now) ≡ accepted) × (length a.now < 65536) × Ground own.now sets.old × Empty sets.old
        × Owning own.now (side_a a.now).live }
    ensures { (length sets.new ≡ length sets.old) × Walked a.now own.now sets.new }
{
    let mut have = [[0u64; 2]; 10];
    for e in Whole::<One>::new(a, 0) {
        add_element(a, e, sets, own, &mut have);
    }
}

// The first of two cells; 0 is none.
fn first_of(x: u32, y: u32) -> u32
    ensures { result ≡ first x y }
{
    if x == 0 {
        return y;
    }
    x
}

// The link's bandwidths: 1089 of legacy's, then of any ASLA without L; 1090 and 1091 of ASLAs for RSVP-TE alone, unless it is named with L, then of legacy's.
fn settle_row(row: &mut [u32; 12], l: bool)
    ensures { row.new ≡ settled row.old l }
{
    row[0] = first_of(row[0], row[3]);
    if l {
        return;
    }
    row[1] = first_of(row[4], row[1]);
    row[2] = first_of(row[5], row[2]);
}

fn settle(sets: &mut [[u32; 12]], l: bool)
    requires { 2 < length sets.old }
    ensures { sets.new ≡ set sets.old 2 (settled (get_or sets.old 2 []) l) }
{
    settle_row(&mut sets[2], l);
}

// Legacy's value of kind k for a slot, unless it has one.
fn add_old(a: &[u8], sets: &mut [[u32; 12]], s: usize, k: usize)
    requires { Table a.now sets.old × (1 < length sets.old) × IsSet sets.old s × (k < 10) }
    ensures { Table a.now sets.new × Given sets.old sets.new (only_at s k (cell sets.old 1 k)) }
{
    let Some(v) = grids::value_at(sets, 1, k) else {
        return;
    };
    set_table::enter_one(a, sets, s, k, v.place, v.len);
}

// Legacy's values for a slot, of the kinds that it lacks.
fn add_all_old(a: &[u8], sets: &mut [[u32; 12]], s: usize)
    requires { Table a.now sets.old × (1 < length sets.old) × IsSet sets.old s }
    ensures { Table a.now sets.new × Given sets.old sets.new (from_old sets.old s) }
{
    for k in 0..10 {
        add_old(a, sets, s, k);
    }
}

// The slot of RSVP-TE's set: the general set's, legacy's, or its own, which is filled up from legacy's.
fn rsvp_te_slot(a: &[u8], side: SideNames, sets: &mut [[u32; 12]], own: &[[u8; 2]; 128]) -> usize
    requires { Table a.now sets.old × (1 < length sets.old) × (in_set side.names.named 0 ≡ true → IsSet sets.old (slot_at own.now 7)) }
    ensures { (result ≡ rsvp_te_slot side.names side.legacy own.now) × Table a.now sets.new
        × Given sets.old sets.new (from_old sets.old (filled_slot side.names side.legacy own.now)) }
{
    let names = side.names;
    let l = names.is_named_with_l(0);
    let n = names.is_named(0);
    match rules::rsvp_te_rule(l, n, side.legacy) {
        Rule::NamingFirst => {
            let s = usize::from(own[7][0]);
            add_all_old(a, sets, s);
            s
        }
        Rule::General => 0,
        _ => 1,
    }
}

// Those that are named with L take legacy's slot.
fn give_old(who: Applications, own: &mut [[u8; 2]; 128])
    requires { Owned own.old }
    ensures { Gave own.old own.new (at_place who) 1 }
{
    set_table::give_slot(who.standard, 0, 1, own);
    set_table::give_slot(who.user, 64, 1, own);
}

// The whole of an accepted run A, for a table of empty rows, and then the link's bandwidths.
fn walk_and_settle(a: &[u8], named: Names, sets: &mut [[u32; 12]], own: &[[u8; 2]; 128])
    requires { (faults run_a check_a (elements 1 0 a.now) ≡ accepted) × (length a.now < 65536) × Ground own.now sets.old × Empty sets.old
        × Owning own.now (side_a a.now).live }
    ensures { Settled a.now own.now sets.old sets.new (in_set named.flagged 0) }
{
    walk(a, sets, own);
    settle(sets, named.is_named_with_l(0));
}

// Run A, accepted, whose applications have their slots: the table of its sets, and the slot of every subject. The answer is the slot of RSVP-TE's set.
pub fn index_a(a: &[u8], side: SideNames, sets: &mut [[u32; 12]], own: &mut [[u8; 2]; 128]) -> usize
    requires { (faults run_a check_a (elements 1 0 a.now) ≡ accepted) × (length a.now < 65536) × TellsSide (side_a a.now) side
        × Started side.names sets.old own.old }
    ensures { Indexed a.now sets.new own.new result }
{
    walk_and_settle(a, side.names, sets, own);
    let r = rsvp_te_slot(a, side, sets, own);
    give_old(side.names.flagged, own);
    r
}
