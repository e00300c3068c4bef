// The export of a link from the tables of its sets and of its SRLGs: classes, groups, size and bytes (document 01, "BGP-LS bytes"). No protocol is known here.

#![tactic(auto)]

ghost use Rattle.std.specs.Prelude.{◌≡◌, true, List, [], ◌∷◌, ℕ, ◌+◌, ◌*◌, ◌≤◌, ◌<◌, length, set, take};
ghost use Rattle.replies.specs.Told.{told_exported};
ghost use Rattle.masks.specs.Applications.{in_set, at_place};
ghost use Rattle.grids.specs.Slots.{Slots};
ghost use Rattle.set_table.specs.Tables.{how_many};
ghost use Rattle.export_tables.specs.Resolved.{Ready, AnswersAll, Filled, AnswersDescribed};
ghost use Rattle.set_groups.specs.Table as Groups;

use export_bytes::Top;
use grids::Sets;
use masks::Applications;
use replies::Refusal;
use rules::SideNames;
use set_bytes::Srlgs;
use srlg_table::Used;

// What an export goes by: the applications that are named; what the rule asks of the side of the SRLGs; how much of the sources of SRLGs is used; how many slots there are, and which is that of RSVP-TE's set; and whether the length
// alone is asked for.
#[derive(Clone, Copy)]
pub struct Plan {
    pub who: Applications,
    pub side: SideNames,
    pub used: Used,
    pub slots: usize,
    pub slot: usize,
    pub measuring: bool,
}

// How many classes and groups there are, the slot and the class of RSVP-TE's set, and whether the length alone is asked for.
#[derive(Clone, Copy)]
struct Parts {
    classes: usize,
    groups: usize,
    slot: usize,
    class: usize,
    measuring: bool,
}

// The export of the meaning that the first classes and groups describe, or its length alone.
fn export_parts(
    sets: Sets<'_>,
    srlgs: Srlgs<'_>,
    t: Parts,
    groups: &[[u64; 3]],
    places: &mut [usize],
    out: &mut [u8],
) -> Result<usize, Refusal>
    requires { Filled sets.run.now t srlgs.rows.now srlgs.values.now sets.rows.now srlgs.classes.now groups.now places.old }
    ensures { AnswersDescribed sets.entry.run.now t srlgs.entry.rows.now srlgs.entry.values.now sets.entry.rows.now srlgs.entry.classes.now groups.now out.old (told_exported result out.new) }
{
    let top = Top {
        slot: t.slot,
        class: t.class,
    };
    let filled = Srlgs {
        values: srlgs.values,
        rows: srlgs.rows,
        classes: &srlgs.classes[..t.classes],
    };
    export_bytes::export_sets(
        sets,
        filled,
        places,
        &groups[..t.groups],
        top,
        t.measuring,
        out,
    )
}

// Entry 0 of the groups: the general set, of slot 0 and a class, with no member.
fn enter_general(groups: &mut [[u64; 3]], class: usize)
    requires { (0 < length groups.old) × (class < 256) }
    ensures { groups.new ≡ set groups.old 0 (0 ∷ 0 ∷ 256 * class ∷ []) }
{
    groups[0] = [0, 0, 256 * (class as u64)];
}

// The groups of all applications that are named, and the general set before them; how many entries there are.
fn group(
    sets: Sets<'_>,
    own: &[[u8; 2]; 128],
    who: Applications,
    class: usize,
    groups: &mut [[u64; 3]],
) -> usize
    requires { Slots sets.run.now sets.rows.now × Groups.Placed sets.rows.now own.now (in_set who) × (1 + Groups.left (in_set who) 1 ≤ length groups.old) × (class < 256) }
    ensures { (g : List (List ℕ)) × Groups.Filled sets.entry.run.now sets.entry.rows.now own.now (in_set who) g result × (groups.new ≡ set g 0 (0 ∷ 0 ∷ 256 * class ∷ [])) }
{
    let count = set_groups::fill_groups(sets, own, who, groups);
    enter_general(groups, class);
    count
}

// The export of the meaning that a table of sets and the SRLGs of a side resolve, or its length alone.
fn export_slots(
    sets: Sets<'_>,
    n: Plan,
    rows: &[[u64; 18]],
    values: &[u64],
    own: &mut [[u8; 2]; 128],
    classes: &mut [[u64; 4]],
    groups: &mut [[u64; 3]],
    places: &mut [usize],
    out: &mut [u8],
) -> Result<usize, Refusal>
    requires { Ready sets.run.now n rows.now values.now sets.rows.now own.old classes.old groups.old places.old }
    ensures { AnswersAll sets.entry.run.now n rows.now values.now sets.entry.rows.now own.old out.old (told_exported result out.new) }
{
    let k = srlg_classes::classify(rows, n.used, n.who, n.side, classes, own);
    let count = group(sets, own, n.who, k.general, groups);
    let t = Parts {
        classes: k.count,
        groups: count,
        slot: n.slot,
        class: k.rsvp,
        measuring: n.measuring,
    };
    let srlgs = Srlgs {
        values,
        rows,
        classes,
    };
    export_parts(sets, srlgs, t, groups, places, out)
}

// The export of the meaning that the first slots of a table and the SRLGs of a side resolve, refused where the buffer has no room for it; or its length alone, and
// nothing is written.
pub fn export_rows(
    sets: Sets<'_>,
    n: Plan,
    rows: &[[u64; 18]],
    values: &[u64],
    own: &mut [[u8; 2]; 128],
    classes: &mut [[u64; 4]],
    groups: &mut [[u64; 3]],
    places: &mut [usize],
    out: &mut [u8],
) -> Result<usize, Refusal>
    requires { (n.slots ≤ length sets.rows.now) × Ready sets.run.now n rows.now values.now (take n.slots sets.rows.now) own.old classes.old groups.old places.old }
    ensures { AnswersAll sets.entry.run.now n rows.now values.now (take n.slots sets.entry.rows.now) own.old out.old (told_exported result out.new) }
{
    let filled = Sets {
        run: sets.run,
        rows: &sets.rows[..n.slots],
    };
    export_slots(filled, n, rows, values, own, classes, groups, places, out)
}

// Whether a set has no more than `most` applications.
pub fn at_most(who: Applications, most: usize) -> bool
    requires { most < 4294967296 }
    ensures { result ≡ true → how_many (at_place who) 128 ≤ most }
{
    who.standard.count_ones() as usize + who.user.count_ones() as usize <= most
}
