// The export of an IS-IS link as BGP-LS TLVs, or its length alone (document 01, "BGP-LS bytes"): checks, indexes, and then the tables that no protocol is known of.

#![tactic(auto)]

ghost use Rattle.std.specs.Prelude.{◌≡◌, [], ℕ, ◌+◌, ◌≤◌, length, take};
ghost use Rattle.linkstate.specs.Replies.{bytes};
ghost use Rattle.replies.specs.Told.{told_written, told_exported};
ghost use Rattle.masks.specs.Applications.{in_set, at_place};
ghost use Rattle.set_table.specs.Tables.{how_many};
ghost use Rattle.isis.specs.Link.{export_link};
ghost use Rattle.isis_index.specs.Started.{Started};
ghost use Rattle.isis_index.specs.Indexed.{Indexed};
ghost use Rattle.isis_srlg_index.specs.Sources.{Room};
ghost use Rattle.isis_export.specs.Delivered.{Delivered};
ghost use Rattle.isis_export.specs.Answers.{export_length, accepted_link, answered_link};
ghost use Rattle.isis_export.specs.Stages.{PassedA, Passed, Joined, ReadyFor, AnswersAll, Unowned, Enough, Roomy};

use export_tables::Plan;
use grids::Sets;
use isis_check::Sides;
use masks::Applications;
use replies::Refusal;
use rules::SideNames;
use srlg_table::Used;

// Whom the sides of a link name, with whether their legacy attributes have a value of the kinds of applications; whom either names; how
// much of the sources of its SRLGs is used; and whether the length alone is asked for.
#[derive(Clone, Copy)]
struct Link {
    a: SideNames,
    b: SideNames,
    who: Applications,
    used: Used,
    measuring: bool,
}

// How many slots the table of sets has, and which is that of RSVP-TE's set.
#[derive(Clone, Copy)]
struct Slots {
    count: usize,
    rsvp: usize,
}

// The first slots of the table, filled by the walk of run A; the slot of RSVP-TE's set.
fn index_slots(
    a: &[u8],
    side: SideNames,
    sets: &mut [[u32; 12]],
    count: usize,
    own: &mut [[u8; 2]; 128],
) -> usize
    requires { PassedA a.now side × (count ≤ length sets.old) × Started side.names (take count sets.old) own.old }
    ensures { Indexed a.now (take count sets.new) own.new result }
{
    isis_index::index_a(a, side, &mut sets[..count], own)
}

// The table of sets: a slot for whom run A names, and then its walk.
fn fill_sets(a: &[u8], side: SideNames, sets: &mut [[u32; 12]], own: &mut [[u8; 2]; 128]) -> Slots
    requires { PassedA a.now side × Unowned own.old × (3 + how_many (in_set side.names.named) 128 ≤ length sets.old) × (length sets.old ≤ 256) }
    ensures { (result.count ≤ length sets.new) × Indexed a.now (take result.count sets.new) own.new result.rsvp }
{
    let count = set_table::assign_slots(masks::turned_set(side.names.named), own, sets);
    let rsvp = index_slots(a, side, sets, count, own);
    Slots { count, rsvp }
}

// The export of an accepted link whose SRLGs are listed, with lent room for the tables.
fn export_with(
    a: &[u8],
    n: Link,
    rows: &[[u64; 18]],
    values: &[u64],
    sets: &mut [[u32; 12]],
    classes: &mut [[u64; 4]],
    groups: &mut [[u64; 3]],
    places: &mut [usize],
    out: &mut [u8],
) -> Result<usize, Refusal>
    requires { ReadyFor a.now n rows.now values.now × Roomy n sets.old classes.old groups.old places.old }
    ensures { AnswersAll a.now n rows.now values.now out.old (told_exported result out.new) }
{
    let mut own = [[0u8; 2]; 128];
    let s = fill_sets(a, n.a, sets, &mut own);
    let t = Plan {
        who: n.who,
        side: n.b,
        used: n.used,
        slots: s.count,
        slot: s.rsvp,
        measuring: n.measuring,
    };
    export_tables::export_rows(
        Sets { run: a, rows: sets },
        t,
        rows,
        values,
        &mut own,
        classes,
        groups,
        places,
        out,
    )
}

// The same with room of its own: so many slots, classes and groups. A little room is soonest filled with 0; much room that is filled with 1 is not cleared byte
// by byte.
fn export_within<const SLOTS: usize, const CLASSES: usize, const GROUPS: usize, const FILL: u32>(
    a: &[u8],
    n: Link,
    rows: &[[u64; 18]],
    values: &[u64],
    out: &mut [u8],
) -> Result<usize, Refusal>
    requires { ReadyFor a.now n rows.now values.now × Enough n SLOTS CLASSES GROUPS × (GROUPS ≤ 128) }
    ensures { AnswersAll a.now n rows.now values.now out.old (told_exported result out.new) }
{
    let fill = u64::from(FILL);
    let mut sets = [[FILL; 12]; SLOTS];
    let mut classes = [[fill; 4]; CLASSES];
    let mut groups = [[fill; 3]; GROUPS];
    let mut places = [0usize; CLASSES];
    export_with(
        a,
        n,
        rows,
        values,
        &mut sets,
        &mut classes,
        &mut groups,
        &mut places,
        out,
    )
}

// By how many applications are named: room for twelve, or for all.
fn export_sized(
    a: &[u8],
    n: Link,
    rows: &[[u64; 18]],
    values: &[u64],
    out: &mut [u8],
) -> Result<usize, Refusal>
    requires { ReadyFor a.now n rows.now values.now }
    ensures { AnswersAll a.now n rows.now values.now out.old (told_exported result out.new) }
{
    if export_tables::at_most(n.who, 12) {
        return export_within::<15, 16, 13, 0>(a, n, rows, values, out);
    }
    export_within::<99, 99, 96, 1>(a, n, rows, values, out)
}

// The same, with the numbers at the front of a list.
fn export_listed(
    a: &[u8],
    n: Link,
    rows: &[[u64; 18]],
    values: &[u64],
    count: usize,
    out: &mut [u8],
) -> Result<usize, Refusal>
    requires { (count ≤ length values.now) × ReadyFor a.now n rows.now (take count values.now) }
    ensures { AnswersAll a.now n rows.now (take count values.now) out.old (told_exported result out.new) }
{
    export_sized(a, n, rows, &values[..count], out)
}

// What an export goes by, with whom either side names.
fn link_of(s: Sides, used: Used, measuring: bool) -> Link
    ensures { Joined s used measuring result }
{
    let a = s.a;
    let b = s.b;
    let who = masks::join(a.names.named, b.names.named);
    Link {
        a,
        b,
        who,
        used,
        measuring,
    }
}

// The export of a link that passed its checks, with lent room for the SRLGs: keys to sort, numbers, and rows of sources.
fn export_keys(
    a: &[u8],
    b: &[u8],
    c: &[u8],
    s: Sides,
    keys: &mut [u64],
    values: &mut [u64],
    rows: &mut [[u64; 18]],
    measuring: bool,
    out: &mut [u8],
) -> Result<usize, Refusal>
    requires { Passed a.now b.now c.now s × Room (length b.now) (length c.now) (length keys.old) (length rows.old) × (length keys.old ≤ length values.old) }
    ensures { told_exported result out.new ≡ accepted_link measuring a.now b.now c.now out.old }
{
    let k = isis_srlg_index::index_srlgs(b, c, s.b.names, keys, values, rows);
    let used = Used {
        words: (k.count + 63) / 64,
        sources: k.sources,
    };
    let n = link_of(s, used, measuring);
    export_listed(a, n, rows, values, k.count, out)
}

// The same with room of its own: keys and numbers, and rows of sources.
fn export_among<const KEYS: usize, const ROWS: usize>(
    a: &[u8],
    b: &[u8],
    c: &[u8],
    s: Sides,
    measuring: bool,
    out: &mut [u8],
) -> Result<usize, Refusal>
    requires { Passed a.now b.now c.now s × Room (length b.now) (length c.now) KEYS ROWS × (KEYS ≤ 768) × (ROWS ≤ 128) }
    ensures { told_exported result out.new ≡ accepted_link measuring a.now b.now c.now out.old }
{
    let mut keys = [1u64; KEYS];
    let mut values = [1u64; KEYS];
    let mut rows = [[1u64; 18]; ROWS];
    export_keys(
        a,
        b,
        c,
        s,
        &mut keys,
        &mut values,
        &mut rows,
        measuring,
        out,
    )
}

// Where runs B and C are empty: no SRLG at all.
fn export_bare(a: &[u8], s: Sides, measuring: bool, out: &mut [u8]) -> Result<usize, Refusal>
    requires { Passed a.now [] [] s }
    ensures { told_exported result out.new ≡ accepted_link measuring a.now [] [] out.old }
{
    let rows = [[0u64; 18]; 1];
    let values = [0u64; 1];
    let used = Used {
        words: 0,
        sources: 0,
    };
    let n = link_of(s, used, measuring);
    export_listed(a, n, &rows, &values, 0, out)
}

// The export of a link that passed its checks, by the lengths of runs B and C.
fn export_accepted(
    a: &[u8],
    b: &[u8],
    c: &[u8],
    s: Sides,
    measuring: bool,
    out: &mut [u8],
) -> Result<usize, Refusal>
    requires { Passed a.now b.now c.now s }
    ensures { told_exported result out.new ≡ accepted_link measuring a.now b.now c.now out.old }
{
    if (b.len() == 0) & (c.len() == 0) {
        return export_bare(a, s, measuring, out);
    }
    if (b.len() <= 320) & (c.len() <= 192) {
        return export_among::<128, 14>(a, b, c, s, measuring, out);
    }
    export_among::<768, 80>(a, b, c, s, measuring, out)
}

// The checks of the link first: refused as they say, else the export or its length.
fn export_checked(
    a: &[u8],
    b: &[u8],
    c: &[u8],
    measuring: bool,
    out: &mut [u8],
) -> Result<usize, Refusal>
    ensures { told_exported result out.new ≡ answered_link measuring a.now b.now c.now out.old }
{
    let s = isis_check::check_sides(a, b, c)?;
    export_accepted(a, b, c, s, measuring, out)
}

// The link as BGP-LS TLVs: refused as its bytes are, then by 5; else they stand at the buffer's front, and their length is the answer. What was written is
// then a rival of the link, and no rival is shorter.
pub fn export(a: &[u8], b: &[u8], c: &[u8], out: &mut [u8]) -> Result<usize, Refusal>
    ensures out_after { told_exported result out.new ≡ export_link a.now b.now c.now out.old }
    ensures by_index { (n : ℕ) → told_written result ≡ bytes n → Delivered a.now b.now c.now n out.new }
{
    export_checked(a, b, c, false, out)
}

// How much room the export of a link needs: refused as its bytes are, else the length of its TLVs. Nothing is written.
pub fn export_length(a: &[u8], b: &[u8], c: &[u8]) -> Result<usize, Refusal>
    ensures { told_written result ≡ export_length a.now b.now c.now }
{
    let mut none = [0u8; 0];
    export_checked(a, b, c, true, &mut none)
}
