// The table of a link's sets, over the run that its values stand in: the values of its slots, and of any grid of places and lengths, read and compared by their bytes.

#![tactic(auto)]

ghost use Rattle.std.specs.Prelude.{◌≡◌, true, List, [], map, ℕ, ◌<◌, length, take, get_or, IfSome};
ghost use Rattle.linkstate.specs.Lists.{same_bytes, same_rows};
ghost use Rattle.kinds.specs.Rules.{grid_codes};
ghost use Rattle.grids.specs.Grids.{row_value, grid_value, RowFits, Fits, Alike, row_read};
ghost use Rattle.grids.specs.Slots.{cell, cell_row, row_grid, slot_grid, slot_values};

use octets::Span;

// The value of a cell of a slot's row, if it has one.
fn value_in(row: &[u32; 12], k: usize) -> Option<Span>
    requires { k < 12 }
    ensures value { result ≡ row_read (cell_row (get_or row.now k 0)) }
    ensures short { IfSome result (λ v. v.len < 65536) }
{
    let c = row[k] as usize;
    let len = c / 65536;
    if len == 0 {
        return None;
    }
    let place = c % 65536;
    Some(Span { place, len })
}

// The value of a slot's cell, if it has one.
pub fn value_at(sets: &[[u32; 12]], s: usize, k: usize) -> Option<Span>
    requires { (s < length sets.now) × (k < 12) }
    ensures value { result ≡ row_read (cell_row (cell sets.now s k)) }
    ensures short { IfSome result (λ v. v.len < 65536) }
{
    value_in(&sets[s], k)
}

// A set's values by kind, each a place and a length in a run, and read where it stands.
pub trait Grid {
    ghost rows: { Self → List (List ℕ) };

    // The value of kind k, if it has one.
    fn value(&self, k: usize) -> Option<Span>
        requires { k < 10 }
        ensures { result ≡ row_read (get_or (rows self.now) k []) };
}

// A slot's row of the table of a link's sets.
impl Grid for [u32; 12] {
    ghost rows = { row_grid };

    fn value(&self, k: usize) -> Option<Span> {
        value_in(self, k)
    }
}

// Places and lengths themselves; an absent one has no length.
impl Grid for [[usize; 2]; 10] {
    ghost rows = { λ g. g };

    fn value(&self, k: usize) -> Option<Span> {
        let place = self[k][0];
        let len = self[k][1];
        if len == 0 {
            return None;
        }
        Some(Span { place, len })
    }
}

// Whether two grids have the same value of kind k.
fn same_value<G: Grid, H: Grid>(run: &[u8], g: &G, h: &H, k: usize) -> bool
    requires inside { k < 10 }
    requires fits { RowFits run.now (get_or (G.rows g.now) k []) × RowFits run.now (get_or (H.rows h.now) k []) }
    requires alike { Alike (get_or (G.rows g.now) k []) (get_or (H.rows h.now) k []) }
    ensures { result ≡ same_bytes (row_value run.now (get_or (G.rows g.now) k [])) (row_value run.now (get_or (H.rows h.now) k [])) }
{
    match (g.value(k), h.value(k)) {
        (Some(x), Some(y)) => octets::same_parts(run, x.place, x.len, run, y.place, y.len),
        (None, None) => true,
        _ => false,
    }
}

// Whether two grids have the same values.
pub fn same_grids<G: Grid, H: Grid>(run: &[u8], g: &G, h: &H) -> bool
    requires { Fits run.now (G.rows g.now) × Fits run.now (H.rows h.now) × ((k : ℕ) → Alike (get_or (G.rows g.now) k []) (get_or (H.rows h.now) k [])) }
    ensures { result ≡ same_rows (map (grid_value run.now (G.rows g.now)) grid_codes) (map (grid_value run.now (H.rows h.now)) grid_codes) }
{
    for k in 0..10 {
        if !same_value(run, g, h, k) {
            return false;
        }
    }
    true
}

// Whether the ten cells of two rows are the same. The loop has no early return, so it compiles to compares of several at a time.
fn same_ten(x: &[u32; 12], y: &[u32; 12]) -> bool
    ensures { result ≡ true → take 10 x.now ≡ take 10 y.now }
{
    let mut same = true;
    for (a, b) in x[..10].iter().zip(&y[..10]) {
        same &= *a == *b;
    }
    same
}

// The table of a link's sets, a row of cells for each slot, and the run that the cells point into.
#[derive(Clone, Copy)]
pub struct Sets<'a> {
    pub run: &'a [u8],
    pub rows: &'a [[u32; 12]],
}

impl Sets<'_> {
    // Whether two slots have the same cells, and so the same values.
    pub fn same_cells(self, s: usize, t: usize) -> bool
        requires { (s < length self.rows.now) × (t < length self.rows.now) }
        ensures { result ≡ true → slot_grid self.entry.rows.now s ≡ slot_grid self.entry.rows.now t }
    {
        same_ten(&self.rows[s], &self.rows[t])
    }

    // Whether two slots have the same values.
    pub fn same_values(self, s: usize, t: usize) -> bool
        requires inside { (s < length self.rows.now) × (t < length self.rows.now) }
        requires fits { Fits self.run.now (slot_grid self.rows.now s) × Fits self.run.now (slot_grid self.rows.now t) }
        requires alike { (k : ℕ) → Alike (get_or (slot_grid self.rows.now s) k []) (get_or (slot_grid self.rows.now t) k []) }
        ensures { result ≡ same_rows (slot_values self.entry.run.now self.entry.rows.now s) (slot_values self.entry.run.now self.entry.rows.now t) }
    {
        same_grids(self.run, &self.rows[s], &self.rows[t])
    }
}
