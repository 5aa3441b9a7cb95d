// The sizes of a listing, and the grounds that they decide on its lines. An `as` here is of a `u32`, for which there is no `From`.
ghost use Rattle.std.specs.Prelude.{◌≡◌, true, false, [], ◌+◌, ◌*◌, ◌<◌, MatchResult};
ghost use Rattle.common.specs.declared.Fault.TheVariants as fault;
ghost use Rattle.common.specs.Fault.{tested};
ghost use Rattle.common.specs.Lists.{zeros};
ghost use Rattle.cells.specs.Record.{in_range};
ghost use Rattle.listings.specs.Loading.{switch_below};
ghost use Rattle.listings.specs.Loader.{sizes_in};

use cells::{Cell, Crossbar, checks};
use common::{Fault, MAX_OUTPUTS};
use forms::{CellForm, OutForm, SizeForm};

// Whether a cell names only switches below v.
#[tactic(auto, unfolding(crate::specs::Loading::switch_below))]
fn switch_below(v: u32, cell: Cell) -> bool
    ensures { result ≡ switch_below v cell }
{
    match cell {
        Cell::Off | Cell::On => true,
        Cell::Yes(x) | Cell::No(x) => u32::from(x) < v,
    }
}

// The sizes of a listing's first line, each in its range.
#[derive(Clone, Copy)]
pub struct ListingSizes {
    pub form: SizeForm,
    ghost ranged: { in_range form.rows form.columns form.switches form.outputs ≡ true },
}

// Ground 2 on the first line.
impl TryFrom<SizeForm> for ListingSizes {
    type Error = Fault;

    ghost try_from_gives = { λ f r. MatchResult r (λ s. (s.form ≡ f) × (sizes_in f ≡ true)) (λ x. (sizes_in f ≡ false) × (x ≡ fault.OutOfRange)) };

    fn try_from(form: SizeForm) -> Result<ListingSizes, Fault> {
        if !checks::in_range(form.rows, form.columns, form.switches, form.outputs) {
            return Err(Fault::OutOfRange);
        }
        Ok(ListingSizes { form })
    }
}

impl ListingSizes {
    ghost use Rattle.listings.specs.Loading.{cell_fault, out_row_fault};
    ghost use Rattle.listings.specs.Loader.{listed, placed_by};

    // How many cells there are.
    pub fn cells(self) -> usize
        ensures { result ≡ self.form.rows * self.form.columns }
    {
        (self.form.rows * self.form.columns) as usize
    }

    // The place of a cell among the cells, row by row.
    pub fn place(self, f: CellForm) -> usize
        requires { (f.row < self.form.rows) × (f.column < self.form.columns) }
        ensures { result ≡ f.row * self.form.columns + f.column }
    {
        (f.row * self.form.columns + f.column) as usize
    }

    // Ground 12, on a cell line, where the cells before it take up the first `count` places. Their codes are not asked for, and zeros stand for
    // them.
    pub fn cell_fault(self, count: usize, f: CellForm) -> Result<(), Fault>
        ensures { result ≡ tested (cell_fault (listed self.form (zeros count) []) (placed_by f)) }
    {
        if f.row < self.form.rows
            && f.column < self.form.columns
            && count <= self.place(f)
            && switch_below(self.form.switches, f.cell)
        {
            return Ok(());
        }
        Err(Fault::Misplaced)
    }

    // Grounds 3 and 12, on the output line due as number `j`. The cells and the output rows before it are not asked for, and none and zeros
    // stand for them.
    pub fn row_fault(self, j: usize, f: OutForm) -> Result<(), Fault>
        ensures { result ≡ tested (out_row_fault (listed self.form [] (zeros j)) f.number f.target) }
    {
        if f.number as usize != j {
            return Err(Fault::OutOfTurn);
        }
        if self.form.rows <= f.target {
            return Err(Fault::Misplaced);
        }
        Ok(())
    }

    // The record of a crossbar of these sizes. It is no `From`: neither a record nor a pair of sizes and rows is a type of this crate. Fields
    // of `u16` would be cast in `try_from` instead, and converted wherever a figure of a line meets them.
    pub fn record(self, outs: [u16; MAX_OUTPUTS]) -> Crossbar
        ensures { result ≡ record { rows = self.form.rows; columns = self.form.columns; switches = self.form.switches; outputs = self.form.outputs; outs = outs } }
    {
        Crossbar {
            rows: self.form.rows as u16,
            columns: self.form.columns as u16,
            switches: self.form.switches as u16,
            outputs: self.form.outputs as u16,
            outs,
        }
    }
}
