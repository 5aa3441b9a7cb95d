// Print: the text of a crossbar, written line by line into a buffer. That no line is an `impl Display`, forms/src/write.rt has the reason.
ghost use Rattle.std.specs.Prelude.{◌≡◌, true, ◌+◌, ◌*◌, ◌≤◌, length};
ghost use Rattle.common.specs.Limits.{max_rows, max_columns, max_outputs};
ghost use Rattle.common.specs.Outcome.{Answered};
ghost use Rattle.common.specs.Fault.{handed};
ghost use Rattle.cells.specs.Record.{sound};
ghost use Rattle.forms.specs.Forms.{out_lines};
ghost use Rattle.forms.specs.Written.{Written};
ghost use Rattle.forms.specs.Wrote.{Wrote};
ghost use Rattle.listings.specs.Listing.{cell_line, cell_lines, listing, print};
ghost use Rattle.listings.specs.Printing.{row_lines};

use cells::{Cell, Crossbar, checks};
use common::{Fault, Refusal};
use forms::SizeForm;
use forms::write::Writer;

// Document 01, "Listing": the line of a cell, none where it is off. It and `write_from` are put in place in the loop over a row: by a call for each
// eight cells, sparse rows take a fifth longer (measured).
#[inline(always)]
#[tactic(auto, using(forms::proofs::Parts::line_rules), unfolding(crate::specs::Listing::cell_line))]
fn write_cell(writer: &mut Writer<'_>, r: u32, c: u32, cell: Cell) -> Option<()>
    ensures { Wrote writer.old writer.new (cell_line r c cell) result }
{
    match cell {
        Cell::Off => Some(()),
        Cell::On => writer.on_line(r, c),
        Cell::Yes(x) => writer.yes_line(r, c, u32::from(x)),
        Cell::No(x) => writer.no_line(r, c, u32::from(x)),
    }
}

// The lines of the cells of a row from column c on. Cells that are off have none, and are passed over before they are taken apart. That a row is at
// most 128 wide is a clause of this function and the two below: a part of a row has no type of its own. An `as` in this file is of a number below 128, or
// of 32 at most, for which `usize` has no `From`.
#[inline(always)]
fn write_from(writer: &mut Writer<'_>, r: u32, c: u32, cells: &[u8]) -> Option<()>
    requires { c + length cells.now ≤ max_columns }
    ensures { Wrote writer.old writer.new (row_lines r c cells.now) result }
{
    for (i, code) in cells.iter().enumerate() {
        if *code != Cell::OFF {
            write_cell(writer, r, c + i as u32, Cell::from_code(*code))?;
        }
    }
    Some(())
}

// The lines of the cells of a row. Most cells of a crossbar are off and have no line: eight that are off are passed over at once, by one
// look at eight bytes. The hint gives the loop a function of its own: within print its time with no cell on changes by a third with the place of
// its code (measured).
#[inline(never)]
fn write_row(writer: &mut Writer<'_>, r: u32, row: &[u8]) -> Option<()>
    requires { length row.now ≤ max_columns }
    ensures { Wrote writer.old writer.new (row_lines r 0 row.now) result }
{
    let (eights, left) = row.as_chunks::<8>();
    for (i, eight) in eights.iter().enumerate() {
        if *eight != [Cell::OFF; 8] {
            write_from(writer, r, 8 * i as u32, eight)?;
        }
    }
    write_from(writer, r, 8 * eights.len() as u32, left)
}

// The lines of the cells, row by row. Where there is no column there is no cell, and no row of cells either.
fn write_cells(writer: &mut Writer<'_>, columns: usize, cells: &[u8]) -> Option<()>
    requires { (columns ≤ max_columns) × (length cells.now ≤ max_rows * columns) }
    ensures { Wrote writer.old writer.new (cell_lines columns 0 cells.now) result }
{
    for (r, row) in cells.chunks(columns.max(1)).enumerate() {
        write_row(writer, r as u32, row)?;
    }
    Some(())
}

// The lines of the outputs.
fn write_outs(writer: &mut Writer<'_>, outs: &[u16]) -> Option<()>
    requires { length outs.now ≤ max_outputs }
    ensures { Wrote writer.old writer.new (out_lines 0 outs.now) result }
{
    for (j, row) in outs.iter().enumerate() {
        writer.out_line(j as u32, u32::from(*row))?;
    }
    Some(())
}

// The lines of a whole listing.
fn write_lines(writer: &mut Writer<'_>, x: Crossbar, cells: &[u8]) -> Option<()>
    requires { sound x cells.now ≡ true }
    ensures { Wrote writer.old writer.new (listing x cells.now) result }
{
    writer.size_line(SizeForm::from(x))?;
    write_cells(writer, usize::from(x.columns), &cells[..x.size()])?;
    let outs = x.outs;
    write_outs(writer, &outs[..usize::from(x.outputs)])?;
    writer.end_line()
}

// The listing of a crossbar, from the buffer's start on: how long it is. A writer is made, handed to one function and asked for its length here and
// twice in the programs: one function over a closure would ask of each that it writes a text, which would have to be named and shown there.
#[tactic(auto, using(forms::proofs::Parts::wrote_whole), unfolding(forms::specs::Wrote::past))]
fn write_listing(out: &mut [u8], x: Crossbar, cells: &[u8]) -> Option<usize>
    requires { sound x cells.now ≡ true }
    ensures { Written out.old out.new 0 (listing x cells.now) result }
{
    let mut writer = Writer::new(out);
    write_lines(&mut writer, x, cells)?;
    Some(writer.written)
}

// Record, cells and an output buffer in, text out. Print checks 12, then 14, with line 0. The zeros after a refusal are a `fill` of its
// own (conduction/src/lighting.rt says why).
pub fn print(x: Crossbar, cells: &[u8], out: &mut [u8]) -> Result<usize, Refusal>
    ensures { Answered (print x cells.now (length out.old)) (handed length) (λ s. s) (length out.old) result out.new }
{
    out.fill(0);
    if !checks::is_sound(x, cells) {
        return Err(Fault::Misplaced.at(0));
    }
    let Some(length) = write_listing(out, x, cells) else {
        out.fill(0);
        return Err(Fault::NoRoom.at(0));
    };
    Ok(length)
}
