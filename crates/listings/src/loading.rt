// Load: a listing read line by line into a record and a buffer of cells.
// An `as` here is of a `u32` or `usize`, for which there is no `From`, or narrows a row or a code that is known to fit.
ghost use Rattle.std.specs.Prelude.{◌≡◌, [], ◌+◌, ◌*◌, ◌≤◌, length, set, Err, IfOk, MatchResult};
ghost use Rattle.common.specs.Limits.{max_rows, max_columns, max_outputs, max_input};
ghost use Rattle.common.specs.Lists.{zeros, padded};
ghost use Rattle.common.specs.Fault.{handed};
ghost use Rattle.common.specs.Outcome.{buffer_of, Answered};
ghost use Rattle.figures.specs.Line.{lines_of};
ghost use Rattle.listings.specs.Loading.{load_outs, load_cells, load_at, load};
ghost use Rattle.listings.specs.Loader.{listed, CellsRead};

use crate::sizes::ListingSizes;
use cells::Crossbar;
use common::{Fault, MAX_OUTPUTS, Refusal};
use forms::Form;
use forms::last::last_line;

// What is left of a text, and the number of its first line. The number's bound stays in the contracts and is no ghost field: load_cells counts
// on by up to R·C lines, so it would still ask for a lower bound than the field's, and load_lines and load_at are handed a number, not a Left.
#[derive(Clone, Copy)]
struct Left<'a> {
    text: &'a [u8],
    line: u32,
}

// Stores a code at a place, if the buffer has it. Written by index, since a proof knows nothing of the elements after `get_mut`.
fn store(cells: &mut [u8], place: usize, code: u8)
    ensures { cells.new ≡ set cells.old place code }
{
    if place < cells.len() {
        cells[place] = code;
    }
}

// Cell lines, as many as there are. The buffer is clear when they begin. Each cell line has a place of its own, so there are at most R·C,
// and the line's number fits. It answers what is left from the first other line on. It is a `loop` and no `for`, since only the line read says
// whether one more follows.
fn load_cells<'a>(from: Left<'a>, s: ListingSizes, cells: &mut [u8]) -> Result<Left<'a>, Refusal>
    requires { (from.line ≤ max_input + 1) × (cells.old ≡ zeros (length cells.old)) }
    ensures { MatchResult result
        (λ o. CellsRead from.entry.text.now from.entry.line s.form o.text.now o.line cells.new (length cells.old))
        (λ e. handed (λ x. x) (load_cells (listed s.form [] []) from.entry.line (lines_of from.entry.text.now)) ≡ Err e) }
{
    let mut left = from;
    let mut count: usize = 0;
    loop {
        let read = forms::cell_line(left.text, left.line);
        let Form::Cell(f) = read.form else {
            return Ok(left);
        };
        s.cell_fault(count, f).map_err(|fault| fault.at(left.line))?;
        let place = s.place(f);
        store(cells, place, f.cell.to_code() as u8);
        count = place + 1;
        left = Left {
            text: read.rest,
            line: left.line + 1,
        };
    }
}

// The output lines, and the last line. They are read alike whatever the cells, so the listing so far has none here. A job's output lines are
// read by a function of their own, since other grounds are tested on them. The loop counts, since the number due and the line's number go by
// the count.
fn load_outs(from: Left, s: ListingSizes) -> Result<[u16; MAX_OUTPUTS], Refusal>
    requires { from.line ≤ max_input + 1 + max_rows * max_columns }
    ensures { result ≡ handed (λ x. padded max_outputs x.outs) (load_outs s.form.outputs (listed s.form [] []) from.entry.line (lines_of from.entry.text.now)) }
{
    let mut outs = [0u16; MAX_OUTPUTS];
    let mut text = from.text;
    for (j, out) in outs[..s.form.outputs as usize].iter_mut().enumerate() {
        let line = from.line + j as u32;
        let read = forms::out_line(text, line);
        let Form::Out(f) = read.form else {
            return Err(forms::refusal_of(read.form, line));
        };
        s.row_fault(j, f).map_err(|fault| fault.at(line))?;
        *out = f.target as u16;
        text = read.rest;
    }
    last_line(text, from.line + s.form.outputs)?;
    Ok(outs)
}

// A listing into a buffer, which is cleared once the first line is due. After a refusal the buffer holds anything.
fn load_lines(text: &[u8], line: u32, cells: &mut [u8]) -> Result<Crossbar, Refusal>
    requires { line ≤ max_input }
    ensures answer { result ≡ handed (λ w. w.head) (load_at line (lines_of text.now) (length cells.old)) }
    ensures filled { IfOk result (λ x. cells.new ≡ buffer_of (length cells.old) (λ w. w.codes) (load_at line (lines_of text.now) (length cells.old))) }
{
    let read = forms::size_line(text, line);
    let Form::Size(f) = read.form else {
        return Err(forms::refusal_of(read.form, line));
    };
    let s = ListingSizes::try_from(f).map_err(|fault| fault.at(line))?;
    cells.fill(0);
    let first = Left {
        text: read.rest,
        line: line + 1,
    };
    let left = load_cells(first, s, cells)?;
    let outs = load_outs(left, s)?;
    if cells.len() < s.cells() {
        return Err(Fault::NoRoom.at(0));
    }
    Ok(s.record(outs))
}

// A listing with which a text goes on from its line number `line`, loaded into a buffer of cells. The zeros after a refusal are a `fill` of
// its own (conduction/src/lighting.rt says why).
pub fn load_at(text: &[u8], line: u32, cells: &mut [u8]) -> Result<Crossbar, Refusal>
    requires { line ≤ max_input }
    ensures { Answered (load_at line (lines_of text.now) (length cells.old)) (handed (λ w. w.head)) (λ w. w.codes)
        (length cells.old) result cells.new }
{
    let loaded = load_lines(text, line, cells);
    if loaded.is_err() {
        cells.fill(0);
    }
    loaded
}

// Listing text and an output buffer in, record and cells out.
#[tactic(auto, unfolding(crate::specs::Loading::load, common::specs::Limits::max_input))]
pub fn load(text: &[u8], cells: &mut [u8]) -> Result<Crossbar, Refusal>
    ensures { Answered (load text.now (length cells.old)) (handed (λ w. w.head)) (λ w. w.codes) (length cells.old) result cells.new }
{
    load_at(text, 1, cells)
}
