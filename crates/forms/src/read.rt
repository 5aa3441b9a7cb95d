// What a text begins with, read as each kind of line. The text goes on after the line.
#![tactic(auto, unfolding(crate::specs::Read::front_form, crate::specs::Read::front, crate::specs::Forms::job_form, crate::specs::Forms::one_form, crate::specs::Forms::node_form, crate::specs::Forms::out_form, crate::specs::Forms::end_form, crate::specs::Forms::crossbar_form, crate::specs::Form::job_from, crate::specs::Form::one_from, crate::specs::Form::node_from, crate::specs::Form::out_from, crate::specs::Form::end_from, crate::specs::Form::size_from, figures::specs::Bytes::bytes))]

ghost use Rattle.std.specs.Prelude.{◌≡◌, ◌<◌, MatchOption};
ghost use Rattle.figures.specs.Reading.{Given, figured};
ghost use Rattle.forms.specs.Template.{label_of};
ghost use Rattle.forms.specs.Form.{switch_of, job_from, one_from, node_from, out_from, end_from, size_from};
ghost use Rattle.forms.specs.Forms.{job_form, one_form, node_form, out_form, end_form, crossbar_form};
ghost use Rattle.forms.specs.Read.{first_label, front_form, read_of, front_cell, front_switch, front_kind};

use crate::{CellForm, Form, JobForm, LineRead, NodeForm, OutForm, SizeForm};
use cells::Cell;
use common::{LABEL_B, LABEL_H, LABEL_V};
use figures::{Figured, after, take_figure};

// "Labels T: `h` a row, `v` a column, `b` both". A number, since document 01's node table holds 1, 2 or 3.
#[tactic(auto, unfolding(crate::specs::Template::label_of))]
fn label_of(byte: u8) -> Option<u16>
    ensures { MatchOption result (label_of byte ≡ 0) (λ t. (label_of byte ≡ t) × (0 < t)) }
{
    match byte {
        b'h' => Some(LABEL_H),
        b'v' => Some(LABEL_V),
        b'b' => Some(LABEL_B),
        _ => None,
    }
}

// A cell's switch as a byte: the smaller of the figure and 255. A crossbar has at most 64 switches, so a figure above 255 and 255
// are both out of range, and the reader of the listing answers both alike.
#[tactic(auto, unfolding(crate::specs::Form::switch_of))]
fn switch_of(x: u32) -> u8
    ensures { result ≡ switch_of x }
{
    u8::try_from(x).unwrap_or(u8::MAX)
}

// The label that a text begins with, as its number, and what follows it.
#[tactic(auto, using(crate::proofs::Fronts::label_found), unfolding(crate::specs::Read::first_label))]
fn label<'a>(text: &'a [u8]) -> Option<(u16, &'a [u8])>
    ensures { Given (first_label text.now) (λ p. record { figure = p.0; rest = p.1.now }) result }
{
    let (byte, rest) = text.split_first()?;
    Some((label_of(*byte)?, rest))
}

// `(job V N K)`
pub(crate) fn read_job<'a>(text: &'a [u8]) -> Option<LineRead<'a>>
    ensures { Given (front_form job_form job_from text.now) read_of result }
{
    let v = take_figure(after(text, b"(job ")?)?;
    let n = take_figure(after(v.rest, b" ")?)?;
    let k = take_figure(after(n.rest, b" ")?)?;
    let rest = after(k.rest, b")\n")?;
    let form = JobForm {
        switches: v.figure,
        nodes: n.figure,
        outputs: k.figure,
    };
    Some(LineRead {
        form: Form::Job(form),
        rest,
    })
}

// `(one T)`
pub(crate) fn read_one<'a>(text: &'a [u8]) -> Option<LineRead<'a>>
    ensures { Given (front_form one_form one_from text.now) read_of result }
{
    let (t, past) = label(after(text, b"(one ")?)?;
    let rest = after(past, b")\n")?;
    Some(LineRead {
        form: Form::One(t),
        rest,
    })
}

// `(node I X (L H) T)`
pub(crate) fn read_node<'a>(text: &'a [u8]) -> Option<LineRead<'a>>
    ensures { Given (front_form node_form node_from text.now) read_of result }
{
    let id = take_figure(after(text, b"(node ")?)?;
    let x = take_figure(after(id.rest, b" ")?)?;
    let l = take_figure(after(x.rest, b" (")?)?;
    let h = take_figure(after(l.rest, b" ")?)?;
    let (t, past) = label(after(h.rest, b") ")?)?;
    let rest = after(past, b")\n")?;
    let form = NodeForm {
        id: id.figure,
        x: x.figure,
        l: l.figure,
        h: h.figure,
        t,
    };
    Some(LineRead {
        form: Form::Node(form),
        rest,
    })
}

// `(out J I)`, and in a listing `(out J r)`
pub(crate) fn read_out<'a>(text: &'a [u8]) -> Option<LineRead<'a>>
    ensures { Given (front_form out_form out_from text.now) read_of result }
{
    let j = take_figure(after(text, b"(out ")?)?;
    let i = take_figure(after(j.rest, b" ")?)?;
    let rest = after(i.rest, b")\n")?;
    let form = OutForm {
        number: j.figure,
        target: i.figure,
    };
    Some(LineRead {
        form: Form::Out(form),
        rest,
    })
}

// `(end)`
pub(crate) fn read_end<'a>(text: &'a [u8]) -> Option<LineRead<'a>>
    ensures { Given (front_form end_form end_from text.now) read_of result }
{
    let rest = after(text, b"(end)\n")?;
    Some(LineRead {
        form: Form::End,
        rest,
    })
}

// `(crossbar R C V K)`
pub(crate) fn read_size<'a>(text: &'a [u8]) -> Option<LineRead<'a>>
    ensures { Given (front_form crossbar_form size_from text.now) read_of result }
{
    let r = take_figure(after(text, b"(crossbar ")?)?;
    let c = take_figure(after(r.rest, b" ")?)?;
    let v = take_figure(after(c.rest, b" ")?)?;
    let k = take_figure(after(v.rest, b" ")?)?;
    let rest = after(k.rest, b")\n")?;
    let form = SizeForm {
        rows: r.figure,
        columns: c.figure,
        switches: v.figure,
        outputs: k.figure,
    };
    Some(LineRead {
        form: Form::Size(form),
        rest,
    })
}

// A word, the figure of a switch after it, and the end of the line. A listing has up to 16,384 cell lines: this and the next function are put
// into their reader, which would take half as long again without the hints.
#[inline(always)]
#[tactic(auto, unfolding(crate::specs::Read::front_switch, figures::specs::Bytes::bytes))]
fn switch_after<'a>(text: &'a [u8], word: &[u8]) -> Option<(u8, &'a [u8])>
    ensures { Given (front_switch word.now text.now) (λ read. record { figure = read.0; rest = read.1.now }) result }
{
    let x = take_figure(after(text, word)?)?;
    let rest = after(x.rest, b"))\n")?;
    Some((switch_of(x.figure), rest))
}

// The end of a cell line, by the kind of its cell.
#[inline(always)]
#[tactic(auto, unfolding(crate::specs::Read::front_kind, figures::specs::Bytes::bytes))]
fn read_kind<'a>(text: &'a [u8]) -> Option<(Cell, &'a [u8])>
    ensures { Given (front_kind text.now) (λ read. record { cell = read.0; rest = read.1.now }) result }
{
    if let Some(rest) = after(text, b" (on))\n") {
        return Some((Cell::On, rest));
    }
    if let Some((x, rest)) = switch_after(text, b" (yes ") {
        return Some((Cell::Yes(x), rest));
    }
    let (x, rest) = switch_after(text, b" (no ")?;
    Some((Cell::No(x), rest))
}

// `(cell r c (on))`, `(cell r c (yes x))` or `(cell r c (no x))`. The three begin alike.
#[tactic(auto, unfolding(crate::specs::Read::front_cell, crate::specs::Read::front_place, figures::specs::Bytes::bytes))]
pub(crate) fn read_cell<'a>(text: &'a [u8]) -> Option<LineRead<'a>>
    ensures { Given (front_cell text.now) read_of result }
{
    let row = take_figure(after(text, b"(cell ")?)?;
    let column = take_figure(after(row.rest, b" ")?)?;
    let (cell, rest) = read_kind(column.rest)?;
    let form = CellForm {
        row: row.figure,
        column: column.figure,
        cell,
    };
    Some(LineRead {
        form: Form::Cell(form),
        rest,
    })
}
