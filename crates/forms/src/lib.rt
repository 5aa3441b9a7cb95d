// The lines of a job and of a listing.
#![tactic(auto)]

pub mod last;
mod read;
pub mod write;

ghost use Rattle.std.specs.Prelude.{◌≡◌};
ghost use Rattle.forms.specs.Form.{job_from, one_from, node_from, out_from, end_from, size_from, not_due};
ghost use Rattle.forms.specs.Forms.{job_form, one_form, node_form, out_form, end_form, crossbar_form};
ghost use Rattle.forms.specs.Read.{LineIs, CellIs, refusal_in};

use cells::{Cell, Crossbar};
use common::{Fault, Refusal};
use read::{read_cell, read_end, read_job, read_node, read_one, read_out, read_size};

// Document 01, "Job text": `(job V N K)`.
#[derive(Clone, Copy)]
pub struct JobForm {
    pub switches: u32,
    pub nodes: u32,
    pub outputs: u32,
}

// `(node I X (L H) T)`, with the label T as 1 for `h`, 2 for `v`, 3 for `b`.
#[derive(Clone, Copy)]
pub struct NodeForm {
    pub id: u32,
    pub x: u32,
    pub l: u32,
    pub h: u32,
    pub t: u16,
}

// `(out J I)`, and in a listing `(out J r)`.
#[derive(Clone, Copy)]
pub struct OutForm {
    pub number: u32,
    pub target: u32,
}

// Document 01, "Listing": `(crossbar R C V K)`.
#[derive(Clone, Copy)]
pub struct SizeForm {
    pub rows: u32,
    pub columns: u32,
    pub switches: u32,
    pub outputs: u32,
}

// The sizes of a record, as its listing's first line has them.
impl From<Crossbar> for SizeForm {
    ghost from_gives = { λ x f. f ≡ record { rows = x.rows; columns = x.columns; switches = x.switches; outputs = x.outputs } };

    fn from(x: Crossbar) -> SizeForm {
        SizeForm {
            rows: u32::from(x.rows),
            columns: u32::from(x.columns),
            switches: u32::from(x.switches),
            outputs: u32::from(x.outputs),
        }
    }
}

// `(cell r c (on))`, `(cell r c (yes x))` or `(cell r c (no x))`.
#[derive(Clone, Copy)]
pub struct CellForm {
    pub row: u32,
    pub column: u32,
    pub cell: Cell,
}

// Document 01, "Job text": "Each line yields one form, or a refusal with its number and line". One holds the label of `(one T)`.
#[derive(Clone, Copy)]
pub enum Form {
    Job(JobForm),
    One(u16),
    Node(NodeForm),
    Out(OutForm),
    End,
    Size(SizeForm),
    Cell(CellForm),
    Refused(Refusal),
}

// A line read as the form that is due, number `number` of its text: the form, and what follows the line in the text; or the refusal with
// ground 1, and the text itself.
#[derive(Clone, Copy)]
pub struct LineRead<'a> {
    pub form: Form,
    pub rest: &'a [u8],
}

// The answer for a line that is not the form due: ground 1.
#[tactic(auto, unfolding(crate::specs::Form::not_due))]
fn refused<'a>(text: &'a [u8], number: u32) -> LineRead<'a>
    ensures { (result.form ≡ not_due number) × (result.rest.now ≡ text.now) }
{
    LineRead {
        form: Form::Refused(Fault::NotDue.at(number)),
        rest: text,
    }
}

// The lines follow. A text and the number of its first line are two parameters and no struct: a caller knows the number from what it counts, 3 + k
// for node k, and a struct would have to be counted up line by line. (Load, which does not know how many cell lines come, has one of its own.) Each
// kind of line has a function, since each promises a form of its own.

// `(job V N K)`
pub fn job_line<'a>(text: &'a [u8], number: u32) -> LineRead<'a>
    ensures { LineIs job_form job_from number text.now result.form result.rest.now }
{
    read_job(text).unwrap_or(refused(text, number))
}

// `(one T)`
pub fn one_line<'a>(text: &'a [u8], number: u32) -> LineRead<'a>
    ensures { LineIs one_form one_from number text.now result.form result.rest.now }
{
    read_one(text).unwrap_or(refused(text, number))
}

// `(node I X (L H) T)`
pub fn node_line<'a>(text: &'a [u8], number: u32) -> LineRead<'a>
    ensures { LineIs node_form node_from number text.now result.form result.rest.now }
{
    read_node(text).unwrap_or(refused(text, number))
}

// `(out J I)`, and in a listing `(out J r)`
pub fn out_line<'a>(text: &'a [u8], number: u32) -> LineRead<'a>
    ensures { LineIs out_form out_from number text.now result.form result.rest.now }
{
    read_out(text).unwrap_or(refused(text, number))
}

// `(end)`
pub fn end_line<'a>(text: &'a [u8], number: u32) -> LineRead<'a>
    ensures { LineIs end_form end_from number text.now result.form result.rest.now }
{
    read_end(text).unwrap_or(refused(text, number))
}

// `(crossbar R C V K)`
pub fn size_line<'a>(text: &'a [u8], number: u32) -> LineRead<'a>
    ensures { LineIs crossbar_form size_from number text.now result.form result.rest.now }
{
    read_size(text).unwrap_or(refused(text, number))
}

// `(cell r c (on))`, `(cell r c (yes x))` or `(cell r c (no x))`
pub fn cell_line<'a>(text: &'a [u8], number: u32) -> LineRead<'a>
    ensures { CellIs number text.now result.form result.rest.now }
{
    read_cell(text).unwrap_or(refused(text, number))
}

// The refusal that a form holds. A form of any other kind is not the one due: ground 1 at the line. So it is no plain conversion of a form.
#[tactic(auto, unfolding(crate::specs::Read::refusal_in))]
pub fn refusal_of(form: Form, number: u32) -> Refusal
    ensures { result ≡ refusal_in number form }
{
    let Form::Refused(refusal) = form else {
        return Fault::NotDue.at(number);
    };
    refusal
}
