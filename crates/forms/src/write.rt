// Lines written into a buffer, one after the other from its start on.
//
// They are not an `impl Display` with `write!`: `write!` says which bytes it wrote where it answers Ok, but not when it answers Err, and
// ground 14 is that the text does not fit. A Display cut into std's InlineText says its bytes and cannot fail, but 16,384 cell lines take
// 870 microseconds that way, 285 by `write!` and 135 here.
#![tactic(auto, using(crate::proofs::Parts::line_rules), unfolding(crate::specs::Forms::out_form, crate::specs::Forms::end_form, crate::specs::Forms::crossbar_form, crate::specs::Forms::on_form, crate::specs::Forms::yes_form, crate::specs::Forms::no_form, crate::specs::Forms::refused_form, crate::specs::Forms::rounds_form, crate::specs::Forms::reads_form, crate::specs::Template::line, crate::specs::Template::written, crate::specs::Written::parts_text, crate::specs::Written::switch_text, crate::specs::Wrote::past, figures::specs::Bytes::bytes,))]

ghost use Rattle.std.specs.Prelude.{◌≡◌, ◌++◌, ◌∷◌, [], ◌≤◌, length, None};
ghost use Rattle.figures.specs.Figure.{decimal};
ghost use Rattle.forms.specs.Template.{line};
ghost use Rattle.forms.specs.Forms.{out_form, end_form, crossbar_form, on_form, yes_form, no_form, refused_form, rounds_form, reads_form};
ghost use Rattle.forms.specs.Written.{Written, parts_text, switch_text};

use crate::SizeForm;
use figures::{figure_length, write_figure};

// A text that is written into a buffer from its start on: the buffer, and how many bytes are written. What is to be written next and does
// not fit is refused by None, and the writer is full from then on: nothing shorter is written after what is lacking. It is no slice of what is left: the
// count is what a call answers. A cell's row and column are two parameters: the three lines of a cell promise a form each, and a `CellForm` may hold an
// off cell, which has no line.
#[derive(Drop)]
pub struct Writer<'a> {
    out: &'a mut [u8],
    pub written: usize,
    ghost fits: { written ≤ length out.now },
}

// A line at a position of a buffer, by a writer of its own: where it ends. The compiler keeps that writer out of memory; behind a reference its count
// would be stored and read again at each part, and a line would take up to a twentieth longer (measured).
#[inline(always)]
#[tactic(auto, using(crate::proofs::Parts::wrote_at), unfolding(crate::specs::Wrote::past))]
fn line_at(out: &mut [u8], at: usize, parts: &[(&[u8], u32)], last: &[u8]) -> Option<usize>
    requires { at ≤ length out.old }
    ensures { Written out.old out.new at (parts_text parts.now last.now) result }
{
    let mut writer = Writer { out, written: at };
    writer.parts(parts, last)?;
    Some(writer.written)
}

impl<'a> Writer<'a> {
    ghost use Rattle.forms.specs.Wrote.{Wrote};

    // Nothing is written yet.
    pub fn new(out: &'a mut [u8]) -> Writer<'a>
        ensures same_buffer { result.out.ghost_name ≡ out.entry.ghost_name }
        ensures kept { result.out.now ≡ out.old }
        ensures start { result.written ≡ 0 }
    {
        Writer { out, written: 0 }
    }

    // What does not fit is refused, and the writer is full from then on.
    fn full(&mut self) -> Option<()>
        ensures none { result ≡ None }
        ensures same { self.new.out.ghost_name ≡ self.old.out.ghost_name }
        ensures kept { self.new.out.now ≡ self.old.out.now }
        ensures full { self.new.written ≡ length self.new.out.now }
    {
        self.written = self.out.len();
        None
    }

    // A word.
    #[inline(always)]
    fn word(&mut self, word: &[u8]) -> Option<()>
        ensures { Wrote self.old self.new word.now result }
    {
        if self.out.len() - self.written < word.len() {
            return self.full();
        }
        let end = self.written + word.len();
        self.out[self.written..end].copy_from_slice(word);
        self.written = end;
        Some(())
    }

    // A word and the figure of a number after it.
    #[inline(always)]
    fn figure(&mut self, word: &[u8], n: u32) -> Option<()>
        ensures { Wrote self.old self.new (word.now ++ decimal n) result }
    {
        if self.out.len() - self.written < word.len() + figure_length(n) {
            return self.full();
        }
        let past = self.written + word.len();
        let end = past + figure_length(n);
        self.out[self.written..past].copy_from_slice(word);
        write_figure(&mut self.out[past..end], n);
        self.written = end;
        Some(())
    }

    // The parts of a line: words with a figure after each, and the last word.
    #[inline(always)]
    fn parts(&mut self, parts: &[(&[u8], u32)], last: &[u8]) -> Option<()>
        ensures { Wrote self.old self.new (parts_text parts.now last.now) result }
    {
        for (word, n) in parts {
            self.figure(word, *n)?;
        }
        self.word(last)
    }

    // A line. Where it is called the words are known, so it is put in place there, and each is copied as so many bytes: without the hint one copy
    // of this loop serves all lines, and writing a line takes more than three times as long.
    #[inline(always)]
    fn line(&mut self, parts: &[(&[u8], u32)], last: &[u8]) -> Option<()>
        ensures { Wrote self.old self.new (parts_text parts.now last.now) result }
    {
        let Some(end) = line_at(self.out, self.written, parts, last) else {
            return self.full();
        };
        self.written = end;
        Some(())
    }

    // `(out J I)`, and in a listing `(out J r)`
    pub fn out_line(&mut self, j: u32, i: u32) -> Option<()>
        ensures { Wrote self.old self.new (line out_form (j ∷ i ∷ [])) result }
    {
        self.line(&[(b"(out ", j), (b" ", i)], b")\n")
    }

    // `(end)`
    pub fn end_line(&mut self) -> Option<()>
        ensures { Wrote self.old self.new (line end_form []) result }
    {
        self.word(b"(end)\n")
    }

    // `(crossbar R C V K)`
    pub fn size_line(&mut self, size: SizeForm) -> Option<()>
        ensures { Wrote self.old self.new (line crossbar_form (size.rows ∷ size.columns ∷ size.switches ∷ size.outputs ∷ [])) result }
    {
        let SizeForm {
            rows,
            columns,
            switches,
            outputs,
        } = size;
        self.line(
            &[
                (b"(crossbar ", rows),
                (b" ", columns),
                (b" ", switches),
                (b" ", outputs),
            ],
            b")\n",
        )
    }

    // `(cell r c (on))`
    pub fn on_line(&mut self, r: u32, c: u32) -> Option<()>
        ensures { Wrote self.old self.new (line on_form (r ∷ c ∷ [])) result }
    {
        self.line(&[(b"(cell ", r), (b" ", c)], b" (on))\n")
    }

    // The two lines of a switch's cell, which differ in a word.
    #[inline(always)]
    fn switch_line(&mut self, r: u32, c: u32, word: &[u8], x: u32) -> Option<()>
        ensures { Wrote self.old self.new (switch_text r c word.now x) result }
    {
        self.line(&[(b"(cell ", r), (b" ", c), (word, x)], b"))\n")
    }

    // `(cell r c (yes x))`
    pub fn yes_line(&mut self, r: u32, c: u32, x: u32) -> Option<()>
        ensures { Wrote self.old self.new (line yes_form (r ∷ c ∷ x ∷ [])) result }
    {
        self.switch_line(r, c, b" (yes ", x)
    }

    // `(cell r c (no x))`
    pub fn no_line(&mut self, r: u32, c: u32, x: u32) -> Option<()>
        ensures { Wrote self.old self.new (line no_form (r ∷ c ∷ x ∷ [])) result }
    {
        self.switch_line(r, c, b" (no ", x)
    }

    // `(refused n line)`
    pub fn refused_line(&mut self, ground: u32, number: u32) -> Option<()>
        ensures { Wrote self.old self.new (line refused_form (ground ∷ number ∷ [])) result }
    {
        self.line(&[(b"(refused ", ground), (b" ", number)], b")\n")
    }

    // `(rounds t)`
    pub fn rounds_line(&mut self, t: u32) -> Option<()>
        ensures { Wrote self.old self.new (line rounds_form (t ∷ [])) result }
    {
        self.line(&[(b"(rounds ", t)], b")\n")
    }

    // `(reads J v)`
    pub fn reads_line(&mut self, j: u32, v: u32) -> Option<()>
        ensures { Wrote self.old self.new (line reads_form (j ∷ v ∷ [])) result }
    {
        self.line(&[(b"(reads ", j), (b" ", v)], b")\n")
    }
}
