// Document 01, "Two programs": the lines that a program prints. They are written as those of a listing.
ghost use Rattle.std.specs.Prelude.{◌≡◌, ◌∷◌, [], ◌≤◌, length, take, MatchOption};
ghost use Rattle.common.specs.Limits.{max_outputs};
ghost use Rattle.common.specs.Lists.{zeros};
ghost use Rattle.forms.specs.Template.{line};
ghost use Rattle.forms.specs.Forms.{refused_form};
ghost use Rattle.forms.specs.Written.{Written};
ghost use Rattle.forms.specs.Wrote.{Wrote};
ghost use Rattle.programs.specs.Programs.{reading, reads_lines};
ghost use Rattle.programs.specs.Texts.{Said};

use cells::Crossbar;
use forms::write::Writer;

// A buffer whose bytes up to the position were written: the position, or 0 and zeros in the whole buffer where they did not fit. A text has
// bytes, so 0 says that it did not fit; `Said`, which is law, has it so. The
// zeros are a `fill` of its own (conduction/src/lighting.rt says why).
fn said(out: &mut [u8], past: Option<usize>) -> usize
    ensures { MatchOption past ((result ≡ 0) × (out.new ≡ zeros (length out.old))) (λ n. (result ≡ n) × (out.new ≡ out.old)) }
{
    match past {
        Some(past) => past,
        None => {
            out.fill(0);
            0
        }
    }
}

// `(refused n line)`, at the buffer's start. A writer is made, handed on and asked for its length here, for the readings and for a listing: one
// function over a closure would ask of each that it writes a text, which would have to be named and shown there.
#[tactic(auto, using(forms::proofs::Parts::wrote_whole), unfolding(forms::specs::Wrote::past))]
fn write_refusal(out: &mut [u8], ground: u32, number: u32) -> Option<usize>
    ensures { Written out.old out.new 0 (line refused_form (ground ∷ number ∷ [])) result }
{
    let mut writer = Writer::new(out);
    writer.refused_line(ground, number)?;
    Some(writer.written)
}

// `(refused n line)`, of any two numbers, as `Writer::refused_line` writes it.
pub fn refuse(out: &mut [u8], ground: u32, number: u32) -> usize
    ensures { Said (length out.old) (line refused_form (ground ∷ number ∷ [])) result out.new }
{
    out.fill(0);
    let past = write_refusal(out, ground, number);
    said(out, past)
}

// A crossbar that is lit under a setting: the count of rounds, and the first round of every wire. Light refuses a crossbar of more than 32
// outputs.
#[derive(Clone, Copy)]
pub struct LitCrossbar<'a> {
    pub crossbar: Crossbar,
    pub rounds: u32,
    pub firsts: &'a [u16],
    ghost few: { crossbar.outputs ≤ max_outputs },
}

impl LitCrossbar<'_> {
    ghost use Rattle.programs.specs.Readings.{readings_of};

    // What an output on a row reads: 1 where the row's number is not 0, else 0, and 0 past the last wire.
    #[tactic(auto, using(crate::proofs::Texts::lit_or_dark))]
    fn reading(&self, row: usize) -> u32
        ensures { result ≡ reading self.now.firsts.now row }
    {
        match self.firsts.get(row) {
            Some(number) if *number != 0 => 1,
            _ => 0,
        }
    }

    // The outputs' lines `(reads J v)`. An output's number is cast, since `u32` has no `From<usize>`; it is at most 31.
    #[tactic(auto, unfolding(common::specs::Limits::max_outputs))]
    fn write_reads(&self, writer: &mut Writer<'_>) -> Option<()>
        ensures { Wrote writer.old writer.new (reads_lines self.now.firsts.now 0 (take self.now.crossbar.outputs self.now.crossbar.outs)) result }
    {
        let rows = &self.crossbar.outs[..usize::from(self.crossbar.outputs)];
        for (j, row) in rows.iter().enumerate() {
            writer.reads_line(j as u32, self.reading(usize::from(*row)))?;
        }
        Some(())
    }

    // `(rounds t)`, the outputs' lines and `(end)`.
    fn write_lines(&self, writer: &mut Writer<'_>) -> Option<()>
        ensures { Wrote writer.old writer.new (readings_of self.now) result }
    {
        writer.rounds_line(self.rounds)?;
        self.write_reads(writer)?;
        writer.end_line()
    }

    // Those lines, from the buffer's start on: how long they are.
    #[tactic(auto, using(forms::proofs::Parts::wrote_whole), unfolding(forms::specs::Wrote::past))]
    fn write_readings(&self, out: &mut [u8]) -> Option<usize>
        ensures { Written out.old out.new 0 (readings_of self.now) result }
    {
        let mut writer = Writer::new(out);
        self.write_lines(&mut writer)?;
        Some(writer.written)
    }

    // What the second program prints.
    pub fn print_readings(&self, out: &mut [u8]) -> usize
        ensures { Said (length out.old) (readings_of self.now) result out.new }
    {
        out.fill(0);
        let past = self.write_readings(out);
        said(out, past)
    }
}
