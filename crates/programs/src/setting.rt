// Document 01, "Two programs": the line `(set 1 1)`.
ghost use Rattle.std.specs.Prelude.{◌≡◌, ◌≤◌, take, MatchOption};
ghost use Rattle.common.specs.Limits.{max_switches};
ghost use Rattle.common.specs.Lists.{zeros};
ghost use Rattle.common.specs.Outcome.{done, refused, buffer_of};
ghost use Rattle.figures.specs.Bytes.{bytes};
ghost use Rattle.figures.specs.Line.{lines_of};
ghost use Rattle.programs.specs.Programs.{set_line};
ghost use Rattle.programs.specs.Setting.{SetFilled};

use common::MAX_SWITCHES;
use figures::{after, first_line, take_figure};

// The bracket that ends a form, and nothing after it: the count of the figures before it.
#[tactic(auto, unfolding(figures::specs::Bytes::bytes))]
fn ended(rest: &[u8], count: usize) -> Option<usize>
    ensures { MatchOption result (rest.now ≡ bytes ")" → ⊥) (λ n. (n ≡ count) × (rest.now ≡ bytes ")")) }
{
    (rest == b")".as_slice()).then_some(count)
}

// The figures of a line into a buffer of zeros: up to 64, each 0 or 1. Their count. The buffer is lent and of fixed length, since nothing may allocate.
// A figure is narrowed by `as`: it is at most 1.
#[tactic(auto, using(crate::proofs::SetLine::reading), unfolding(figures::specs::Bytes::bytes, common::specs::Limits::max_switches))]
fn read_figures(line: &[u8], figures: &mut [u8; MAX_SWITCHES]) -> Option<usize>
    requires { figures.old ≡ zeros max_switches }
    ensures { SetFilled line.now result figures.new }
{
    let mut rest = after(line, b"(set")?;
    for (count, figure) in figures.iter_mut().enumerate() {
        let Some(next) = after(rest, b" ") else {
            return ended(rest, count);
        };
        let read = take_figure(next)?;
        if 1 < read.figure {
            return None;
        }
        *figure = read.figure as u8;
        rest = read.rest;
    }
    ended(rest, MAX_SWITCHES)
}

// The figures of the first line of a text, in a buffer that is lent, with zeros past them: their count, and the lines that follow. Where that line
// is missing or not the form due, nothing, and zeros alone in the buffer. A count is answered and no slice of the figures, since no clause
// can say what a buffer holds of which a part is handed back.
#[tactic(auto, using(crate::proofs::SetLine::first), unfolding(common::specs::Limits::max_switches))]
pub fn set_line<'a>(text: &'a [u8], figures: &mut [u8; MAX_SWITCHES]) -> Option<(usize, &'a [u8])>
    ensures answer { MatchOption result (set_line (lines_of text.now) ≡ refused 1 1)
        (λ p. (p.0 ≤ max_switches) × (set_line (lines_of text.now) ≡ done (record { vals = take p.0 figures.new; later = lines_of p.1.now }))) }
    ensures buffer { figures.new ≡ buffer_of max_switches (λ t. t.vals) (set_line (lines_of text.now)) }
{
    figures.fill(0);
    let (line, later) = first_line(text)?;
    let Some(count) = read_figures(line, figures) else {
        figures.fill(0);
        return None;
    };
    Some((count, later))
}
