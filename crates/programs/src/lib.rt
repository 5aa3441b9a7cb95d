// What the two programs print. Input and buffer are two parameters and no struct: the one is only read, and the other is filled or cleared.
#![tactic(auto)]

pub mod readings; // readings.rt: the lines that a program prints
pub mod setting; // setting.rt: the set line

ghost use Rattle.std.specs.Prelude.{◌≡◌, ◌≤◌, ◌<◌, length, MatchResult};
ghost use Rattle.common.specs.declared.Fault.TheVariants as fault;
ghost use Rattle.common.specs.Limits.{max_input};
ghost use Rattle.programs.specs.Programs.{map_program, light_program};
ghost use Rattle.programs.specs.Texts.{Said, refusal_line, Untold};

use common::{Fault, MAX_COLUMNS, MAX_INPUT, MAX_ROWS, MAX_SWITCHES, Refusal};
use conduction::lighting::light;
use listings::loading::load_at;
use listings::printing::print;
use placement::mapping::map;
use readings::{LitCrossbar, refuse};
use setting::set_line;

// Document 01, "Two programs": "In both programs input above 65,535 bytes is `(refused 14 0)`."
#[tactic(auto, unfolding(common::specs::Limits::max_input))]
fn fits(input: &[u8]) -> Result<(), Refusal>
    ensures { MatchResult result (λ u. length input.now ≤ max_input)
        (λ e. (max_input < length input.now) × (e ≡ record { fault = fault.NoRoom; line = 0 })) }
{
    if MAX_INPUT < input.len() {
        return Err(Fault::NoRoom.at(0));
    }
    Ok(())
}

// The length of a program's text, or of the line of its refusal, which is written now.
#[tactic(auto, unfolding(crate::specs::Texts::refusal_line))]
fn told(out: &mut [u8], text: Result<usize, Refusal>) -> usize
    ensures { MatchResult text (λ n. (result ≡ n) × (out.new ≡ out.old))
        (λ e. Said (length out.old) (refusal_line e) result out.new) }
{
    match text {
        Ok(length) => length,
        Err(refusal) => refuse(out, refusal.fault.number(), refusal.line),
    }
}

// The listing of a job. Print refuses only where the buffer is too short for it, and then no byte is handed over.
fn print_mapped(input: &[u8], out: &mut [u8]) -> Result<usize, Refusal>
    ensures { Untold (length out.old) (map_program input.now) result out.new }
{
    fits(input)?;
    let mut cells = [0u8; MAX_ROWS * MAX_COLUMNS];
    let x = map(input, &mut cells)?;
    Ok(print(x, &cells, out).unwrap_or(0))
}

// "Two programs": "The first reads a job from standard input and prints the listing, or `(refused n line)`."
#[tactic(auto, using(crate::proofs::Texts::untold_said))]
pub fn map_text(input: &[u8], out: &mut [u8]) -> usize
    ensures { Said (length out.old) (map_program input.now) result out.new }
{
    let text = print_mapped(input, out);
    told(out, text)
}

// The readings of a set line and a listing. "Its lines count over the whole input": the listing starts on line 2.
#[tactic(auto, unfolding(common::specs::Limits::max_switches))]
fn print_lit(input: &[u8], out: &mut [u8]) -> Result<usize, Refusal>
    ensures { Untold (length out.old) (light_program input.now) result out.new }
{
    fits(input)?;
    let mut figures = [0u8; MAX_SWITCHES];
    let (count, text) = set_line(input, &mut figures).ok_or(Fault::NotDue.at(1))?;
    let mut cells = [0u8; MAX_ROWS * MAX_COLUMNS];
    let x = load_at(text, 2, &mut cells)?;
    let mut firsts = [0u16; MAX_ROWS + MAX_COLUMNS];
    let rounds = light(x, &cells, &figures[..count], &mut firsts)?;
    let lit = LitCrossbar {
        crossbar: x,
        rounds: u32::from(rounds),
        firsts: &firsts,
    };
    Ok(lit.print_readings(out))
}

// "Two programs": "The second reads a line `(set 1 1)` .. and then a listing."
#[tactic(auto, using(crate::proofs::Texts::untold_said))]
pub fn light_text(input: &[u8], out: &mut [u8]) -> usize
    ensures { Said (length out.old) (light_program input.now) result out.new }
{
    let text = print_lit(input, out);
    told(out, text)
}
