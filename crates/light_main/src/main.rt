// Document 01, "Two programs": reads a set line and a listing from standard input, and prints the count of rounds and what each output
// reads, or `(refused n line)`.
#![tactic(auto)]

ghost use Rattle.programs.specs.Programs.{light_program};

use common::MAX_TEXT;
use streams::Program;

struct Light;

impl Program for Light {
    const NAME: &'static str = "light_main";

    ghost text = { light_program };

    fn print(&self, input: &[u8], out: &mut [u8; MAX_TEXT]) -> usize {
        programs::light_text(input, out)
    }
}

fn main(rt: HostRuntime) {
    streams::run(&rt, &mut rt.stdin(), &Light);
}
