// Document 01, "Two programs": reads a job from standard input and prints the listing, or `(refused n line)`.
#![tactic(auto)]

ghost use Rattle.programs.specs.Programs.{map_program};

use common::MAX_TEXT;
use streams::Program;

struct Map;

impl Program for Map {
    const NAME: &'static str = "map_main";

    ghost text = { map_program };

    fn print(&self, input: &[u8], out: &mut [u8; MAX_TEXT]) -> usize {
        programs::map_text(input, out)
    }
}

fn main(rt: HostRuntime) {
    streams::run(&rt, &mut rt.stdin(), &Map);
}
