// Light: the rounds of a crossbar under a setting, and the first round of every wire.
ghost use Rattle.std.specs.Prelude.{◌≡◌, length, Err};
ghost use Rattle.common.specs.Fault.{handed};
ghost use Rattle.common.specs.Lists.{zeros};
ghost use Rattle.common.specs.Outcome.{Answered};
ghost use Rattle.cells.specs.Conducts.{joins};
ghost use Rattle.conduction.specs.Stamps.{Settled};
ghost use Rattle.conduction.specs.Light.{light};
ghost use Rattle.conduction.specs.Wires.{LampReady};

use crate::Lamp;
use crate::spreading::conducting;
use crate::stamping::rounds;
use cells::Crossbar;
use cells::checks::{is_setting, is_sound};
use common::{Fault, Refusal};

// The rounds of m rows and n columns, without light's checks: each wire's first round, and zeros past them. The answer is the count of
// rounds, and none where no number of rounds below that of the wires is at rest. The cells and the setting are two parameters, since a setting is no
// part of a crossbar: the host lends them apart.
fn light_wires(cells: &[u8], setting: &[u8], m: usize, n: usize, firsts: &mut [u16]) -> Option<u16>
    requires { LampReady cells.now setting.now m n firsts.old }
    ensures { Settled m n (joins cells.now n setting.now) (length firsts.old) firsts.new result }
{
    firsts.fill(0);
    firsts[0] = 1;
    let on = conducting(setting);
    rounds(Lamp { cells, on: &on }, m, n, firsts)
}

// A refusal, line 0, and zeros in the whole buffer. The calls that fill bytes do the same by `fill` where they refuse: one function for numbers of both
// widths could promise no zeros, only copies of a default.
fn refuse(fault: Fault, out: &mut [u16]) -> Result<u16, Refusal>
    ensures { (result ≡ Err (record { fault = fault; line = 0 })) × (out.new ≡ zeros (length out.old)) }
{
    out.fill(0);
    Err(fault.at(0))
}

// Document 01: the count of rounds of a crossbar under a setting. Document 02, Req 01: "Light gives for each wire, in place of its byte, a
// 16-bit number". Document 01: "Light checks 12, 13, 14, 15."
pub fn light(x: Crossbar, cells: &[u8], setting: &[u8], firsts: &mut [u16]) -> Result<u16, Refusal>
    ensures { Answered (light x cells.now setting.now (length firsts.old)) (handed (λ a. a.count)) (λ a. a.firsts) (length firsts.old) result firsts.new }
{
    if !is_sound(x, cells) {
        return refuse(Fault::Misplaced, firsts);
    }
    if !is_setting(x.switches, setting) {
        return refuse(Fault::WrongSetting, firsts);
    }
    let m = usize::from(x.rows);
    let n = usize::from(x.columns);
    if firsts.len() < m + n {
        return refuse(Fault::NoRoom, firsts);
    }
    match light_wires(cells, setting, m, n, firsts) {
        Some(count) => Ok(count),
        None => refuse(Fault::Unsettled, firsts),
    }
}
