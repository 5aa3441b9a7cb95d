// One number for an outcome: the refusal's number in the highest byte and its line, or the call's value.
ghost use Rattle.std.specs.Prelude.{◌≡◌, ◌≤◌, ◌<◌, ◌*◌, length, Err, IfOk, IfErr, MatchResult};
ghost use Rattle.common.specs.declared.Fault.TheVariants as fault;
ghost use Rattle.common.specs.Lists.{zeros, padded};
ghost use Rattle.common.specs.Outcome.{most_number};
ghost use Rattle.crossbar.specs.Bytes.{record_length, record_bytes};
ghost use Rattle.crossbar.specs.Host.{number_unit, packed_from};

use crate::bytes::{RECORD_BYTES, write_record};
use cells::Crossbar;
use common::{Fault, Refusal};

// What the number of a refusal counts for in an answer.
const NUMBER_UNIT: u64 = 1 << 56;

// The answer for a value, or for a refusal.
#[tactic(auto, using(crate::proofs::Numbers::number_most), unfolding(crate::specs::Host::packed_from))]
pub fn pack(answer: Result<u64, Refusal>) -> u64
    ensures { result ≡ packed_from answer }
{
    match answer {
        Ok(value) => value,
        Err(refusal) => u64::from(refusal.fault.number()) * NUMBER_UNIT + u64::from(refusal.line),
    }
}

// A refusal by a number, line 0: its answer, and zeros in the whole buffer, by a `fill` of its own (conduction/src/lighting.rt says why).
#[tactic(auto, unfolding(common::specs::Outcome::most_number))]
pub fn refuse(out: &mut [u8], number: u32) -> u64
    requires { number ≤ most_number }
    ensures { (result ≡ number * number_unit) × (out.new ≡ zeros (length out.old)) }
{
    out.fill(0);
    u64::from(number) * NUMBER_UNIT
}

// A crossbar for two buffers, of which the cells' buffer holds the cells: ground 14 also where the record's buffer is shorter than a
// record.
#[tactic(auto, using(crate::proofs::Numbers::number_most), unfolding(crate::specs::Bytes::record_length, crate::specs::Host::packed_from, common::specs::Limits::max_outputs, common::specs::Outcome::most_number))]
pub fn deliver(made: Result<Crossbar, Refusal>, head: &mut [u8], cells: &mut [u8]) -> u64
    ensures refused { IfErr made (λ e. (result ≡ packed_from (Err e)) × (head.new ≡ zeros (length head.old)) × (cells.new ≡ cells.old)) }
    ensures short { length head.old < record_length → IfOk made (λ x.
        (result ≡ packed_from (Err (record { fault = fault.NoRoom; line = 0 })))
        × (head.new ≡ zeros (length head.old)) × (cells.new ≡ zeros (length cells.old))) }
    ensures delivered { record_length ≤ length head.old → IfOk made (λ x.
        (result ≡ x.rows * x.columns) × (head.new ≡ padded (length head.old) (record_bytes x)) × (cells.new ≡ cells.old)) }
{
    match made {
        Ok(x) if RECORD_BYTES <= head.len() => {
            write_record(head, x);
            u64::from(x.rows) * u64::from(x.columns)
        }
        Ok(_) => {
            cells.fill(0);
            refuse(head, Fault::NoRoom.number())
        }
        Err(refusal) => {
            head.fill(0);
            pack(Err(refusal))
        }
    }
}
