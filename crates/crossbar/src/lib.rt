// The calls for a C program, on numbers and byte slices. The crate crossbar_c gives them their C names.
#![tactic(auto)]

pub mod answers; // answers.rt: one number for an outcome
pub mod bytes; // bytes.rt: numbers as bytes: the crossbar record and the first rounds

ghost use Rattle.std.specs.Prelude.{◌≡◌, length, MatchResult};
ghost use Rattle.common.specs.Fault.{handed};
ghost use Rattle.common.specs.Lists.{zeros};
ghost use Rattle.common.specs.Outcome.{Answered};
ghost use Rattle.crossbar.specs.Bytes.{pairs};
ghost use Rattle.crossbar.specs.Host.{host_light, host_print, MapCall, WalkCall, LightCall, PrintCall, LoadCall};
ghost use Rattle.crossbar.specs.Records.{RecordIs};

use bytes::Record;
use cells::Crossbar;
use common::{MAX_COLUMNS, MAX_ROWS, Refusal};

// Map: job text in; record and cells out.
pub fn crossbar_map(text: &[u8], head: &mut [u8], cells: &mut [u8]) -> u64
    ensures { MapCall text.now head.old cells.old result head.new cells.new }
{
    let mapped = placement::mapping::map(text, cells);
    answers::deliver(mapped, head, cells)
}

// Walk: job text, setting and output number in; the diagram's value out.
pub fn crossbar_walk(text: &[u8], setting: &[u8], output: u32) -> u64
    ensures { WalkCall text.now setting.now output result }
{
    answers::pack(jobs::walking::walk(text, setting, output).map(u64::from))
}

// The record that bytes hold; where they hold none, a refusal, and zeros in the whole buffer of the call.
fn record_of(head: &[u8], out: &mut [u8]) -> Result<Record, Refusal>
    ensures read { RecordIs head.now result }
    ensures buffer { MatchResult result (λ x. out.new ≡ out.old) (λ e. out.new ≡ zeros (length out.old)) }
{
    let record = Record::try_from(head);
    if record.is_err() {
        out.fill(0);
    }
    record
}

// Light into a buffer of bytes, two for each number. The call beneath is lent as many numbers as the buffer holds, and not more than the
// record has wires or the largest crossbar has.
fn light_bytes(head: &[u8], cells: &[u8], setting: &[u8], firsts: &mut [u8]) -> Result<u64, Refusal>
    ensures { Answered (host_light head.now cells.now setting.now (length firsts.old)) (handed (λ a. a.count)) (λ a. pairs a.firsts) (length firsts.old) result firsts.new }
{
    let Record(x) = record_of(head, firsts)?;
    let mut numbers = [0u16; MAX_ROWS + MAX_COLUMNS];
    let wires = (usize::from(x.rows) + usize::from(x.columns)).min(MAX_ROWS + MAX_COLUMNS);
    let room = wires.min(firsts.len() / 2);
    let rounds = conduction::lighting::light(x, cells, setting, &mut numbers[..room]);
    bytes::write_numbers(firsts, &numbers[..room]);
    rounds.map(u64::from)
}

// Light: record, cells and setting in; the first round of every wire and the count of rounds out.
pub fn crossbar_light(head: &[u8], cells: &[u8], setting: &[u8], firsts: &mut [u8]) -> u64
    ensures { LightCall head.now cells.now setting.now firsts.old result firsts.new }
{
    answers::pack(light_bytes(head, cells, setting, firsts))
}

// Print on a record's bytes. The length is cast, since `u64` has no `From<usize>`.
fn print_bytes(head: &[u8], cells: &[u8], text: &mut [u8]) -> Result<u64, Refusal>
    ensures { Answered (host_print head.now cells.now (length text.old)) (handed length) (λ s. s) (length text.old) result text.new }
{
    let Record(x) = record_of(head, text)?;
    let length = listings::printing::print(x, cells, text)?;
    Ok(length as u64)
}

// Print: record and cells in; listing text and its length out.
pub fn crossbar_print(head: &[u8], cells: &[u8], text: &mut [u8]) -> u64
    ensures { PrintCall head.now cells.now text.old result text.new }
{
    answers::pack(print_bytes(head, cells, text))
}

// Load: listing text in; record and cells out.
pub fn crossbar_load(text: &[u8], head: &mut [u8], cells: &mut [u8]) -> u64
    ensures { LoadCall text.now head.old cells.old result head.new cells.new }
{
    let loaded = listings::loading::load(text, cells);
    answers::deliver(loaded, head, cells)
}
