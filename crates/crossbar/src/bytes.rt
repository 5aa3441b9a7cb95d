// Numbers as bytes, two bytes a number, low byte first: the crossbar record, which is R, C, V, K and the 32 output rows, and the first
// rounds.
ghost use Rattle.std.specs.Prelude.{◌≡◌, ◌*◌, ◌≤◌, length};
ghost use Rattle.common.specs.Lists.{padded};
ghost use Rattle.crossbar.specs.Records.{RecordIs};
ghost use Rattle.crossbar.specs.Bytes.{record_length, numbers_of, pairs, record_bytes, record_from};

use cells::Crossbar;
use cells::checks::is_zero;
use common::{Fault, MAX_OUTPUTS, Refusal};
use std::array;

// How many numbers and how many bytes a record has.
const RECORD_NUMBERS: usize = 4 + MAX_OUTPUTS;

pub const RECORD_BYTES: usize = 2 * RECORD_NUMBERS;

// A crossbar's record as bytes hold it.
#[derive(Clone, Copy)]
pub struct Record(pub Crossbar);

impl TryFrom<&[u8]> for Record {
    type Error = Refusal;

    ghost try_from_gives = { λ s r. RecordIs s.now r };

    // Ground 12, line 0: the bytes are fewer than a record has, or one past it is not 0.
    #[tactic(auto, using(crate::proofs::Records::none), unfolding(crate::specs::Bytes::record_length, common::specs::Limits::max_outputs))]
    fn try_from(s: &[u8]) -> Result<Record, Refusal> {
        match s.split_at_checked(RECORD_BYTES) {
            Some((_, past)) if is_zero(past) => Ok(Record(read_record(s))),
            _ => Err(Fault::Misplaced.at(0)),
        }
    }
}

impl From<Record> for [u16; RECORD_NUMBERS] {
    ghost from_gives = { λ x numbers. numbers ≡ numbers_of x.0 };

    #[tactic(auto, unfolding(crate::specs::Bytes::numbers_of))]
    fn from(record: Record) -> [u16; RECORD_NUMBERS] {
        let Record(x) = record;
        let mut numbers = [0; RECORD_NUMBERS];
        numbers[..4].copy_from_slice(&[x.rows, x.columns, x.switches, x.outputs]);
        numbers[4..].copy_from_slice(&x.outs);
        numbers
    }
}

// The record that bytes begin with, whatever stands past it.
#[tactic(auto, unfolding(crate::specs::Bytes::record_length, common::specs::Limits::max_outputs))]
pub fn read_record(s: &[u8]) -> Crossbar
    requires { record_length ≤ length s.now }
    ensures { result ≡ record_from s.now }
{
    let (numbers, _) = s.as_chunks::<2>();
    Crossbar {
        rows: u16::from_le_bytes(numbers[0]),
        columns: u16::from_le_bytes(numbers[1]),
        switches: u16::from_le_bytes(numbers[2]),
        outputs: u16::from_le_bytes(numbers[3]),
        outs: array::from_fn(|j| u16::from_le_bytes(numbers[4 + j])),
    }
}

// A record's bytes into a buffer, and zeros past them. It is no `From`: a buffer may be longer than a record, and what is past it is cleared.
#[tactic(auto, unfolding(crate::specs::Bytes::record_length, crate::specs::Bytes::record_bytes, common::specs::Limits::max_outputs))]
pub fn write_record(out: &mut [u8], x: Crossbar)
    requires { record_length ≤ length out.old }
    ensures { out.new ≡ padded (length out.old) (record_bytes x) }
{
    write_numbers(out, &<[u16; RECORD_NUMBERS]>::from(Record(x)));
}

// Numbers into a buffer, and zeros past them. The bytes are written by their index: after a loop over `chunks_exact_mut` a proof knows the
// buffer's length, but not what it holds.
pub fn write_numbers(bytes: &mut [u8], numbers: &[u16])
    requires { 2 * length numbers.now ≤ length bytes.old }
    ensures { bytes.new ≡ padded (length bytes.old) (pairs numbers.now) }
{
    bytes.fill(0);
    for (i, n) in numbers.iter().enumerate() {
        let [low, high] = n.to_le_bytes();
        bytes[2 * i] = low;
        bytes[2 * i + 1] = high;
    }
}
