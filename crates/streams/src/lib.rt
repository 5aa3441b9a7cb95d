// Standard input and output of the two programs, with a word on standard error where reading or writing fails. A program has no exit
// status of its own, so that word is all that tells of it.
#![tactic(auto)]

ghost use Rattle.std.specs.Prelude.{◌≡◌, ◌≤◌, ℕ, List, length};
ghost use Rattle.streams.specs.Text.{IsText};

use common::{MAX_INPUT, MAX_TEXT};
use std::io;
use std::io::{Eprint, Print, Read};

// A program, by its name and what it prints.
pub trait Program {
    const NAME: &'static str;

    // The text that it prints for its input.
    ghost text: { List ℕ → List ℕ };

    // Leaves that text at the start of a buffer, of fixed length since nothing may allocate, and answers how long it is.
    fn print(&self, input: &[u8], out: &mut [u8; MAX_TEXT]) -> usize
        ensures { IsText (text input.now) result out.new };
}

// Reads until the buffer is full, the input ends or a read fails. The count of the bytes that came grows with each read, so that it stands
// after a failure too. It is no index: a `for` over the buffer's bytes would make one read more, of no bytes, once the buffer is full.
fn read<I: Read>(reader: &mut I, input: &mut [u8], count: &mut usize) -> io::Result<()>
    requires { count.old ≤ length input.old }
    ensures { count.new ≤ length input.new }
{
    while *count < input.len() {
        let more = reader.read(&mut input[*count..])?;
        if more == 0 {
            break;
        }
        *count += more;
    }
    Ok(())
}

// What is handed to standard output is the text for the input, whole.
fn write<P: Program, R: Print>(rt: &R, program: &P, input: &[u8], text: &[u8]) -> io::Result<()>
    requires { text.now ≡ P.text input.now }
{
    rt.write_all(text)
}

// A word on standard error; where it cannot be written nothing more can be told.
fn tell<R: Eprint>(rt: &R, name: &str, failed: &str) {
    if let Err(_) = eprintln!(rt; "{name}: could not {failed}") {}
}

// Runs a program on standard input: what it prints goes to standard output, whole or as much of it as can be written. The buffer for the
// input has one byte more than an input may have, so that a longer input is refused as such. A read that fails ends the input. Both
// buffers are of fixed length, since nothing may allocate.
pub fn run<P: Program, R: Print + Eprint, I: Read>(rt: &R, reader: &mut I, program: &P) {
    let mut input = [0u8; MAX_INPUT + 1];
    let mut count = 0;
    if let Err(_) = read(reader, &mut input, &mut count) {
        tell(rt, P::NAME, "read the input");
    }
    let input = &input[..count];
    let mut out = [0u8; MAX_TEXT];
    let length = program.print(input, &mut out);
    if let Err(_) = write(rt, program, input, &out[..length]) {
        tell(rt, P::NAME, "write the answer");
    }
}
