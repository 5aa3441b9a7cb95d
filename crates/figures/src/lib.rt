// Figures, words and lines in bytes.
#![tactic(auto)]

ghost use Rattle.std.specs.Prelude.{◌≡◌, ◌==◌, length, position, MatchOption, ◌++◌, drop, ◌≤◌};
ghost use Rattle.figures.specs.Bytes.{after};
ghost use Rattle.figures.specs.Figure.{take_figure, decimal};
ghost use Rattle.figures.specs.Line.{left, ◌⏎◌, lines_of};
ghost use Rattle.figures.specs.Reading.{Given, figured, first_digit};

// Document 01, "Job text": a line is ended by a line feed.
pub const LINE_FEED: u8 = 10;

// The byte of the digit 0.
pub const ZERO: u8 = 48;

// Document 01, "Job text": the most digits of a figure.
pub const MAX_DIGITS: usize = 5;

// The figure that a text begins with, and what follows it.
#[derive(Clone, Copy)]
pub struct Figured<'a> {
    pub figure: u32,
    pub rest: &'a [u8],
}

// The position of the first line feed.
fn line_feed(text: &[u8]) -> Option<usize>
    ensures { result ≡ position (λ b. b == LINE_FEED) text.now }
{
    text.iter().position(|b| *b == LINE_FEED)
}

// The first line of a text, without the line feed that ends it, and what follows the line feed.
#[tactic(auto, using(crate::proofs::Line::line_none, crate::proofs::Line::line_found))]
pub fn first_line<'a>(text: &'a [u8]) -> Option<(&'a [u8], &'a [u8])>
    ensures { MatchOption result (lines_of text.now ≡ left text.now) (λ line. lines_of text.now ≡ line.0.now ⏎ lines_of line.1.now) }
{
    let end = line_feed(text)?;
    Some((&text[..end], &text[end + 1..]))
}

// What follows `word`, where a text begins with it. Without the hint the compiler keeps one copy for all words, which compares byte by
// byte; in the code of its caller, which writes the word out, the comparison takes a step or two.
#[inline(always)]
#[tactic(auto, using(crate::proofs::Words::after_given))]
pub fn after<'a>(text: &'a [u8], word: &[u8]) -> Option<&'a [u8]>
    ensures { Given (after word.now text.now) (λ rest. rest.now) result }
{
    text.strip_prefix(word)
}

// The digit that a text begins with, and what follows it.
#[tactic(auto, using(crate::proofs::Digits::first), unfolding(crate::specs::Figure::is_digit))]
fn digit<'a>(text: &'a [u8]) -> Option<Figured<'a>>
    ensures { Given (first_digit text.now) figured result }
{
    let (byte, rest) = text.split_first()?;
    if !byte.is_ascii_digit() {
        return None;
    }
    Some(Figured {
        figure: u32::from(byte - ZERO),
        rest,
    })
}

// Document 01, "Job text": "Figures are decimal, no leading zero, at most 5 digits." At most six digits are looked at. The hint keeps the
// figure of a line's reader out of memory.
#[inline(always)]
#[tactic(auto, using(crate::proofs::Digits::reading))]
pub fn take_figure<'a>(text: &'a [u8]) -> Option<Figured<'a>>
    ensures { Given (take_figure text.now) figured result }
{
    let mut read = digit(text)?;
    for _ in 1..MAX_DIGITS {
        let Some(next) = digit(read.rest) else {
            return Some(read);
        };
        if read.figure == 0 {
            return None;
        }
        read = Figured {
            figure: read.figure * 10 + next.figure,
            rest: next.rest,
        };
    }
    match digit(read.rest) {
        Some(_) => None,
        None => Some(read),
    }
}

// How many digits the figure of a number has. Above 99999 `decimal` is the last five digits. The library's `checked_ilog10` has no answer
// for 0 and does not end at five digits.
#[tactic(auto, using(crate::proofs::Writing::lengths))]
pub fn figure_length(n: u32) -> usize
    ensures { result ≡ length (decimal n) }
{
    match n {
        0..=9 => 1,
        10..=99 => 2,
        100..=999 => 3,
        1000..=9999 => 4,
        _ => 5,
    }
}

// Writes the figure of `n` at the front of a slice that has room for it, the last digit first. The library writes a number into a formatter and
// not into a slice; the digits are written by their index, since after `iter_mut().rev()` a proof knows nothing of the elements. A digit
// is narrowed by `as`: it is below 10. The hint keeps this loop out of the lines of writers: with it in them a line of four figures is no longer written
// straight, and the archive needs a third function of the host.
#[inline(never)]
#[tactic(auto, using(crate::proofs::Writing::fill_step))]
fn write_digits(out: &mut [u8], n: u32)
    requires { length (decimal n) ≤ length out.old }
    ensures { out.new ≡ decimal n ++ drop (length (decimal n)) out.old }
{
    let count = figure_length(n);
    let mut left = n;
    for j in (0..count).rev() {
        out[j] = ZERO + (left % 10) as u8;
        left /= 10;
    }
}

// The same. A figure of one or two digits, which most figures of a listing are, is written with no loop: by the loop a line takes a fifth longer
// (measured).
#[tactic(auto, using(crate::proofs::Writing::one_digit, crate::proofs::Writing::two_digits, crate::proofs::Writing::lengths))]
pub fn write_figure(out: &mut [u8], n: u32)
    requires { length (decimal n) ≤ length out.old }
    ensures { out.new ≡ decimal n ++ drop (length (decimal n)) out.old }
{
    if n < 10 {
        out[0] = ZERO + n as u8;
    } else if n < 100 {
        out[1] = ZERO + (n % 10) as u8;
        out[0] = ZERO + (n / 10) as u8;
    } else {
        write_digits(out, n);
    }
}
