// The checks of a crossbar record and of a setting, which several calls share. An `as` here widens a `u32`, for which there is no `From`, or
// narrows a code that is known to fit.
ghost use Rattle.std.specs.Prelude.{◌≡◌, ◌≤◌, Bool, true, eqb, leb};
ghost use Rattle.std.specs.List.{list_all};
ghost use Rattle.common.specs.Limits.{max_outputs};
ghost use Rattle.common.specs.Lists.{all_of};
ghost use Rattle.cells.specs.Record.{in_range, cells_fit, outs_fit, sound};
ghost use Rattle.cells.specs.Setting.{is_setting};

use crate::Crossbar;
use common::{MAX_COLUMNS, MAX_OUTPUTS, MAX_ROWS, MAX_SWITCHES};

// Whether a test holds of every entry. The loop has one way out, so that it compiles to steps of many bytes at once: `all`, which stops at
// the first entry that fails, takes 20 times as long (measured: 5.2 microseconds for 16,384 bytes, where this takes 0.3), and light and print of cells
// in a longer buffer would miss their goals.
pub fn every<T: Copy, F: Fn(T) -> bool>(s: &[T], test: F) -> bool
    requires { F.IsAlwaysCallable test }
    ensures { (p : T → Bool) → ((x : T) (r : Bool) → F.post test x r → r ≡ p x) → result ≡ list_all p s.now }
{
    let mut ok = true;
    for x in s {
        ok &= test(*x);
    }
    ok
}

// Whether no code is above a number, by the highest of them. By `every`, which takes three steps for each 16 bytes where this takes one, light of a
// crossbar with no cell on takes half as long again and misses its goal (measured).
fn at_most(codes: &[u8], most: u8) -> bool
    ensures { result ≡ all_of (λ k. leb k most) codes.now }
{
    let mut top = 0;
    for code in codes {
        top = top.max(*code);
    }
    top <= most
}

// Whether every byte is 0.
pub fn is_zero(s: &[u8]) -> bool
    ensures { result ≡ all_of (λ b. eqb b 0) s.now }
{
    every(s, |byte| byte == 0)
}

// Document 01, "Listing": the sizes of a crossbar in range, of a record or as a listing's first line gives them.
#[tactic(auto, unfolding(crate::specs::Record::in_range, common::specs::Limits::max_rows, common::specs::Limits::max_columns, common::specs::Limits::max_switches, common::specs::Limits::max_outputs))]
pub fn in_range(rows: u32, columns: u32, switches: u32, outputs: u32) -> bool
    ensures { result ≡ in_range rows columns switches outputs }
{
    1 <= rows
        && rows as usize <= MAX_ROWS
        && columns as usize <= MAX_COLUMNS
        && switches as usize <= MAX_SWITCHES
        && 1 <= outputs
        && outputs as usize <= MAX_OUTPUTS
}

// Ground 12 on the cells of a record whose sizes are in range: whether they are all there, none has a code above those of the switches, and
// each byte after them is 0. The highest code is taken as a byte, so that bytes are compared with it and not wider numbers.
fn cells_fit(x: Crossbar, cells: &[u8]) -> bool
    requires { in_range x.rows x.columns x.switches x.outputs ≡ true }
    ensures { result ≡ cells_fit x cells.now }
{
    let most = (1 + 2 * x.switches) as u8;
    match cells.split_at_checked(x.size()) {
        Some((codes, past)) => is_zero(past) && at_most(codes, most),
        None => false,
    }
}

// Ground 12 on the output rows of a record whose sizes are in range: whether each is a row, and each unused one 0.
fn outs_fit(x: Crossbar) -> bool
    requires { x.outputs ≤ max_outputs }
    ensures { result ≡ outs_fit x }
{
    let (used, unused) = x.outs.split_at(usize::from(x.outputs));
    every(used, |row| row < x.rows) && every(unused, |row| row == 0)
}

// Whether ground 12 is not met by a record and its cells.
pub fn is_sound(x: Crossbar, cells: &[u8]) -> bool
    ensures { result ≡ sound x cells.now }
{
    if !in_range(
        u32::from(x.rows),
        u32::from(x.columns),
        u32::from(x.switches),
        u32::from(x.outputs),
    ) {
        return false;
    }
    cells_fit(x, cells) && outs_fit(x)
}

// Ground 13 on a setting: whether it is a byte for each switch, each 0 or 1.
pub fn is_setting(switches: u16, setting: &[u8]) -> bool
    ensures { result ≡ is_setting switches setting.now }
{
    setting.len() == usize::from(switches) && every(setting, |byte| byte <= 1)
}
