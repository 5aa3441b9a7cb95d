// A cell, its code, when it conducts, and the crossbar record.
#![tactic(auto)]

pub mod checks;

ghost use Rattle.std.specs.Prelude.{◌≡◌, get_or};
ghost use Rattle.cells.specs.Code.{code_of, cell_of};
ghost use Rattle.cells.specs.Conducts.{conducts};
ghost use Rattle.cells.specs.Record.{size};

use common::MAX_OUTPUTS;

// Document 01, "Placement": "A cell is off, on, or passes when a switch is 1 or 0."
#[derive(Clone, Copy, Debug, PartialEq, Eq)]
pub enum Cell {
    Off,
    On,
    Yes(u8),
    No(u8),
}

// Document 01, "Placement": "Cell codes: off 0, on 1, yes x 2 + 2·x, no x 3 + 2·x." It names these two functions and their constants, so they
// are no `From` and `TryFrom`.
impl Cell {
    pub const OFF: u8 = 0;

    pub const ON: u8 = 1;
    // The codes of switch 0; those of switch x are 2·x more.
    pub const YES: u8 = 2;

    pub const NO: u8 = 3;

    // The cell of a code. Cells are stored as bytes, and each byte is the code of a cell.
    #[tactic(auto, unfolding(crate::specs::Code::cell_of))]
    pub fn from_code(code: u8) -> Cell
        ensures { result ≡ cell_of code }
    {
        match code {
            Cell::OFF => Cell::Off,
            Cell::ON => Cell::On,
            _ if code % 2 == 0 => Cell::Yes((code - Cell::YES) / 2),
            _ => Cell::No((code - Cell::NO) / 2),
        }
    }

    // The code of a cell. A switch above 126 has a code past a byte, so the code is 16 bits wide.
    #[tactic(auto, unfolding(crate::specs::Code::code_of))]
    pub fn to_code(self) -> u16
        ensures { result ≡ code_of self }
    {
        match self {
            Cell::Off => u16::from(Cell::OFF),
            Cell::On => u16::from(Cell::ON),
            Cell::Yes(x) => u16::from(Cell::YES) + 2 * u16::from(x),
            Cell::No(x) => u16::from(Cell::NO) + 2 * u16::from(x),
        }
    }
}

// Document 01, "What an output reads": whether the cell of a code conducts under a setting, each byte of which is 0 or 1. A switch past the
// setting's end reads as 0.
#[tactic(auto, unfolding(crate::specs::Conducts::conducts))]
pub fn conducts_code(code: u8, setting: &[u8]) -> bool
    ensures { result ≡ conducts setting.now (cell_of code) }
{
    match Cell::from_code(code) {
        Cell::Off => false,
        Cell::On => true,
        Cell::Yes(x) => switch_value(setting, usize::from(x)) == 1,
        Cell::No(x) => switch_value(setting, usize::from(x)) == 0,
    }
}

// The value of a switch, 0 past the setting's end.
pub fn switch_value(setting: &[u8], x: usize) -> u8
    ensures { result ≡ get_or setting.now x 0 }
{
    setting.get(x).copied().unwrap_or(0)
}

// Document 01, "Placement": "The crossbar record holds R, C, V, K and 32 output rows, the unused ones 0." The fields are
// R, C, V and K, and outs holds the output rows. Document 01 names this form, a struct by value with [u16; 32] beside the sizes. The cells stand
// in a slice of their own, since the host lends them apart from the record.
#[derive(Clone, Copy, Debug, PartialEq, Eq)]
pub struct Crossbar {
    pub rows: u16,
    pub columns: u16,
    pub switches: u16,
    pub outputs: u16,
    pub outs: [u16; MAX_OUTPUTS],
}

impl Crossbar {
    // How many cells there are.
    #[tactic(auto, unfolding(crate::specs::Record::size))]
    pub fn size(self) -> usize
        ensures { result ≡ size self }
    {
        usize::from(self.rows) * usize::from(self.columns)
    }
}
