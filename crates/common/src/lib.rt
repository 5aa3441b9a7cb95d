// What every layer shares: the limits of document 01, and the refusal.
#![tactic(auto)]

ghost use Rattle.std.specs.Prelude.{◌≡◌};
ghost use Rattle.common.specs.Fault.{number_of_fault};

// Document 01, "Listing" and ground 11: the most rows, and the most columns, of a crossbar.
pub const MAX_ROWS: usize = 128;

pub const MAX_COLUMNS: usize = 128;
// Document 01, "Job text": the most switches, nodes and outputs of a job.
pub const MAX_SWITCHES: usize = 64;

pub const MAX_NODES: usize = 254;

pub const MAX_OUTPUTS: usize = 32;
// The ids of the terminals and of the most nodes.
pub const MAX_IDS: usize = MAX_NODES + 2;
// Document 01, "Two programs": the most bytes of an input.
pub const MAX_INPUT: usize = 65535;
// Bytes that are always enough for a listing and for what a program prints, reckoned from the limits above.
pub const MAX_TEXT: usize = 24 * MAX_ROWS * MAX_COLUMNS + 512;

// Document 01, "Job text": "T (1 for `h`, 2 for `v`, 3 for `b`)". They stay numbers and no enum, since document 01 fixes them as what the node
// table holds, where an entry without a line has 0.
pub const LABEL_H: u16 = 1;

pub const LABEL_V: u16 = 2;

pub const LABEL_B: u16 = 3;

// Document 01, "Grounds for sending a job back": the fifteen grounds and their numbers.
#[derive(Clone, Copy, Debug, PartialEq, Eq)]
pub enum Fault {
    NotDue = 1,
    OutOfRange = 2,
    OutOfTurn = 3,
    NoSwitch = 4,
    NoId = 5,
    Unordered = 6,
    SameChildren = 7,
    Doubled = 8,
    Alike = 9,
    BytesFollow = 10,
    TooLarge = 11,
    Misplaced = 12,
    WrongSetting = 13,
    NoRoom = 14,
    Unsettled = 15,
}

impl Fault {
    // Document 01's number of a fault. It is a method and no `From`, so that a caller says what the number is.
    #[tactic(auto, unfolding(crate::specs::Fault::number_of_fault))]
    pub fn number(self) -> u32
        ensures { result ≡ number_of_fault self }
    {
        self as u32
    }

    // The refusal with this fault, at a line. 0 is document 01's number where no line is at fault: "0 for 12 on a record, for 13 to 15".
    pub fn at(self, line: u32) -> Refusal
        ensures { result ≡ record { fault = self; line = line } }
    {
        Refusal { fault: self, line }
    }
}

// "A refusal is its number and a line".
#[derive(Clone, Copy, Debug, PartialEq, Eq)]
pub struct Refusal {
    pub fault: Fault,
    pub line: u32,
}
