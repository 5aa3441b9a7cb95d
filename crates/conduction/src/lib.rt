// Conduction: rounds of light through a crossbar. What the code keeps of the wires and of the cells stands here, and not in the file that
// works on it: a definition that names a struct with a ghost field cannot be imported by the file of that struct.
#![tactic(auto)]

pub mod lighting;
pub mod spreading;
pub mod stamping;

ghost use Rattle.std.specs.Prelude.{◌≡◌, false, get_or};

// The codes that a byte can hold.
pub const CODES: usize = 256;

// A wire as a list holds it: its place in light's answer, and what it adds to the place of a cell. Row r adds r·n and column c adds c, so that
// the cell where they meet stands at the sum.
#[derive(Clone, Copy, Debug, PartialEq, Eq)]
pub struct Key {
    pub place: u16,
    pub adds: u16,
}

// The cells of a crossbar, row by row, and which codes conduct under a setting. Off does not. It is handed over by value: behind a reference
// its two addresses would be read again after each write to a list.
#[derive(Clone, Copy)]
pub struct Lamp<'a> {
    cells: &'a [u8],
    on: &'a [bool; CODES],
    ghost off: { get_or on.now 0 false ≡ false },
}
