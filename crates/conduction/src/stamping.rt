// The rounds, by stamps. A stamp for each wire, rows then columns, is its first round: 0 while the wire is dark, else 1 plus the round in
// which it was first lit, which are the numbers that light gives. A round looks at the cells where the wires that the round before it lit meet dark ones.
ghost use Rattle.std.specs.Prelude.{◌≡◌, ◌+◌, ◌<◌, length, ltb};
ghost use Rattle.conduction.specs.Round.{Rounded};
ghost use Rattle.conduction.specs.Stamps.{stamps_after, Settled};
ghost use Rattle.conduction.specs.Wires.{joined_to, passing, Spreadable, InPlaces, Crossed, Fits, Standing};

use crate::spreading::{line_up, mark};
use crate::{Key, Lamp};
use common::{MAX_COLUMNS, MAX_ROWS};

// Where a round begins. Its wires, lit in the round before, are those of their list from `head` up to `tail`; the dark wires of the other
// list begin at `dark`. They are places and not slices: a round exchanges wires of the list that the next round begins in.
#[derive(Clone, Copy)]
struct RoundStart {
    head: usize,
    tail: usize,
    dark: usize,
}

// Light passes from wires of one side to the dark wires of the other, and those that it reaches are stamped. The answer is how many they are.
fn cross(lamp: Lamp, front: &[Key], dark: &mut [Key], stamps: &mut [u16], new: u16) -> usize
    requires { Spreadable lamp front.now dark.old × InPlaces dark.old stamps.old }
    ensures { Crossed lamp.entry front.now new dark.old dark.new stamps.old stamps.new result }
{
    let reached = lamp.spread(front, dark);
    mark(stamps, &dark[..reached], new);
    reached
}

// Round t + 1, from the wires that round t lit: rows where t is even, columns where it is odd. The answer is where the wires that it lit end.
fn round(
    lamp: Lamp,
    rows: &mut [Key],
    columns: &mut [Key],
    stamps: &mut [u16],
    t: u16,
    front: RoundStart,
) -> usize
    requires fits { Fits lamp (length rows.old) (length columns.old) stamps.old × (t < length rows.old + length columns.old) }
    requires standing { Standing rows.old columns.old stamps.old t front.head front.tail front.dark }
    requires stamps_value { stamps.old ≡ stamps_after (length stamps.old) (length rows.old) (length columns.old) (passing lamp (length columns.old)) t }
    ensures new_wires { Rounded (length rows.old)
        (length columns.old)
        (passing lamp.entry (length columns.old))
        t
        stamps.old
        stamps.new
        (ltb front.dark result) }
    ensures ready { Standing rows.new columns.new stamps.new (t + 1) front.dark result front.tail }
{
    let RoundStart { head, tail, dark } = front;
    let reached = if t % 2 == 0 {
        cross(lamp, &rows[head..tail], &mut columns[dark..], stamps, t + 2)
    } else {
        cross(lamp, &columns[head..tail], &mut rows[dark..], stamps, t + 2)
    };
    dark + reached
}

// The rounds of m rows and n columns, until one adds no wire. The answer is the count of rounds, and none where a further round would still
// add a wire after one less than there are wires. Document 01 has this loop yield its count by `break`, so it is no `for`. The lists are parts
// of arrays, since nothing may allocate; the count of the wires has no `From` to 16 bits, and fits them.
pub fn rounds(lamp: Lamp, m: usize, n: usize, stamps: &mut [u16]) -> Option<u16>
    requires fits { Fits lamp m n stamps.old }
    requires stamps_value { stamps.old ≡ stamps_after (length stamps.old) m n (passing lamp n) 0 }
    ensures { Settled m n (passing lamp.entry n) (length stamps.old) stamps.new result }
{
    let none = Key { place: 0, adds: 0 };
    let mut rows = [none; MAX_ROWS];
    let mut columns = [none; MAX_COLUMNS];
    let rows = &mut rows[..m];
    let columns = &mut columns[..n];
    line_up(rows, 0, n);
    line_up(columns, m, 1);
    let wires = (m + n) as u16;
    let mut t = 0;
    let mut front = RoundStart {
        head: 0,
        tail: 1,
        dark: 0,
    };
    loop {
        if wires <= t {
            break None;
        }
        let end = round(lamp, rows, columns, stamps, t, front);
        if end == front.dark {
            break Some(t);
        }
        t += 1;
        front = RoundStart {
            head: front.dark,
            tail: end,
            dark: front.tail,
        };
    }
}
