// How light spreads from lit wires to dark ones: the parts of a round. The wires of one side, its rows or its columns, are a list of keys in
// which the lit ones stand before the dark ones, in the order in which they were lit. That each key meets the lamp is a clause of each function and
// no type of lamp and keys: the keys are exchanged while the lamp is read.
ghost use Rattle.std.specs.Prelude.{◌+◌, ◌*◌, ◌≡◌, ◌≤◌, ◌<◌, length, get_or, drop, eqb};
ghost use Rattle.std.specs.List.{list_all};
ghost use Rattle.common.specs.Limits.{max_rows, max_columns, max_switches};
ghost use Rattle.conduction.specs.Wires.{wire_of, in_order, passes, on_codes, joined_to, Meeting, Sortable, Spreadable, InPlaces, Sorted, NewlyStamped};

use crate::{CODES, Key, Lamp};
use cells::conducts_code;
use std::ops::Range;

impl Lamp<'_> {
    // The lamp of a wire: its cells begin where those of the wire do, so that what another wire adds is the place of the cell where they meet.
    fn of_wire(self, key: Key) -> Self
        requires { key.adds ≤ length self.cells.now }
        ensures { (result.cells.now ≡ drop key.adds self.entry.cells.now) × (result.on.now ≡ self.entry.on.now) }
    {
        Lamp {
            cells: &self.cells[usize::from(key.adds)..],
            on: self.on,
        }
    }

    // Whether the cell at a place conducts.
    #[tactic(auto, unfolding(crate::specs::Wires::passes))]
    fn passes(self, at: usize) -> bool
        requires { at < length self.cells.now }
        ensures { result ≡ passes self.entry at }
    {
        self.on[usize::from(self.cells[at])]
    }

    // Whether the cells where some wires meet the lamp's are all off. It is no call of `every`, which asks for a test that may be called with any
    // key, and this one looks at a cell that only these keys have.
    fn all_off(self, keys: &[Key]) -> bool
        requires { Meeting self keys.now }
        ensures { result ≡ list_all (λ k. eqb (get_or self.entry.cells.now k.adds 0) 0) keys.now }
    {
        let mut off = true;
        for key in keys {
            off &= self.cells[usize::from(key.adds)] == 0;
        }
        off
    }

    // Sorts a part of a list of dark wires, of which those before `lit` were reached and the others before the part were not: the ones that a
    // conducting cell joins to the lamp's wire come first. The answer is where those that were reached end. An exchange needs both places, so
    // the `for` is over places; it is over two numbers and not over `part`, of which a proof knows only what it has yielded.
    fn sort(self, keys: &mut [Key], mut lit: usize, part: Range<usize>) -> usize
        requires { Sortable self keys.old lit part.start part.end }
        ensures { Sorted (λ k. passes self.entry k.adds) lit keys.old keys.new result part.end }
    {
        for i in part.start..part.end {
            if self.passes(usize::from(keys[i].adds)) {
                keys.swap(lit, i);
                lit += 1;
            }
        }
        lit
    }

    // Sorts dark wires by what conducting cells join to the lamp's wire. The answer is how many are joined to it. Most cells of a crossbar
    // are off, so four of them are passed over at once: sorted as one part, all wires take half as long again where they are, and light then
    // misses 1.5 times the plain program (measured). By `step_by(4)` light through half of the wires takes a third more, and misses that too
    // (measured).
    fn reach(self, keys: &mut [Key]) -> usize
        requires { Meeting self keys.old }
        ensures { Sorted (λ k. passes self.entry k.adds) 0 keys.old keys.new result (length keys.old) }
    {
        let fours = keys.len() / 4;
        let mut lit = 0;
        for i in 0..fours {
            let at = 4 * i;
            if !self.all_off(&keys[at..at + 4]) {
                lit = self.sort(keys, lit, at..at + 4);
            }
        }
        self.sort(keys, lit, 4 * fours..keys.len())
    }

    // Sorts the dark wires of one side by what conducting cells join to wires of the other side. The answer is how many are joined to one. Where no
    // wire is dark there need be no cells for the wires of the front, so that is asked first.
    pub fn spread(self, front: &[Key], dark: &mut [Key]) -> usize
        requires { Spreadable self front.now dark.old }
        ensures { Sorted (joined_to self.entry front.now) 0 dark.old dark.new result (length dark.old) }
    {
        if dark.is_empty() {
            return 0;
        }
        let mut lit = 0;
        for key in front {
            lit += self.of_wire(*key).reach(&mut dark[lit..]);
        }
        lit
    }
}

// Which codes conduct under a setting: none but those of its switches. The code is narrowed by `as`: it is below the table's length.
pub fn conducting(setting: &[u8]) -> [bool; CODES]
    requires { length setting.now ≤ max_switches }
    ensures { result ≡ on_codes setting.now }
{
    let mut on = [false; CODES];
    let switched = &mut on[..2 + 2 * setting.len()];
    for (code, conducts) in switched.iter_mut().enumerate() {
        *conducts = conducts_code(code as u8, setting);
    }
    on
}

// Gives some wires a new stamp.
pub fn mark(stamps: &mut [u16], keys: &[Key], new: u16)
    requires { InPlaces keys.now stamps.old }
    ensures { NewlyStamped keys.now new stamps.old stamps.new }
{
    for key in keys {
        stamps[usize::from(key.place)] = new;
    }
}

// Lines up the wires of a side in rising order. Wire x has the place `first` + x and adds x·step, which the limits let 16 bits hold.
pub fn line_up(keys: &mut [Key], first: usize, step: usize)
    requires { (first + length keys.old ≤ max_rows + max_columns) × (length keys.old * step ≤ max_rows * max_columns) }
    ensures { keys.new ≡ in_order first step (length keys.old) }
{
    for (x, key) in keys.iter_mut().enumerate() {
        *key = Key {
            place: (first + x) as u16,
            adds: (x * step) as u16,
        };
    }
}
