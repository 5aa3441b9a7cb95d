// The calls that a C program links: those of the crate crossbar, under the same names, as a static library. Each C name needs a function of
// its own.
#![tactic(auto)]

ghost use Rattle.crossbar.specs.Host.{MapCall, WalkCall, LightCall, PrintCall, LoadCall};

// Map: job text in; record and cells out.
#[unsafe(no_mangle)]
pub extern "C" fn crossbar_map(text: &[u8], head: &mut [u8], cells: &mut [u8]) -> u64
    ensures { MapCall text.now head.old cells.old result head.new cells.new }
{
    crossbar::crossbar_map(text, head, cells)
}

// Walk: job text, setting and output number in; the diagram's value out.
#[unsafe(no_mangle)]
pub extern "C" fn crossbar_walk(text: &[u8], setting: &[u8], output: u32) -> u64
    ensures { WalkCall text.now setting.now output result }
{
    crossbar::crossbar_walk(text, setting, output)
}

// Light: record, cells and setting in; the first round of every wire and the count of rounds out.
#[unsafe(no_mangle)]
pub extern "C" fn crossbar_light(
    head: &[u8],
    cells: &[u8],
    setting: &[u8],
    firsts: &mut [u8],
) -> u64
    ensures { LightCall head.now cells.now setting.now firsts.old result firsts.new }
{
    crossbar::crossbar_light(head, cells, setting, firsts)
}

// Print: record and cells in; listing text and its length out.
#[unsafe(no_mangle)]
pub extern "C" fn crossbar_print(head: &[u8], cells: &[u8], text: &mut [u8]) -> u64
    ensures { PrintCall head.now cells.now text.old result text.new }
{
    crossbar::crossbar_print(head, cells, text)
}

// Load: listing text in; record and cells out.
#[unsafe(no_mangle)]
pub extern "C" fn crossbar_load(text: &[u8], head: &mut [u8], cells: &mut [u8]) -> u64
    ensures { LoadCall text.now head.old cells.old result head.new cells.new }
{
    crossbar::crossbar_load(text, head, cells)
}
