// Document 01, "Job text": the lines of a job in turn. "Text is read line by line; the first faulty line decides", and "a line that is not the form
// due stops the reading". "The reader fills a lent table of nodes, one entry a line". A function of some lines takes what is left of the text, these
// lines first, and answers the refusal, or what they say and what is left of the text after them. Text and line's number are two parameters: the number
// is counted from that of the first line. An `as` here is of a `u32` or `usize`, for which there is no `From`; the tests before it have shown that a
// narrower number fits.
#![tactic(auto, unfolding(common::specs::Limits::max_switches, common::specs::Limits::max_nodes, common::specs::Limits::max_outputs, diagram::specs::Diagram::no_node))]

ghost use Rattle.std.specs.Prelude.{◌≡◌, ℕ, ◌+◌, ◌-◌, ◌≤◌, ◌<◌, [], ◌++◌, IfOk, length, set, take, replicate};
ghost use Rattle.common.specs.Limits.{max_switches, max_nodes, max_outputs};
ghost use Rattle.common.specs.Fault.{handed, Goes};
ghost use Rattle.figures.specs.Line.{lines_of};
ghost use Rattle.diagram.specs.Diagram.{bare, no_node};
ghost use Rattle.jobs.specs.Answer.{job_of, Filled};
ghost use Rattle.diagram.specs.Held.{held};
ghost use Rattle.jobs.specs.Job.{accepted, table};
ghost use Rattle.jobs.specs.Reading.{read_end, read_outs, read_nodes, read_text};
ghost use Rattle.jobs.specs.Steps.{HeadRanges, given};

use crate::Job;
use common::{Fault, MAX_NODES, MAX_OUTPUTS, Refusal};
use diagram::faults::Earlier;
use diagram::seen::Seen;
use diagram::{Diagram, Node, faults, wires};
use forms::last::last_line;
use forms::{Form, JobForm};

// Writes one entry of a lent table; nothing else writes to it.
fn put(nodes: &mut [Node], k: usize, node: Node)
    requires { k < length nodes.old }
    ensures { nodes.new ≡ set nodes.old k node }
{
    nodes[k] = node;
}

// Puts zeros into the entries from `from` on, each through `put`: by `fill` a second function would write to the table.
fn clear(nodes: &mut [Node], from: usize)
    requires { from ≤ length nodes.old }
    ensures { nodes.new ≡ take from nodes.old ++ replicate (length nodes.old - from) no_node }
{
    for k in from..nodes.len() {
        put(nodes, k, Node::default());
    }
}

// The first two lines, `(job V N K)` and `(one T)`: grounds 1, 2 and 9.
fn first_lines<'a>(text: &'a [u8]) -> Result<(JobForm, u16, &'a [u8]), Refusal>
    ensures goes { Goes (read_text text.now) result (λ o. read_nodes o.0.nodes o.0.outputs (bare o.0.switches o.1) 3 (lines_of o.2.now)) }
    ensures sized { IfOk result (λ o. HeadRanges o.0.switches o.0.nodes o.0.outputs) }
{
    let first = forms::job_line(text, 1);
    let Form::Job(head) = first.form else {
        return Err(forms::refusal_of(first.form, 1));
    };
    faults::head_fault(head).map_err(|fault| fault.at(1))?;
    let second = forms::one_line(first.rest, 2);
    let Form::One(one) = second.form else {
        return Err(forms::refusal_of(second.form, 2));
    };
    faults::one_fault(one).map_err(|fault| fault.at(2))?;
    Ok((head, one, second.rest))
}

// The lines `(node I X (L H) T)`, of which the first has the number `line`, each node on the entry of its line: grounds 1 and 3 to 9.
// The loop is over places, since a line is tested by the entries before its own.
fn read_nodes<'a>(
    text: &'a [u8],
    line: u32,
    head: JobForm,
    one: u16,
    nodes: &mut [Node],
) -> Result<&'a [u8], Refusal>
    requires { (line ≤ 3) × (head.switches ≤ max_switches) × (length nodes.old ≤ max_nodes) }
    ensures { Goes (read_nodes (length nodes.old) head.outputs (bare head.switches one) line (lines_of text.now)) result (λ o. read_outs head.outputs (given head.switches one nodes.new []) (line + length nodes.old) (lines_of o.now)) }
{
    let switches = head.switches as u16;
    let mut seen = Seen::new();
    let mut rest = text;
    for k in 0..nodes.len() {
        let at = line + k as u32;
        let read = forms::node_line(rest, at);
        let Form::Node(f) = read.form else {
            return Err(forms::refusal_of(read.form, at));
        };
        let diagram = Diagram {
            switches,
            one,
            nodes: &nodes[..k],
        };
        let earlier = Earlier {
            diagram,
            seen: &seen,
        };
        earlier.node_fault(f).map_err(|fault| fault.at(at))?;
        let node = Node::given(f);
        put(nodes, k, node);
        seen.mark(node);
        rest = read.rest;
    }
    Ok(rest)
}

// The lines `(out J I)`, of which the first has the number `line`: grounds 1, 3, 5 and 9, and the id that each output names. The loop is over
// places, as that over the nodes; one function for both would be no plainer: its step would be a closure that marks each node beside what it answers.
fn read_outs<'a>(
    text: &'a [u8],
    line: u32,
    diagram: &Diagram,
    outs: &mut [u16],
) -> Result<&'a [u8], Refusal>
    requires { (line ≤ 3 + max_nodes) × (length outs.old ≤ max_outputs) }
    ensures { Goes (read_outs (length outs.old) (held diagram.now []) line (lines_of text.now)) result (λ o. read_end (held diagram.now outs.new) (line + length outs.old) (lines_of o.now)) }
{
    let mut rest = text;
    for j in 0..outs.len() {
        let at = line + j as u32;
        let read = forms::out_line(rest, at);
        let Form::Out(f) = read.form else {
            return Err(forms::refusal_of(read.form, at));
        };
        faults::out_fault(diagram, &outs[..j], f).map_err(|fault| fault.at(at))?;
        outs[j] = f.target as u16;
        rest = read.rest;
    }
    Ok(rest)
}

// The lines in turn, and then ground 11. The nodes of an accepted job are in the first entries of the lent table.
fn read_lines(text: &[u8], nodes: &mut [Node]) -> Result<Job, Refusal>
    requires { length nodes.old ≡ max_nodes }
    ensures job { result ≡ handed job_of (accepted text.now) }
    ensures filled { IfOk result (λ job. Filled (accepted text.now) nodes.new job) }
{
    let (head, one, rest) = first_lines(text)?;
    let switches = head.switches as u16;
    let n = head.nodes as usize;
    let k = head.outputs as usize;
    let rest = read_nodes(rest, 3, head, one, &mut nodes[..n])?;
    let diagram = Diagram {
        switches,
        one,
        nodes: &nodes[..n],
    };
    let mut outs = [0; MAX_OUTPUTS];
    let rest = read_outs(rest, 3 + head.nodes, &diagram, &mut outs[..k])?;
    let line = 3 + head.nodes + head.outputs;
    last_line(rest, line)?;
    let size = wires::dimensions(&diagram, &outs[..k]);
    if wires::exceeds(size) {
        return Err(Fault::TooLarge.at(line));
    }
    Ok(Job {
        switches,
        one,
        nodes: n as u16,
        outputs: k as u16,
        outs,
        rows: size.rows,
        columns: size.columns,
    })
}

// The reader: a job's text in; its record out, and its nodes in the lent table, each on the entry of its line. "entries without a line are zeros, and
// after a refusal it holds zeros only".
pub fn read_job(text: &[u8], nodes: &mut [Node]) -> Result<Job, Refusal>
    requires { length nodes.old ≡ max_nodes }
    ensures job { result ≡ handed job_of (accepted text.now) }
    ensures table { nodes.new ≡ table (accepted text.now) }
{
    let read = read_lines(text, nodes);
    let filled = match read {
        Ok(job) => usize::from(job.nodes),
        Err(_) => 0,
    };
    clear(nodes, filled);
    read
}

// The reader on a table that has its entries by its type, so that it asks nothing of a caller.
pub fn read_diagram(text: &[u8], nodes: &mut [Node; MAX_NODES]) -> Result<Job, Refusal>
    ensures job { result ≡ handed job_of (accepted text.now) }
    ensures table { nodes.new ≡ table (accepted text.now) }
{
    read_job(text, nodes)
}
