//! The endings of a run as JSON.

ghost use Rattle.std.specs.Prelude.{◌≡◌};
ghost use Rattle.ioa_record.specs.Endings.{ending_text, fault_name};
ghost use Rattle.ioa_paper.specs.Papers.{and_text};
ghost use Rattle.ioa_show.specs.Steps.{ending_line, ending_lines};

use ioa_paper::Paper;
use ioa_record::{Ending, NodeFault};
use ioa_streams::Out;

/// Writes a line for each ending, that of node 0 first.
pub fn put_endings<O: Out>(paper: &mut Paper<'_, O>, endings: &[Ending])
    ensures { paper.new ≡ and_text paper.old (ending_lines 0 endings.now) }
{
    for (node, ending) in endings.iter().enumerate() {
        put_ending(paper, node, *ending);
    }
}

/// Writes the line of the ending of a node.
fn put_ending<O: Out>(paper: &mut Paper<'_, O>, node: usize, ending: Ending)
    ensures { paper.new ≡ and_text paper.old (ending_line node ending) }
{
    paper.put("{\"kind\":\"ending\",\"node\":");
    paper.put_number(node);
    paper.put(",\"text\":\"");
    put_end(paper, ending);
    paper.put("\"}\n");
}

/// Writes how a node ended.
fn put_end<O: Out>(paper: &mut Paper<'_, O>, ending: Ending)
    ensures { paper.new ≡ and_text paper.old (ending_text ending) }
{
    match ending {
        Ending::Done => paper.put("done"),
        Ending::Spent => paper.put("spent"),
        Ending::Fault(fault) => {
            paper.put("fault ");
            paper.put(name_of(fault));
        }
    }
}

/// The name of a fault.
fn name_of(fault: NodeFault) -> &'static str
    ensures { result.now ≡ fault_name fault }
{
    match fault {
        NodeFault::Undefined => "Undefined",
        NodeFault::Range => "Range",
        NodeFault::Memory => "Memory",
        NodeFault::NotMine => "NotMine",
        NodeFault::NoChannel => "NoChannel",
        NodeFault::NoChoice => "NoChoice",
        NodeFault::Differs => "Differs",
        NodeFault::Full => "Full",
        NodeFault::Unknown => "Unknown",
        NodeFault::Older => "Older",
        NodeFault::NoThread => "NoThread",
    }
}
