//! The parts of a node of DAG-PB, listed.

ghost use Rattle.std.specs.Prelude.{◌≡◌, Some, [], IfOk, OnOk};
ghost use Rattle.dag_pb.specs.Node.{NodeParts, IsNode};
ghost use Rattle.kombilad_c.specs.PbTape.{ListsPbTape, IsOfNode, joined, content_at, content_where, tsize_entry, link_at, node_at, entries_of};

use crate::status::{MEMORY, TOO_LONG, pb_status};
use crate::tape::fill_entries;
use dag_cbor_blocks::tape::{BYTES, LINK, STRING, TapeEntry, UNSIGNED};
use dag_pb::{PbLinkSpans, PbNodeSpans, PbSpan, node_spans};
use std::alloc::{AllocError, Global};

// The entries of a node so far.
#[derive(Drop)]
struct NodeTape {
    entries: Vec<TapeEntry>,
    // Whether every entry could be written.
    fits: bool,
}

impl NodeTape {
    fn new(alloc: Global) -> Self
        ensures { entries_of result ≡ Some [] }
    {
        NodeTape {
            entries: Vec::new(alloc),
            fits: true,
        }
    }

    // Appends content at a span.
    fn push_content(&mut self, kind: u32, span: PbSpan) -> Result<(), AllocError>
        ensures { OnOk result (entries_of self.new ≡ joined (entries_of self.old)
            (content_at kind span)) }
    {
        match u32::try_from(span.len) {
            Ok(len) => {
                self.entries.push(TapeEntry {
                    kind,
                    len,
                    value: span.offset as u64,
                })?;
            }
            Err(_) => self.fits = false,
        }
        Ok(())
    }

    // Appends content at a span, if there is one.
    fn push_content_if_any(&mut self, kind: u32, span: Option<PbSpan>) -> Result<(), AllocError>
        ensures { OnOk result (entries_of self.new ≡ joined (entries_of self.old)
            (content_where kind span)) }
    {
        match span {
            Some(span) => self.push_content(kind, span),
            None => Ok(()),
        }
    }

    // Appends a size, if there is one.
    fn push_tsize(&mut self, tsize: Option<u64>) -> Result<(), AllocError>
        ensures { OnOk result (entries_of self.new ≡ joined (entries_of self.old)
            (Some (tsize_entry tsize))) }
    {
        match tsize {
            Some(value) => {
                self.entries.push(TapeEntry {
                    kind: UNSIGNED,
                    len: 0,
                    value,
                })?;
                Ok(())
            }
            None => Ok(()),
        }
    }

    // Appends a link.
    fn push_link(&mut self, spans: &PbLinkSpans) -> Result<(), AllocError>
        ensures { OnOk result (entries_of self.new ≡ joined (entries_of self.old)
            (link_at spans.now)) }
    {
        self.push_content(LINK, spans.hash)?;
        self.push_content_if_any(STRING, spans.name)?;
        self.push_tsize(spans.tsize)
    }
}

// Returns the entries of a node.
fn node_tape(alloc: Global, spans: &PbNodeSpans) -> Result<NodeTape, AllocError>
    ensures { IfOk result (λ tape. entries_of tape ≡ node_at spans.now) }
{
    let mut tape = NodeTape::new(alloc);
    let mut rest: &[PbLinkSpans] = &spans.links;
    while let Some((link, more)) = rest.split_first() {
        tape.push_link(link)?;
        rest = more;
    }
    tape.push_content_if_any(BYTES, spans.data)?;
    Ok(tape)
}

/// Lists the links and the data of the DAG-PB node that the block encodes.
#[unsafe(no_mangle)]
pub extern "C" fn kombilad_pb_tape(
    alloc: Global,
    block: &[u8],
    entries: &mut [TapeEntry],
    needed: &mut usize,
    offset: &mut usize,
) -> u32
    ensures exact { ListsPbTape block.now result
        (record { before = entries.old; after = entries.new })
        (record { before = needed.old; after = needed.new })
        (record { before = offset.old; after = offset.new }) }
    ensures only { (n : NodeParts) → IsNode n block.now → IsOfNode result }
{
    match node_spans(alloc, block) {
        Ok(spans) => match node_tape(alloc, &spans) {
            Ok(tape) => {
                if tape.fits {
                    fill_entries(&tape.entries, entries, needed)
                } else {
                    TOO_LONG
                }
            }
            Err(_) => {
                *offset = 0;
                MEMORY
            }
        },
        Err(error) => {
            *offset = error.offset;
            pb_status(error.kind)
        }
    }
}
