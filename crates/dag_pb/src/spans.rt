//! The spans of a node's parts in its block.

ghost use Rattle.std.specs.Prelude.{◌≡◌, ◌⊎◌, ◌≤◌, [], length, option_map, IfOk, IfErr, IsOk, OnOk, OnErr, Ok, Err, MatchResult};
ghost use Rattle.dag_pb.specs.Node.{NodeParts, IsNode};
ghost use Rattle.dag_pb.specs.NodeReading.{read_node};
ghost use Rattle.dag_pb.specs.Spans.{span_before, spans_of_link, AreSpansOf, NodeStandsAt, Spans};
ghost use Rattle.dag_pb.specs.Views.{IsLinkField, IsOutOfMemory};

use crate::error::PbError;
use crate::link::PlacedLink;
use crate::reader::{NodeField, Stage, read_part};
use std::alloc::{AllocError, Global};

/// A span of bytes in a block.
#[derive(Clone, Copy, Debug, PartialEq, Eq)]
pub struct PbSpan {
    /// The byte of the block at which it begins.
    pub offset: usize,
    /// The number of its bytes.
    pub len: usize,
}

impl PbSpan {
    // Returns the span of `len` bytes in a block of `size` bytes, with `behind` bytes after it.
    #[inline(always)]
    fn ending(size: usize, behind: usize, len: usize) -> Self
        ensures { result ≡ span_before size behind len }
    {
        PbSpan {
            offset: size.saturating_sub(behind).saturating_sub(len),
            len,
        }
    }
}

// Returns the span of a name, if there is one, in a block of `size` bytes, with `behind` bytes
// after it.
#[inline(always)]
fn name_span(size: usize, behind: usize, name: Option<&str>) -> Option<PbSpan>
    ensures { result ≡ option_map (λ name. span_before size behind (length name.now)) name.entry }
{
    match name {
        Some(name) => Some(PbSpan::ending(size, behind, name.len())),
        None => None,
    }
}

/// The spans of a link's parts in a block.
#[derive(Clone, Copy, Debug, PartialEq, Eq)]
pub struct PbLinkSpans {
    /// The bytes of its CID.
    pub hash: PbSpan,
    /// Its name, which is UTF-8, if it has one.
    pub name: Option<PbSpan>,
    /// Its size, if it has one.
    pub tsize: Option<u64>,
}

impl PbLinkSpans {
    // Returns the spans of a link in a block of `size` bytes.
    #[inline(always)]
    fn of(size: usize, placed: &PlacedLink<'_>) -> Self
        ensures spans { result ≡ spans_of_link size placed.now }
        ensures short { result.hash.len ≤ 86 }
    {
        PbLinkSpans {
            hash: PbSpan::ending(size, placed.behind_hash, placed.link.hash.encoded_len()),
            name: name_span(size, placed.behind_name, placed.link.name),
            tsize: placed.link.tsize,
        }
    }
}

/// The spans of a node's parts in its block.
#[derive(Debug, Drop)]
pub struct PbNodeSpans {
    /// The links, in the order of the block.
    pub links: Vec<PbLinkSpans>,
    /// The data, if the block has data.
    pub data: Option<PbSpan>,
}

impl PbNodeSpans {
    // Adds a field of a block of `size` bytes, with `behind` bytes after it.
    #[inline(always)]
    fn add(&mut self, size: usize, behind: usize, part: &NodeField<'_>) -> Result<(), AllocError>
        ensures added { OnOk result (Spans size behind part.now self.old self.new) }
        ensures full { OnErr result (IsLinkField part.now) }
    {
        match part {
            NodeField::Link(placed) => {
                self.links.push(PbLinkSpans::of(size, placed))?;
                Ok(())
            }
            NodeField::Data(content) => {
                self.data = Some(PbSpan::ending(size, behind, content.len()));
                Ok(())
            }
        }
    }
}

// Reads the spans of a block. The public function has more clauses.
fn collect_spans(alloc: Global, bytes: &[u8]) -> Result<PbNodeSpans, PbError>
    ensures exact { MatchResult result
        (λ spans. ((n : NodeParts) × (read_node bytes.now ≡ Ok n) × NodeStandsAt n bytes.now spans)
        × AreSpansOf spans bytes.now)
        (λ error. IsOutOfMemory error ⊎ (read_node bytes.now ≡ Err error)) }
    ensures unlinked { (n : NodeParts) → read_node bytes.now ≡ Ok n → n.links ≡ [] → IsOk result }
{
    let mut stage = Stage::Nothing;
    let mut rest = bytes;
    let mut spans = PbNodeSpans {
        links: Vec::new(alloc),
        data: None,
    };
    while !rest.is_empty() {
        match read_part(stage, rest) {
            Ok((part, next, after)) => {
                spans.add(bytes.len(), after.len(), &part)?;
                stage = next;
                rest = after;
            }
            Err(fault) => return Err(fault.in_block(bytes.len())),
        }
    }
    Ok(spans)
}

/// Decodes the node of a block, which is all of the bytes, and returns the spans of its parts. It
/// is for callers that can't borrow from the block, for example in another language.
///
/// It reads the bytes once, in a loop. It allocates only the vector of the links.
///
/// # Errors
///
/// Those of [`read_node`](crate::read_node): the same error for the same bytes, unless an
/// allocation fails.
pub fn node_spans(alloc: Global, bytes: &[u8]) -> Result<PbNodeSpans, PbError>
    ensures found { IfOk result (λ spans. (n : NodeParts) × IsNode n bytes.now
        × NodeStandsAt n bytes.now spans) }
    ensures only { (n : NodeParts) → IsNode n bytes.now
        → MatchResult result (λ spans. NodeStandsAt n bytes.now spans) IsOutOfMemory }
    ensures places { IfOk result (λ spans. AreSpansOf spans bytes.now) }
    ensures errors { IfErr result (λ error. IsOutOfMemory error
        ⊎ (read_node bytes.now ≡ Err error)) }
    ensures unlinked { (n : NodeParts) → IsNode n bytes.now → n.links ≡ [] → IsOk result }
    ensures offset { IfErr result (λ error. error.offset ≤ length bytes.now) }
{
    collect_spans(alloc, bytes)
}
