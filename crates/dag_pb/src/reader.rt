//! The fields of a node.

ghost use Rattle.std.specs.Prelude.{◌≡◌, ◌<◌, ◌≤◌, ◌+◌, length, IfOk, Ok, Err, MatchResult};
ghost use Rattle.dag_pb.specs.NodeReading as reading;
ghost use Rattle.dag_pb.specs.Spans.{BeginsBehindKey, BeginsWithField};
ghost use Rattle.dag_pb.specs.Views.{parts_of_link, part_of};

use crate::error::{Fault, PbErrorKind};
use crate::link::{PlacedLink, read_link};
use pb_wire::{read_content, read_varint};

// The keys of the fields of a node.
pub(crate) const DATA: u64 = 10;

pub(crate) const LINKS: u64 = 18;

// The fields of a node that have come so far.
#[derive(Clone, Copy)]
pub(crate) enum Stage {
    Nothing,
    Links,
    // The data, and perhaps links after it.
    Data,
    // Links, and the data after them.
    LinksAndData,
}

impl Stage {
    // Returns the stage after another link, if one may come.
    #[inline(always)]
    fn after_link(self) -> Option<Stage>
        ensures { result ≡ reading.after_link self }
    {
        match self {
            Stage::Nothing | Stage::Links => Some(Stage::Links),
            Stage::Data => Some(Stage::Data),
            Stage::LinksAndData => None,
        }
    }

    // Returns the stage after the data, if they may come.
    #[inline(always)]
    fn after_data(self) -> Option<Stage>
        ensures { result ≡ reading.after_data self }
    {
        match self {
            Stage::Nothing => Some(Stage::Data),
            Stage::Links => Some(Stage::LinksAndData),
            Stage::Data | Stage::LinksAndData => None,
        }
    }
}

// A field of a node.
#[derive(Clone, Copy)]
pub(crate) enum NodeField<'a> {
    Link(PlacedLink<'a>),
    Data(&'a [u8]),
}

// Reads the link whose message is after its length, and returns it with the bytes after it.
#[tactic(auto, unfolding(crate::specs::NodeReading::link_field))]
#[inline(always)]
fn read_link_field(left: usize, bytes: &[u8]) -> Result<(PlacedLink<'_>, &[u8]), Fault>
    requires { length bytes.now ≤ left }
    ensures exact { MatchResult result
        (λ found. reading.link_field left bytes.now ≡ Ok (parts_of_link found.0.link, found.1.now))
        (λ fault. reading.link_field left bytes.now ≡ Err fault) }
    ensures shorter { IfOk result (λ found. length found.1.now < length bytes.now) }
    ensures places { IfOk result (λ found. BeginsBehindKey 18
        (NodeField.Link found.0) bytes.now found.1.now) }
{
    let (content, rest) = match read_content(bytes) {
        Ok(found) => found,
        Err(error) => return Err(Fault::of_wire(error, left)),
    };
    match read_link(content) {
        Ok(found) => Ok((
            PlacedLink {
                link: found.link,
                behind_hash: found.behind_hash + rest.len(),
                behind_name: found.behind_name + rest.len(),
            },
            rest,
        )),
        Err(fault) => Err(Fault {
            kind: fault.kind,
            left: fault.left + rest.len(),
        }),
    }
}

// Reads the data after their length, and returns them with the bytes after them.
#[tactic(auto, unfolding(crate::specs::NodeReading::data_field))]
#[inline(always)]
fn read_data_field(left: usize, bytes: &[u8]) -> Result<(&[u8], &[u8]), Fault>
    ensures exact { MatchResult result
        (λ found. reading.data_field left bytes.now ≡ Ok (found.0.now, found.1.now))
        (λ fault. reading.data_field left bytes.now ≡ Err fault) }
    ensures shorter { IfOk result (λ found. length found.1.now < length bytes.now) }
    ensures places { IfOk result (λ found. BeginsBehindKey 10
        (NodeField.Data found.0) bytes.now found.1.now) }
{
    match read_content(bytes) {
        Ok((content, rest)) => Ok((content, rest)),
        Err(error) => Err(Fault::of_wire(error, left)),
    }
}

// Reads a link, if one may come.
#[inline(always)]
fn take_link(
    stage: Stage,
    left: usize,
    bytes: &[u8],
) -> Result<(NodeField<'_>, Stage, &[u8]), Fault>
    requires { length bytes.now ≤ left }
    ensures exact { MatchResult result
        (λ found. reading.link_part left bytes.now (reading.after_link stage) ≡ Ok
        (part_of found.0, found.1, found.2.now))
        (λ fault. reading.link_part left bytes.now (reading.after_link stage) ≡ Err fault) }
    ensures shorter { IfOk result (λ found. length found.2.now < length bytes.now) }
    ensures places { IfOk result (λ found. BeginsBehindKey 18 found.0 bytes.now found.2.now) }
{
    let Some(next) = stage.after_link() else {
        return Err(Fault {
            kind: PbErrorKind::FieldOrder,
            left,
        });
    };
    match read_link_field(left, bytes) {
        Ok((link, rest)) => Ok((NodeField::Link(link), next, rest)),
        Err(fault) => Err(fault),
    }
}

// Reads the data, if they may come.
#[inline(always)]
fn take_data(
    stage: Stage,
    left: usize,
    bytes: &[u8],
) -> Result<(NodeField<'_>, Stage, &[u8]), Fault>
    ensures exact { MatchResult result
        (λ found. reading.data_part left bytes.now (reading.after_data stage) ≡ Ok
        (part_of found.0, found.1, found.2.now))
        (λ fault. reading.data_part left bytes.now (reading.after_data stage) ≡ Err fault) }
    ensures shorter { IfOk result (λ found. length found.2.now < length bytes.now) }
    ensures places { IfOk result (λ found. BeginsBehindKey 10 found.0 bytes.now found.2.now) }
{
    let Some(next) = stage.after_data() else {
        return Err(Fault {
            kind: PbErrorKind::FieldOrder,
            left,
        });
    };
    let (content, rest) = read_data_field(left, bytes)?;
    Ok((NodeField::Data(content), next, rest))
}

// Reads the next field, and returns it with the stage after it and the bytes after it.
#[tactic(auto, unfolding(crate::specs::NodeReading::read_part))]
#[inline(always)]
pub(crate) fn read_part(stage: Stage, bytes: &[u8]) -> Result<(NodeField<'_>, Stage, &[u8]), Fault>
    ensures exact { MatchResult result
        (λ found. reading.read_part stage bytes.now ≡ Ok (part_of found.0, found.1, found.2.now))
        (λ fault. reading.read_part stage bytes.now ≡ Err fault) }
    ensures shorter { IfOk result (λ found. length found.2.now < length bytes.now) }
    ensures places { IfOk result (λ found. BeginsWithField found.0 bytes.now found.2.now) }
{
    let left = bytes.len();
    let (key, rest) = match read_varint(bytes) {
        Ok(found) => found,
        Err(error) => return Err(Fault::of_wire(error, left)),
    };
    match key {
        LINKS => take_link(stage, left, rest),
        DATA => take_data(stage, left, rest),
        _ => Err(Fault {
            kind: PbErrorKind::UnknownField(key),
            left,
        }),
    }
}
