//! The end of a run that read all of its input.

ghost use Rattle.std.specs.Prelude.{◌≡◌, ◌++◌, ◌∷◌, [], IfOk};
ghost use Rattle.std.specs.Io.KnownBytes.{Appends};
ghost use Rattle.ipld_links_run.specs.Said.{name_of, verdict_of};
ghost use Rattle.ipld_links_run.specs.Verdict.{last_line, status_of};

use crate::status::{RunFault, Status};
use dag_cbor::CborError;
use ipld_cid::CidError;
use std::io::Write;

/// The reason why the input has no links.
#[derive(Clone, Copy)]
pub(crate) enum Rejection {
    /// A token is not allowed in its place.
    Token,
    /// The bytes after a link mark are not a CID.
    Cid,
    /// The tokens end too early.
    End,
    /// A map has a key twice.
    DuplicateKey,
    /// The bytes of a line are not a CID.
    NoCid(CidError),
    /// The bytes of a line are not a block.
    NoBlock(CborError),
}

impl Rejection {
    // Returns the name of the error.
    fn name(&self) -> &'static str
        ensures { result.now ≡ name_of self.now }
    {
        match self {
            Rejection::Token => "Token",
            Rejection::Cid => "Cid",
            Rejection::End => "End",
            Rejection::DuplicateKey => "DuplicateKey",
            Rejection::NoCid(error) => error.name(),
            Rejection::NoBlock(error) => error.name(),
        }
    }
}

/// The end of a run.
#[derive(Clone, Copy)]
pub(crate) enum Verdict {
    /// The number of texts that were written.
    Done(u64),
    /// The input is rejected.
    Refused(Rejection),
    /// The line of this number, counted from 1, is not understood.
    BadLine(u64),
}

/// Writes the last line of a run, and returns the status of the run.
pub(crate) fn write_verdict<W: Write>(writer: &mut W, verdict: Verdict) -> Result<Status, RunFault>
    ensures { IfOk result (λ status. (status ≡ status_of (verdict_of verdict))
        × Appends (W.contents writer.old) (W.contents writer.new)
        (last_line (verdict_of verdict) ++ 10 ∷ [])) }
{
    let (status, written) = match verdict {
        Verdict::Done(texts) => (Status::Done, writeln!(writer, "ok {texts}")),
        Verdict::Refused(rejection) => {
            let name = rejection.name();
            (Status::Refused, writeln!(writer, "refused {name}"))
        }
        Verdict::BadLine(number) => (Status::NotUnderstood, writeln!(writer, "bad line {number}")),
    };
    match written {
        Ok(()) => Ok(status),
        Err(_) => Err(RunFault::Write),
    }
}
