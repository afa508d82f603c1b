//! `ipld_links [cid|links|refs|cbor]` reads standard input to its end and writes standard output.
//!
//! Without a word it runs `cid`. The program prints nothing to standard error. Its exit status is:
//!
//! - 0 if the input is valid for the word,
//! - 1 if the input is rejected, or the run fails,
//! - 2 if a line or the word is not understood.
#![tactic(auto)]

ghost use Rattle.std.specs.Prelude.{◌≡◌, IfSome, IfOk};
ghost use Rattle.std.specs.Process.{exit_status};
ghost use Rattle.ipld_links_run.specs.Arguments.{word_in};
ghost use Rattle.ipld_links_run.specs.Output.{Output, Writes};
ghost use Rattle.ipld_links.specs.Status.{code_of};

use ipld_links_run::word_of;
pub use ipld_links_run::{RunFault, Status, run};
use std::alloc::Global;
use std::env::{self, Args};
use std::io::{self, BufRead, BufReader, BufWriter, Write};
use std::process::ExitCode;

fn main(rt: HostRuntime) -> ExitCode {
    match run_host(&rt) {
        Ok(status) => exit_code(status),
        Err(RunFault::Write) => ExitCode::FAILURE,
        Err(error) => {
            // If this can't be written, the exit status reports the error.
            let _ = println!(&rt; "refused {}", error.name());
            ExitCode::FAILURE
        }
    }
}

fn exit_code(status: Status) -> ExitCode
    ensures { exit_status result ≡ code_of status }
{
    ExitCode::from(match status {
        Status::Done => 0,
        Status::Refused => 1,
        Status::NotUnderstood => 2,
    })
}

/// Runs the word that the arguments name, from standard input to standard output. Both are
/// buffered.
fn run_host(rt: &HostRuntime) -> Result<Status, RunFault> {
    let alloc = rt.alloc();
    let arguments = env::args(rt);
    let Ok(mut reader) = BufReader::new(alloc, rt.reader()) else {
        return Err(RunFault::Memory);
    };
    let Ok(mut writer) = BufWriter::new(alloc, io::writer(rt)) else {
        return Err(RunFault::Memory);
    };
    let end = run_arguments(alloc, arguments, &mut reader, &mut writer);
    if end == Err(RunFault::Write) || writer.flush().is_err() {
        // Bytes that could not be written are not tried again.
        let _ = writer.into_parts();
        return Err(RunFault::Write);
    }
    end
}

// [begin: run_arguments]
/// Runs the word that these arguments name.
fn run_arguments<R: BufRead, W: Write>(
    alloc: Global,
    arguments: io::Result<Args>,
    reader: &mut R,
    writer: &mut W,
) -> Result<Status, RunFault>
    ensures { IfOk result (λ status. IfSome (R.remaining reader.old)
        (λ input. Writes (W.contents writer.old) (W.contents writer.new)
        (Output (word_in arguments) input status))) }
{
    let word = word_of(alloc, arguments)?;
    run(alloc, word.as_str(), reader, writer)
}
// [end: run_arguments]
