//! `ipld` reads IPLD blocks, CIDs and CAR files. `ipld --help` prints its usage.
#![tactic(auto)]

mod arguments;
mod block_commands;
mod car_commands;
mod command_line;
mod file_commands;
mod paths;

ghost use Rattle.std.specs.Prelude.{◌≡◌};
ghost use Rattle.std.specs.Process.{exit_status};
ghost use Rattle.ipld_cli.specs.Status.{status_of};

use crate::block_commands::{run_check, run_cid, run_encode, run_links, run_show};
use crate::car_commands::run_car;
use crate::file_commands::{run_cat, run_ls, run_pack, run_unpack};
use clap::ArgMatches;
use ipld_cli::{Outcome, complain};
use std::io::ErrorKind;
use std::process::ExitCode;
use std::{env, io};

fn main(rt: HostRuntime) -> ExitCode {
    exit_code(run(&rt))
}

fn exit_code(outcome: Outcome) -> ExitCode
    ensures { exit_status result ≡ status_of outcome }
{
    ExitCode::from(outcome.status())
}

// Runs the command in the arguments.
fn run(rt: &HostRuntime) -> Outcome {
    match argument_words(rt) {
        Ok(words) => run_words(rt, words.as_slice()),
        // If a message can't be written, the exit status still shows the failure.
        Err(error) if error.kind() == ErrorKind::OutOfMemory => report_no_memory(rt),
        Err(_) => {
            complain(
                rt,
                &"an argument is not valid UTF-8 (rename the file, or pass it as standard input: -)",
            );
            Outcome::Failed
        }
    }
}

fn report_no_memory(rt: &HostRuntime) -> Outcome {
    complain(rt, &"out of memory");
    Outcome::Failed
}

// Returns the arguments, the program's name first.
fn argument_words(rt: &HostRuntime) -> io::Result<Vec<String>> {
    let words = env::args(rt)?.collect(rt.alloc())?;
    Ok(words)
}

fn run_words(rt: &HostRuntime, words: &[String]) -> Outcome {
    let Ok(command) = command_line::command(rt.alloc()) else {
        return report_no_memory(rt);
    };
    match command.try_get_matches_from(words) {
        Ok(matches) => match matches.subcommand() {
            Some((name, matches)) => run_command(rt, name, matches),
            None => Outcome::Failed,
        },
        Err(error) => {
            let is_help = error.exit_code() == 0;
            outcome_of_printing(error.print(rt), is_help)
        }
    }
}

// Runs the command of this name.
fn run_command<'a>(rt: &'a HostRuntime, name: &str, matches: &ArgMatches<'a>) -> Outcome {
    match name {
        "show" => run_show(rt, matches),
        "links" => run_links(rt, matches),
        "check" => run_check(rt, matches),
        "cid" => run_cid(rt, matches),
        "cat" => run_cat(rt, matches),
        "ls" => run_ls(rt, matches),
        "pack" => run_pack(rt, matches),
        "unpack" => run_unpack(rt, matches),
        "car" => run_car(rt, matches),
        "encode" => run_encode(rt, matches),
        _ => Outcome::Failed,
    }
}

// Returns the outcome after printing help or a usage error.
fn outcome_of_printing(printed: io::Result<()>, is_help: bool) -> Outcome {
    match printed {
        Ok(()) if is_help => Outcome::Done,
        // Nobody reads the help.
        Err(error) if is_help && error.kind() == ErrorKind::BrokenPipe => Outcome::NotRead,
        _ => Outcome::Failed,
    }
}
