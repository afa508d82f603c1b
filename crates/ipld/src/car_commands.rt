//! The commands of the program `ipld` on CAR files, `ipld car COMMAND`.
//!
//! [`run_car`] takes the arguments that `clap` parsed, reads the files, writes standard output,
//! files and standard error, and returns how it ended.

mod create;
mod extract;
mod filter;
mod index;
mod list;
mod missing;
mod report;
mod salvage;
mod split;
mod verify;

use crate::car_commands::create::run_create;
use crate::car_commands::extract::run_extract;
use crate::car_commands::filter::run_filter;
use crate::car_commands::index::run_index;
use crate::car_commands::list::{run_graph, run_inspect, run_links, run_list, run_roots};
use crate::car_commands::missing::run_missing;
use crate::car_commands::salvage::run_salvage;
use crate::car_commands::verify::run_verify;
use clap::ArgMatches;
use ipld_cli::Outcome;

/// Runs `ipld car`.
pub fn run_car(rt: &HostRuntime, matches: &ArgMatches<'_>) -> Outcome {
    match matches.subcommand() {
        Some((name, matches)) => run_command(rt, name, matches),
        None => Outcome::Failed,
    }
}

// Runs the command of this name.
fn run_command(rt: &HostRuntime, name: &str, matches: &ArgMatches<'_>) -> Outcome {
    match name {
        "list" => run_list(rt, matches),
        "inspect" => run_inspect(rt, matches),
        "roots" => run_roots(rt, matches),
        "links" => run_links(rt, matches),
        "graph" => run_graph(rt, matches),
        "missing" => run_missing(rt, matches),
        "verify" => run_verify(rt, matches),
        "extract" => run_extract(rt, matches),
        "filter" => run_filter(rt, matches),
        "index" => run_index(rt, matches),
        "salvage" => run_salvage(rt, matches),
        "create" => run_create(rt, matches),
        _ => Outcome::Failed,
    }
}
