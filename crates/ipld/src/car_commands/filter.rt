//! The command that copies some blocks of a CAR to a new one.

use crate::arguments::{car_options_of, cid_texts, writes_index};
use crate::car_commands::create::{CreateOptions, add_cid, create_car};
use clap::ArgMatches;
use ipld_cli::{CollectOptions, Outcome, Source, report_wrong_arguments};

/// Runs `ipld car filter`.
pub fn run_filter(rt: &HostRuntime, matches: &ArgMatches<'_>) -> Outcome {
    let file = matches.get_str("file").unwrap_or("-");
    let texts = match cid_texts(rt, matches, file) {
        Ok(texts) => texts,
        Err(outcome) => return outcome,
    };
    match filter_options(rt, matches, &texts) {
        Ok(options) => {
            let name = matches.get_str("output").unwrap_or("-");
            create_car(rt, name, &[Source::Car(file)], &[file], options)
        }
        Err(outcome) => outcome,
    }
}

// Returns the options for the blocks of these CIDs and those that they lead to.
fn filter_options(
    rt: &HostRuntime,
    matches: &ArgMatches<'_>,
    texts: &[String],
) -> Result<CreateOptions, Outcome> {
    if texts.is_empty() {
        return Err(report_wrong_arguments(rt, &"standard input has no CID"));
    }
    let mut cids = Vec::new(rt.alloc());
    for text in texts {
        add_cid(rt, text.as_str(), &mut cids)?;
    }
    Ok(CreateOptions {
        roots: Vec::new(rt.alloc()),
        only: cids,
        collect: CollectOptions {
            car: car_options_of(rt, matches)?,
            is_unchecked: matches.get_flag("unchecked"),
            is_v0: false,
        },
        most: None,
        has_index: writes_index(matches),
        force: matches.get_flag("force"),
    })
}
