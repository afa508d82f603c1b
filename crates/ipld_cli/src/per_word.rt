//! Commands that do the same with each of several files.

use crate::complaints::{report_out_of_memory, report_show_error, report_wrong_arguments};
use crate::messages::Outcome;
use crate::output::writes_to_input;
use crate::writer::{UntilClosed, end_writer};
use ipld_show::ShowError;
use std::io::{self, BufWriter, Write};

/// The action of a command on a word of its arguments, such as the name of a file.
pub trait PerWord {
    /// Runs the action on this word, writes its result, and returns how it ended. Returns an error
    /// if the output fails.
    fn run<W: Write>(
        &self,
        rt: &HostRuntime,
        word: &str,
        writer: &mut W,
    ) -> Result<Outcome, ShowError>;
}

/// Returns whether standard input, `-`, is named more than once. If it is, reports wrong arguments,
/// because standard input can be read only once.
pub fn reads_twice(rt: &HostRuntime, names: &[&str]) -> bool {
    let is_twice = names.iter().filter(|name| **name == "-").count() > 1;
    if is_twice {
        let why = "'-' is given more than once, but standard input can be read only once";
        report_wrong_arguments(rt, &why);
    }
    is_twice
}

// Runs the action on these words, and makes `worst` worse if one of them ends worse.
fn run_each<E: PerWord, W: Write>(
    rt: &HostRuntime,
    words: &[&str],
    each: &E,
    worst: &mut Outcome,
    writer: &mut W,
) -> Result<(), ShowError> {
    for word in words {
        *worst = worst.worse(each.run(rt, word, writer)?);
    }
    Ok(())
}

// Runs the action on these words, and writes through a buffer.
fn run_into<E: PerWord, W: Write + Drop>(
    rt: &HostRuntime,
    words: &[&str],
    each: &E,
    writer: W,
) -> Outcome {
    if reads_twice(rt, words) || writes_to_input(rt, words) {
        return Outcome::Failed;
    }
    let Ok(mut writer) = BufWriter::new(rt.alloc(), writer) else {
        return report_out_of_memory(rt, "standard output");
    };
    let mut worst = Outcome::Done;
    let ended = run_each(rt, words, each, &mut worst, &mut writer);
    let flushed = end_writer(writer, ended.is_err()).map_err(ShowError::from);
    match ended.and(flushed) {
        Ok(()) => worst,
        Err(error) => worst.worse(report_show_error(rt, "standard output", &error)),
    }
}

/// Runs the action on these words, until standard output fails. Standard input may be one of them,
/// once.
pub fn run_over<E: PerWord>(rt: &HostRuntime, words: &[&str], each: &E) -> Outcome {
    run_into(rt, words, each, io::writer(rt))
}

/// Does the same as [`run_over`], but continues if nobody reads standard output any more. It is for
/// commands that check files.
pub fn run_to_end<E: PerWord>(rt: &HostRuntime, words: &[&str], each: &E) -> Outcome {
    let mut writer = io::writer(rt);
    run_into(rt, words, each, UntilClosed::new(&mut writer))
}
