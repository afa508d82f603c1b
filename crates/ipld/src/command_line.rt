//! The arguments of `ipld`, and its help.

mod commands;

use crate::command_line::commands::{
    ABOUT, BLOCK_COMMANDS, CAR, CAR_CHECKS, CAR_COPIES, CAR_LISTINGS, CREATE, ENCODE,
    FILE_COMMANDS, WORDS,
};
use clap::{Arg, ArgAction, Command};
use std::alloc::{AllocError, Global};

// A command, without its subcommands.
#[derive(Clone, Copy)]
struct Description {
    name: &'static str,
    // A line about the command, and the help after its arguments.
    about: &'static str,
    more: Option<&'static str>,
    arguments: &'static [Argument],
}

// An argument of a command.
#[derive(Clone, Copy)]
struct Argument {
    name: &'static str,
    short: Option<char>,
    kind: Kind,
    help: &'static str,
    // The arguments that are required with it, and those that are not allowed with it.
    needs: &'static [&'static str],
    excludes: &'static [&'static str],
}

// The kind of an argument. The name of a value is the one in the help.
#[derive(Clone, Copy)]
enum Kind {
    // An option without a value.
    Flag,
    // An option with a value of this name.
    Value(&'static str),
    // An option that is required.
    Required(&'static str),
    // An option whose value may begin with a hyphen.
    Hyphened(&'static str),
    // An option that may be given several times.
    Repeated(&'static str),
    // An option whose value is one of these.
    OneOf(&'static str, &'static [&'static str]),
    // An option that names one of these codecs. DAG-CBOR is the default.
    Codec(&'static [&'static str]),
    // A word that is required.
    Word(&'static str),
    // A word that may be left out.
    OptionalWord(&'static str),
    // One or more words.
    Words(&'static [&'static str]),
    // One or more words, which may be left out if the argument of this name is given.
    WordsUnless(&'static [&'static str], &'static str),
}

// Creates an option by its name.
fn option_without_value<'a>(alloc: Global, argument: &Argument) -> Arg<'a> {
    let option = Arg::new(alloc, argument.name).long(argument.name);
    match argument.short {
        Some(short) => option.short(short),
        None => option,
    }
}

// Creates an option with a value of this name.
fn option_with_value<'a>(alloc: Global, argument: &Argument, value: &'a str) -> Arg<'a> {
    option_without_value(alloc, argument).value_name(value)
}

// Creates an argument, without its help.
fn argument_of_kind<'a>(alloc: Global, argument: &Argument) -> Result<Arg<'a>, AllocError> {
    Ok(match argument.kind {
        Kind::Flag => option_without_value(alloc, argument).action(ArgAction::SetTrue),
        Kind::Value(value) => option_with_value(alloc, argument, value),
        Kind::Required(value) => option_with_value(alloc, argument, value).required(true),
        Kind::Hyphened(value) => option_with_value(alloc, argument, value).allow_hyphen_values(
            true,
        ),
        Kind::Repeated(value) => option_with_value(alloc, argument, value).action(
            ArgAction::Append,
        ),
        Kind::OneOf(value, values) => option_with_value(alloc, argument, value).value_parser(
            values,
        ),
        Kind::Codec(codecs) => option_with_value(alloc, argument, "CODEC")
            .value_parser(codecs)
            .default_value("dag-cbor"),
        Kind::Word(value) => Arg::new(alloc, argument.name)
            .value_name(value)
            .required(true),
        Kind::OptionalWord(value) => Arg::new(alloc, argument.name).value_name(value),
        Kind::Words(values) => Arg::new(alloc, argument.name)
            .value_names(values)
            .required(true)
            .num_args(1..),
        Kind::WordsUnless(values, other) => Arg::new(alloc, argument.name)
            .value_names(values)
            .num_args(1..)
            .required_unless_present(other)?,
    })
}

fn argument_of<'a>(alloc: Global, argument: &Argument) -> Result<Arg<'a>, AllocError> {
    argument_of_kind(alloc, argument)?
        .help(argument.help)
        .requires_all(argument.needs)?
        .conflicts_with_all(argument.excludes)
}

fn with_arguments<'a>(
    alloc: Global,
    command: Command<'a>,
    arguments: &[Argument],
) -> Result<Command<'a>, AllocError> {
    let mut command = command;
    for argument in arguments {
        command = command.arg(argument_of(alloc, argument)?)?;
    }
    Ok(command)
}

// Creates a command of this name, without its arguments.
fn bare_command<'a>(alloc: Global, description: &Description) -> Command<'a> {
    let command = Command::new(alloc, description.name).about(description.about);
    match description.more {
        Some(more) => command.after_help(more),
        None => command,
    }
}

fn command_of<'a>(alloc: Global, description: &Description) -> Result<Command<'a>, AllocError> {
    with_arguments(
        alloc,
        bare_command(alloc, description),
        description.arguments,
    )
}

fn with_commands<'a>(
    alloc: Global,
    command: Command<'a>,
    descriptions: &[Description],
) -> Result<Command<'a>, AllocError> {
    let mut command = command;
    for description in descriptions {
        command = command.subcommand(command_of(alloc, description)?)?;
    }
    Ok(command)
}

// Creates the program, without its commands.
fn program_command<'a>(alloc: Global) -> Result<Command<'a>, AllocError> {
    Command::new(alloc, "ipld")
        .about(ABOUT)
        .version("0.2.0")
        .after_help(WORDS)
        .subcommand_required(true)
        .arg_required_else_help(true)
        .bin_name("ipld")
}

// Creates the command on CARs, without its subcommands.
fn bare_car_command<'a>(alloc: Global) -> Result<Command<'a>, AllocError> {
    let command = command_of(alloc, &CAR)?;
    Ok(
        command
            .subcommand_required(true)
            .arg_required_else_help(true),
    )
}

// Creates the command on CARs, with the subcommands that list a CAR.
fn listing_car_command<'a>(alloc: Global) -> Result<Command<'a>, AllocError> {
    with_commands(alloc, bare_car_command(alloc)?, CAR_LISTINGS)
}

// Creates the command on CARs, with the subcommands that list or check a CAR.
fn reading_car_command<'a>(alloc: Global) -> Result<Command<'a>, AllocError> {
    with_commands(alloc, listing_car_command(alloc)?, CAR_CHECKS)
}

// Creates the command on CARs, with its subcommands.
fn car_command<'a>(alloc: Global) -> Result<Command<'a>, AllocError> {
    let command = with_commands(alloc, reading_car_command(alloc)?, CAR_COPIES)?;
    command.subcommand(command_of(alloc, &CREATE)?)
}

// Creates the program, with the commands on blocks.
fn block_commands<'a>(alloc: Global) -> Result<Command<'a>, AllocError> {
    with_commands(alloc, program_command(alloc)?, BLOCK_COMMANDS)
}

// Creates the program, with the commands on blocks, files and folders.
fn file_commands<'a>(alloc: Global) -> Result<Command<'a>, AllocError> {
    with_commands(alloc, block_commands(alloc)?, FILE_COMMANDS)
}

// Creates the program, with the commands on blocks, files, folders and CARs.
fn car_commands<'a>(alloc: Global) -> Result<Command<'a>, AllocError> {
    file_commands(alloc)?.subcommand(car_command(alloc)?)
}

/// Creates the command line of `ipld`.
pub fn command<'a>(alloc: Global) -> Result<Command<'a>, AllocError> {
    car_commands(alloc)?.subcommand(command_of(alloc, &ENCODE)?)
}
