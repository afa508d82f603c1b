//! The command that creates a CAR file.

use crate::arguments::{
    car_options_of, codec_of, names_codec, push_lines, read_text, size_of, writes_index,
};
use crate::car_commands::split::{Form, Part, Split, outputs_of, split_blocks};
use clap::ArgMatches;
use ipld_block::BlockCodec;
use ipld_cid::{Cid, IDENTITY};
use ipld_cli::{
    BlockRange, CollectOptions, CollectedBlocks, NamedCid, NewCar, Outcome, Output, Source,
    Syncing, TemporaryName, complain, framed_len, hasher_of, header_len, output_of,
    parse_cid_argument, reads_twice, report, report_out_of_memory, report_unwritable,
    report_wrong_arguments, write, write_output,
};
use std::alloc::{AllocError, Global};

// The name of the blocks in a message about a failed allocation.
const BLOCKS: &str = "the blocks";

/// Runs `ipld car create`.
pub fn run_create(rt: &HostRuntime, matches: &ArgMatches<'_>) -> Outcome {
    let list = matches.get_str("files-from");
    let lines = match list {
        Some(list) => match read_text(rt, list) {
            Ok(lines) => lines,
            Err(outcome) => return outcome,
        },
        None => String::new(rt.alloc()),
    };
    let Ok(names) = names_of(rt.alloc(), matches, &lines) else {
        return report_out_of_memory(rt, "the names of the files");
    };
    let name = matches.get_str("output").unwrap_or("-");
    match sources_of(rt.alloc(), &names, codec_of(matches)) {
        Ok((sources, files)) => {
            if list == Some("-") && files.contains(&"-") {
                // Standard input is the list already.
                reads_twice(rt, &["-", "-"]);
                return Outcome::Failed;
            }
            create(rt, matches, name, &sources, &files)
        }
        Err(_) => report_out_of_memory(rt, name),
    }
}

// Returns the arguments for files, and after them the lines of a list.
fn names_of(
    alloc: Global,
    matches: &ArgMatches<'_>,
    lines: &str,
) -> Result<Vec<String>, AllocError> {
    let mut names = Vec::new(alloc);
    if let Some(files) = matches.get_strs("files") {
        for file in files {
            names.push(String::from_str(alloc, file)?)?;
        }
    }
    push_lines(alloc, lines, &mut names)?;
    Ok(names)
}

// Returns the inputs, and the names of their files.
fn sources_of<'a>(
    alloc: Global,
    names: &'a [String],
    codec: BlockCodec,
) -> Result<(Vec<Source<'a>>, Vec<&'a str>), AllocError> {
    let mut sources = Vec::new(alloc);
    let mut files = Vec::new(alloc);
    for name in names {
        let source = Source::named(name.as_str(), codec);
        files.push(source.file())?;
        sources.push(source)?;
    }
    Ok((sources, files))
}

// Creates the CAR or CARs of these inputs.
fn create(
    rt: &HostRuntime,
    matches: &ArgMatches<'_>,
    name: &str,
    sources: &[Source<'_>],
    files: &[&str],
) -> Outcome {
    if sources.is_empty() {
        return report_wrong_arguments(rt, &"--files-from <LIST> names no file");
    }
    if reads_twice(rt, files) || has_no_effect(rt, matches, sources) {
        return Outcome::Failed;
    }
    match CreateOptions::new(rt, matches) {
        Ok(options) => create_by_options(rt, name, sources, files, options),
        Err(outcome) => outcome,
    }
}

// Returns whether an option has no effect on these inputs. If one has none, reports wrong arguments.
fn has_no_effect(rt: &HostRuntime, matches: &ArgMatches<'_>, sources: &[Source<'_>]) -> bool {
    let has_car = sources.iter().any(|source| source.codec().is_none());
    let has_pb = sources
        .iter()
        .any(|source| source.codec() == Some(BlockCodec::DagPb));
    let why = if matches.get_flag("unchecked") && !has_car {
        "--unchecked applies only to CARs: give one as car:FILE"
    } else if matches.get_flag("zero-padding") && !has_car {
        "--zero-padding applies only to CARs: give one as car:FILE"
    } else if matches.get_flag("v0") && !has_pb {
        "--v0 applies only to blocks of DAG-PB: give one as dag-pb:FILE"
    } else if names_codec(matches) && !sources.iter().any(|source| source.is_unnamed()) {
        "--codec applies only to files without a prefix such as car: or raw:"
    } else {
        return false;
    };
    report_wrong_arguments(rt, &why);
    true
}

// Creates the CAR or CARs of these inputs by the options.
fn create_by_options(
    rt: &HostRuntime,
    name: &str,
    sources: &[Source<'_>],
    files: &[&str],
    options: CreateOptions,
) -> Outcome {
    match options.most {
        None => create_car(rt, name, sources, files, options),
        Some(_) if name == "-" => {
            let why = "--split requires a file name in --output <CAR>";
            report_wrong_arguments(rt, &why)
        }
        // Their names are known only after their blocks.
        Some(most) => match select_blocks(rt, name, sources, options) {
            Ok(content) => write_cars(rt, name, files, &content, most),
            Err(outcome) => outcome,
        },
    }
}

/// Creates one CAR. If its output can't be written, nothing is created.
pub(super) fn create_car(
    rt: &HostRuntime,
    name: &str,
    sources: &[Source<'_>],
    files: &[&str],
    options: CreateOptions,
) -> Outcome {
    let output = match output_of(rt, name, options.force, files) {
        Ok(output) => output,
        Err(error) => return report_unwritable(rt, name, &error),
    };
    match select_blocks(rt, name, sources, options) {
        Ok(content) => write_car(rt, name, output, &content),
        Err(outcome) => outcome,
    }
}

// Returns the selected blocks of the inputs, and the roots.
fn select_blocks<'a>(
    rt: &'a HostRuntime,
    name: &str,
    sources: &[Source<'a>],
    options: CreateOptions,
) -> Result<CarContent<'a>, Outcome> {
    match collect_blocks(rt, sources, options.collect, !options.only.is_empty()) {
        Ok(collected) => CarContent::new(rt, name, collected, options),
        Err(outcome) => Err(outcome),
    }
}

// Writes one CAR.
fn write_car(rt: &HostRuntime, name: &str, output: Output, content: &CarContent<'_>) -> Outcome {
    let car = content.car_of(rt.alloc(), &content.roots, 0, content.collected.len());
    write_output(rt, name, output, &car)
}

// Writes several CARs of at most `most` bytes, or no CAR if the name of one of them can't be
// written to.
fn write_cars(
    rt: &HostRuntime,
    name: &str,
    files: &[&str],
    content: &CarContent<'_>,
    most: u64,
) -> Outcome {
    let parts = match parts_of(rt, name, content, most) {
        Ok(parts) => parts,
        Err(outcome) => return outcome,
    };
    match outputs_of(rt, name, content.force, files, parts.len()) {
        Ok((outputs, temporary)) => write_each(rt, content, &parts, outputs, &temporary),
        Err(outcome) => outcome,
    }
}

// Returns the CARs of at most `most` bytes of these blocks.
fn parts_of(
    rt: &HostRuntime,
    name: &str,
    content: &CarContent<'_>,
    most: u64,
) -> Result<Vec<Part>, Outcome> {
    let hasher = match hasher_of(rt) {
        Ok(hasher) => hasher,
        Err(outcome) => return Err(outcome),
    };
    let form = Form {
        has_index: content.has_index,
        most,
        most_header: framed_len(content.limit),
    };
    match split_blocks(rt.alloc(), hasher, &content.roots, &content.collected, form) {
        Ok(Split::Parts(parts)) => Ok(parts),
        Ok(Split::TooSmall(least)) => {
            let why = format_args!(
                "--split {most} is too small for the header of a CAR: give --split {least} or more"
            );
            Err(report_wrong_arguments(rt, &why))
        }
        Err(error) => Err(report_unwritable(rt, name, &error)),
    }
}

// Writes these CARs of the blocks, each to its output.
fn write_each<'a>(
    rt: &HostRuntime,
    content: &'a CarContent<'_>,
    parts: &'a [Part],
    outputs: Vec<(String, Output)>,
    temporary: &TemporaryName,
) -> Outcome {
    let mut begin = 0;
    for ((name, output), part) in outputs.into_iter().zip(parts.iter()) {
        let car = content.car_of(rt.alloc(), &part.roots, begin, part.end);
        if let Err(error) = write(rt, &name, output, temporary, Syncing::Each, &car) {
            return report_unwritable(rt, &name, &error);
        }
        begin = part.end;
    }
    Outcome::Done
}

// Collects the blocks of the inputs, in their order.
fn collect_blocks<'a>(
    rt: &'a HostRuntime,
    sources: &[Source<'a>],
    options: CollectOptions,
    keeps_links: bool,
) -> Result<CollectedBlocks<'a>, Outcome> {
    let hasher = match hasher_of(rt) {
        Ok(hasher) => hasher,
        Err(outcome) => return Err(outcome),
    };
    let mut collected = CollectedBlocks::new(rt, hasher, options, keeps_links);
    for source in sources {
        collected.add(*source)?;
    }
    Ok(collected)
}

// Adds the CID that a text is. Reports the error if it is not a CID.
pub(super) fn add_cid(rt: &HostRuntime, text: &str, cids: &mut Vec<Cid>) -> Result<(), Outcome> {
    let Some(cid) = parse_cid_argument(rt, text) else {
        return Err(Outcome::Failed);
    };
    match cids.push(cid) {
        Ok(()) => Ok(()),
        Err(_) => Err(report_out_of_memory(rt, text)),
    }
}

/// Returns the roots that the arguments name.
pub(super) fn roots_in(rt: &HostRuntime, matches: &ArgMatches<'_>) -> Result<Vec<Cid>, Outcome> {
    let mut cids = Vec::new(rt.alloc());
    if let Some(texts) = matches.get_strs("root") {
        for text in texts {
            add_cid(rt, text, &mut cids)?;
        }
    }
    Ok(cids)
}

/// The options for a new CAR.
#[derive(Drop)]
pub(super) struct CreateOptions {
    /// The roots, if they are given.
    pub roots: Vec<Cid>,
    /// The blocks that lead to all blocks that are taken. If it is empty, all blocks are taken.
    pub only: Vec<Cid>,
    /// The options for the blocks that are read.
    pub collect: CollectOptions,
    /// The largest size of a CAR in bytes, if there may be several.
    pub most: Option<u64>,
    /// Whether the CAR is of version 2, with an index.
    pub has_index: bool,
    /// Whether existing files are replaced.
    pub force: bool,
}

impl CreateOptions {
    fn new(rt: &HostRuntime, matches: &ArgMatches<'_>) -> Result<CreateOptions, Outcome> {
        Ok(CreateOptions {
            roots: roots_in(rt, matches)?,
            only: Vec::new(rt.alloc()),
            collect: CollectOptions {
                car: car_options_of(rt, matches)?,
                is_unchecked: matches.get_flag("unchecked"),
                is_v0: matches.get_flag("v0"),
            },
            most: size_of(rt, matches, "split")?,
            has_index: writes_index(matches),
            force: matches.get_flag("force"),
        })
    }
}

// The blocks that were collected, the roots, and the form of the CAR.
#[derive(Drop)]
struct CarContent<'a> {
    roots: Vec<Cid>,
    collected: CollectedBlocks<'a>,
    // The size of the longest section that is read.
    limit: u64,
    has_index: bool,
    force: bool,
}

impl<'a> CarContent<'a> {
    // Selects blocks for the CAR of this name. Reports the roots whose block is missing.
    fn new(
        rt: &HostRuntime,
        name: &str,
        collected: CollectedBlocks<'a>,
        options: CreateOptions,
    ) -> Result<CarContent<'a>, Outcome> {
        let mut collected = collected;
        keep_only(rt, &mut collected, &options.only)?;
        let (limit, has_index) = (options.collect.car.limit, options.has_index);
        let force = options.force;
        let is_one = options.most.is_none();
        let Ok(roots) = roots_of(&collected, options) else {
            return Err(report_out_of_memory(rt, BLOCKS));
        };
        // Each of several CARs has only the roots whose blocks it has.
        if is_one {
            check_header(rt, name, &roots, limit)?;
        }
        let content = CarContent {
            roots,
            collected,
            limit,
            has_index,
            force,
        };
        content.report_lacking(rt);
        Ok(content)
    }

    // Reports the roots whose block is missing.
    fn report_lacking(&self, rt: &HostRuntime) {
        for root in self.roots.iter() {
            // A CID of the identity function carries its block.
            let carries = root.hash().code() == IDENTITY;
            if !carries && !self.collected.has(root) {
                let root = NamedCid::new(rt.alloc(), root);
                complain(
                    rt,
                    &format_args!("{root}: warning: the block of this root is not in the CAR"),
                );
            }
        }
    }

    // Returns the CAR of these roots, and of the blocks from one number to another.
    fn car_of<'b>(
        &'b self,
        alloc: Global,
        roots: &'b [Cid],
        begin: usize,
        end: usize,
    ) -> NewCar<'b, BlockRange<'a, 'b>> {
        let (mut size, mut is_fully_indexed) = (0u64, true);
        for number in begin..end {
            if let Some(block) = self.collected.block(number) {
                size = size.saturating_add(block.section_len());
                is_fully_indexed &= block.cid.hash().size() > 0;
            }
        }
        NewCar {
            alloc,
            roots,
            blocks: BlockRange {
                collected: &self.collected,
                begin,
                end,
            },
            size,
            has_index: self.has_index,
            is_fully_indexed,
        }
    }
}

// Returns the roots: those that are given, or the blocks that lead to all others, or those of the
// inputs.
fn roots_of(
    collected: &CollectedBlocks<'_>,
    options: CreateOptions,
) -> Result<Vec<Cid>, AllocError> {
    if !options.roots.is_empty() {
        return Ok(options.roots);
    }
    if !options.only.is_empty() {
        return Ok(options.only);
    }
    collected.roots()
}

// Checks that the header of these roots is not longer than the limit. Reports an error if it is.
fn check_header(rt: &HostRuntime, name: &str, roots: &[Cid], limit: u64) -> Result<(), Outcome> {
    match header_len(rt.alloc(), roots) {
        Ok(len) if len <= framed_len(limit) => Ok(()),
        Ok(_) => Err(report_long_header(rt, name, roots.len())),
        Err(_) => Err(report_out_of_memory(rt, BLOCKS)),
    }
}

fn report_long_header(rt: &HostRuntime, name: &str, count: usize) -> Outcome {
    let name = if name == "-" { "standard output" } else { name };
    let why = format_args!(
        "the header would be over the limit (roots: {count}); name fewer with --root, or raise --limit"
    );
    report(rt, name, &why, Outcome::Failed)
}

// Leaves out the blocks that can't be reached from these, if any are given. Each of these must be
// present.
fn keep_only(
    rt: &HostRuntime,
    collected: &mut CollectedBlocks<'_>,
    only: &[Cid],
) -> Result<(), Outcome> {
    if only.is_empty() {
        return Ok(());
    }
    for cid in only {
        if !collected.has(cid) {
            let cid = NamedCid::new(rt.alloc(), cid);
            complain(
                rt,
                &format_args!("{cid}: no file has a block with this CID"),
            );
            return Err(Outcome::NotSo);
        }
    }
    match collected.reduce(only) {
        Ok(()) => Ok(()),
        Err(_) => Err(report_out_of_memory(rt, BLOCKS)),
    }
}
