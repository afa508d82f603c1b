//! The command that prints CIDs.

use crate::arguments::{codec_of, names_codec};
use crate::block_commands::links::report_not_valid;
use crate::file_commands::{pack_options_of, patterns_of, unixfs_root};
use clap::ArgMatches;
use ipld_block::{BlockCodec, check, cid_of};
use ipld_cid::{Cid, DAG_PB, Version};
use ipld_cid_text::{Base, to_string_of_base, usual_text};
use ipld_cli::{
    NoCid, Outcome, PerWord, json_lines, parse_cid, parse_cid_argument, raw_cid_of_file, read_file,
    report, report_out_of_memory, report_unreadable, run_over,
};
use ipld_show::{ShowError, write_cid_parts};
use std::alloc::Global;
use std::io::{self, ErrorKind, Write};
use std::str;
use unixfs_pack::PackOptions;

/// The names of the bases of a CID's text.
pub const BASES: &[&str] = &[
    "base16",
    "base32",
    "base32upper",
    "base36",
    "base58btc",
    "base64url",
];

// The options for CIDs.
#[derive(Clone, Copy)]
struct CidOptions {
    codec: BlockCodec,
    // Whether the codec was named.
    names_codec: bool,
    // The base and the version of the text that is printed, if they are given.
    base: Option<Base>,
    version: Option<Version>,
    json: bool,
}

// Returns the base of a name.
fn base_of(name: &str) -> Option<Base> {
    match name {
        "base16" => Some(Base::Base16Lower),
        "base32" => Some(Base::Base32Lower),
        "base32upper" => Some(Base::Base32Upper),
        "base36" => Some(Base::Base36Lower),
        "base58btc" => Some(Base::Base58Btc),
        "base64url" => Some(Base::Base64Url),
        _ => None,
    }
}

// Returns the version that is asked for.
fn version_of(matches: &ArgMatches<'_>) -> Option<Version> {
    if matches.get_flag("v0") {
        Some(Version::V0)
    } else if matches.get_flag("v1") {
        Some(Version::V1)
    } else {
        None
    }
}

impl CidOptions {
    fn new(matches: &ArgMatches<'_>) -> CidOptions {
        CidOptions {
            codec: codec_of(matches),
            names_codec: names_codec(matches),
            base: matches.get_str("base").and_then(base_of),
            version: version_of(matches),
            json: matches.get_flag("json"),
        }
    }

    // Returns a CID in the version that is asked for, or `None` if it has no such version.
    fn in_version(&self, cid: &Cid) -> Option<Cid> {
        match self.version {
            None => Some(*cid),
            Some(Version::V1) => Some(Cid::new_v1(cid.codec(), *cid.hash())),
            Some(Version::V0) if cid.codec() == DAG_PB => Cid::new_v0(*cid.hash()).ok(),
            Some(Version::V0) => None,
        }
    }
}

// Writes a CID, of a file's block or of a text, in the form that is asked for.
fn write_cid<W: Write>(
    alloc: Global,
    options: &CidOptions,
    file: Option<&str>,
    cid: &Cid,
    writer: &mut W,
) -> Result<(), ShowError> {
    let is_text = file.is_some() || options.base.is_some() || options.version.is_some();
    if !is_text && !options.json {
        return write_cid_parts(alloc, cid, writer);
    }
    let text = match options.base {
        Some(base) => match to_string_of_base(alloc, cid, base) {
            Ok(text) => text,
            Err(_) => return Err(ShowError::Memory),
        },
        None => usual_text(alloc, cid)?,
    };
    if options.json {
        json_lines::write_cid_object(alloc, file, cid, &text, writer)?;
        return Ok(());
    }
    writeln!(writer, "{text}")?;
    Ok(())
}

// Prints a CID, of a file's block or of a text.
fn print_one<W: Write>(
    rt: &HostRuntime,
    options: &CidOptions,
    what: &str,
    file: Option<&str>,
    cid: &Cid,
    writer: &mut W,
) -> Result<Outcome, ShowError> {
    let Some(cid) = options.in_version(cid) else {
        let why = "no version 0 of this CID: that requires DAG-PB and SHA2-256 (use --v1)";
        return Ok(report(rt, what, &why, Outcome::NotSo));
    };
    let only_base58 = options.base.is_none_or(|base| base == Base::Base58Btc);
    if cid.version() == Version::V0 && !only_base58 {
        let why = "a CID of version 0 is always in base58btc (--v1 converts it to version 1)";
        return Ok(report(rt, what, &why, Outcome::NotSo));
    }
    write_cid(rt.alloc(), options, file, &cid, writer)?;
    Ok(Outcome::Done)
}

// Prints the CID of a text.
fn print_text<W: Write>(
    rt: &HostRuntime,
    options: &CidOptions,
    text: &str,
    writer: &mut W,
) -> Result<Outcome, ShowError> {
    match parse_cid_argument(rt, text) {
        Some(cid) => print_one(rt, options, text, None, &cid, writer),
        None => Ok(Outcome::NotSo),
    }
}

// Prints the CID of each line.
fn print_lines<W: Write>(
    rt: &HostRuntime,
    options: &CidOptions,
    input: &[u8],
    writer: &mut W,
) -> Result<Outcome, ShowError> {
    let Ok(lines) = str::from_utf8(input) else {
        return Ok(report(rt, "-", &"the input is not valid UTF-8", Outcome::NotSo));
    };
    let mut worst = Outcome::Done;
    for line in lines.lines() {
        match print_text(rt, options, line, writer) {
            Ok(outcome) => worst = worst.worse(outcome),
            // Nobody reads the rest, but an invalid CID was found all the same.
            Err(ShowError::Write(ErrorKind::BrokenPipe)) => return Ok(worst),
            Err(error) => return Err(error),
        }
    }
    Ok(worst)
}

// Prints the CID of the block that a file's bytes are.
fn print_block<W: Write>(
    rt: &HostRuntime,
    options: &CidOptions,
    file: &str,
    bytes: &[u8],
    writer: &mut W,
) -> Result<Outcome, ShowError> {
    if let Err(error) = check(rt.alloc(), options.codec, bytes) {
        return report_not_valid(rt, file, options.codec, false, bytes, error, writer);
    }
    let cid = cid_of(options.codec.code(), bytes);
    print_one(rt, options, file, Some(file), &cid, writer)
}

// Prints the CID of a file's block. Returns the error, and prints nothing, if the file can't be
// read.
fn print_file<W: Write>(
    rt: &HostRuntime,
    options: &CidOptions,
    file: &str,
    writer: &mut W,
) -> io::Result<Result<Outcome, ShowError>> {
    // All bytes are a raw block, so they are not kept to be checked.
    if options.codec == BlockCodec::Raw {
        let cid = raw_cid_of_file(rt, file)?;
        return Ok(print_one(rt, options, file, Some(file), &cid, writer));
    }
    let bytes = read_file(rt, file)?;
    Ok(print_block(rt, options, file, &bytes, writer))
}

// Reports that a word is neither a file that can be read nor a CID.
fn report_no_file(rt: &HostRuntime, word: &str, error: &io::Error, why: &NoCid<'_>) -> Outcome {
    if error.kind() == ErrorKind::NotFound {
        report(
            rt,
            word,
            &format_args!("no such file, and {why}"),
            Outcome::Failed,
        )
    } else {
        report(
            rt,
            word,
            &format_args!("cannot read the file: {error}; and {why}"),
            Outcome::Failed,
        )
    }
}

// Prints the CID that a word is. Otherwise prints the CID of the block in the file that it names.
fn print_word<W: Write>(
    rt: &HostRuntime,
    options: &CidOptions,
    word: &str,
    writer: &mut W,
) -> Result<Outcome, ShowError> {
    let no_cid = match parse_cid(word) {
        Ok(_) if options.names_codec => {
            let why = "--codec applies only to files, and this is a CID (for a file, write ./NAME)";
            return Ok(report(rt, word, &why, Outcome::Failed));
        }
        Ok(cid) => return print_one(rt, options, word, None, &cid, writer),
        Err(error) => error,
    };
    match print_file(rt, options, word, writer) {
        Ok(printed) => printed,
        Err(error) => {
            let why = NoCid::new(word, no_cid);
            Ok(report_no_file(rt, word, &error, &why))
        }
    }
}

// Prints the CIDs of texts. `-` is standard input, with a text on each line.
#[derive(Clone, Copy)]
struct Texts {
    options: CidOptions,
}

impl PerWord for Texts {
    fn run<W: Write>(
        &self,
        rt: &HostRuntime,
        word: &str,
        writer: &mut W,
    ) -> Result<Outcome, ShowError> {
        if word != "-" {
            return print_text(rt, &self.options, word, writer);
        }
        match read_file(rt, word) {
            Ok(input) => print_lines(rt, &self.options, &input, writer),
            Err(error) => Ok(report_unreadable(rt, word, &error)),
        }
    }
}

// Prints the CIDs that words are, or those of the blocks in the files that they name.
#[derive(Clone, Copy)]
struct Words {
    options: CidOptions,
}

impl PerWord for Words {
    fn run<W: Write>(
        &self,
        rt: &HostRuntime,
        word: &str,
        writer: &mut W,
    ) -> Result<Outcome, ShowError> {
        print_word(rt, &self.options, word, writer)
    }
}

// Prints the roots of files and folders, packed as UnixFS.
#[derive(Clone, Copy)]
struct Packed<'a> {
    options: CidOptions,
    packing: PackOptions<'a>,
}

impl<'a> PerWord for Packed<'a> {
    fn run<W: Write>(
        &self,
        rt: &HostRuntime,
        word: &str,
        writer: &mut W,
    ) -> Result<Outcome, ShowError> {
        match unixfs_root(rt, word, &self.packing) {
            Ok(root) => print_one(rt, &self.options, word, Some(word), &root, writer),
            Err(outcome) => Ok(outcome),
        }
    }
}

// Prints the roots of files and folders.
fn run_packed(
    rt: &HostRuntime,
    matches: &ArgMatches<'_>,
    words: &[&str],
    options: CidOptions,
) -> Outcome {
    let Ok(patterns) = patterns_of(rt.alloc(), matches) else {
        return report_out_of_memory(rt, "the patterns");
    };
    match pack_options_of(rt, matches, &patterns) {
        Ok(packing) => run_over(rt, words, &Packed { options, packing }),
        Err(outcome) => outcome,
    }
}

/// Runs `ipld cid`.
pub fn run_cid(rt: &HostRuntime, matches: &ArgMatches<'_>) -> Outcome {
    let Some(words) = matches.get_strs("what") else {
        return Outcome::Failed;
    };
    let options = CidOptions::new(matches);
    if matches.get_flag("unixfs") {
        return run_packed(rt, matches, words, options);
    }
    if matches.get_flag("text") {
        run_over(rt, words, &Texts { options })
    } else {
        run_over(rt, words, &Words { options })
    }
}
