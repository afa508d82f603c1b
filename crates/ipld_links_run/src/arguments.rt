//! The word that a program's arguments name.

ghost use Rattle.std.specs.Prelude.{◌≡◌, ◌≤◌, ◌↔◌, IfOk, IfErr, IsErr, MatchResult, length, string_bytes};
ghost use Rattle.std.specs.IoError.{error_kind};
ghost use Rattle.std.specs.Vec.Iter.{into_iter_items};
ghost use Rattle.ipld_links_run.specs.Arguments.{word_in};

use crate::status::RunFault;
use std::alloc::Global;
use std::env::Args;
use std::io::{self, ErrorKind};

/// Returns the word for [`run`](crate::run) that a program's arguments name. The arguments come as
/// [`env::args`](std::env::args) returns them, the program's own name first.
///
/// - Without an argument after the program's name, the word is `cid`.
/// - One argument is itself the word, whether [`run`](crate::run) knows it or not.
/// - Several arguments, or one that is not UTF-8, name the empty word, for which
///   [`run`](crate::run) writes the usage line.
///
/// Allocates only for the word `cid`.
///
/// # Errors
///
/// [`RunFault::Memory`] if the arguments are missing because an allocation failed, or if the
/// allocation for the word fails.
///
/// # Examples
///
/// ```
/// let word = ipld_links_run::word_of(rt.alloc(), env::args(&rt))?;
/// ```
pub fn word_of(alloc: Global, arguments: io::Result<Args>) -> Result<String, RunFault>
    ensures word { IfOk result (λ word. string_bytes word ≡ word_in arguments) }
    ensures errors { IfErr result (λ fault. fault ≡ RunFault.Memory) }
    ensures failed { MatchResult arguments
        (λ all. IfErr result (λ _. length (into_iter_items all) ≤ 1))
        (λ error. IsErr result ↔ (error_kind error ≡ ErrorKind.OutOfMemory)) }
{
    let mut arguments = match arguments {
        Ok(arguments) => arguments,
        Err(error) if error.kind() == ErrorKind::OutOfMemory => return Err(RunFault::Memory),
        Err(_) => return Ok(String::new(alloc)),
    };
    let _program = arguments.next();
    match (arguments.next(), arguments.next()) {
        (None, _) => match String::from_str(alloc, "cid") {
            Ok(word) => Ok(word),
            Err(_) => Err(RunFault::Memory),
        },
        (Some(word), None) => Ok(word),
        (Some(_), Some(_)) => Ok(String::new(alloc)),
    }
}
