//! The files, outputs and messages of the program `ipld`.
//!
//! - Files and standard input are read whole, as CARs, or from any byte.
//! - The blocks of a CAR are found by their CIDs. The blocks of files and CARs are gathered for a
//!   new CAR.
//! - Outputs are written so that no existing file is lost and no file is left half written.
//! - Messages describe the error of a block, a CAR or a digest in a sentence, with the item at the
//!   invalid byte. Scripts get objects of JSON.
//! - Every command ends with an [`Outcome`].
//!
//! ```rust
//! use ipld_cli::{Opened, open_blocks};
//!
//! match open_blocks(rt, file, limit, true)? {
//!     Opened::Block(bytes) => show(&bytes),
//!     Opened::Car(mut blocks) => blocks.find(&cid),
//! }
//! ```
#![tactic(auto)]

mod blocks;
mod bytes;
mod car_options;
mod car_sink;
mod car_store;
mod checked_block;
mod collected_blocks;
mod complaints;
mod files;
mod hasher;
mod index_check;
mod indexed_copy;
mod input;
pub mod json_lines;
mod limits;
mod messages;
mod new_car;
mod new_file;
mod new_folder;
mod output;
mod passing_blocks;
mod per_word;
mod placed_output;
mod progress;
mod raw_cid;
mod salvage;
mod spool;
mod summary;
mod writer;

pub use blocks::{Blocks, Opened, open_blocks, open_indexed};
pub use car_options::CarOptions;
pub use car_sink::CarSink;
pub use car_store::CarStore;
pub use checked_block::CheckedBlock;
pub use collected_blocks::{BlockRange, CollectOptions, CollectedBlocks, Source};
pub use complaints::{
    Complaints, complain, parse_cid, parse_cid_argument, report, report_car_error,
    report_invalid_block, report_out_of_memory, report_show_error, report_unreadable,
    report_wrong_arguments,
};
pub use files::{is_file, read_file};
pub use hasher::hasher_of;
pub use index_check::UncheckedIndex;
pub use indexed_copy::IndexedCopy;
pub use input::{BUFFER, Car, OpenCar, open_car, shows_progress};
pub use limits::MOST_SECTIONS;
pub use messages::{
    DigestExplanation, Escaped, Explanation, JsonExplanation, NamedCid, NoCid, Outcome,
    ShowExplanation,
};
pub use new_car::{BlockSource, NewBlock, NewCar, framed_len, header_len};
pub use new_file::NewFile;
pub use new_folder::NewFolder;
pub use output::{
    Content, Output, OutputError, OutputKind, Syncing, TemporaryName, output_of, report_unwritable,
    sync_folder, write, write_output, writes_to_input,
};
pub use per_word::{PerWord, reads_twice, run_over, run_to_end};
pub use placed_output::PlacedOutput;
pub use raw_cid::raw_cid_of_file;
pub use salvage::{Salvage, SalvagedBlocks};
pub use spool::spooled;
pub use summary::Summary;
pub use writer::{UntilClosed, end_writer};
