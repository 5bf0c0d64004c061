//! Where bytes come from and where they go.
//!
//! - [`Source`] and [`Sink`]: traits whose contracts name the bytes and count the failures, implementations over memory and over the
//!   standard streams, and loops that read everything and write everything.
//! - [`FileStore`]: files by their names. Its contracts name what a name holds; there are files and folders in memory, and those of the
//!   system. [`sql_names`] are the files of a folder that hold SQL.
//! - [`FileWriter`]: files that are written. A file is replaced as a whole: its name holds all of the new bytes, or what it held before.
#![tactic(auto)]

mod listed;
mod memory_files;
mod memory_stream;
mod memory_writer;
mod slice;
mod standard_stream;
mod store;
mod stream;
mod system_files;
mod system_writer;
mod whole;
mod writer;

pub use listed::sql_names;
pub use memory_files::MemFiles;
pub use memory_stream::{MemSink, MemSource};
pub use memory_writer::{MemWriter, Written};
pub use slice::SliceSource;
pub use standard_stream::{StdSink, StdSource};
pub use store::{FileError, FileStore};
pub use stream::{Failed, Sink, Source};
pub use system_files::SystemFiles;
pub use system_writer::SystemWriter;
pub use whole::{ReadError, read_to_end, write_all};
pub use writer::{FileWriter, WriteError};

// What crates above reach through this one.
pub use text_pos::{NoMemory, TextRange, TextSize};
