//! The outside of the player: files that are read and written whole, by their names, and a sink for what it writes.
//!
//! [`Shelf`] and [`Sink`] say what a caller may rely on. Each has a form in memory, whose answers are known to the
//! byte and whose calls fail where a test wants them to, and a form over the real files and the standard output.
#![tactic(auto)]

mod errors;
mod files;
mod memory_shelf;
mod memory_sink;
mod name_counts;
mod named_bytes;
mod numbers;
mod output;
mod shelf;
mod sink;
mod transfer;
mod words;

pub use errors::{FetchError, PutError, SinkError};
pub use files::FileShelf;
pub use memory_shelf::MemoryShelf;
pub use memory_sink::{MemorySink, SteadySink};
pub use named_bytes::NamedBytes;
pub use numbers::{Numbers, Pairs};
pub use output::StdSink;
pub use shelf::Shelf;
pub use sink::Sink;
pub use transfer::{ReadStop, read_up_to, write_whole};
pub use words::{WordsError, words_of};
