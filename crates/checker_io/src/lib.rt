//! Where files are read and bytes are written: shelves and sinks, in memory and over the file system,
//! and how one reading follows another. A shelf and a sink count their faults, so that an answer which
//! blames them has a cause. Stands on script_names. Begin with `shelf` and `sink`, then `content`.
#![tactic(auto)]

mod content;
mod dir_shelf;
mod mem_shelf;
mod mem_sink;
mod out_sink;
mod pieces;
mod reading;
mod shelf;
mod sink;
mod stop;

pub use content::read_content;
pub use dir_shelf::DirShelf;
pub use mem_shelf::MemShelf;
pub use mem_sink::MemSink;
pub use out_sink::OutSink;
pub use pieces::{PIECE, write_text};
pub use reading::{Following, readings_follow};
pub use shelf::{Shelf, ShelfFault};
pub use sink::{Sink, SinkFault};
pub use stop::Stop;
