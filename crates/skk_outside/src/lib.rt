//! The outside as the program sees it: sources of bytes, sinks for them, links that are both,
//! listeners to which links come and that dial for them, and shelves of named files; the forms of
//! them in memory, and the adapters of real streams, of the system's TCP connections and of its files.
//!
//! It stands on `skk_text`. Each of them has two meanings: what it holds, where it tells that, and a
//! count of faults. A source holds the bytes that are left, a sink those that were written, a link
//! both, and no read of it moves what was written, nor a write what is left. A listener holds the
//! links that are to come and those that it took back; a shelf the bytes of each of its files, which
//! no read changes. A call answers `Failed` only where that count rose, and has then moved no byte and
//! no link; the adapters raise it by one then, and leave it else. `read_to_end`, `read_named_file` and
//! `write_all` are loops over them that lose nothing. A `Gate` is where a test may hold the work of a
//! thread, and `Open` the gate that holds nothing.
#![tactic(auto)]

mod calls;
mod copying;
mod count;
mod gate;
mod host_listener;
mod host_shelf;
mod link;
mod listener;
mod mem_link;
mod mem_listener;
mod mem_shelf;
mod mem_sink;
mod mem_source;
mod outside;
mod pieces;
mod reader_source;
mod shelf;
mod sink;
mod source;
mod stream_link;
mod writer_sink;

pub use calls::Calls;
pub use copying::copy_what_fits;
pub use count::Count;
pub use gate::{Gate, Open};
pub use host_listener::HostListener;
pub use host_shelf::HostShelf;
pub use link::Link;
pub use listener::Listener;
pub use mem_link::MemLink;
pub use mem_listener::MemListener;
pub use mem_shelf::MemShelf;
pub use mem_sink::MemSink;
pub use mem_source::MemSource;
pub use outside::{Failed, Outside};
pub use reader_source::ReaderSource;
pub use shelf::{Shelf, read_named_file};
pub use sink::{Sink, write_all};
pub use source::{PIECE, ReadFault, Source, read_to_end};
pub use stream_link::StreamLink;
pub use writer_sink::WriterSink;
