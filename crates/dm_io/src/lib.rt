//! Bytes in and out. Sources, sinks and files answer by values, count their faults, and say in contracts which bytes
//! were taken and put; over them stand reads and writes of all bytes, and lines that are read as they come.
//!
//! | item | what it is |
//! |---|---|
//! | [`Source`], [`Take`] | bytes that can be taken once, some at a time |
//! | [`Files`], [`OpenFailed`] | a source that opens files by name, one after the other |
//! | [`Sink`], [`Put`] | where bytes go, some at a time |
//! | [`read_all`], [`AllFault`] | all that is left of a source, up to a limit |
//! | [`put_all`], [`PutFailed`] | all bytes of a slice into a sink |
//! | [`OutputBuffer`] | short pieces gathered for a sink and put in long ones |
//! | [`LineReader`], [`Next`] | the lines of a source as they come |
//! | [`Gate`], [`NoGate`] | what is told of each row that a worker claims |
//! | [`MemSource`], [`MemFiles`], [`MemSink`] | the same in memory, where chosen calls fail |
//! | [`StdSource`], [`StdSink`], [`DirFiles`] | standard input, output and error, and the files of the working folder |
//! | [`NoMemory`] | out of memory |
#![tactic(auto)]

mod calls;
mod gate;
mod line_reader;
mod lines;
mod mem_files;
mod mem_sink;
mod mem_source;
mod output_buffer;
mod read_write_all;
mod streams;
mod system;

pub use gate::{Gate, NoGate};
pub use line_reader::LineReader;
pub use lines::Next;
pub use mem_files::MemFiles;
pub use mem_sink::MemSink;
pub use mem_source::MemSource;
pub use output_buffer::OutputBuffer;
pub use read_write_all::{AllFault, PutFailed, put_all, read_all};
pub use streams::{Files, OpenFailed, Put, Sink, Source, Take};
pub use system::{DirFiles, StdSink, StdSource};
pub use text_spec::NoMemory;
