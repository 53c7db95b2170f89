//! The files and standard streams of the system as the service's sources and sinks.
//!
//! The layers above use that these are a `Source` and a `Sink`. They tell what the reader or writer inside tells,
//! which for the system's files is nothing.
#![tactic(auto)]

mod disk;
mod faults;
mod identity;
mod reply_file;
mod sink;
mod source;
mod stream;

pub use disk::FileDisk;
pub use identity::Identity;
pub use reply_file::ReplyFile;
pub use sink::FileSink;
pub use source::FileSource;
pub use stream::Stream;
