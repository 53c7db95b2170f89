//! All that the program does, apart from opening its files.
//!
//! The words of a command are read. A volume is made, checked or mended, a trail is judged, sources are read whole and
//! their sessions or lines of names served, or a session is answered as it asks. Then a report is written.
//!
//! The program above uses one contract, that of `top`. Below it, `Service` serves any number of sessions, and a
//! collector, on whatever server.
#![tactic(auto)]

mod answering;
mod audit;
mod cached;
mod clients;
mod command;
mod converse;
mod dirs;
mod ending;
mod inspecting;
mod laws;
mod limits;
mod logged;
mod machine;
mod naming;
mod page;
mod paths;
mod play;
mod report;
mod rest;
mod run;
mod script;
mod scripts;
mod served;
mod server;
mod service;
mod serving;
mod spin;
mod sure_disk;
mod talk;
mod traced;
mod volume;
mod watched;
mod words;

pub use command::{Command, Converse, Dirs, Format, Play, Serve, Spin};
pub use ending::Ending;
pub use limits::{
    HELD_MAPS, MOST_COLLECTIONS, MOST_CYLINDERS, MOST_FILE_CYLINDERS, MOST_INSPECTED, MOST_LINES,
    MOST_SCRIPT, MOST_SESSIONS, MOST_TRAIL,
};
pub use page::Page;
pub use paths::{Files, Path, Paths, Volume};
pub use report::{Cause, Counts, Report, VolumeFault};
pub use run::{Bay, Ended, top};
