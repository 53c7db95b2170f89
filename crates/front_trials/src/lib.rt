//! Two workers behind tickets, who write down whose turn it was. Nothing of the server uses this crate.
#![tactic(auto)]

mod diary;
#[cfg(test)]
mod tests;
mod watch;

pub use diary::Diary;
pub use watch::Watch;
