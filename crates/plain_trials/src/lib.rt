//! What no clause says of the slow server, the formats, the fakes and the small containers: spellings worked by hand,
//! and that calls which may want memory are done if there is enough. No crate is above this one: it is made for its
//! tests.
#![tactic(auto)]

#[cfg(test)]
mod containers;
#[cfg(test)]
mod disks;
#[cfg(test)]
mod drawn;
#[cfg(test)]
mod run;
#[cfg(test)]
mod spellings;
#[cfg(test)]
mod streams;
