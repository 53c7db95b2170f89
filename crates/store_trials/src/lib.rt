//! The store tried on small volumes in memory: worked bytes, which blocks its calls take, how many reads and writes
//! they make, and what comes of calls that fail and of damaged blocks. It is made for its tests.
#![tactic(auto)]

#[cfg(test)]
mod bench;
#[cfg(test)]
mod device_calls;
#[cfg(test)]
mod files;
#[cfg(test)]
mod laid;
#[cfg(test)]
mod moments;
#[cfg(test)]
mod openings;
#[cfg(test)]
mod refusals;
#[cfg(test)]
mod taken;
#[cfg(test)]
mod volume;
#[cfg(test)]
mod worked;
