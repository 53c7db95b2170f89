//! Which object owns each block of a volume, and for what.
//!
//! There are objects that have exactly their blocks, drafts that have exactly theirs, and blocks of objects that are
//! gone. The layers above use the accounts: each block has one use, so the Free blocks are counted, and each kind of
//! step of the store keeps them.
#![tactic(auto)]
