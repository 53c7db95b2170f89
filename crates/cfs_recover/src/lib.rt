//! Opening a volume that a crash left: all tests of a sound image, and then its recovery.
//!
//! The layer above uses that `recover` is `Ok` exactly if the image is sound, that the volume then reads as before
//! and has nothing but what it reads as, and that recovery may be stopped anywhere and begun again.
#![tactic(auto)]

mod check;
mod copies;
mod entry;
mod fault;
mod found;
mod head;
pub mod laws;
mod leaf;
mod maps;
mod node;
mod recovery;
mod slot;
mod spot;
mod standing;
mod survey;
mod tidy;
mod walk;
mod walk_below;
mod walk_block;
mod walk_object;
mod writes;

pub use check::check_volume;
pub use entry::{RESERVED, belongs, check_entry, entry_at, is_committed, is_fixed, stands};
pub use fault::RecoverFault;
pub use head::{Head, check_root, check_root_index, check_shadow, read_head};
pub use leaf::{check_leaf, check_rest, first_late_byte, is_read};
pub use maps::note_standing;
pub use node::check_node;
pub use recovery::{Recovered, recover};
pub use slot::check_slot;
pub use spot::{Spot, check_spot};
pub use standing::{Shadow, Standing};
pub use walk_below::{Branch, Twig, spot_of};
pub use writes::flush;
