//! A volume that is checked in memory, and mended.
//!
//! The layer above uses that `report` names each fault of a volume once, in order, or says that it is sound. It also
//! uses that `mend` is refused for the first fault that maps don't heal, and else leaves a sound volume that reads as
//! was shown.
#![tactic(auto)]

mod checked;
mod damages;
mod entries;
mod entry;
mod fault;
mod findings;
mod healed;
mod image;
pub mod laws;
mod level;
mod marks;
mod mended;
mod note;
mod object;
mod repair;
mod roots;
mod survey;
mod surveying;
mod telling;
mod twig;
mod uses;
mod walk;

pub use checked::Checked;
pub use damages::Damages;
pub use fault::LoadFault;
pub use image::{Image, load};
pub use mended::MendFault;
pub use repair::mend;
pub use telling::report;
