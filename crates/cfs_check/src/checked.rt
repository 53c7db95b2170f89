//! The result of a check.
use crate::damages::Damages;

/// The result of a check of a volume.
#[derive(Debug, Drop)]
pub enum Checked {
    /// The image holds no volume.
    NotVolume,
    /// It holds a volume of another version.
    Version { found: u32 },
    /// The volume has these faults, each once, by block and then by code.
    Faults(Damages),
    /// The volume is sound, and has `objects` objects.
    ///
    /// It leaves `left` blocks beside the maps, the label and the objects.
    Sound { objects: u32, left: u32 },
}
