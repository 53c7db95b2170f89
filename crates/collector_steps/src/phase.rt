//! The phases of a collection.

/// The phase of a collection.
///
/// A sweep is at the cylinder that its next step sweeps.
#[derive(Clone, Copy, Debug, PartialEq, Eq)]
pub enum Phase {
    /// No collection runs.
    Idle,
    /// Indices are read, and what they refer to is marked.
    Marking,
    /// Nodes, leaves and shadow roots are swept.
    Inner { cylinder: u32 },
    /// Roots are swept.
    Roots { cylinder: u32 },
    /// All is swept.
    Swept,
}
