//! The kinds of object, the ways to open one, and what a block is to its object.
ghost use Rattle.std.specs.Prelude.{◌≡◌, ◌≢◌, ◌^◌, ◌<◌};
ghost use Rattle.cfs_base.specs.Places.{place_up};

/// The kind of an object.
#[derive(Clone, Copy, Debug, PartialEq, Eq)]
pub enum Kind {
    /// A file whose changes a crash may cut short.
    Normal,
    /// A file whose changes are atomic.
    Special,
    /// A list of identifiers, whose changes are atomic.
    Index,
}

/// The kind of a file.
#[derive(Clone, Copy, Debug, PartialEq, Eq)]
pub enum FileKind {
    /// As `Kind::Normal`.
    Normal,
    /// As `Kind::Special`.
    Special,
}

/// How an object is opened: by many readers, or by one writer.
#[derive(Clone, Copy, Debug, PartialEq, Eq)]
pub enum Mode {
    /// For reading, beside other readers.
    Reading,
    /// For reading and writing, alone.
    Writing,
}

/// What a block is to the object that owns it.
///
/// Leaves, nodes and spans are numbered from 0. Leaf `n` is below node `n / 128`. In a wide object node `m` is below
/// span `m / 128`.
#[derive(Clone, Copy, Debug, PartialEq, Eq)]
pub enum Place {
    /// The root block.
    Root,
    /// The block with the root of the object's draft.
    ShadowRoot,
    /// The node with this number.
    Node(u16),
    /// The leaf with this number.
    Leaf(u32),
    /// The span with this number.
    Span(u16),
}

impl Place {
    /// Returns the place with this number on a level.
    ///
    /// Level 0 is that of the leaves, 1 that of the nodes, and any other that of the spans.
    pub fn up(level: usize, number: u32) -> Place
        requires { level ≢ 0 → number < 2 ^ 16 }
        ensures { result ≡ place_up level number }
    {
        match level {
            0 => Place::Leaf(number),
            1 => Place::Node(number as u16),
            _ => Place::Span(number as u16),
        }
    }
}
