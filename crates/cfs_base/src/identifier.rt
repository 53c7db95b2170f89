//! Identifiers, and the numbers of blocks and sessions.
ghost use Rattle.std.specs.Prelude.{◌≡◌, ◌+◌, ◌*◌, ◌/◌, ◌%◌, ◌^◌};

/// The number of a block on its disk.
#[derive(Clone, Copy, Debug, PartialEq, Eq, PartialOrd, Ord)]
pub struct BlockNo(pub u32);

/// The number of a session.
pub type Session = u32;

/// The permanent identifier of an object.
///
/// Identifiers are ordered by `number`.
#[derive(Clone, Copy, Debug, PartialEq, Eq, PartialOrd, Ord)]
pub struct Puid {
    /// The number of the object's root block, which is never 0.
    pub block: u32,
    /// A random word.
    pub word: u32,
}

impl Puid {
    /// Returns the identifier as one number, `block * 2^32 + word`.
    pub fn number(&self) -> u64
        ensures { result ≡ self.now.block * 2 ^ 32 + self.now.word }
    {
        ((self.block as u64) << 32) | self.word as u64
    }

    /// Returns the identifier with this number.
    pub fn of(number: u64) -> Puid
        ensures block { result.block ≡ number / 2 ^ 32 }
        ensures word { result.word ≡ number % 2 ^ 32 }
    {
        Puid {
            block: (number >> 32) as u32,
            word: (number & 0xffff_ffff) as u32,
        }
    }
}

/// The temporary identifier of a grant.
#[derive(Clone, Copy, Debug, PartialEq, Eq, PartialOrd, Ord)]
pub struct Tuid {
    /// The number of the draw.
    pub draw: u32,
    /// The word that was drawn.
    pub word: u32,
}

impl Tuid {
    /// Returns the identifier as one number, `draw * 2^32 + word`.
    pub fn number(&self) -> u64
        ensures { result ≡ self.now.draw * 2 ^ 32 + self.now.word }
    {
        ((self.draw as u64) << 32) | self.word as u64
    }

    /// Returns the identifier with this number.
    pub fn of(number: u64) -> Tuid
        ensures draw { result.draw ≡ number / 2 ^ 32 }
        ensures word { result.word ≡ number % 2 ^ 32 }
    {
        Tuid {
            draw: (number >> 32) as u32,
            word: (number & 0xffff_ffff) as u32,
        }
    }
}
