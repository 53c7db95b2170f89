//! A disk of computed maps.
ghost use Rattle.std.specs.Prelude.{◌≡◌, ◌≤◌, IfSome};

use cfs_base::{Block, BlockNo, Disk, Failed, Place};
use cyl_map::{BlockState, Map, MapEntry};

/// A disk of a volume of which only the last cylinder has Free blocks.
///
/// It tells nothing, and keeps only the last cylinder's map of what is written.
#[derive(Drop)]
pub struct LastCylinderFree {
    cylinders: u32,
    full: Block,
    last: Block,
    calls: u64,
    tries: u64,
    ghost size: { cylinders ≤ 65536 },
}

/// Returns a map whose first blocks belong to the root index, and whose others are Free.
fn map_with(held: u8) -> Option<Map> {
    let mut map = Map::decode(&Block::zero()).ok()?;
    for entry in 0..held.min(64) {
        let value = MapEntry {
            state: BlockState::Allocated,
            committed: false,
            place: Some(Place::Leaf(0)),
            owner: 2,
        };
        map.set(entry, value);
    }
    Some(map)
}

impl LastCylinderFree {
    /// Makes the disk of a volume of `cylinders` cylinders.
    pub fn new(cylinders: u32) -> Option<LastCylinderFree>
        requires { cylinders ≤ 65536 }
        ensures { IfSome result (λ disk. disk.cylinders ≡ cylinders) }
    {
        Some(LastCylinderFree {
            cylinders,
            full: map_with(64)?.encode(),
            last: map_with(1)?.encode(),
            calls: 0,
            tries: 0,
        })
    }
}

impl Disk for LastCylinderFree {
    ghost use Rattle.std.specs.Prelude.{[], false, ◌*◌};

    ghost blocks = { λ d. 64 * d.cylinders };

    ghost moment = { λ d. d.calls };

    ghost calls = { λ d. d.calls };

    ghost tries = { λ d. d.tries };

    ghost faults = { λ d. 0 };

    ghost only_honest = { λ d n h. h };

    ghost sized = { λ d h. Prim.cc };

    ghost of_blocks = { λ d h. Prim.cc };

    ghost left_sized = { λ d t c left. absurd left };

    fn blocks(&self) -> u32 {
        64 * self.cylinders
    }

    fn moment(&self) -> u64 {
        self.calls
    }

    fn calls(&self) -> u64 {
        self.calls
    }

    fn read(&mut self, at: BlockNo, into: &mut Block) -> Result<(), Failed> {
        self.calls = self.calls.saturating_add(1);
        *into = if at.0 / 64 + 1 == self.cylinders {
            self.last
        } else {
            self.full
        };
        Ok(())
    }

    fn write(&mut self, at: BlockNo, from: &Block) -> Result<(), Failed> {
        self.calls = self.calls.saturating_add(1);
        self.tries = self.tries.saturating_add(1);
        if at.0 / 64 + 1 == self.cylinders {
            self.last = *from;
        }
        Ok(())
    }

    fn barrier(&mut self) -> Result<(), Failed> {
        self.calls = self.calls.saturating_add(1);
        self.tries = self.tries.saturating_add(1);
        Ok(())
    }
}
