//! The Free blocks of a volume.
ghost use Rattle.std.specs.Prelude.{◌≡◌, ℕ, ◌+◌, ◌*◌, ◌/◌, ◌<◌, ◌≤◌, ◌↔◌, true, false, length, replicate, sum, IsTrue};
ghost use Rattle.std.specs.Prelude.{IsErr, Err, IfOk, IfErr, OnOk};
ghost use Rattle.cfs_base.specs.Calls.{OnlyReads, MakesAtMost};
ghost use Rattle.cfs_base.specs.Disk.{Image, Written};
ghost use Rattle.cfs_base.specs.Refusals.{had_tried, trouble_had_tried};
ghost use Rattle.cfs_base.specs.Run.{Tells, Leaves, left_now};
ghost use Rattle.cfs_base.specs.declared.refusal.Refused.TheVariants.{Full};
ghost use Rattle.std.specs.Borrow.{sem};
ghost use Rattle.cyl_map.specs.Entry.{IsEntry};
ghost use Rattle.cyl_map.specs.Map.{SpellsMap, entries_of, is_free_state};
ghost use Rattle.cyl_map.specs.Volume.{map_of, map_with, with_entry, is_free_in, free_from};
ghost use Rattle.cyl_alloc.specs.Counts.{AreFreeCounts};
ghost use Rattle.cyl_alloc.specs.Enters.{Enters};
ghost use Rattle.cyl_alloc.specs.Known.{LendsKnown};
ghost use Rattle.cyl_alloc.specs.Maps.{IsMapOf};
ghost use Rattle.cyl_alloc.specs.Refusals as refusals;
ghost use Rattle.cyl_alloc.specs.Space as spec;

use crate::counts::Counts;
use crate::known::KnownMaps;
use crate::maps::{FREE, first_free, read_map};
use crate::unfinished::Unfinished;
use cfs_base::{Block, BlockNo, Damage, Disk, Need, NoMemory, Place, Refused, Trouble, code};
use cyl_map::{BlockState, MapEntry};
use std::alloc::Global;
use std::marker::Model;

/// How many blocks of each cylinder of a volume are Free.
///
/// The counts are those of one disk of 64 blocks a cylinder, which is handed in with each call.
#[derive(Debug, Drop)]
pub struct Space {
    counts: Counts,
    known: KnownMaps,
    /// The commit that is past its bit and isn't carried out.
    pub(crate) unfinished: Option<Unfinished>,
}

impl Model for Space {
    ghost use Rattle.std.specs.Prelude.{◌*◌, length};
    ghost use Rattle.cyl_alloc.specs.Counts.{AreFreeCounts};
    ghost use Rattle.cyl_alloc.specs.Left.{LiesOnDisk};
    ghost use Rattle.cyl_alloc.specs.Space.{Kept};

    ghost Value = { Kept };

    ghost view = { λ a. record { free = a.counts; left = a.unfinished } };

    ghost invariant = { λ a. AreFreeCounts a.counts × LiesOnDisk (64 * length a.counts) a.unfinished };
}

impl Space {
    /// Counts the Free blocks of a disk, with one read a cylinder.
    ///
    /// `Damaged` names the first map block that is no map, with code 2. If it is refused nothing was written.
    pub fn counted<D: Disk>(alloc: Global, disk: &mut D, cylinders: u32) -> Result<Space, Refused>
        requires some { 1 ≤ cylinders }
        requires most { cylinders ≤ 65536 }
        requires size { D.blocks disk.old ≡ 64 * cylinders }
        ensures counts { Tells D.Disk disk.old → IfOk result (spec.AreCounts (D.content disk.old)) }
        ensures size { IfOk result (λ space. length space.free ≡ cylinders) }
        ensures left { IfOk result (λ space. space.left ≡ None) }
        ensures whole { Tells D.Disk disk.old → OnOk result ((j : ℕ) → j < cylinders →
            spec.IsGoodMap (D.content disk.old) (64 * j)) }
        ensures refused { IfErr result (refusals.IsCountRefusal D.Disk disk.old disk.new) }
        ensures untried { IfErr result (λ error. had_tried error ≡ false) }
        ensures reads { OnlyReads D.Disk cylinders disk.old disk.new }
    {
        let mut counts = Counts::zeros(alloc, cylinders)?;
        for cylinder in 0..cylinders {
            counts.put(cylinder, Space::count_free(disk, cylinder)?);
        }
        Ok(Space {
            counts,
            known: KnownMaps::new(),
            unfinished: None,
        })
    }

    /// Makes a space by which no block is Free, to which `gave` adds what the caller counts.
    pub fn none(alloc: Global, cylinders: u32) -> Result<Space, NoMemory>
        requires some { 1 ≤ cylinders }
        requires most { cylinders ≤ 65536 }
        ensures none { IfOk result (λ space. space.free ≡ replicate cylinders 0) }
        ensures left { IfOk result (λ space. space.left ≡ None) }
    {
        let counts = Counts::zeros(alloc, cylinders)?;
        Ok(Space {
            counts,
            known: KnownMaps::new(),
            unfinished: None,
        })
    }

    /// Counts the Free blocks of a cylinder, 0 to 64, with one read.
    ///
    /// `Damaged` names its map block, with code 2, if it is no map.
    pub fn count_free<D: Disk>(disk: &mut D, cylinder: u32) -> Result<u32, Trouble>
        requires on_disk { 64 * cylinder + 64 ≤ D.blocks disk.old }
        ensures counted { Tells D.Disk disk.old → IfOk result (λ n.
            n ≡ spec.free_in_cylinder (D.content disk.old) cylinder) }
        ensures most { IfOk result (λ n. n ≤ 64) }
        ensures whole { Tells D.Disk disk.old → OnOk result
            (spec.IsGoodMap (D.content disk.old) (64 * cylinder)) }
        ensures refused { IfErr result (refusals.IsMapTrouble D.Disk disk.old disk.new (64 * cylinder)) }
        ensures untried { IfErr result (λ trouble. trouble_had_tried trouble ≡ false) }
        ensures reads { OnlyReads D.Disk 1 disk.old disk.new }
    {
        let blocks = disk.blocks();
        prove!(cylinder < blocks / 64);
        let map = read_map(disk, 64 * cylinder)?;
        Ok(map.free_count())
    }

    /// Returns how many blocks are Free.
    pub fn free(&self) -> u32
        ensures sum { result ≡ sum self.now.free }
        ensures counted { (image : Image) → spec.AreCounts image self.now →
            result ≡ free_from image 0 (length image) }
        ensures kept { AreFreeCounts self.now.free }
    {
        self.counts.total()
    }

    /// Checks that `need` + `floor` blocks are Free. Fails with `Full` if fewer are.
    pub fn has_room(&self, need: u32, floor: u32) -> Result<(), Refused>
        ensures room { OnOk result (need + floor ≤ sum self.now.free) }
        ensures full { IfErr result (λ e. (e ≡ Full (record { free = sum self.now.free; need = need }))
            × (sum self.now.free < need + floor)) }
    {
        let free = self.free();
        if (free as u64) < need as u64 + floor as u64 {
            return Err(Refused::Full(Need { free, need }));
        }
        Ok(())
    }

    /// Finds the least-numbered Free block.
    ///
    /// `Full` if no block is Free. `Damaged` names the first map that has a Free block by the counts: with code 2 if
    /// it is no map, else with code 12 if it has no Free block.
    pub fn find<D: Disk>(&self, disk: &mut D) -> Result<BlockNo, Refused>
        requires size { D.blocks disk.old ≡ 64 * length self.now.free }
        ensures found { Tells D.Disk disk.old → spec.AreCounts (D.content disk.old) self.now →
            IfOk result (λ block. spec.IsLeastFree (D.content disk.old) block.0) }
        ensures on_disk { IfOk result (λ block. block.0 < D.blocks disk.old) }
        ensures whole { Tells D.Disk disk.old →
            IfOk result (λ block. spec.IsGoodMap (D.content disk.old) block.0) }
        ensures full { (result ≡ Err (Full (record { free = 0; need = 1 }))) ↔ (sum self.now.free ≡ 0) }
        ensures refused { IfErr result (refusals.IsFindRefusal D.Disk disk.old disk.new self.now) }
        ensures untried { IfErr result (λ error. had_tried error ≡ false) }
        ensures reads { OnlyReads D.Disk 1 disk.old disk.new }
    {
        let mut map = Block::zero();
        Ok(BlockNo(self.least(disk, &mut map)?))
    }

    /// Makes the least-numbered Free block Allocated, for an owner's place.
    ///
    /// Refused as by `find`, and if the write of the map fails. The counts are then as they were, and so is the disk
    /// if no write was tried.
    pub fn claim<D: Disk>(
        &mut self,
        disk: &mut D,
        place: Place,
        owner: u32,
    ) -> Result<BlockNo, Refused>
        requires size { D.blocks disk.old ≡ 64 * length self.old.free }
        requires entry { IsEntry (spec.allocated place owner) }
        ensures enters { Enters D.Disk (spec.allocated place owner) disk.old disk.new self.old self.new result }
    {
        self.enter(disk, BlockState::Allocated, place, owner)
    }

    /// Makes the least-numbered Free block IntendAllocate, for the place that it will have in an owner's draft.
    ///
    /// Refused as by `claim`.
    pub fn intend<D: Disk>(
        &mut self,
        disk: &mut D,
        place: Place,
        owner: u32,
    ) -> Result<BlockNo, Refused>
        requires size { D.blocks disk.old ≡ 64 * length self.old.free }
        requires entry { IsEntry (spec.intended place owner) }
        ensures enters { Enters D.Disk (spec.intended place owner) disk.old disk.new self.old self.new result }
    {
        self.enter(disk, BlockState::IntendAllocate, place, owner)
    }

    /// Enters the least-numbered Free block in this state, which isn't Free, for an owner's place.
    fn enter<D: Disk>(
        &mut self,
        disk: &mut D,
        state: BlockState,
        place: Place,
        owner: u32,
    ) -> Result<BlockNo, Refused>
        requires size { D.blocks disk.old ≡ 64 * length self.old.free }
        requires entry { IsEntry (spec.entered state place owner) }
        requires taken { is_free_state state ≡ false }
        ensures enters { Enters D.Disk (spec.entered state place owner) disk.old disk.new self.old self.new result }
    {
        let mut map = Block::zero();
        let block = self.least(disk, &mut map)?;
        let entry = MapEntry {
            state,
            committed: false,
            place: Some(place),
            owner,
        };
        let Ok(()) = self.known.store_entry(disk, block, &mut map, entry) else {
            return Err(Refused::Disk { tried: true });
        };
        self.took(BlockNo(block));
        Ok(BlockNo(block))
    }

    /// Makes a block Free, and counts it.
    ///
    /// A block that was Free before is counted all the same. `Damaged` names its map block, with code 2, if it is no
    /// map. If it is refused the counts are as they were, and so is the disk if no write was tried.
    pub fn release<D: Disk>(&mut self, disk: &mut D, block: BlockNo) -> Result<(), Trouble>
        requires size { D.blocks disk.old ≡ 64 * length self.old.free }
        requires on_disk { block.0 < D.blocks disk.old }
        ensures freed { Tells D.Disk disk.old → OnOk result
            (D.content disk.new ≡ with_entry (D.content disk.old) block.0 spec.unheld_entry) }
        ensures whole { Tells D.Disk disk.old → OnOk result
            (spec.IsGoodMap (D.content disk.old) block.0) }
        ensures told { OnOk result ((n : ℕ) → IsTrue (D.told disk.old n) → IsTrue (D.told disk.new n)) }
        ensures counts { Tells D.Disk disk.old → spec.AreCounts (D.content disk.old) self.old →
            is_free_in (D.content disk.old) block.0 ≡ false
            → OnOk result (spec.AreCounts (D.content disk.new) self.new) }
        ensures given { OnOk result (self.new ≡ spec.after_giving self.old block.0 1) }
        ensures kept { IsErr result → self.new ≡ self.old }
        ensures cylinders { length self.new.free ≡ length self.old.free }
        ensures left { self.new.left ≡ self.old.left }
        ensures refused { IfErr result (refusals.IsMapTrouble D.Disk disk.old disk.new block.0) }
        ensures unless_tried { IfErr result (λ trouble.
            trouble_had_tried trouble ≡ false → OnlyReads D.Disk 1 disk.old disk.new) }
        ensures images { Tells D.Disk disk.old → Leaves D.Disk disk.old disk.new
            (Written (left_now D.Disk disk.old) (map_of block.0)
            (map_with (D.content disk.old) block.0 spec.unheld_entry)) }
        ensures calls { MakesAtMost D.Disk 2 1 disk.old disk.new }
    {
        let mut map = Block::zero();
        self.known.load_map(disk, block.0, &mut map)?;
        let Ok(()) = self.known.store_entry(disk, block.0, &mut map, FREE) else {
            return Err(Trouble::Disk { tried: true });
        };
        self.gave(block, 1);
        Ok(())
    }

    /// Records that one block of this block's cylinder is Free no more, by a write that the caller made.
    ///
    /// A count of 0 stays.
    pub fn took(&mut self, block: BlockNo)
        requires on_disk { block.0 < 64 * length self.old.free }
        ensures taken { self.new ≡ spec.after_taking self.old block.0 }
        ensures counts { (image other : Image) → spec.AreCounts image self.old →
            spec.IsFreeElsewhere image block.0 other →
            spec.free_in_cylinder other (block.0 / 64) + 1 ≡ spec.free_in_cylinder image (block.0 / 64) →
            spec.AreCounts other self.new }
    {
        let cylinder = block.0 / 64;
        let count = self.counts.at(cylinder);
        self.counts.put(cylinder, count.saturating_sub(1));
    }

    /// Records that `count` blocks of this block's cylinder are Free again, by writes that the caller made.
    ///
    /// A count stops at 64.
    pub fn gave(&mut self, block: BlockNo, count: u32)
        requires on_disk { block.0 < 64 * length self.old.free }
        ensures given { self.new ≡ spec.after_giving self.old block.0 count }
        ensures counts { (image other : Image) → spec.AreCounts image self.old →
            spec.IsFreeElsewhere image block.0 other →
            spec.free_in_cylinder other (block.0 / 64) ≡ spec.free_in_cylinder image (block.0 / 64) + count →
            spec.AreCounts other self.new }
    {
        let cylinder = block.0 / 64;
        let before = self.counts.at(cylinder);
        let after = before.saturating_add(count).min(64);
        self.counts.put(cylinder, after);
    }

    /// Returns the maps that are known, for calls that change entries.
    ///
    /// None of these calls changes a count.
    pub fn known(&mut self) -> &mut KnownMaps
        ensures* { sem 𝓛 (LendsKnown self.entry result) }
    {
        &mut self.known
    }

    /// Finds the least-numbered Free block. Reads the map that has its entry into `map`.
    fn least<D: Disk>(&self, disk: &mut D, map: &mut Block) -> Result<u32, Refused>
        requires size { D.blocks disk.old ≡ 64 * length self.now.free }
        ensures found { Tells D.Disk disk.old → spec.AreCounts (D.content disk.old) self.now →
            IfOk result (λ block. spec.IsLeastFree (D.content disk.old) block) }
        ensures map { Tells D.Disk disk.old →
            IfOk result (λ block. IsMapOf (D.content disk.old) block (entries_of map.new)) }
        ensures spells { OnOk result (SpellsMap map.new) }
        ensures whole { Tells D.Disk disk.old →
            IfOk result (λ block. spec.IsGoodMap (D.content disk.old) block) }
        ensures on_disk { IfOk result (λ block. block < D.blocks disk.old) }
        ensures full { IsErr result → sum self.now.free ≡ 0 →
            result ≡ Err (Full (record { free = 0; need = 1 })) }
        ensures some { OnOk result (0 < sum self.now.free) }
        ensures refused { IfErr result (refusals.IsFindRefusal D.Disk disk.old disk.new self.now) }
        ensures untried { IfErr result (λ error. had_tried error ≡ false) }
        ensures reads { OnlyReads D.Disk 1 disk.old disk.new }
    {
        let Some(cylinder) = self.counts.first() else {
            return Err(Refused::Full(Need { free: 0, need: 1 }));
        };
        self.known.load_map(disk, 64 * cylinder, map)?;
        let Some(entry) = first_free(map) else {
            return Err(Refused::Damaged(Damage {
                block: 64 * cylinder,
                code: code::OTHER_COUNT,
            }));
        };
        Ok(64 * cylinder + entry as u32)
    }
}
