//! Bytes of a file, written.
ghost use Rattle.std.specs.Prelude.{◌≡◌, ◌≢◌, ◌⊎◌, ◌||◌, ℕ, ◌+◌, ◌-◌, ◌*◌, ◌/◌, ◌<◌, ◌≤◌, true, false, List, [], Some};
ghost use Rattle.std.specs.Prelude.{IsTrue, length, sum, IfErr, IfOk, OnOk};
ghost use Rattle.block_tree.specs.Pointers.{node_pointers, size_limit};
ghost use Rattle.cfs_base.specs.Calls.{MakesAtMost, OnlyReads};
ghost use Rattle.cfs_base.specs.Run.{IsSettled, Leaves as LeavesOf, Tells};
ghost use Rattle.cfs_base.specs.declared.refusal.Trouble.TheVariants as troubles;
ghost use Rattle.cyl_alloc.specs.Space.{Kept};
ghost use Rattle.leaf_changes.specs.Tops.{root_top};
ghost use Rattle.normal_files.specs.Calls.{Handed, WritesFile};
ghost use Rattle.normal_files.specs.Ends.{Finishes};
ghost use Rattle.normal_files.specs.Laid.{node_of};
ghost use Rattle.normal_files.specs.Links.{linked_image, linked_root};
ghost use Rattle.normal_files.specs.Parts.{AreParts, IsPart, part_need};
ghost use Rattle.normal_files.specs.Plans.{plan_of};
ghost use Rattle.normal_files.specs.Standing.{IsRootAt};
ghost use Rattle.normal_files.specs.Steps.{ComesOrStops, IsAmid, Puts};
ghost use Rattle.normal_files.specs.WriteRefusal.{IsWriteRefusal, is_untried};
ghost use Rattle.normal_files.specs.View.{FileView, Way};
ghost use Rattle.normal_files.specs.Writes.{IsWritable, WroteFile};
ghost use Rattle.ufs_model.specs.Object.{leaves_in};

use crate::absent::refused;
use crate::flush::flush;
use crate::in_place::{after, either};
use crate::part::Part;
use crate::touched::Touched;
use crate::two_nodes::{Both, link_both, take_both};
use block_tree::Root;
use cfs_base::{BlockNo, Disk, Refused, Trouble};
use cyl_alloc::Space;

/// Writes bytes into those leaves of two nodes that are held, and returns whether a write was tried.
fn put_both<D: Disk>(
    disk: &mut D,
    low: &Part,
    high: &Part,
    offset: u64,
    bytes: &[u8],
) -> Result<bool, Trouble>
    requires inside { offset + length bytes.now ≤ size_limit }
    requires parts { AreParts (D.blocks disk.old) offset (length bytes.now) low.now high.now }
    ensures puts { (block : ℕ) (w : Way D.Disk block) (kept : Kept)
        → IsAmid w offset bytes.now (offset / 512) disk.old kept
        → IsPart (D.content w.start) w.root low.now → IsPart (D.content w.start) w.root high.now
        → Puts w offset bytes.now (leaves_in (offset + length bytes.now)) disk.old disk.new kept result }
    ensures ends { ComesOrStops D.Disk (2 * (high.now.leaves.to - low.now.leaves.from))
        (high.now.leaves.to - low.now.leaves.from)
        disk.old disk.new result (λ tried. tried) }
    ensures size { D.blocks disk.new ≡ D.blocks disk.old }
{
    match low.put(disk, offset, bytes) {
        Ok(tried) => match high.put(disk, offset, bytes) {
            Ok(now) => Ok(either(tried, now)),
            Err(trouble) => Err(after(tried, trouble)),
        },
        Err(trouble) => Err(trouble),
    }
}

/// Makes what was written survive a crash, and then makes the file lead to what was taken.
fn end_write<D: Disk>(
    disk: &mut D,
    at: BlockNo,
    root: &Root,
    low: u32,
    high: u32,
    both: &Both,
) -> Result<(), Trouble>
    requires at { at.0 < D.blocks disk.old }
    requires low { low < node_pointers.count }
    requires high { high < node_pointers.count }
    requires low_near { both.now.low.grown ≡ true → node_of both.now.low.root low < D.blocks disk.old }
    requires high_near { both.now.high.grown ≡ true → node_of both.now.high.root high < D.blocks disk.old }
    requires low_leads { both.now.low.root ≡ linked_root root.now low (plan_of low both.now.low) }
    requires high_leads { both.now.high.root ≡ linked_root both.now.low.root high (plan_of high both.now.high) }
    ensures done { Tells D.Disk disk.old → OnOk result ((D.content disk.new ≡ linked_image
        (linked_image (D.content disk.old) at.0 root.now low (plan_of low both.now.low)) at.0
        (linked_root root.now low (plan_of low both.now.low)) high (plan_of high both.now.high))
        × IsSettled D.Disk disk.new) }
    ensures images { Tells D.Disk disk.old → LeavesOf D.Disk disk.old disk.new (λ c.
        (c ≡ linked_image (D.content disk.old) at.0 root.now low (plan_of low both.now.low))
        ⊎ (c ≡ linked_image (linked_image (D.content disk.old) at.0 root.now low (plan_of low both.now.low)) at.0
        (linked_root root.now low (plan_of low both.now.low)) high (plan_of high both.now.high))) }
    ensures failed { IfErr result (λ t. t ≡ troubles.Disk true) }
    ensures ends { ComesOrStops D.Disk 5 5 disk.old disk.new result (λ done. true) }
{
    match flush(disk) {
        Ok(()) => {}
        Err(trouble) => return Err(trouble),
    }
    match link_both(disk, at, root, low, high, both) {
        Ok(()) => Ok(()),
        Err(trouble) => Err(after(true, trouble)),
    }
}

/// Writes bytes into the leaves that they touch in two nodes.
///
/// Absent leaves are taken. As many blocks as that needs are Free.
pub(crate) fn write_parts<D: Disk>(
    disk: &mut D,
    space: &mut Space,
    at: BlockNo,
    root: &Root,
    low: &Part,
    high: &Part,
    offset: u64,
    bytes: &[u8],
) -> Result<(), Refused>
    requires size { D.blocks disk.old ≡ 64 * length space.old.free }
    requires some { at.0 ≢ 0 }
    requires on_disk { at.0 < D.blocks disk.old }
    requires inside { offset + length bytes.now ≤ size_limit }
    requires parts { AreParts (D.blocks disk.old) offset (length bytes.now) low.now high.now }
    requires low_near { low.now.leaves.from < low.now.leaves.to → node_of root.now low.now.number < D.blocks disk.old }
    requires high_near { high.now.leaves.from < high.now.leaves.to
        → node_of root.now high.now.number < D.blocks disk.old }
    requires room { part_need root.now low.now + part_need root.now high.now ≤ sum space.old.free }
    ensures writes { (v : FileView D.Disk at.0 root.now disk.old space.old)
        → IsWritable v offset bytes.now low.now high.now
        → WroteFile v offset bytes.now disk.new space.new result }
    ensures ends { Finishes D.Disk (7 * (high.now.leaves.to - low.now.leaves.from) + 7)
        (4 * (high.now.leaves.to - low.now.leaves.from) + 7) (part_need root.now low.now + part_need root.now high.now)
        disk.old disk.new space.old space.new result (λ done. true) }
{
    let tried = match put_both(disk, low, high, offset, bytes) {
        Ok(tried) => tried,
        Err(trouble) => return Err(Refused::from(trouble)),
    };
    let both = match take_both(disk, space, at, root, low, high, offset, bytes) {
        Ok(both) => both,
        Err(error) => return Err(refused(tried, error)),
    };
    match end_write(disk, at, root, low.number, high.number, &both) {
        Ok(()) => Ok(()),
        Err(trouble) => Err(Refused::from(trouble)),
    }
}

/// Writes bytes into the file with this root, at an offset.
///
/// The range lies within the size. Each leaf that it touches and that is absent takes the least-numbered Free block,
/// in increasing order, and after it its node if that is absent too.
///
/// `Full` if fewer blocks are Free than it takes, plus the floor. `Damaged` names a block with a pointer past the
/// disk, with code 4, or a map block that is no map, with code 2, or that has no Free block though some were counted,
/// with code 12. After a `Disk` that was tried each leaf is old or new. After any other error all is as it was.
pub fn write<D: Disk>(
    disk: &mut D,
    space: &mut Space,
    at: BlockNo,
    root: &Root,
    offset: u64,
    bytes: &[u8],
    floor: u32,
) -> Result<(), Refused>
    requires size { D.blocks disk.old ≡ 64 * length space.old.free }
    requires some { at.0 ≢ 0 }
    requires on_disk { at.0 < D.blocks disk.old }
    requires least { 1 ≤ length bytes.now }
    requires most { length bytes.now ≤ 4096 }
    requires inside { offset + length bytes.now ≤ size_limit }
    ensures writes { (h : Handed D.Disk at.0 disk.old space.old) → IsRootAt (D.content disk.old) at.0 root.now
        → offset + length bytes.now ≤ length h.file.bytes
        → WritesFile h offset bytes.now floor disk.new space.new result }
    ensures refused { IfErr result (IsWriteRefusal D.Disk (root_top at.0 root.now) floor disk.old disk.new
        space.old space.new) }
    // If nothing was tried, all is as it was.
    ensures untried { IfErr result (λ e. is_untried e ≡ true → (space.new ≡ space.old)
        × OnlyReads D.Disk 72 disk.old disk.new) }
    ensures cylinders { length space.new.free ≡ length space.old.free }
    ensures left { space.new.left ≡ space.old.left }
    ensures calls { MakesAtMost D.Disk 72 43 disk.old disk.new }
{
    let file = match Touched::read(disk, at, root, offset, bytes.len() as u64) {
        Ok(file) => file,
        Err(trouble) => return Err(Refused::from(trouble)),
    };
    let low = file.low.need(root);
    let high = file.high.need(root);
    match space.has_room(low + high, floor) {
        Ok(()) => {}
        Err(error) => return Err(error),
    }
    match write_parts(disk, space, at, root, &file.low, &file.high, offset, bytes) {
        Ok(()) => Ok(()),
        Err(error) => Err(error),
    }
}
