//! How a volume is opened.
ghost use Rattle.std.specs.Prelude.{◌≡◌, ◌≢◌, ◌⊎◌, ◌+◌, ◌*◌, ◌/◌, ◌%◌, ◌≤◌, false};
ghost use Rattle.std.specs.Prelude.{IfErr, IfOk, IsErr, IsTrue, None, OnOk, length};
ghost use Rattle.cfs_base.specs.Calls.{HasFailed, MakesAtMost};
ghost use Rattle.cfs_base.specs.Run.{Leaves};
ghost use Rattle.cfs_recover.specs.Grounds.{IsOpenFault};
ghost use Rattle.cfs_recover.specs.Recovered.{IsUntouched, LeavesSinceBarrier};
ghost use Rattle.cfs_recover.specs.Refusals.{IsCaused};
ghost use Rattle.cfs_recover.specs.Walk.{calls_by_block};
ghost use Rattle.puid_space.specs.Directory.{has_root_in};
ghost use Rattle.cfs_core.specs.Opened.{IsOpenedCore, disk_of};
ghost use Rattle.ufs_model.specs.Graph.{Graph};
ghost use Rattle.ufs_model.specs.Word.{word};
ghost use Rattle.vol_format.specs.Fresh.{IsFormatted, MayBeFresh};
ghost use Rattle.vol_image.specs.Sound.{IsSound, IsSoundAs};

use crate::collecting::Collections;
use crate::handles::Handles;
use crate::kernel::Core;
use cfs_base::{Damage, Disk, Failed, code};
use cfs_recover::{RecoverFault, Recovered, recover};
use puid_space::{Draw, root_word};
use std::alloc::Global;
use vol_format::format_volume;

/// Why a volume wasn't opened, and the disk.
#[derive(Drop)]
pub struct OpenFault<D: Disk> {
    pub why: RecoverFault,
    pub disk: D,
}

/// Returns whether an identifier is past the disk's end, or of block 0. Only a disk that lies can give one.
fn is_astray(recovered: &Recovered, blocks: u32) -> bool
    ensures not { result ≡ false → (recovered.now.directory.room ≡ blocks)
        × (has_root_in recovered.now.directory.named 0 ≡ false) }
    ensures is { recovered.now.directory.room ≡ blocks → has_root_in recovered.now.directory.named 0 ≡ false
        → result ≡ false }
{
    recovered.directory.room() != blocks || recovered.directory.has_root(0)
}

impl<D: Disk> Core<D> {
    /// Makes a fresh volume of a disk, with 64 blocks a cylinder, as `format_volume` does.
    ///
    /// The seed's first word names its root index. Takes no memory. `Failed` if a call of the disk failed: what the
    /// disk held may then be lost.
    pub fn format(disk: &mut D, seed: u64) -> Result<(), Failed>
        requires whole { D.blocks disk.old % 64 ≡ 0 }
        requires some { 1 ≤ D.blocks disk.old }
        requires most { D.blocks disk.old ≤ 64 * 65536 }
        ensures made { IsTrue (D.honest disk.old) → OnOk result (IsFormatted D.Disk disk.new (word seed 0)) }
        // A crash on the way leaves what it might have left before, or no volume, or the fresh one.
        ensures images { IsTrue (D.honest disk.old) → Leaves D.Disk disk.old disk.new (MayBeFresh (word seed 0)) }
        ensures cause { IsErr result → HasFailed D.Disk disk.old disk.new }
        ensures calls { MakesAtMost D.Disk (D.blocks disk.old / 64 + 6) (D.blocks disk.old / 64 + 6) disk.old disk.new }
    {
        format_volume(disk, root_word(seed))
    }

    /// Opens the volume on a disk that a crash left, as `recover` does.
    ///
    /// No object is open then, and no word of the seed is drawn.
    pub fn open(alloc: Global, disk: D, seed: u64) -> Result<Core<D>, OpenFault<D>>
        ensures opened { IsTrue (D.honest disk) → (graph : Graph) → IsSoundAs (D.content disk) graph
            → IfOk result (IsOpenedCore D.Disk graph seed) }
        // On any disk no word is drawn, the core hasn't stopped, and no collection was called for.
        ensures begins { IfOk result (λ core. (core.words ≡ record { seed = seed; drawn = 0 }) × (core.stop ≡ None)) }
        ensures idle { IfOk result (λ core. core.collections ≡ record { collector = None; called = 0; finished = 0 }) }
        // A volume that isn't sound is refused for what is wrong with it, and a sound one is never refused so.
        ensures sound { IsTrue (D.honest disk) → IfOk result (λ core. IsSound (D.content disk)) }
        ensures refused { IsTrue (D.honest disk) → IfErr result (λ e. IsOpenFault (D.content disk) e.why) }
        ensures free { IsTrue (D.honest disk) → IsSound (D.content disk)
            → IfErr result (λ e. (e.why ≡ RecoverFault.Disk) ⊎ (e.why ≡ RecoverFault.Memory)) }
        // If it is refused for another reason than a device call, or the volume isn't sound, nothing was written.
        ensures untouched { IsTrue (D.honest disk)
            → IfErr result (λ e. e.why ≢ RecoverFault.Disk → IsUntouched D.Disk disk e.disk) }
        ensures unsound { IsTrue (D.honest disk) → ¬ IsSound (D.content disk)
            → IsUntouched D.Disk disk (disk_of result) }
        // A sound volume reads as it did in each image since the first barrier, `Ok` or not.
        ensures images { IsTrue (D.honest disk) → (graph : Graph) → IsSoundAs (D.content disk) graph
            → LeavesSinceBarrier D.Disk disk (disk_of result) (λ c. IsSoundAs c graph) }
        ensures cause { IfErr result (λ e. IsCaused D.Disk disk e.disk e.why) }
        ensures calls { MakesAtMost D.Disk (calls_by_block * D.blocks disk + 4) (2 * D.blocks disk + 3) disk
            (disk_of result) }
        ensures size { IfOk result (λ k. D.blocks disk ≡ 64 * length k.space.free) }
    {
        let mut disk = disk;
        match recover(alloc, &mut disk) {
            Ok(recovered) => {
                if is_astray(&recovered, disk.blocks()) {
                    return Err(OpenFault {
                        why: RecoverFault::Damaged(Damage {
                            block: 0,
                            code: code::NO_ROOT,
                        }),
                        disk,
                    });
                }
                Ok(Core {
                    disk,
                    root: recovered.label.root,
                    directory: recovered.directory,
                    space: recovered.space,
                    words: Draw::new(seed),
                    handles: Handles::new(alloc),
                    collections: Collections::new(),
                    stop: None,
                })
            }
            Err(why) => Err(OpenFault { why, disk }),
        }
    }
}
