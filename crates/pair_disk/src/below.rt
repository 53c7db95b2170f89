//! The calls on the disk below.
ghost use Rattle.std.specs.Prelude.{◌≡◌, ◌<◌, ◌-◌, ◌^◌, IsTrue, IsErr, IfOk, OnErr, OnOk, set};
ghost use Rattle.cfs_base.specs.Outside.{Rose};
ghost use Rattle.pair_disk.specs.Pair.{IsFlushed, gate_at, other_half, pairs_in, shown_half_of};
ghost use Rattle.pair_disk.specs.Below.{ChangesPair, FailedBelow, PutsBelow, Stays};
ghost use Rattle.pair_disk.specs.Calls.{MakesBelow, MakesTries};

use crate::TornDisk;
use crate::half::{Half, gate_of};
use cfs_base::{Block, BlockNo, Failed};

/// Reads the gate of a block, and returns the half that it shows.
pub fn shown_half<T: TornDisk>(lower: &mut T, at: BlockNo) -> Result<Half, Failed>
    requires on_disk { gate_at at.0 < T.blocks lower.old }
    requires room { gate_at at.0 < 2 ^ 32 }
    ensures shown { IfOk result (λ half. IsTrue (T.told lower.old (gate_at at.0))
        → half ≡ shown_half_of (T.content lower.old) at.0) }
    ensures stays { Stays T.TornDisk lower.old lower.new }
    ensures failed { IsErr result → FailedBelow T.TornDisk lower.old lower.new }
    ensures made { MakesBelow T.TornDisk 1 0 lower.old lower.new }
{
    let mut gate = Block::zero();
    lower.read(gate_of(at), &mut gate)?;
    Ok(Half::shown_by(&gate))
}

/// Writes a block below, and makes it survive a crash by a barrier.
fn write_through<T: TornDisk>(lower: &mut T, at: BlockNo, from: &Block) -> Result<(), Failed>
    requires { at.0 < T.blocks lower.old }
    ensures writes { PutsBelow T.TornDisk at.0 lower.old lower.new }
    ensures written { OnOk result (T.content lower.new ≡ set (T.content lower.old) at.0 from.now) }
    ensures flushed { OnOk result (IsFlushed T.TornDisk lower.new) }
    ensures cause { IsErr result → Rose (T.faults lower.old) (T.faults lower.new) }
    ensures last { IsTrue (T.tells_images lower.old) → T.moment lower.old ≡ 2 ^ 64 - 1 → IsErr result }
    ensures made { OnOk result (MakesBelow T.TornDisk 2 2 lower.old lower.new) }
    ensures stopped { OnErr result (MakesTries T.TornDisk 2 lower.old lower.new) }
{
    lower.write(at, from)?;
    lower.barrier()
}

/// Writes the half that isn't shown, and then the gate, so that this half is shown.
pub fn replace<T: TornDisk>(
    lower: &mut T,
    at: BlockNo,
    hidden: Half,
    from: &Block,
) -> Result<(), Failed>
    requires on_disk { gate_at at.0 < T.blocks lower.old }
    requires room { gate_at at.0 < 2 ^ 32 }
    requires flushed { IsFlushed T.TornDisk lower.old }
    requires hidden { IsTrue (T.honest lower.old) → hidden ≡ other_half (shown_half_of (T.content lower.old) at.0) }
    ensures changes { ChangesPair T.TornDisk at.0 (λ c. c ≡ set (pairs_in (T.content lower.old)) at.0 from.now)
        lower.old lower.new }
    ensures replaced { OnOk result (IsTrue (T.honest lower.old) → pairs_in (T.content lower.new)
        ≡ set (pairs_in (T.content lower.old)) at.0 from.now) }
    ensures flushed { OnOk result (IsFlushed T.TornDisk lower.new) }
    ensures cause { IsErr result → Rose (T.faults lower.old) (T.faults lower.new) }
    ensures last { IsTrue (T.tells_images lower.old) → T.moment lower.old ≡ 2 ^ 64 - 1 → IsErr result }
    ensures made { OnOk result (MakesBelow T.TornDisk 4 4 lower.old lower.new) }
    ensures stopped { OnErr result (MakesTries T.TornDisk 4 lower.old lower.new) }
{
    write_through(lower, hidden.at(at), from)?;
    write_through(lower, gate_of(at), &hidden.gate())
}
