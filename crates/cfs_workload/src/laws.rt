//! What is proved of scripts, as the contract of a function that does nothing.
ghost use Rattle.std.specs.Prelude.{◌≡◌, ℕ, ◌<◌, ◌≤◌, ◌+◌, ◌*◌, length};
ghost use Rattle.ufs_model.specs.Script.{request_lines};
ghost use Rattle.cfs_workload.specs.Workload.{script};

/// A script has one first request line and one for each word that is drawn, of at most 64 bytes each.
pub fn scripts_have_so_many_lines()
    ensures lines { (seed : ℕ) (session : ℕ) (count : ℕ) → session < 4
        → length (request_lines (script seed session count)) ≡ count + 1 }
    ensures short { (seed : ℕ) (session : ℕ) (count : ℕ) → session < 4
        → length (script seed session count) ≤ 64 * (count + 1) }
{}
