//! What is proved of verdicts, as the contract of a function that does nothing.
ghost use Rattle.std.specs.Prelude.{◌≡◌, ℕ, List};
ghost use Rattle.cfs_audit.specs.Verdict.{IsVerdict};
ghost use Rattle.cfs_audit.specs.declared.trail.Verdict.{Verdict};

/// A text has one verdict.
///
/// So it is a legal trail exactly if that is the verdict, and else the verdict names the first bad line or the first
/// event that may not happen.
pub fn texts_have_one_verdict()
    ensures { (text : List ℕ) (a b : Verdict) → IsVerdict text a → IsVerdict text b → a ≡ b }
{}
