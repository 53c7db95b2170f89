//! Faults of a volume, as they are reported.
use cfs_base::Damage;
use std::marker::Model;

/// A list of faults. Contracts see the list.
#[derive(Debug, Drop)]
pub struct Damages {
    faults: Vec<Damage>,
}

impl Model for Damages {
    ghost use Rattle.std.specs.Prelude.{List};
    ghost use Rattle.cfs_base.specs.declared.refusal.Damage.{Damage};

    ghost Value = { List Damage };

    ghost view = { λ a. a.faults.items };

    ghost invariant = { λ a. Unit {0} };
}

impl Damages {
    ghost use Rattle.std.specs.Prelude.{◌≡◌};

    /// Wraps a vector of faults. Takes no memory.
    pub fn of(faults: Vec<Damage>) -> Damages
        ensures { result ≡ faults.items }
    {
        Damages { faults }
    }

    /// Returns the faults as a slice.
    pub fn as_slice(&self) -> &[Damage]
        ensures { result.now ≡ self.now }
    {
        &self.faults
    }

    /// Returns the vector inside. Takes no memory.
    pub fn into_vec(self) -> Vec<Damage>
        ensures { result.items ≡ self }
    {
        self.faults
    }
}
