//! The root of an object that is made with a draft's commit.
ghost use Rattle.std.specs.Prelude.{◌≡◌, ◌≢◌, Some};

use crate::draft::ObjectDraft;
use cfs_base::BlockNo;

impl ObjectDraft {
    /// Gives the draft the root of a new object, which was claimed and written.
    ///
    /// `commit` makes it Allocated, and `abort` makes it Free.
    pub fn adopt(&mut self, created: BlockNo)
        requires some { created.0 ≢ 0 }
        ensures { self.new ≡ record self.old { created = Some created.0 } }
    {
        self.created = Some(created);
    }
}
