//! What is proved of files as they are, as the contract of a function that does nothing.
ghost use Rattle.std.specs.Prelude.{◌≡◌, Some};
ghost use Rattle.cfs_base.specs.Disk.{Image};
ghost use Rattle.cfs_base.specs.declared.identifier.Puid.{Puid};
ghost use Rattle.normal_files.specs.Standing.{IsFileAt};
ghost use Rattle.ufs_model.specs.Graph.{Graph, object_at};
ghost use Rattle.ufs_model.specs.declared.object.File as files;
ghost use Rattle.ufs_model.specs.declared.object.Object.TheVariants as objects;
ghost use Rattle.vol_owners.specs.Account.{Accounts, Drafts};

/// A file of the graph is the one that its root block gives.
pub fn files_are_read_by_their_roots()
    ensures { (image : Image) (graph : Graph) (ds : Drafts) (id : Puid) (f : files.File) → Accounts image graph ds
        → object_at graph id ≡ Some (objects.File f) → IsFileAt image id.block f }
{}
