//! The files that a command names.
ghost use Rattle.std.specs.Prelude.{◌≡◌, ◌≤◌, ℕ, List, [], ◌∷◌, length, map, None, Some, IfSome, IfOk, false};
ghost use Rattle.std.specs.Prelude.{string_bytes};
ghost use Rattle.cfs_serve.specs.Commands.{asked_of};
ghost use Rattle.cfs_serve.specs.Whole.{HasCylinders, HasPlaces, NamesVolume};
ghost use Rattle.cfs_serve.specs.Words as spec;
ghost use Rattle.cfs_serve.specs.Words.{Audits, Conversation, Converses, NamesService, Serves, Service, inputs_in};
ghost use Rattle.cfs_serve.specs.Words.{most_made, outputs_in, Dirs as asks_dirs};

use crate::command::{Command, Format, Serve};
use crate::paths::{Files, Volume, no_paths, one_path, path_of, session_paths};
use std::alloc::{AllocError, Global};

/// Names no files. Takes no memory.
fn no_files(alloc: Global) -> Files
    ensures volume { result.volume ≡ None }
    ensures places { (result.sources ≡ []) × (result.sinks ≡ []) }
    ensures pair { result.pair ≡ false }
{
    Files {
        volume: None,
        sources: no_paths(alloc),
        sinks: no_paths(alloc),
        pair: false,
    }
}

/// Names the volume that is to be made, and no other file.
fn volume_files(alloc: Global, format: &Format<'_>) -> Result<Files, AllocError>
    ensures volume { IfOk result (λ n. n.volume ≡ Some (Volume.Fresh format.now.volume.now format.now.cylinders)) }
    ensures places { IfOk result (λ n. (n.sources ≡ []) × (n.sinks ≡ [])) }
    ensures pair { IfOk result (λ n. n.pair ≡ format.now.pair) }
{
    Ok(Files {
        volume: Some(Volume::Fresh {
            path: path_of(alloc, format.volume)?,
            cylinders: format.cylinders,
        }),
        sources: no_paths(alloc),
        sinks: no_paths(alloc),
        pair: format.pair,
    })
}

/// Names the volume that is to be inspected, and no other file.
fn inspected_files(alloc: Global, volume: &str) -> Result<Files, AllocError>
    ensures volume { IfOk result (λ n. n.volume ≡ Some (Volume.Existing volume.now)) }
    ensures places { IfOk result (λ n. (n.sources ≡ []) × (n.sinks ≡ [])) }
    ensures pair { IfOk result (λ n. n.pair ≡ false) }
{
    Ok(Files {
        volume: Some(Volume::Existing {
            path: path_of(alloc, volume)?,
        }),
        sources: no_paths(alloc),
        sinks: no_paths(alloc),
        pair: false,
    })
}

/// Names the file of a trail, and no other.
fn trail_files(alloc: Global, trail: &str) -> Result<Files, AllocError>
    ensures volume { IfOk result (λ n. n.volume ≡ None) }
    ensures places { IfOk result (λ n. (n.sources ≡ trail.now ∷ []) × (n.sinks ≡ [])) }
    ensures pair { IfOk result (λ n. n.pair ≡ false) }
{
    Ok(Files {
        volume: None,
        sources: one_path(alloc, trail)?,
        sinks: no_paths(alloc),
        pair: false,
    })
}

/// Names the request files and the reply files of sessions, beside a volume.
fn session_files(
    alloc: Global,
    volume: Option<Volume>,
    files: &[String],
    pair: bool,
) -> Result<Files, AllocError>
    ensures volume { IfOk result (λ n. n.volume ≡ volume) }
    ensures sources { IfOk result (λ n. n.sources ≡ inputs_in (map string_bytes files.now)) }
    ensures sinks { IfOk result (λ n. n.sinks ≡ outputs_in (map string_bytes files.now)) }
    ensures pair { IfOk result (λ n. n.pair ≡ pair) }
{
    let (sources, sinks) = session_paths(alloc, files)?;
    Ok(Files {
        volume,
        sources,
        sinks,
        pair,
    })
}

/// Names the volume that is to be served, and the files of its sessions.
fn served_files(alloc: Global, serve: &Serve<'_>) -> Result<Files, AllocError>
    ensures volume { IfOk result (λ n. n.volume ≡ Some (Volume.Existing serve.now.volume.now)) }
    ensures sources { IfOk result (λ n. n.sources ≡ inputs_in (map string_bytes serve.now.files.now)) }
    ensures sinks { IfOk result (λ n. n.sinks ≡ outputs_in (map string_bytes serve.now.files.now)) }
    ensures pair { IfOk result (λ n. n.pair ≡ serve.now.pair) }
{
    let path = path_of(alloc, serve.volume)?;
    session_files(
        alloc,
        Some(Volume::Existing { path }),
        serve.files,
        serve.pair,
    )
}

/// Names the volume of a single session, the file that its lines come from, and the file of their answers.
fn line_files(alloc: Global, volume: &str, input: &str, output: &str) -> Result<Files, AllocError>
    ensures volume { IfOk result (λ n. n.volume ≡ Some (Volume.Existing volume.now)) }
    ensures sources { IfOk result (λ n. n.sources ≡ input.now ∷ []) }
    ensures sinks { IfOk result (λ n. n.sinks ≡ output.now ∷ []) }
    ensures pair { IfOk result (λ n. n.pair ≡ false) }
{
    Ok(Files {
        volume: Some(Volume::Existing {
            path: path_of(alloc, volume)?,
        }),
        sources: one_path(alloc, input)?,
        sinks: one_path(alloc, output)?,
        pair: false,
    })
}

impl Command<'_> {
    /// Returns the files that the command names: none for a page or a spin. Fails for want of memory.
    pub fn files(&self, alloc: Global) -> Result<Files, AllocError>
        ensures volume { IfOk result (λ n. NamesVolume (asked_of (Some self.now)) n.volume) }
        ensures sized { IfOk result (λ n. IfSome n.volume (HasCylinders n.pair)) }
        ensures pair { IfOk result (λ n. n.pair ≡ spec.is_pair (asked_of (Some self.now))) }
        ensures places { IfOk result (λ n. HasPlaces (asked_of (Some self.now)) (length n.sources) (length n.sinks)) }
        ensures sources { IfOk result (λ n. (s : Service) → asked_of (Some self.now) ≡ Serves s
            → n.sources ≡ map (λ f. f.input) s.sessions) }
        ensures trail { IfOk result (λ n. (t : List ℕ) → asked_of (Some self.now) ≡ Audits t → n.sources ≡ t ∷ []) }
        ensures sinks { IfOk result (λ n. (s : Service) → asked_of (Some self.now) ≡ Serves s
            → n.sinks ≡ map (λ f. f.output) s.sessions) }
        ensures names { IfOk result (λ n. (m : NamesService) → asked_of (Some self.now) ≡ asks_dirs m
            → (n.sources ≡ m.input ∷ []) × (n.sinks ≡ m.output ∷ [])) }
        ensures talks { IfOk result (λ n. (t : Conversation) → asked_of (Some self.now) ≡ Converses t
            → (n.sources ≡ t.input ∷ []) × (n.sinks ≡ t.output ∷ [])) }
    {
        match self {
            Command::Page(_) | Command::Spin(_) => Ok(no_files(alloc)),
            Command::Format(format) => volume_files(alloc, format),
            Command::Audit(trail) => trail_files(alloc, trail),
            Command::Check(volume) | Command::Mend(volume) => inspected_files(alloc, volume),
            Command::Play(play) => session_files(alloc, None, play.files, false),
            Command::Serve(serve) => served_files(alloc, serve),
            Command::Dirs(dirs) => line_files(alloc, dirs.volume, dirs.input, dirs.output),
            Command::Converse(talk) => line_files(alloc, talk.volume, talk.input, talk.output),
        }
    }
}
