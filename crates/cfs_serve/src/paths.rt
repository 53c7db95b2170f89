//! The files that a command names.
ghost use Rattle.std.specs.Prelude.{◌≡◌, [], ◌∷◌, IfOk, map, string_bytes};
ghost use Rattle.cfs_serve.specs.Words.{inputs_in, outputs_in};

use std::alloc::{AllocError, Global};
use std::marker::Model;

/// The name of a file. `-` is a standard stream.
#[derive(Debug, Drop)]
pub struct Path {
    text: String,
}

impl Model for Path {
    ghost use Rattle.std.specs.Prelude.{List, ℕ, string_bytes};

    ghost Value = { List ℕ };

    ghost view = { λ p. string_bytes p.text };
}

impl Path {
    /// Returns the name as text.
    pub fn as_str(&self) -> &str
        ensures { result.now ≡ self.now }
    {
        self.text.as_str()
    }
}

/// Names of files, in order.
#[derive(Debug, Drop)]
pub struct Paths {
    paths: Vec<Path>,
}

impl Model for Paths {
    ghost use Rattle.std.specs.Prelude.{List, ℕ};

    ghost Value = { List (List ℕ) };

    ghost view = { λ a. a.paths.items };
}

impl Paths {
    /// Returns the names.
    pub fn as_slice(&self) -> &[Path]
        ensures { result.now ≡ self.now }
    {
        self.paths.as_slice()
    }
}

/// A volume in a file.
#[derive(Debug, Drop)]
pub enum Volume {
    /// The volume exists.
    Existing { path: Path },
    /// The volume is to be made, of `cylinders` cylinders.
    Fresh { path: Path, cylinders: u32 },
}

/// The files that a command names.
#[derive(Debug, Drop)]
pub struct Files {
    /// The volume, if it is in a file.
    pub volume: Option<Volume>,
    /// The request files, session by session, or the trail of an audit.
    pub sources: Paths,
    /// The reply files, session by session.
    pub sinks: Paths,
    /// Whether the volume's file is one of pairs of blocks.
    pub pair: bool,
}

/// Copies the name of a file. Fails for want of memory.
pub(crate) fn path_of(alloc: Global, text: &str) -> Result<Path, AllocError>
    ensures { IfOk result (λ p. p ≡ text.now) }
{
    Ok(Path {
        text: String::from_str(alloc, text)?,
    })
}

/// Copies the names that these words give in pairs: of each session's request file, and of its reply file.
///
/// Fails for want of memory.
pub(crate) fn session_paths(alloc: Global, words: &[String]) -> Result<(Paths, Paths), AllocError>
    ensures { IfOk result (λ p. (p.0 ≡ inputs_in (map string_bytes words.now))
        × (p.1 ≡ outputs_in (map string_bytes words.now))) }
{
    let mut inputs = Vec::new(alloc);
    let mut outputs = Vec::new(alloc);
    let mut rest = words;
    'files: while let [input, output, others @ ..] = rest {
        inputs.push(path_of(alloc, input.as_str())?)?;
        outputs.push(path_of(alloc, output.as_str())?)?;
        rest = others;
    }
    Ok((Paths { paths: inputs }, Paths { paths: outputs }))
}

/// Copies one name. Fails for want of memory.
pub(crate) fn one_path(alloc: Global, text: &str) -> Result<Paths, AllocError>
    ensures { IfOk result (λ p. p ≡ text.now ∷ []) }
{
    let mut paths = Vec::new(alloc);
    paths.push(path_of(alloc, text)?)?;
    Ok(Paths { paths })
}

/// Returns no names. Takes no memory.
pub(crate) fn no_paths(alloc: Global) -> Paths
    ensures { result ≡ [] }
{
    Paths {
        paths: Vec::new(alloc),
    }
}
