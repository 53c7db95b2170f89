//! The verbs of the language, in a table.
ghost use Rattle.std.specs.Prelude.{◌≡◌, map};
ghost use Rattle.std.specs.Option.{option_map};
ghost use Rattle.ufs_model.specs.Spoken.{all_forms, form_of};
ghost use Rattle.cfs_script.specs.Language.{form_of_verb, forms_of};

/// What a request line begins with.
#[derive(Clone, Copy, Debug, PartialEq, Eq)]
pub enum Verb {
    /// `create-file`
    CreateFile,
    /// `create-index`
    CreateIndex,
    /// `retain`
    Retain,
    /// `retrieve`
    Retrieve,
    /// `delete`
    Delete,
    /// `slots`
    Slots,
    /// `open`
    Open,
    /// `close`
    Close,
    /// `read`
    Read,
    /// `write`
    Write,
    /// `size`
    Size,
    /// `resize`
    Resize,
}

/// Returns all verbs.
pub fn all_verbs() -> [Verb; 12]
    ensures { forms_of result ≡ all_forms }
{
    [
        Verb::CreateFile,
        Verb::CreateIndex,
        Verb::Retain,
        Verb::Retrieve,
        Verb::Delete,
        Verb::Slots,
        Verb::Open,
        Verb::Close,
        Verb::Read,
        Verb::Write,
        Verb::Size,
        Verb::Resize,
    ]
}

impl Verb {
    /// Returns the verb's word.
    fn letters(self) -> &'static [u8]
        ensures { result.now ≡ (form_of_verb self).verb }
    {
        match self {
            Verb::CreateFile => b"create-file",
            Verb::CreateIndex => b"create-index",
            Verb::Retain => b"retain",
            Verb::Retrieve => b"retrieve",
            Verb::Delete => b"delete",
            Verb::Slots => b"slots",
            Verb::Open => b"open",
            Verb::Close => b"close",
            Verb::Read => b"read",
            Verb::Write => b"write",
            Verb::Size => b"size",
            Verb::Resize => b"resize",
        }
    }

    /// Returns whether the next word is a name that an ok reply binds.
    pub fn binds(self) -> bool
        ensures { result ≡ (form_of_verb self).binds }
    {
        match self {
            Verb::CreateFile | Verb::CreateIndex | Verb::Retrieve | Verb::Open => true,
            Verb::Retain | Verb::Delete | Verb::Slots | Verb::Close => false,
            Verb::Read | Verb::Write | Verb::Size | Verb::Resize => false,
        }
    }
}

/// Returns the verb of this language with this word.
pub fn verb_of(language: &[Verb], word: &[u8]) -> Option<Verb>
    ensures { option_map form_of_verb result ≡ form_of (forms_of language.now) word.now }
{
    'language: for verb in language {
        if word == verb.letters() {
            return Some(*verb);
        }
    }
    None
}
