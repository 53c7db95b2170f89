//! How texts are cut at the ends of their lines.
ghost use Rattle.std.specs.Prelude.{◌≡◌, ◌++◌, ◌∷◌, IfNone, IfSome, true};
ghost use Rattle.ufs_model.specs.Script.{LF};
ghost use Rattle.trail_text.specs.Trail.{has_no_end};

/// A line without its end, and the text after it.
#[derive(Clone, Copy)]
pub struct Cut<'a> {
    pub line: &'a [u8],
    pub rest: &'a [u8],
}

/// Returns the first line of the text, if it has an end.
#[tactic(auto, using(std::proofs::lemmas::List::Folds::list_all_more))]
pub fn first_line(text: &[u8]) -> Option<Cut<'_>>
    ensures none { IfNone result (has_no_end text.now ≡ true) }
    ensures text { IfSome result (λ cut. text.now ≡ cut.line.now ++ LF ∷ cut.rest.now) }
    ensures line { IfSome result (λ cut. has_no_end cut.line.now ≡ true) }
{
    'bytes: for end in 0..text.len() {
        if text[end] == b'\n' {
            return Some(Cut {
                line: &text[..end],
                rest: &text[end + 1..],
            });
        }
    }
    None
}
