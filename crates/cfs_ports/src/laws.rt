//! What is proved of the definitions, as contracts. None of these calls does anything.
ghost use Rattle.std.specs.Prelude.{◌≡◌, ℕ, List, [], ◌∷◌, ◌++◌, true};
ghost use Rattle.std.specs.List.{list_all};
ghost use Rattle.cfs_ports.specs.Lines.{asking_lines, is_within_line, joined_lines};
ghost use Rattle.ufs_model.specs.Script.{request_lines};

/// The request lines of a text are those of its lines, whole ones and a last one.
pub fn lines_are_asked()
    ensures one { (line : List ℕ) → is_within_line line ≡ true → request_lines line ≡ asking_lines (line ∷ []) }
    ensures all { (lines : List (List ℕ)) (last : List ℕ) → list_all is_within_line lines ≡ true
        → is_within_line last ≡ true
        → request_lines (joined_lines lines ++ last) ≡ asking_lines (lines ++ last ∷ []) }
{}
