//! What is proved of lines, as contracts of functions that do nothing.
ghost use Rattle.std.specs.Prelude.{◌≡◌, ◌≢◌, ◌++◌, ◌∷◌, [], ℕ, true};
ghost use Rattle.std.specs.List.{join_with_byte};
ghost use Rattle.ufs_model.specs.Printed.{reply_line};
ghost use Rattle.ufs_model.specs.Script.{LF};
ghost use Rattle.ufs_model.specs.declared.asked.Event.{Event};
ghost use Rattle.ufs_model.specs.declared.asked.Reply.{Reply};
ghost use Rattle.trail_text.specs.EventLine.{event_line, fits, in_8, reply_words};
ghost use Rattle.trail_text.specs.Trail.{has_no_end, opening_fits, opening_line, status_line};
ghost use Rattle.trail_text.specs.declared.ends.Opening.{Opening};

/// No two events that fit have the same line, and no two first lines that fit are the same.
///
/// No event's line is a last line. A reply is written in a line as it is to its session. No line has a line's end in
/// it.
pub fn lines_tell_events()
    ensures events { (a b : Event) → fits a ≡ true → fits b ≡ true → event_line a ≡ event_line b → a ≡ b }
    ensures openings { (o p : Opening) → opening_fits o ≡ true → opening_fits p ≡ true
        → opening_line o ≡ opening_line p → o ≡ p }
    ensures apart { (event : Event) (n : ℕ) → event_line event ≢ status_line n }
    ensures ends { (event : Event) → fits event ≡ true → has_no_end (event_line event) ≡ true }
    ensures status_ends { (n : ℕ) → in_8 n ≡ true → has_no_end (status_line n) ≡ true }
    ensures opening_ends { (o : Opening) → opening_fits o ≡ true → has_no_end (opening_line o) ≡ true }
    ensures replies { (reply : Reply) → reply_line reply ≡ join_with_byte 32 (reply_words reply) ++ LF ∷ [] }
{}
