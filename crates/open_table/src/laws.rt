//! The table gives what the model asks of its grants, as the contract of a function that does nothing.
ghost use Rattle.std.specs.Prelude.{◌≡◌, ℕ, ◌+◌, ◌++◌, [], ◌∷◌, Bool, true, is_some, nat_le, length, option_map};
ghost use Rattle.cfs_base.specs.declared.identifier.Puid.{Puid};
ghost use Rattle.cfs_base.specs.declared.identifier.Tuid.{Tuid};
ghost use Rattle.cfs_base.specs.declared.kind.Mode.{Mode};
ghost use Rattle.ufs_model.specs.declared.asked.Request.TheVariants as asks;
ghost use Rattle.ufs_model.specs.declared.limits.TheConstants.{MOST_GRANTS};
ghost use Rattle.ufs_model.specs.State.{State, grant_of, after_leave};
ghost use Rattle.ufs_model.specs.Outcome.{outcome_of};
ghost use Rattle.ufs_model.specs.Word.{word};
ghost use Rattle.ufs_model.specs.Refusal.{is_open, is_open_for_writing, is_locked, has_all_grants};
ghost use Rattle.open_table.specs.declared.grant.OpenGrant.{OpenGrant};
ghost use Rattle.open_table.specs.Grants.{session_grant, grants_of, open_mode, mode_against, without_grant};
ghost use Rattle.open_table.specs.Grants.{without_session};
ghost use Rattle.open_table.specs.Grants.{none_collide};
ghost use Rattle.open_table.specs.Model.{shown, table_of, is_writing};

/// The laws of a table of the model's grants, without their drafts.
///
/// They say what is found in it, when an opening is refused, and what a closing and a leave make of it.
pub fn table_follows_the_model()
    ensures found { (s : State) (who : ℕ) (t : Tuid)
        → session_grant (table_of s.grants) who t ≡ option_map shown (grant_of s who t) }
    ensures open { (s : State) (id : Puid) → is_some (open_mode (table_of s.grants) id) ≡ is_open s id }
    ensures written { (s : State) (id : Puid) → none_collide (table_of s.grants) ≡ true
        → is_writing (open_mode (table_of s.grants) id) ≡ is_open_for_writing s id }
    ensures locked { (s : State) (who : ℕ) (g : OpenGrant)
        → is_some (mode_against (table_of s.grants) g) ≡ is_locked s who (asks.OpenFor g.id g.mode) }
    ensures full { (s : State) (who : ℕ) (id : Puid) (mode : Mode)
        → nat_le MOST_GRANTS (length (grants_of (table_of s.grants) who))
        ≡ has_all_grants s who (asks.OpenFor id mode) }
    ensures opened { (seed : ℕ) (s : State) (who : ℕ) (id : Puid) (mode : Mode) (b : ℕ)
        → table_of (outcome_of seed s who (asks.OpenFor id mode) b).1.grants ≡ table_of s.grants ++ record {
          tuid = record { draw = s.drawn + 1; word = word seed (s.drawn + 1) };
          session = who;
          id = id;
          mode = mode;
        } ∷ [] }
    ensures closed { (seed : ℕ) (s : State) (who : ℕ) (t : Tuid) (commit : Bool) (b : ℕ)
        → table_of (outcome_of seed s who (asks.Close t commit) b).1.grants ≡ without_grant (table_of s.grants) who t }
    ensures left { (s : State) (who : ℕ)
        → table_of (after_leave s who).grants ≡ without_session (table_of s.grants) who }
{}
