//! The law that `specs/Refusals` leaves `read_tenants` one answer for a tenants file: the contract of an empty
//! function.
//!
//! Nothing calls it. Change it with `specs/Refusals`, `specs/Limits` and `specs/LineTexts`.
ghost use Rattle.std.specs.Prelude.{◌≡◌, ◌↔◌, ℕ, List, Result, Ok};
ghost use Rattle.mw_config.specs.declared.refusals.Refusal.{Refusal};
ghost use Rattle.mw_config.specs.LineTexts.{Line};
ghost use Rattle.mw_config.specs.Limits.{IsTenantsFile};
ghost use Rattle.mw_config.specs.Refusals.{Answers};

/// States that a text has one answer. It is not both accepted and refused, it is not refused for two
/// reasons or at two lines, and it gives one list of lines.
pub fn one_answer()
    ensures { (pool : ℕ) (text : List ℕ) (one other : Result (List Line) Refusal)
        → Answers pool text one → Answers pool text other → one ≡ other }
{}
