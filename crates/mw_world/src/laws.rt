//! States facts about the definition of a world: places are apart, runs extend by events, starts have the
//! invariant, short runs come out.
//!
//! The functions are empty: their contracts are the facts. Crates of laws, mw_rule and mw_simulator cite the lemmas
//! behind them. To change a fact, begin with its definition in `specs`.
ghost use Rattle.std.specs.Prelude.{ℕ};
ghost use Rattle.mw_world.specs.Claim.Examples.{ComeOut};
ghost use Rattle.mw_world.specs.Claim.Headline.{EqualMarksHaveEqualReplies, EveryRunIsDurablyLinearizable};
ghost use Rattle.mw_world.specs.Claim.Invariant.{Invariant};
ghost use Rattle.mw_world.specs.Claim.Laws.{ReadSame, ReadOther, RunExtends};
ghost use Rattle.mw_world.specs.Definition.State.{IsConfig, IsStart, TenantStart, first_openings, world_at};
ghost use Rattle.mw_world.specs.declared.config.Config.{Config};

/// A place has what was last written there, and a write changes no other place.
pub fn places_are_apart()
    ensures same { ReadSame }
    ensures other { ReadOther }
{}

/// A run of some events and one more is the run of those events, followed by the step of the last.
pub fn runs_extend()
    ensures { RunExtends }
{}

/// The runs of `specs/Claim/Examples.antt` come out as they should. They are short and computed.
pub fn runs_come_out()
    ensures { ComeOut }
{}

/// The invariant holds at every start of a server's tenants, where runs begin.
pub fn starts_keep_the_invariant()
    ensures { (config : Config) (openings : ℕ → TenantStart) → IsConfig config → IsStart config openings → Invariant config (world_at config openings) }
{}

/// Each configuration that a world may have gives a start: the new world of that configuration.
pub fn new_worlds_start()
    ensures { (config : Config) → IsConfig config → IsStart config (first_openings config) }
{}

/// If every run is durably linearizable for each tenant, equal marks have equal replies.
pub fn equal_marks_have_equal_replies()
    ensures replies { EveryRunIsDurablyLinearizable → EqualMarksHaveEqualReplies }
{}
