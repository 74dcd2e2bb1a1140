//! Gives the rule (`specs/Rule`) as a type that `atomic_table` takes, and the ways in which threads split and merge
//! what they know (`specs/Splits`).
//!
//! Used by: `laws`, mw_table; mw_law_threads, for [`Begins`]. Change it with these two pages.
ghost use Rattle.std.specs.Prelude.{List, ℕ};
ghost use Rattle.mw_world.specs.declared.config.Config.{Config};
ghost use Rattle.mw_world.specs.Definition.Events.{WorldEvent};
ghost use Rattle.mw_world.specs.Definition.State.{TenantStart};
ghost use Rattle.mw_rule.specs.Splits.{without_file, takes_files, dealt, with_file_given, merges, learns, left_over, meets, note, spent};
ghost use Rattle.mw_rule.specs.Rule.{TableInvariant};
ghost use Rattle.mw_rule.specs.declared.views.View.{View};

use crate::views::View;
use atomic_table::{Join, Split, TableRule};
use mw_actor::Actor;

/// What a table may begin with.
pub trait Begins {
    // What the world is made of.
    ghost config: { Self → Config };

    // Whether the table may begin here: the first start gave the tenants this, and these events happened before.
    ghost begun: { Self → (ℕ → TenantStart) → List WorldEvent → Type 0 };

    // What the first thread knows.
    ghost first: { Self → View };
}

/// The rule of the table: the words and what the threads know are those of the world after some run.
pub struct WorldRule;

impl<B: Begins> TableRule<Actor, View, B> for WorldRule {
    ghost holds = { λ key. TableInvariant (B.config key) (B.begun key) };

    ghost first = { λ key. B.first key };
}

/// Gives a thread's first token to a new thread, with the requests that its worker finished.
pub struct Deals;

impl Split<View> for Deals {
    ghost left = { left_over };

    ghost right = { dealt };
}

/// Makes a note: a copy of what a thread has seen, without tokens, finished requests or files.
pub struct Notes;

impl Split<View> for Notes {
    ghost left = { λ view. view };

    ghost right = { note };
}

/// Tells a thread what a note says. What the thread has seen itself stays the same.
pub struct Learns;

impl Join<View> for Learns {
    ghost both = { learns };

    ghost spent = { spent };
}

/// Tells a thread what a note says, and the thread takes it as seen by itself.
pub struct Meets;

impl Join<View> for Meets {
    ghost both = { meets };

    ghost spent = { spent };
}

/// Merges all that another thread knew into a thread, with its tokens, finished requests and files.
pub struct Merges;

impl Join<View> for Merges {
    ghost both = { merges };

    ghost spent = { spent };
}

/// Gives a thread's first file to a new thread, with a note.
pub struct GivesFile;

impl Split<View> for GivesFile {
    ghost left = { without_file };

    ghost right = { with_file_given };
}

/// Takes another thread's files, and learns the run that it knew. Nothing else of the other thread is kept.
pub struct TakesFiles;

impl Join<View> for TakesFiles {
    ghost both = { takes_files };

    ghost spent = { spent };
}
