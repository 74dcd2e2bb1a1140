//! Lets two passes meet: afterwards each has seen the sealed changes that either had seen.
//!
//! Used by: mw_engine, mw_table_tests. Change it with `specs/FileCalls`, `specs/Meet` and `specs/Passes`.
ghost use Rattle.std.specs.Prelude.{◌≡◌, ℕ, []};
ghost use Rattle.mw_rule.specs.Steps.{LearnsPlainLoad, LearnsMeeting, IsPrefix};
ghost use Rattle.mw_rule.specs.Splits.{dealt, merges, learns, left_over, note as said_by};
ghost use Rattle.mw_rule.specs.WordActions.{WentOn};
ghost use Rattle.mw_rule.specs.Rule.{IsLive};
ghost use Rattle.mw_table.specs.FileCalls.{IsFree};
ghost use Rattle.mw_table.specs.Meet.{HaveMet, IsSamePass, MetByNone};
ghost use Rattle.mw_table.specs.Passes.{IsOf, known};
ghost use Rattle.mw_world.specs.Definition.State.{tenants_of};

use crate::first_steps::Looks;
use crate::shared::{Pass, Shared};
use atomic_table::Seat;
use mw_actor::Actor;
use mw_rule::{Deals, Learns, Merges, Notes, View};
use std::mem;

impl Shared {
    /// Lets two passes meet, so that each has seen what either had seen. Afterwards both have seen the same sealed
    /// changes, and what each had seen before is a prefix of these. Each pass keeps its worker and the requests that
    /// the worker finished. All these requests, of both, are right among the changes seen, and each YES has a change
    /// of its own. Neither pass may have a file: a pass takes one only for a call. A meeting is no step of a request,
    /// and adds no event.
    pub fn meet(&self, one: &mut Pass, other: &mut Pass)
        requires one { IsOf self.now one.old }
        requires other { IsOf self.now other.old }
        requires one_free { IsFree one.old }
        requires other_free { IsFree other.old }
        ensures one { IsOf self.now one.new }
        ensures other { IsOf self.now other.new }
        ensures one_free { IsFree one.new }
        ensures other_free { IsFree other.new }
        ensures one_stays { IsSamePass one.old one.new }
        ensures other_stays { IsSamePass other.old other.new }
        ensures one_met { LearnsMeeting (known one.old) (known one.new) }
        ensures other_met { LearnsMeeting (known other.old) (known other.new) }
        ensures both { HaveMet (known one.new) (known other.new) }
        ensures event { MetByNone (known one.old) (known other.old) (known one.new) (known other.new) }
    {
        self.look(&mut one.seat);
        let said = self.seat_note(&mut one.seat);
        self.seat_learn(&mut other.seat, said);
        let its = self.part(&mut other.seat);
        self.merge(&mut one.seat, its);
        let own = self.part(&mut one.seat);
        other.seat = mem::replace(&mut one.seat, own);
    }

    /// Lets a thread see what is sealed by now.
    fn look(&self, seat: &mut Seat<Actor, View>)
        requires table { seat.old.table_id ≡ self.now.table.shared.table_id }
        requires live { IsLive seat.old.me.0 }
        ensures table { seat.new.table_id ≡ seat.old.table_id }
        ensures looked { (bits : ℕ) × LearnsPlainLoad 0 bits seat.old.me.0 seat.new.me.0 }
        ensures event { WentOn [] seat.old.me.0 seat.new.me.0 }
    {
        self.table.shared.load::<Looks>(seat, 0);
    }

    /// Returns a note of what a thread has seen.
    pub(crate) fn seat_note(&self, seat: &mut Seat<Actor, View>) -> Seat<Actor, View>
        requires table { seat.old.table_id ≡ self.now.table.shared.table_id }
        requires live { IsLive seat.old.me.0 }
        ensures table { seat.new.table_id ≡ seat.old.table_id }
        ensures same { seat.new.me ≡ seat.old.me }
        ensures its_table { result.table_id ≡ seat.old.table_id }
        ensures note { result.me ≡ (said_by seat.old.me.0, []) }
    {
        self.table.shared.split_seat::<Notes>(seat)
    }

    /// Tells a thread what a note says, which it then sees itself.
    pub(crate) fn seat_learn(&self, seat: &mut Seat<Actor, View>, note: Seat<Actor, View>)
        requires table { seat.old.table_id ≡ self.now.table.shared.table_id }
        requires its_table { note.table_id ≡ self.now.table.shared.table_id }
        requires live { IsLive seat.old.me.0 }
        requires note { (view : View) × (note.me ≡ (said_by view, [])) }
        ensures table { seat.new.table_id ≡ seat.old.table_id }
        ensures looked { (bits : ℕ) × LearnsPlainLoad 0 bits (learns seat.old.me.0 note.me.0) seat.new.me.0 }
        ensures event { WentOn [] (learns seat.old.me.0 note.me.0) seat.new.me.0 }
    {
        self.table.shared.join_seat::<Learns>(seat, note);
        self.look(seat);
    }

    /// Merges all that another thread knew, which had seen no less, into a thread. The thread then sees what is
    /// sealed by now.
    fn merge(&self, seat: &mut Seat<Actor, View>, its: Seat<Actor, View>)
        requires table { seat.old.table_id ≡ self.now.table.shared.table_id }
        requires its_table { its.table_id ≡ self.now.table.shared.table_id }
        requires live { IsLive seat.old.me.0 }
        requires its_live { IsLive its.me.0 }
        requires no_slot { its.me.1 ≡ [] }
        requires no_less { IsPrefix (tenants_of seat.old.me.0.config) seat.old.me.0.seen its.me.0.seen }
        ensures table { seat.new.table_id ≡ seat.old.table_id }
        ensures looked { (bits : ℕ) × LearnsPlainLoad 0 bits (merges seat.old.me.0 its.me.0) seat.new.me.0 }
        ensures event { WentOn [] (merges seat.old.me.0 its.me.0) seat.new.me.0 }
    {
        self.table.shared.join_seat::<Merges>(seat, its);
        self.look(seat);
    }

    /// Takes a thread's first token from it, with the requests that the token's worker finished. The thread keeps the
    /// others.
    fn part(&self, seat: &mut Seat<Actor, View>) -> Seat<Actor, View>
        requires table { seat.old.table_id ≡ self.now.table.shared.table_id }
        ensures table { seat.new.table_id ≡ seat.old.table_id }
        ensures rest { seat.new.me.0 ≡ left_over seat.old.me.0 }
        ensures its_table { result.table_id ≡ seat.old.table_id }
        ensures part { result.me ≡ (dealt seat.old.me.0, []) }
    {
        self.table.shared.split_seat::<Deals>(seat)
    }
}
