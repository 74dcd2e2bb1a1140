//! Makes one round of a read: up to its reply, or back to its first point.
//!
//! mw_engine reads by `try_look`, and so does mw_table_tests. A new reason to begin again needs a case in [`WhyAgain`] and in
//! `specs/Reasons`.
ghost use Rattle.std.specs.Prelude.{◌≡◌, true, false, is_some, None};
ghost use Rattle.mw_look.specs.declared.observations.Observation.TheVariants.{SawGate, SawWord, Lost};
ghost use Rattle.mw_look.specs.Program.{Reading};
ghost use Rattle.mw_look.specs.Program as looks;
ghost use Rattle.mw_actor.specs.declared.points.Point.TheVariants.{Read};
ghost use Rattle.mw_actor.specs.Program.{replied};
ghost use Rattle.mw_table.specs.FromRule.{MayCome};
ghost use Rattle.mw_table.specs.CarriedRequest.{IsCarried};
ghost use Rattle.mw_table.specs.Passes.{IsOf, IsOfSameWorker, known};
ghost use Rattle.mw_core.specs.ReadRounds.{EndsAs, IsLook, Looks, MakesFirst, MakesNext};
ghost use Rattle.mw_core.specs.ReadRounds as looking;
ghost use Rattle.mw_core.specs.Reasons as reasons;

use crate::calls::Core;
use mw_actor::{Actor, Point};
use mw_look::{Observation, Point as LookPoint, Told, Trail};
use mw_table::Pass;
use mw_words::{Gate, Reply, Word};

/// Why a read began again. It has given back what it held, and is at its first step. There is no other reason: each
/// gate to which it comes has room for a pin, and no word names the worn number; the change that holds a word has an
/// entry for it; and no word is held by a change that was made and is done with.
#[derive(Clone, Copy, PartialEq, Eq)]
pub enum WhyAgain {
    /// The word, loaded again, was another one than at first.
    WordChanged,
    /// The gate of the slot that is named by the word, or by its attempt's row, wasn't as these imply: it wasn't
    /// taken, had no pin, or had another number.
    GateDiffers,
    /// The gate had changed since it was loaded, when the read was to add a pin to it.
    PinLost,
}

impl Core {
    /// Makes one round of a read, in at most 11 + [`MAX_ENTRIES`] steps: up to its reply, or back to its first point.
    /// The request is a read at its first step. If the pass is idle, the request comes to it; else it is the one that
    /// the pass carries, as an earlier call has left it.
    ///
    /// After a reply the pass is idle. If the read began again, the pass still carries it, at its first step, and the
    /// request is as it was: the next call with both goes on with it.
    ///
    /// [`MAX_ENTRIES`]: mw_words::MAX_ENTRIES
    pub fn try_look(&self, pass: &mut Pass, actor: &mut Actor) -> Result<Reply, WhyAgain>
        requires own { IsOf self.now.shared pass.old }
        requires look { IsLook actor.old }
        requires comes { pass.old.idle ≡ true → MayCome (known pass.old) pass.old.worker actor.old }
        requires goes_on { pass.old.idle ≡ false → IsCarried pass.old actor.old }
        ensures own { IsOf self.now.shared pass.new }
        ensures worker { IsOfSameWorker pass.old pass.new }
        ensures looks { Looks pass.old pass.new actor.old actor.new result }
        ensures carried { IsCarried pass.new actor.new }
    {
        self.make_first(pass, actor);
        let mut why = None;
        while is_under_way(actor) {
            why = self.make_next(pass, actor).or(why);
        }
        end(pass, actor, why)
    }

    /// Makes the first step of a read, a load of its tenant's door. If the pass is idle, the read comes with it.
    fn make_first(&self, pass: &mut Pass, actor: &mut Actor)
        requires own { IsOf self.now.shared pass.old }
        requires look { IsLook actor.old }
        requires comes { pass.old.idle ≡ true → MayCome pass.old.seat.me.0 pass.old.worker actor.old }
        requires goes_on { pass.old.idle ≡ false → IsCarried pass.old actor.old }
        ensures own { IsOf self.now.shared pass.new }
        ensures worker { IsOfSameWorker pass.old pass.new }
        ensures made { (look : IsLook actor.old) → MakesFirst pass.old pass.new actor.old actor.new look.address }
        ensures carried { IsCarried pass.new actor.new }
    {
        if pass.idle() {
            self.begin(pass, actor);
        } else {
            self.advance(pass, actor);
        }
    }

    /// Makes the next step of a read that is under way. Returns why the read turns back there, if it does.
    fn make_next(&self, pass: &mut Pass, actor: &mut Actor) -> Option<WhyAgain>
        requires own { IsOf self.now.shared pass.old }
        requires carried { IsCarried pass.old actor.old }
        requires running { replied actor.old ≡ None }
        requires look { (read : Reading) × (actor.old.point ≡ Read read) }
        ensures own { IsOf self.now.shared pass.new }
        ensures worker { IsOfSameWorker pass.old pass.new }
        ensures made { (read : Reading) → actor.old.point ≡ Read read → MakesNext pass.old pass.new actor.old actor.new read result }
        ensures carried { IsCarried pass.new actor.new }
    {
        let point = look_point(actor);
        let op = actor.ask();
        let got = self.shared().step(pass, op);
        actor.tell_of(
            op,
            Told {
                got,
                next: pass.attempt(),
            },
        );
        turns(point, Observation::of(op.place(), got))
    }
}

/// Returns where a read is in its program. Of a change it says nothing.
fn look_point(actor: &Actor) -> LookPoint
    ensures { (read : Reading) → actor.now.point ≡ Read read → result ≡ read.point }
{
    match actor.point() {
        Point::Read(look) => look.point(),
        _ => LookPoint::ReadDoor,
    }
}

/// Returns whether a read is neither at its first point nor at its reply.
fn is_under_way(actor: &Actor) -> bool
    ensures { (read : Reading) → actor.now.point ≡ Read read → result ≡ looking.is_under_way read.point }
{
    match look_point(actor) {
        LookPoint::ReadDoor => false,
        LookPoint::Replied(_) => false,
        _ => true,
    }
}

/// Ends a round. It returns the reply, and the pass is idle then; or why the read is back at its first point.
fn end(pass: &mut Pass, actor: &Actor, why: Option<WhyAgain>) -> Result<Reply, WhyAgain>
    requires carried { IsCarried pass.old actor.now }
    requires why { replied actor.now ≡ None → is_some why ≡ true }
    ensures ends { EndsAs result pass.old pass.new actor.now why }
    ensures carried { IsCarried pass.new actor.now }
{
    if let Some(reply) = actor.reply() {
        pass.rest(actor);
        return Ok(reply);
    }
    match why {
        Some(why) => Err(why),
        None => unreachable!(),
    }
}

/// Returns why a read turns back at a point, by what it is told there.
fn turns(point: LookPoint, observation: Observation) -> Option<WhyAgain>
    ensures { result ≡ reasons.turns point observation }
{
    match observation {
        Observation::SawGate(gate) => turns_at_gate(point, gate),
        Observation::SawWord(word) => turns_at_word(point, word),
        Observation::Lost => turns_at_loss(point),
        Observation::SawDoor(_) => None,
        Observation::SawStatus(_) => None,
        Observation::SawRow(_) => None,
        Observation::SawNumber(_) => None,
        Observation::Won => None,
        Observation::Filed(_) => None,
        Observation::Junk => None,
    }
}

fn turns_at_gate(point: LookPoint, gate: Gate) -> Option<WhyAgain>
    ensures { result ≡ reasons.turns point (SawGate gate) }
{
    match point {
        LookPoint::ReadGate(trail) => gate_turns(trail, gate),
        _ => None,
    }
}

fn turns_at_word(point: LookPoint, word: Word) -> Option<WhyAgain>
    ensures { result ≡ reasons.turns point (SawWord word) }
{
    match point {
        LookPoint::ConfirmWord(trail) => word_turns(trail, word),
        LookPoint::RecheckWord { trail, .. } => word_turns(trail, word),
        _ => None,
    }
}

fn turns_at_loss(point: LookPoint) -> Option<WhyAgain>
    ensures { result ≡ reasons.turns point Lost }
{
    match point {
        LookPoint::Pin { .. } => Some(WhyAgain::PinLost),
        _ => None,
    }
}

fn gate_turns(trail: Trail, gate: Gate) -> Option<WhyAgain>
    ensures { result ≡ reasons.gate_turns trail gate }
{
    if !gate.taken || gate.pins == 0 || gate.seq != seq_of(trail) {
        Some(WhyAgain::GateDiffers)
    } else {
        None
    }
}

fn word_turns(trail: Trail, word: Word) -> Option<WhyAgain>
    ensures { result ≡ reasons.word_turns trail word }
{
    if word == word_of(trail) {
        None
    } else {
        Some(WhyAgain::WordChanged)
    }
}

/// Returns the word with which a trail began.
fn word_of(trail: Trail) -> Word
    ensures { result ≡ looks.word_of trail }
{
    match trail {
        Trail::Held { slot, seq } => Word::Held { slot, seq },
        Trail::Planted {
            worker,
            attempt,
            ..
        } => Word::Planted { worker, attempt },
    }
}

/// Returns the sequence number of the slot that a trail means.
fn seq_of(trail: Trail) -> u64
    ensures { result ≡ looks.seq_of trail }
{
    match trail {
        Trail::Held { seq, .. } => seq,
        Trail::Planted { row, .. } => row.seq,
    }
}
