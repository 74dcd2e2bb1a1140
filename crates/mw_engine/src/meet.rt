//! Lets two passes meet: afterwards each has seen the sealed changes that either had seen.
//!
//! Only tests use it: sessions of `mwserve` use `notes`. Change it with `specs/Passes`.
ghost use Rattle.mw_core.specs.FromTable.{HaveMet, IsSamePass, LearnsMeeting, MetByNone, known};
ghost use Rattle.mw_engine.specs.Passes.{IsPassOf};

use crate::brand::EngineBrand;
use crate::engine::Engine;
use mw_core::Pass;
use mw_disk::Disk;

impl<J: EngineBrand, D: Disk, H> Engine<J, D, H> {
    /// Lets two passes meet. Afterwards both have seen the same sealed changes, and at least what each had seen
    /// before. Each still has the requests that its worker finished. The finished requests of both are right among
    /// the changes seen, and each YES has a change of its own. A meeting adds no event to the run.
    pub fn meet(&self, one: &mut Pass, other: &mut Pass)
        requires one { IsPassOf J.identity one.old }
        requires other { IsPassOf J.identity other.old }
        ensures one { IsPassOf J.identity one.new }
        ensures other { IsPassOf J.identity other.new }
        ensures one_stays { IsSamePass one.old one.new }
        ensures other_stays { IsSamePass other.old other.new }
        ensures one_met { LearnsMeeting (known one.old) (known one.new) }
        ensures other_met { LearnsMeeting (known other.old) (known other.new) }
        ensures both { HaveMet (known one.new) (known other.new) }
        ensures event { MetByNone (known one.old) (known other.old) (known one.new) (known other.new) }
    {
        self.words.core.shared().meet(one, other);
    }
}
