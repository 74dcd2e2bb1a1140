//! Laws (contracts of empty functions) of the bits in shared words, and of every run of a read, whatever its steps
//! find.
//!
//! mw_law_runs, mw_rule and others cite the lemmas behind `places_have_patterns`, mw_core those behind
//! `reads_stay_at_their_word`. Change them with `specs/PlacePatterns` or `specs/Runs`. docs/STEPS refers to the laws.
ghost use Rattle.mw_look.specs.PlacePatterns.{PacksFit, PacksAreUnpacked, PacksAreApart, PacksAreSeen, NilIsZero};
ghost use Rattle.mw_look.specs.Runs.{ReadsChangeOnlyPins, ReadsStayAtTheirWord, ReadsAreUnderPin, PinsAreHeldUntilTakenBack, RepliesGiveBack, RepliesStay, RepliesAreOfTheWord};

/// A value in range has 64 bits at its place. No other value in range has the same bits there, and they are
/// unpacked to the value. A machine that loads the bits is told that it saw the value. At each place, the value
/// whose bits are 0 is in range.
pub fn places_have_patterns()
    ensures fit { PacksFit }
    ensures unpacked { PacksAreUnpacked }
    ensures apart { PacksAreApart }
    ensures seen { PacksAreSeen }
    ensures nil { NilIsZero }
{}

/// A read changes only gates and doors: it adds a pin, takes one back, frees a gate, or counts one slot off a
/// door. It makes no call on the file. The laws below say that the door is its tenant's, and that it frees the
/// slots whose last pin it took back.
pub fn reads_change_only_pins()
    ensures { ReadsChangeOnlyPins }
{}

/// The steps of a read are at no door of another tenant, at no word of another tenant, and at no word with
/// another address.
pub fn reads_stay_at_their_word()
    ensures { ReadsStayAtTheirWord }
{}

/// A read loads a slot's status and entries, and takes a pin back, only while it holds a pin of that slot. Two
/// kinds of step change what it holds: an exchange that wins a pin, under the gate's number, and the step that
/// takes the pin back. If that was the slot's last pin, the next step frees the slot, with the next number.
pub fn reads_are_under_pin()
    ensures under_pin { ReadsAreUnderPin }
    ensures held { PinsAreHeldUntilTakenBack }
{}

/// When a read has its reply, it has taken back each pin that it won and freed each slot whose last pin that
/// was. It has lowered the door once for each freed slot. It keeps its reply, whatever it is told afterwards.
pub fn replies_give_back()
    ensures give_back { RepliesGiveBack }
    ensures stay { RepliesStay }
{}

/// If the reply is a value, one of two things happened. The read just loaded the word, and the word itself has
/// the value. Or it loaded the word, then the slot's status and the entry's values, and then the same word
/// again.
pub fn replies_are_of_the_word()
    ensures { RepliesAreOfTheWord }
{}
