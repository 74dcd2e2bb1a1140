//! Tests calls that several changes of a file share, with one to four under way: the power fails in each, each device
//! call fails, and a crash cuts off the opening after a crash.
//!
//! All files here have eight words and four places. The change in place p writes the words 2p and 2p + 1.
use crate::calls::{Told, change, prepare_all, prepare_at, seal, seal_with, settle_all};
use crate::files::{
    ONES, SET_FIRST, Trouble, WRITTEN, bring_trouble, disk_leaves, faults, leaves, left, new_file,
    opening, opens_with, troubled,
};
use crate::power_tests::torn_anywhere;
use crate::same::{MEMORY, same};
use mw_file::{FileFault, NewChange, Place, TenantFile};
use mw_memory_disk::MemDisk;
use std::process::Abort;

/// A call on a file with four places, and what each place has before it: `.` nothing, `p` a prepared change, `s` a
/// sealed one, `c` a prepared change that the call seals, and `a` nothing, but the call prepares a change there.
#[derive(Clone, Copy)]
struct Case {
    /// What tells the case apart in a message: the call and the letters.
    name: &'static str,
    call: Shared,
    places: [u8; 4],
}

/// The call.
#[derive(Clone, Copy)]
enum Shared {
    Prepare,
    Seal,
    Settle,
}

/// The change in each place.
static CHANGES: [[(u16, u64); 2]; 4] = [
    [(0, 0x1111_1111_1111), (1, 0x2222_2222_2222)],
    [(2, 0x3333_3333_3333), (3, 0x4444_4444_4444)],
    [(4, 0x5555_5555_5555), (5, 0x6666_6666_6666)],
    [(6, 0x7777_7777_7777), (7, 0x8888_8888_8888)],
];

/// The words of a file.
type Words = [u64; 8];

/// Puts what these writes give into the words.
fn put_writes(words: &mut Words, writes: &[(u16, u64)]) {
    for write in writes {
        if let Some(word) = words.get_mut(usize::from(write.0)) {
            *word = write.1;
        }
    }
}

impl Case {
    /// Gives the words of a file that has the changes with these letters.
    fn words_with(self, letters: &[u8]) -> Words {
        let mut words = [0; 8];
        for place in 0..4 {
            let letter = self.places[place];
            if letters.contains(&letter) {
                put_writes(&mut words, &CHANGES[place]);
            }
        }
        words
    }

    /// Gives how many places have this letter.
    fn count(self, wanted: u8) -> u8 {
        let mut count: u8 = 0;
        for letter in self.places {
            if letter == wanted {
                count = count.saturating_add(1);
            }
        }
        count
    }

    /// Gives the place whose change the call seals, one that the file doesn't have if there is none.
    fn sealed(self) -> Place {
        for place in 0..4 {
            if self.places[place] == b'c' {
                return Place(place as u16);
            }
        }
        Place(4)
    }

    /// Gives how many device calls the call makes.
    fn calls(self) -> u8 {
        let own = match self.call {
            Shared::Prepare => 1,
            Shared::Seal => 2,
            Shared::Settle => self.count(b's').saturating_mul(3).saturating_add(2),
        };
        self.count(b'a').saturating_add(own)
    }

    /// Gives the words that a crash may leave, at least and at most, if so many device calls were begun and so many of
    /// them went well.
    fn may(self, begun: u8, well: u8) -> (Words, Words) {
        let (before, after) = (self.words_with(b"s"), self.words_with(b"sc"));
        let records = self.count(b'a');
        let least = if well >= records.saturating_add(2) {
            after
        } else {
            before
        };
        let most = if begun > records { after } else { before };
        (least, most)
    }
}

/// A call that is done.
const DONE: Told = Some(Ok(None));

/// Puts into a place what it has before a call.
fn lay<R: Abort>(rt: &R, file: &mut TenantFile<MemDisk>, place: u16, letter: u8) {
    let Some(writes) = CHANGES.get(usize::from(place)) else {
        return;
    };
    if b"psc".contains(&letter) {
        let prepared = prepare_at(file, Place(place), &change(writes));
        same(
            rt,
            "prepared before a call",
            u64::from(place),
            &prepared,
            &DONE,
        );
    }
    if letter == b's' {
        let sealed = seal(file, Place(place));
        same(rt, "sealed before a call", u64::from(place), &sealed, &DONE);
    }
}

/// Makes the file before the call.
fn file_before<R: Abort + AllocGlobal>(rt: &R, case: Case) -> TenantFile<MemDisk> {
    let mut file = new_file(rt, 8, 2);
    for (place, letter) in case.places.iter().enumerate() {
        lay(rt, &mut file, place as u16, *letter);
    }
    file
}

/// Gives the change of each place that has this letter.
fn changes_with<R: Abort + AllocGlobal>(rt: &R, case: Case, wanted: u8) -> Vec<NewChange> {
    let mut changes = Vec::new(rt.alloc());
    for (place, letter) in case.places.iter().enumerate() {
        if let (true, Some(writes)) = (*letter == wanted, CHANGES.get(place)) {
            let new = NewChange {
                place: Place(place as u16),
                entries: change(writes),
            };
            changes.push(new).expect(rt, MEMORY);
        }
    }
    changes
}

/// Makes the call.
fn make_call<R: Abort + AllocGlobal>(rt: &R, file: &mut TenantFile<MemDisk>, case: Case) -> Told {
    let ahead = changes_with(rt, case, b'a');
    match case.call {
        Shared::Prepare => prepare_all(file, &ahead),
        Shared::Settle => settle_all(file, &ahead),
        Shared::Seal => seal_with(file, case.sealed(), &ahead),
    }
}

/// Makes the file after the call, if the device has trouble after so many of its device calls. Gives the answer too.
fn file_after<R: Abort + AllocGlobal>(
    rt: &R,
    case: Case,
    calls: u8,
    trouble: Trouble,
) -> (TenantFile<MemDisk>, Told) {
    let mut file = file_before(rt, case);
    bring_trouble(rt, &mut file, calls, trouble);
    let answer = make_call(rt, &mut file, case);
    (file, answer)
}

/// Gives what a crash leaves with these torn bytes if the device stopped after so many device calls.
fn left_after<R: Abort + AllocGlobal>(rt: &R, case: Case, calls: u8, torn: &[u8]) -> Vec<u8> {
    let (file, _) = file_after(rt, case, calls, Trouble::Stop);
    left(rt, &file, torn)
}

/// What a crash leaves after some device calls: with all that was written, and with ones in what was not synced.
#[derive(Drop)]
struct Left {
    written: Vec<u8>,
    ones: Vec<u8>,
}

/// Gives what a crash leaves if the device stopped after so many device calls.
fn both_left<R: Abort + AllocGlobal>(rt: &R, case: Case, calls: u8) -> Left {
    Left {
        written: left_after(rt, case, calls, WRITTEN),
        ones: left_after(rt, case, calls, ONES),
    }
}

/// If the power fails after so many device calls, the last of them a write, the file has any part of that write and all
/// of the others. If the last is a sync, the power failed before it, and the file has any part of what was not synced.
/// Then the file opens with the words before the call or after it. Gives how many files were tried.
fn torn_after<R: Abort + AllocGlobal>(
    rt: &R,
    case: Case,
    calls: u8,
    old: &Left,
    new: &Left,
) -> u64 {
    if new.written == new.ones {
        let (least, most) = case.may(calls.saturating_sub(1), calls.saturating_sub(1));
        torn_anywhere(rt, case.name, &old.ones, &old.written, &[&least, &most])
    } else {
        let (least, most) = case.may(calls, calls);
        torn_anywhere(rt, case.name, &old.written, &new.written, &[&least, &most])
    }
}

/// The same after each of the call's device calls.
fn torn_in<R: Abort + AllocGlobal>(rt: &R, case: Case) -> u64 {
    let mut old = both_left(rt, case, 0);
    let mut images: u64 = 0;
    for calls in 1..=case.calls() {
        let new = both_left(rt, case, calls);
        images = images.saturating_add(torn_after(rt, case, calls, &old, &new));
        old = new;
    }
    images
}

/// If this device call of a call fails, the file has failed: it refuses the same call and a settle. Crashes leave the
/// words before the call or after it, whatever is torn.
fn fails_at<R: Abort + AllocGlobal>(rt: &R, case: Case, calls: u8) {
    let (mut file, first) = file_after(rt, case, calls, Trouble::Once);
    let second = make_call(rt, &mut file, case);
    let answers = [first, second, settle_all(&mut file, &[])];
    let (disk, failed) = (Some(Err(FileFault::Disk)), Some(Err(FileFault::Failed)));
    let at = u64::from(calls);
    same(rt, case.name, at, &answers, &[disk, failed, failed]);
    same(rt, case.name, at, &faults(&file), &1);
    let (least, most) = case.may(calls.saturating_add(1), calls);
    leaves(rt, case.name, at, &file, &[&least, &most]);
}

/// The call goes well, and each of its device calls fails in turn.
fn fails_in<R: Abort + AllocGlobal>(rt: &R, case: Case) {
    let (_, well) = file_after(rt, case, case.calls(), Trouble::Stop);
    same(rt, case.name, u64::from(case.calls()), &well, &DONE);
    for calls in 0..case.calls() {
        fails_at(rt, case, calls);
    }
}

/// Bytes that a crash leaves in what was not synced.
static MIXED: [&[u8]; 2] = [&[0x00, 0xa5, 0xff, 0x5a], SET_FIRST];

/// If a crash cuts off the opening of a file after so many device calls, the file opens with these words. Gives
/// whether the opening went well.
fn cut_off<R: Abort + AllocGlobal>(
    rt: &R,
    name: &str,
    image: &[u8],
    calls: u8,
    words: &[u64],
) -> bool {
    let (ended, disk) = opening(rt.alloc(), troubled(rt, image, calls, Trouble::Stop));
    disk_leaves(rt, name, u64::from(calls), &disk, &MIXED, words);
    ended.is_ok()
}

/// The same after each device call of the opening. Gives after how many the opening went well.
fn cut_off_in_each<R: Abort + AllocGlobal>(rt: &R, name: &str, image: &[u8], words: &[u64]) -> u8 {
    for calls in 0..40 {
        if cut_off(rt, name, image, calls, words) {
            return calls;
        }
    }
    40
}

/// If a crash cuts off the call after so many device calls, and another one cuts off the opening after it, the file
/// opens with the words that the first crash left. Gives after how many device calls the opening went well.
fn cut_off_twice<R: Abort + AllocGlobal>(rt: &R, case: Case, calls: u8) -> u8 {
    let image = left_after(rt, case, calls, SET_FIRST);
    let (least, most) = case.may(calls, calls);
    let words = if opens_with(rt, &image, &[&least]) {
        least
    } else {
        most
    };
    cut_off_in_each(rt, case.name, &image, &words)
}

/// The same after each of the call's device calls. Gives how many device calls the openings made.
fn cut_off_twice_in<R: Abort + AllocGlobal>(rt: &R, case: Case) -> u64 {
    let mut made: u64 = 0;
    for calls in 0..=case.calls() {
        made = made.saturating_add(u64::from(cut_off_twice(rt, case, calls)));
    }
    made
}

/// Calls of one kind on several files: how many files there are if the power fails in them, torn at each byte, and how
/// many device calls are made by openings that a crash cuts off, after a crash in the call.
struct Calls {
    call: Shared,
    cases: &'static [(&'static str, &'static [u8; 4])],
    files: u64,
    openings: u64,
}

/// In each of these calls the power fails at each byte, each device call fails, and a crash is followed by another
/// one in the opening. The files that are tried, and the device calls of openings, are so many.
fn keep_words<R: Abort + AllocGlobal>(rt: &R, calls: &Calls) {
    let mut files: u64 = 0;
    let mut openings: u64 = 0;
    for (name, places) in calls.cases {
        let case = Case {
            name: *name,
            call: calls.call,
            places: **places,
        };
        files = files.saturating_add(torn_in(rt, case));
        fails_in(rt, case);
        openings = openings.saturating_add(cut_off_twice_in(rt, case));
    }
    same(rt, "files that are torn", 0, &files, &calls.files);
    same(
        rt,
        "device calls of openings",
        0,
        &openings,
        &calls.openings,
    );
}

/// Changes are prepared together; one change is sealed, alone and while the call prepares others; all sealed changes are settled,
/// alone and while the call prepares others.
static CALLS: [Calls; 5] = [
    Calls {
        call: Shared::Prepare,
        cases: &[
            ("prepare aa..", b"aa.."),
            ("prepare s.pa", b"s.pa"),
            ("prepare sapp", b"sapp"),
        ],
        files: 3_333,
        openings: 50,
    },
    Calls {
        call: Shared::Seal,
        cases: &[
            ("seal c...", b"c..."),
            ("seal cs..", b"cs.."),
            ("seal pc.s", b"pc.s"),
            ("seal sscs", b"sscs"),
            ("seal pcps", b"pcps"),
            ("seal spsc", b"spsc"),
        ],
        files: 36,
        openings: 178,
    },
    Calls {
        call: Shared::Seal,
        cases: &[
            ("seal ca..", b"ca.."),
            ("seal asca", b"asca"),
            ("seal cpsa", b"cpsa"),
        ],
        files: 3_351,
        openings: 90,
    },
    Calls {
        call: Shared::Settle,
        cases: &[
            ("settle ss..", b"ss.."),
            ("settle sss.", b"sss."),
            ("settle ssss", b"ssss"),
            ("settle sp.s", b"sp.s"),
            ("settle psps", b"psps"),
            ("settle .spp", b".spp"),
            ("settle pp..", b"pp.."),
        ],
        files: 1_260,
        openings: 624,
    },
    Calls {
        call: Shared::Settle,
        cases: &[
            ("settle sa..", b"sa.."),
            ("settle sasa", b"sasa"),
            ("settle apsp", b"apsp"),
        ],
        files: 3_693,
        openings: 187,
    },
];

#[test]
fn calls_of_several_changes(rt: HostRuntime) {
    for calls in &CALLS {
        keep_words(&rt, calls);
    }
}
