//! Says what peers of sessions say and must be told.
//!
//! Used by: `cases`, `plays`, `workers`, tests.
use mw_session::{Duplex, Ended, NoOthers, RecordedStream, Service, Session};
use mw_test_peers::{Failure, Page, Sender};
use std::alloc::Global;
use std::sync::Wait;

/// More bytes than are written.
pub(crate) const ALL: usize = usize::MAX;

/// What a peer says in its session, and what it must be told.
#[derive(Clone, Copy)]
pub(crate) struct Talk<'c> {
    pub(crate) says: &'c [u8],
    pub(crate) told: &'c [u8],
    /// How it says and takes single bytes, and breaks off. None: it does neither.
    pub(crate) cut: Option<Cut>,
}

/// How a peer that says and takes single bytes breaks off.
#[derive(Clone, Copy)]
pub(crate) struct Cut {
    /// How many bytes it takes.
    pub(crate) takes: usize,
    /// What it does after the last byte that it says, and after the last one that it takes.
    pub(crate) failure: Failure,
    /// How the session ends.
    pub(crate) ended: Ended,
}

/// A peer that says and takes single bytes, all of them.
pub(crate) const WHOLE: Cut = Cut {
    takes: ALL,
    failure: Failure::Nothing,
    ended: Ended::PeerEnd,
};

impl Talk<'_> {
    /// Tells whether a session of the peer with a service goes as the talk says.
    pub(crate) fn goes_well<R: Wait, S: Service>(
        &self,
        alloc: Global,
        rt: &R,
        service: &mut S,
    ) -> bool {
        let (piece, cut) = match self.cut {
            Some(cut) => (1, cut),
            None => (ALL, WHOLE),
        };
        let mut page = Page::new(piece, cut.takes, cut.failure);
        let mut stream = RecordedStream::new(Duplex {
            reader: Sender::new(self.says, piece, cut.failure),
            writer: &mut page,
        });
        let ended = Session::run(alloc, rt, &NoOthers, &mut stream, service);
        self.was_told(&page, ended)
    }

    /// Tells whether the peer was told what it must be told. If it breaks off, its session must end so, and nothing was
    /// written after a byte that it didn't take.
    pub(crate) fn was_told(&self, page: &Page, ended: Ended) -> bool {
        let ends_so = match self.cut {
            Some(cut) => {
                let refused = usize::from(matches!(cut.ended, Ended::WriteFault(_)));
                ended == cut.ended && page.calls == self.told.len().saturating_add(refused)
            }
            None => true,
        };
        ends_so && page.text.as_slice() == self.told
    }
}
