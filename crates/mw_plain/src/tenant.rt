//! One tenant of a plain store: its name, its number of words, its quota, and its file if that opened. It serves the
//! tenant's calls, and has its figures for the report, also if the file didn't open.
//!
//! Used by: `plain`. A new field needs a value in `new`, a clause in `specs/Lines`, and its name in `into_disk`. Change the
//! calls with `specs/CallEnds`, `specs/Books`, `specs/Cases`, `specs/Parts`, `specs/Quotas` and `specs/Report`.
ghost use Rattle.std.specs.Prelude.{◌≡◌, ◌≤◌, not, IsTrue};
ghost use Rattle.mw_words.specs.Change.{is_change, is_well_formed};
ghost use Rattle.mw_words.specs.declared.limits.TheConstants.{MAX_QUOTA, MAX_WORDS};
ghost use Rattle.mw_plain.specs.Books.{used_in, words_in, places_in, faulted_in, IsPrepared};
ghost use Rattle.mw_plain.specs.Cases.{StartCase, FinishCase};
ghost use Rattle.mw_plain.specs.CallEnds.{StartEnds, FinishEnds};

use crate::loaded_file::{Begun, LoadedFile};
use mw_config::TenantLine;
use mw_disk::Disk;
use mw_file::{Place, TenantFile};
use mw_report::TenantFigures;
use mw_words::{Entries, Job, Name, Reply, copy_of_name};

/// A tenant: its name, number of words and quota, as its line tells them, and the loaded file that serves it. If
/// its file didn't open, there is no loaded file, and the tenant has faulted from the start.
#[derive(Drop)]
pub struct Part<D> {
    pub(crate) name: Name,
    pub(crate) words: u16,
    pub(crate) quota: u8,
    pub(crate) book: Option<LoadedFile<D>>,
    ghost few_words: { words ≤ MAX_WORDS },
    ghost few_slots: { quota ≤ MAX_QUOTA },
    ghost same_words: { words_in words book ≡ words },
    ghost room: { quota ≤ places_in quota book },
    ghost within: { used_in book ≤ quota },
}

impl<D: Disk> Part<D> {
    ghost use Rattle.mw_plain.specs.Lines.{IsWithin, FitsLine, IsMadeOf};
    ghost use Rattle.mw_plain.specs.Quotas.{disk_in};
    ghost use Rattle.mw_plain.specs.Parts.{SameLine};
    ghost use Rattle.mw_plain.specs.Report.{figures_of};

    pub(crate) fn new(line: &TenantLine, opened: Option<(TenantFile<D>, Vec<u64>)>) -> Part<D>
        requires within { IsWithin line.now }
        requires fits { FitsLine line.now opened }
        ensures { IsMadeOf line.now opened result }
    {
        let book = match opened {
            Some((file, words)) => Some(LoadedFile {
                file,
                words,
                used: 0,
                faulted: false,
            }),
            None => None,
        };
        Part {
            name: copy_of_name(&line.name),
            words: line.words,
            quota: line.quota,
            book,
        }
    }

    /// How many slots the tenant uses.
    pub(crate) fn used(&self) -> u8
        ensures { result ≡ used_in self.now.book }
    {
        match &self.book {
            Some(book) => book.used,
            None => 0,
        }
    }

    /// How many places its file has; 0 if no file opened that fits the line.
    pub(crate) fn places(&self) -> u8
        ensures { result ≡ places_in 0 self.now.book }
    {
        match &self.book {
            Some(book) => book.file.places() as u8,
            None => 0,
        }
    }

    /// Whether its file takes changes: it has opened, and hasn't failed.
    pub(crate) fn is_up(&self) -> bool
        ensures { result ≡ not (faulted_in self.now.book) }
    {
        match &self.book {
            Some(book) => !book.faulted,
            None => false,
        }
    }

    /// Its figures.
    pub(crate) fn figures(&self) -> TenantFigures
        ensures { result ≡ figures_of self.now }
    {
        TenantFigures {
            name: copy_of_name(&self.name),
            words: self.words,
            quota: self.quota,
            places: self.places(),
            used: self.used(),
            up: self.is_up(),
        }
    }

    /// Starts a job of the tenant.
    pub(crate) fn start(&mut self, job: &Job) -> Begun
        requires formed { IsTrue (is_well_formed self.old.words job.now) }
        ensures line { SameLine self.old self.new }
        ensures ends { (case : StartCase) × StartEnds D.facts case self.old.quota self.old.book self.new.book job.now result }
    {
        match &mut self.book {
            Some(book) => book.start(job, self.quota),
            None => Begun::Done(Reply::Fault),
        }
    }

    /// Finishes a change of the tenant that was prepared.
    pub(crate) fn finish(&mut self, place: Place, entries: &Entries) -> Reply
        requires formed { IsTrue (is_change self.old.words entries.now.items) }
        requires prepared { IsPrepared self.old.book place.0 entries.now.items }
        ensures line { SameLine self.old self.new }
        ensures ends { (case : FinishCase) × FinishEnds D.facts case self.old.book self.new.book place.0 entries.now result }
    {
        match &mut self.book {
            Some(book) => book.finish(place, entries),
            None => Reply::Fault,
        }
    }

    pub(crate) fn into_disk(self) -> Option<D>
        ensures { result ≡ disk_in self }
    {
        let Part {
            name: _,
            words: _,
            quota: _,
            book,
        } = self;
        match book {
            Some(book) => Some(book.into_disk()),
            None => None,
        }
    }
}
