//! Makes an engine's parts of the tenants' lines and their opened files: `EngineParts::new`.
//!
//! mw_programs calls it for `mwserve`. Change it with `specs/DisksAtStart`, `specs/Lines`, `specs/OpenedFiles`,
//! `specs/Passes` and `specs/Parts`.
ghost use Rattle.std.specs.Prelude.{◌≡◌, ◌≤◌, All, length, map, IfOk};
ghost use Rattle.mw_config.specs.Limits.{ArePermitted};
ghost use Rattle.mw_core.specs.FromTable.{AreInOrder};
ghost use Rattle.mw_words.specs.declared.limits.TheConstants.{MAX_POOL, MAX_TENANTS, MAX_WORKERS};
ghost use Rattle.mw_engine.specs.DisksAtStart.{disks_read};
ghost use Rattle.mw_engine.specs.Lines.{HasFewPlaces, line_of, places_of};
ghost use Rattle.mw_engine.specs.OpenedFiles.{AreMadeOf, FitLines, FitsLine, HaveFewPlaces, IsMadeOf, book_file, held_read, line_read, openings_read, places_found, tenant_read};
ghost use Rattle.mw_engine.specs.Passes.{IsNew};
ghost use Rattle.mw_engine.specs.Parts.{identity_of, world_read};

use crate::parts::EngineParts;
use crate::tenant_line::Listed;
use crate::tenant_words::TenantWords;
use arrayvec::ArrayVec;
use mw_book::Book;
use mw_config::TenantLine;
use mw_core::{Core, FileOpening, Pass, Shared};
use mw_disk::Disk;
use mw_file::TenantFile;
use mw_words::{MAX_TENANTS, copy_of_name};
use mw_world::{Config, Tenant};
use std::alloc::{AllocError, Global};

impl<D: Disk + Drop, H: Drop> EngineParts<D, H> {
    /// Makes the parts of an engine for the tenants of these lines, and a pass for each worker, in order of number.
    /// For each line in order `files` has the opened file with the words that were read; `None` if the file didn't
    /// open, or doesn't fit its line. A file fits only if it has at least as many places as the quota. A tenant
    /// without a file has faulted from the start. All tenants share a pool of `pool` slots, each first used under
    /// the number 0. The engine tells `hold` the points that a worker comes to.
    ///
    /// # Errors
    ///
    /// [`AllocError`] if memory is out. The files are dropped.
    pub fn new(
        alloc: Global,
        lines: &[TenantLine],
        files: Vec<Option<(TenantFile<D>, Vec<u64>)>>,
        pool: u16,
        workers: u8,
        hold: H,
    ) -> Result<(EngineParts<D, H>, Vec<Pass>), AllocError>
        requires permitted { ArePermitted pool lines.now }
        requires pool { (1 ≤ pool) × (pool ≤ MAX_POOL) }
        requires workers { (1 ≤ workers) × (workers ≤ MAX_WORKERS) }
        requires fit { FitLines D.facts lines.now files.items }
        ensures lines { IfOk result (λ made. (identity_of made.0).lines ≡ map line_read lines.now) }
        ensures config { IfOk result (λ made. (identity_of made.0).config ≡ world_read pool workers lines.now) }
        ensures start { IfOk result (λ made. (identity_of made.0).openings ≡ openings_read lines.now files.items) }
        ensures files { IfOk result (λ made. map book_file made.0.books.items ≡ map held_read files.items) }
        ensures disks { IfOk result (λ made. (identity_of made.0).disks ≡ disks_read D.facts files.items) }
        ensures count { IfOk result (λ made. length made.1.items ≡ workers) }
        ensures passes { IfOk result (λ made. All (IsNew (identity_of made.0)) made.1.items) }
        ensures order { IfOk result (λ made. AreInOrder made.1.items) }
    {
        let config = config_of(lines, pool, workers);
        let (openings, books) = opened(alloc, lines, files)?;
        let (shared, passes, file_passes) = Shared::new(alloc, &config, &openings)?;
        let words = TenantWords {
            core: Core::new(shared),
            lines: listed(lines, &openings),
            pool,
        };
        let parts = EngineParts {
            words,
            hold,
            books,
            file_passes,
        };
        Ok((parts, passes))
    }
}

/// The configuration of the world, by the tenants' lines. Each slot is first used under the number 0.
fn config_of(lines: &[TenantLine], pool: u16, workers: u8) -> Config
    requires few { length lines.now ≤ MAX_TENANTS }
    ensures pool { result.pool ≡ pool }
    ensures workers { result.workers ≡ workers }
    ensures seq { result.seq ≡ 0 }
    ensures tenants { result.tenants.items ≡ map tenant_read lines.now }
{
    let mut tenants = ArrayVec::new();
    for line in lines {
        tenants.push(Tenant {
            name: copy_of_name(&line.name),
            words: line.words,
            quota: line.quota,
            old: None,
        });
    }
    Config {
        pool,
        workers,
        seq: 0,
        tenants,
    }
}

/// What an engine keeps of these lines, and of what the tenants' files gave.
fn listed(lines: &[TenantLine], openings: &[FileOpening]) -> ArrayVec<Listed, MAX_TENANTS>
    requires few { length lines.now ≤ MAX_TENANTS }
    requires one_each { length openings.now ≡ length lines.now }
    requires few_places { HaveFewPlaces openings.now }
    ensures lines { map line_of result.items ≡ map line_read lines.now }
    ensures places { map places_of result.items ≡ map places_found openings.now }
    ensures few_places { HasFewPlaces result.items }
{
    let mut kept = ArrayVec::new();
    for (tenant, line) in lines.iter().enumerate() {
        kept.push(Listed {
            name: copy_of_name(&line.name),
            words: line.words,
            quota: line.quota,
            places: places_in(&openings[tenant]),
        });
    }
    kept
}

/// How many places for changes the file of this opening has; 0 if it didn't open.
fn places_in(opening: &FileOpening) -> u8
    ensures { result ≡ places_found opening.now }
{
    if opening.words.is_some() {
        opening.places
    } else {
        0
    }
}

/// What the tenants' files gave, and a book of each file.
fn opened<D: Disk + Drop>(
    alloc: Global,
    lines: &[TenantLine],
    files: Vec<Option<(TenantFile<D>, Vec<u64>)>>,
) -> Result<(Vec<FileOpening>, Vec<Book<D>>), AllocError>
    requires fit { FitLines D.facts lines.now files.items }
    ensures { IfOk result (λ made. AreMadeOf D.facts lines.now files.items made.0.items made.1.items) }
{
    let mut openings = Vec::with_capacity(alloc, lines.len())?;
    let mut books = Vec::with_capacity(alloc, lines.len())?;
    for file in files {
        let (opening, book) = opened_one(&lines[openings.len()], file);
        openings.push(opening)?;
        books.push(book)?;
    }
    Ok((openings, books))
}

/// What a tenant's file gave, and its book.
fn opened_one<D: Disk>(
    line: &TenantLine,
    file: Option<(TenantFile<D>, Vec<u64>)>,
) -> (FileOpening, Book<D>)
    requires fits { FitsLine D.facts line.now file }
    ensures { IsMadeOf D.facts line.now file result.0 result.1 }
{
    match file {
        Some((file, words)) => {
            let opening = FileOpening {
                quota: line.quota,
                places: file.places() as u8,
                words: Some(words),
            };
            (opening, Book::new(file, u16::from(line.quota)))
        }
        None => {
            let opening = FileOpening {
                quota: line.quota,
                places: line.quota,
                words: None,
            };
            let book = Book::unopened(line.words, u16::from(line.quota));
            (opening, book)
        }
    }
}
