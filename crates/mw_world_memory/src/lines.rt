//! Keeps a tenant's marks (`Mark` of mw_lone: the events of its store, such as a request, its reply, a restart), and
//! the places that are reserved among them.
//!
//! Each tenant in memory has such lines (`tenants`), and mw_simulator adds the marks of events to them. Change it
//! with `specs/Claims`, `specs/Lines` and `specs/Workers`.
ghost use Rattle.std.specs.Prelude.{◌≡◌, [], ◌∷◌, ◌++◌, Option, Some, IfOk, OnOk, length, slice_set};
ghost use Rattle.mw_world.specs.Definition.History.{History};
ghost use Rattle.mw_world.specs.Definition.LabelEffects.{late_unless, marked, more, more_unless};
ghost use Rattle.mw_world.specs.Definition.State.{marks_in};
ghost use Rattle.mw_world_memory.specs.Claims.{Recalls};
ghost use Rattle.mw_world_memory.specs.Lines.{HasRoomForLine, OneHasRoom, SameLines, has_room_for};
ghost use Rattle.mw_world_memory.specs.Workers.{worker_state_of};

use crate::claims::ClaimLog;
use crate::workers::WorkerState;
use mw_lone::Mark;
use mw_world::StepLabel;
use std::alloc::{AllocError, Global};
use std::mem;

/// The marks of a tenant: those up to and including the last start, and the lines since. A line is a mark, or a
/// reserved place without a mark.
#[derive(Drop)]
pub struct Lines {
    closed: Vec<Mark>,
    lines: Vec<Option<Mark>>,
}

impl Lines {
    /// Makes lines without marks.
    pub fn new(alloc: Global) -> Lines
        ensures closed { result.closed.items ≡ [] }
        ensures lines { result.lines.items ≡ [] }
    {
        Lines {
            closed: Vec::new(alloc),
            lines: Vec::new(alloc),
        }
    }

    /// Makes room for one more line. If memory is out, the marks are unchanged.
    pub fn reserve(&mut self) -> Result<(), AllocError>
        ensures room { OnOk result (HasRoomForLine self.new) }
        ensures same { SameLines self.old self.new }
    {
        self.lines.reserve(1)
    }

    /// Returns how many lines there are since the last start.
    pub fn len(&self) -> usize
        ensures { result ≡ length self.now.lines.items }
    {
        self.lines.len()
    }

    /// Appends a line: a mark, or a place reserved for one. There is room for it.
    pub fn more(&mut self, line: Option<Mark>)
        requires { HasRoomForLine self.old }
        ensures closed { self.new.closed ≡ self.old.closed }
        ensures lines { self.new.lines.items ≡ more self.old.lines.items line }
    {
        self.lines.push_reserved(line);
    }

    /// Takes in the label of a worker's step. `worker_state` and `claims` are those from before the step. There
    /// is room for one more line.
    pub fn mark(&mut self, label: StepLabel, worker_state: &WorkerState, claims: &ClaimLog)
        requires { HasRoomForLine self.old }
        ensures closed { self.new.closed ≡ self.old.closed }
        ensures lines { (past : History) → Recalls claims.now past → self.new.lines.items ≡ marked label (worker_state_of worker_state.now) past self.old.lines.items }
    {
        match label {
            StepLabel::Admitted => self.more(Some(Mark::Admit(worker_state.request))),
            StepLabel::FoundBusy => self.more(Some(Mark::Busy(worker_state.request))),
            StepLabel::FoundFault => self.more(Some(Mark::GiveUp(worker_state.request))),
            StepLabel::Looked => self.more(Some(Mark::Look(worker_state.request))),
            StepLabel::Reserved => self.more(None),
            StepLabel::LookedBefore => self.late(
                worker_state.kept,
                Mark::Look(worker_state.request),
            ),
            StepLabel::Refused { target, entry, .. } => self.late_unless(
                claims.is_fault_decided(target),
                worker_state.kept,
                Mark::Miss(claims.request(target), entry),
            ),
            StepLabel::Lowered => self.more(Some(Mark::Retire(worker_state.retiring))),
            StepLabel::GaveUp {
                own,
                says_fault: true,
            } => self.more_unless(
                claims.is_fault_decided(own),
                Mark::GiveUp(worker_state.request),
            ),
            StepLabel::SealedIt(target) => self.more(Some(Mark::Seal(claims.request(target)))),
            StepLabel::FailedToSeal(target) => self.more(Some(Mark::SealFail(claims.request(
                target,
            )))),
            StepLabel::FailedFile => self.more(Some(Mark::FileFail)),
            _ => {}
        }
    }

    // Appends a mark, unless FAULT was decided for its request before.
    fn more_unless(&mut self, is_fault_decided: bool, mark: Mark)
        requires { HasRoomForLine self.old }
        ensures closed { self.new.closed ≡ self.old.closed }
        ensures lines { self.new.lines.items ≡ more_unless is_fault_decided self.old.lines.items mark }
    {
        if !is_fault_decided {
            self.more(Some(mark));
        }
    }

    // Puts a mark at its reserved place, unless FAULT was decided for its request before.
    fn late_unless(&mut self, is_fault_decided: bool, kept: usize, mark: Mark)
        ensures closed { self.new.closed ≡ self.old.closed }
        ensures lines { self.new.lines.items ≡ late_unless is_fault_decided self.old.lines.items kept mark }
    {
        if !is_fault_decided {
            self.late(kept, mark);
        }
    }

    // Puts a mark at its reserved place. After the last line there is no place, and nothing changes.
    fn late(&mut self, kept: usize, mark: Mark)
        ensures closed { self.new.closed ≡ self.old.closed }
        ensures lines { self.new.lines.items ≡ slice_set self.old.lines.items kept (Some mark) }
    {
        if kept < self.lines.len() {
            self.lines[kept] = Some(mark);
        }
    }

    /// Returns the marks up to and including the last start. The only error is that memory is out.
    pub fn closed(&self, alloc: Global) -> Result<Vec<Mark>, AllocError>
        ensures { IfOk result (λ closed. closed.items ≡ self.now.closed.items) }
    {
        let mut closed = Vec::new(alloc);
        copy_closed(&self.closed, &mut closed)?;
        Ok(closed)
    }

    /// Returns all marks so far. The only error is that memory is out.
    pub fn marks(&self, alloc: Global) -> Result<Vec<Mark>, AllocError>
        ensures { IfOk result (λ marks. marks.items ≡ self.now.closed.items ++ marks_in self.now.lines.items) }
    {
        let mut marks = Vec::new(alloc);
        copy_closed(&self.closed, &mut marks)?;
        copy_lines(&self.lines, &mut marks)?;
        Ok(marks)
    }

    /// Makes lines whose closed marks are the marks since the last start, and then `last`; they have no others.
    /// Either these lines have room for those closed marks too, or the new lines have room for the closed marks
    /// of these. The only error is that memory is out.
    pub fn since(&self, alloc: Global, last: Mark) -> Result<Lines, AllocError>
        ensures closed { IfOk result (λ since. since.closed.items ≡ marks_in self.now.lines.items ++ last ∷ []) }
        ensures lines { IfOk result (λ since. since.lines.items ≡ []) }
        ensures room { IfOk result (OneHasRoom self.now) }
    {
        let mut closed = Vec::new(alloc);
        copy_lines(&self.lines, &mut closed)?;
        closed.push(last)?;
        if !self.has_room(closed.len()) {
            closed.reserve(self.closed.len().saturating_mul(2))?;
        }
        Ok(Lines {
            closed,
            lines: Vec::new(alloc),
        })
    }

    /// Takes over the closed marks of these lines and puts them before its own. One of the two has room for
    /// all, so this can't fail.
    pub fn follow(&mut self, before: &mut Lines)
        requires { OneHasRoom before.old self.old }
        ensures closed { self.new.closed.items ≡ before.old.closed.items ++ self.old.closed.items }
        ensures lines { self.new.lines ≡ self.old.lines }
    {
        let own = self.closed.len();
        if before.has_room(own) {
            let _ = before.closed.append(&mut self.closed);
            mem::swap(&mut self.closed, &mut before.closed);
        } else {
            let _ = self.closed.append(&mut before.closed);
            self.closed.rotate_left(own);
        }
    }

    // Whether there is room for `count` more closed marks.
    fn has_room(&self, count: usize) -> bool
        ensures { result ≡ has_room_for self.now count }
    {
        self.closed.capacity() - self.closed.len() >= count
    }
}

// Appends copies of these marks.
fn copy_closed(closed: &[Mark], marks: &mut Vec<Mark>) -> Result<(), AllocError>
    ensures { OnOk result (marks.new.items ≡ marks.old.items ++ closed.now) }
{
    for mark in closed {
        marks.push(copy(mark))?;
    }
    Ok(())
}

// Appends copies of the marks among these lines.
fn copy_lines(lines: &[Option<Mark>], marks: &mut Vec<Mark>) -> Result<(), AllocError>
    ensures { OnOk result (marks.new.items ≡ marks.old.items ++ marks_in lines.now) }
{
    for line in lines {
        if let Some(mark) = line {
            marks.push(copy(mark))?;
        }
    }
    Ok(())
}

// Returns an equal mark.
fn copy(mark: &Mark) -> Mark
    ensures { result ≡ mark.now }
{
    match mark {
        Mark::Ask(request, job) => Mark::Ask(*request, job.copy()),
        Mark::Admit(request) => Mark::Admit(*request),
        Mark::Busy(request) => Mark::Busy(*request),
        Mark::Look(request) => Mark::Look(*request),
        Mark::Miss(request, entry) => Mark::Miss(*request, *entry),
        Mark::Seal(request) => Mark::Seal(*request),
        Mark::SealFail(request) => Mark::SealFail(*request),
        Mark::FileFail => Mark::FileFail,
        Mark::GiveUp(request) => Mark::GiveUp(*request),
        Mark::Retire(request) => Mark::Retire(*request),
        Mark::Reply(request) => Mark::Reply(*request),
        Mark::Restart {
            interrupted,
            take,
            opened,
            quota,
        } => Mark::Restart {
            interrupted: *interrupted,
            take: *take,
            opened: *opened,
            quota: *quota,
        },
    }
}
