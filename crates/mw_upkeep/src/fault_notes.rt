//! Writes a note, once, on each tenant whose file fails while it is served, and on each whose file is replaced.
//!
//! mw_programs makes the notes, mw_service tells of each FAULT, and mw_server has the files looked at. Change it with
//! docs/OPERATING; scripts/check-locks and check-prometheus read the notes.
ghost use Rattle.std.specs.Prelude.{◌<◌};
ghost use Rattle.mw_words.specs.declared.limits.TheConstants.{MAX_TENANTS};

use crate::ending::{FILE_LOST, ServerEnd};
use crate::looks::FileLook;
use log::{Log, error};
use mw_config::TenantLine;
use mw_metrics::Meters;
use mw_notes::{note_place, note_why};
use mw_opening::{FileState, FileStates, SeesPaths, leads_elsewhere};
use mw_session::FaultWatch;
use mw_words::MAX_TENANTS;
use std::str;
use std::sync::{Mutex, Wait};

/// Writes a note on each tenant whose file has failed while it was served, once, and on each whose file was replaced.
#[derive(Drop)]
pub struct TenantNotes<'r, 'n, 'l, 'e, L, R> {
    rt: &'r R,
    notes: &'n L,
    lines: &'l [TenantLine],
    states: &'e FileStates,
    meters: &'e Meters,
    /// Whether a file that was replaced is given up.
    strict: bool,
    /// The end of a server that ends when a file has failed or was given up.
    end: Option<&'e ServerEnd>,
    /// The tenants on which it was written already that they are down.
    told: Mutex<[bool; MAX_TENANTS]>,
    /// The tenants whose files are no longer looked at: they didn't open, or were replaced.
    left_out: Mutex<[bool; MAX_TENANTS]>,
}

impl<'r, 'n, 'l, 'e, L: Log, R: Wait> TenantNotes<'r, 'n, 'l, 'e, L, R> {
    /// Makes the notes on the tenants with these lines. A tenant whose file isn't open has its note
    /// already. If it is strict, a file that was replaced is given up. The meters are told of it. If there is an end, it is
    /// given a status after the note on a file that has failed or was given up.
    pub fn new(
        rt: &'r R,
        notes: &'n L,
        lines: &'l [TenantLine],
        states: &'e FileStates,
        meters: &'e Meters,
        are_open: &[bool],
        strict: bool,
        end: Option<&'e ServerEnd>,
    ) -> Self {
        let told = are_down(are_open);
        TenantNotes {
            rt,
            notes,
            lines,
            states,
            meters,
            strict,
            end,
            told: Mutex::new(told),
            left_out: Mutex::new(told),
        }
    }
}

/// Tells for each tenant whether its file isn't open.
fn are_down(are_open: &[bool]) -> [bool; MAX_TENANTS] {
    let mut down = [false; MAX_TENANTS];
    for tenant in 0..MAX_TENANTS.min(are_open.len()) {
        down[tenant] = !are_open[tenant];
    }
    down
}

impl<L: Log, R: Wait> TenantNotes<'_, '_, '_, '_, L, R> {
    /// Writes that the tenant of this number is down, and what the system told of its file.
    fn tell(&self, tenant: usize, line: &TenantLine)
        requires { tenant < MAX_TENANTS }
    {
        let name = str::from_utf8(&line.name).unwrap_or("?");
        error!(self.notes; "tenant {name}: failed");
        let path = line.path.as_str();
        match self.states.of(tenant).last_error().error() {
            Some(error) => note_why(self.notes, path, "", &error),
            None => note_why(self.notes, path, "a call on it failed", &""),
        }
    }

    /// Keeps that the file of the tenant of this number was replaced. Its state gives it up if this is strict.
    fn keep_replaced(&self, tenant: usize, state: &FileState)
        requires { tenant < MAX_TENANTS }
    {
        state.keep_replaced();
        self.meters.tenant(tenant).record_replaced(self.strict);
    }

    /// Ends the server, if it ends when a file has failed or was given up. Notes that wait are tried once more before.
    fn end(&self) {
        if let Some(end) = self.end {
            self.notes.flush();
            end.end(self.rt, FILE_LOST);
        }
    }

    /// Writes that the file of the tenant with this line was replaced.
    fn tell_replaced(&self, line: &TenantLine) {
        let name = str::from_utf8(&line.name).unwrap_or("?");
        error!(self.notes; "tenant {name}: replaced");
        note_place(self.notes, line.path.as_str());
    }
}

impl<L: Log, R: Wait> FaultWatch for TenantNotes<'_, '_, '_, '_, L, R> {
    fn fault(&self, tenant: u8) {
        let tenant = usize::from(tenant);
        let mut all_told = self.told.lock(self.rt);
        if tenant >= MAX_TENANTS || all_told[tenant] {
            return;
        }
        all_told[tenant] = true;
        if let Some(line) = self.lines.get(tenant) {
            self.tell(tenant, line);
            self.end();
        }
    }
}

impl<L: Log, R: Wait + SeesPaths> FileLook for TenantNotes<'_, '_, '_, '_, L, R> {
    fn look(&self) {
        self.notes.flush();
        let mut all_left_out = self.left_out.lock(self.rt);
        for (tenant, line) in self.lines.iter().enumerate() {
            if tenant >= MAX_TENANTS || all_left_out[tenant] {
                continue;
            }
            let state = self.states.of(tenant);
            if leads_elsewhere(self.rt, line.path.as_str(), state) {
                all_left_out[tenant] = true;
                self.keep_replaced(tenant, state);
                self.tell_replaced(line);
                if self.strict {
                    self.end();
                }
            }
        }
    }
}
