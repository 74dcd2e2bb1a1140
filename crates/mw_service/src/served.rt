//! Implements a session's service for a worker: finds tenants, asks the engine for jobs, and gives the report's
//! figures.
//!
//! mw_session calls it for the lines of a session, which `worker` runs. A new question needs a call here and in
//! `Service` of mw_session.
use crate::worker::Worker;
use mw_disk::Disk;
use mw_engine::{EngineBrand, Hold};
use mw_report::Figures;
use mw_session::{FaultWatch, Service};
use mw_words::{Job, Name, Reply};
use std::sync::Wait;

impl<J: EngineBrand, D: Disk + Drop, H: Hold + Drop, R: Wait, T: FaultWatch> Service
    for Worker<'_, J, D, H, R, T> {
    ghost use Rattle.mw_engine.specs.Identity.{HasWords};
    ghost use Rattle.mw_service.specs.Served.{Answers};

    ghost answered = { λ old call new. Answers J.identity old.pass call new.pass };

    ghost has_words = { λ _. HasWords J.identity.lines };

    fn find(&self, name: &Name) -> Option<(u8, u16)> {
        self.engine.find(name)
    }

    fn ask(&mut self, tenant: u8, job: &Job) -> Reply {
        let reply = self.engine.serve(self.rt, &mut self.pass, tenant, job);
        if let Reply::Fault = reply {
            self.watch.fault(tenant);
        }
        reply
    }

    fn figures(&mut self) -> Figures {
        self.engine.figures(&mut self.pass)
    }
}
