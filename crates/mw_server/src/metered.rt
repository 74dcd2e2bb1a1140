//! A service over another one, which times each request that reaches a tenant's store, and counts it by its kind and
//! its reply.
//!
//! mw_programs makes one over the service of each session. It promises what the service below promises, and may
//! change with the trait.
ghost use Rattle.std.specs.Prelude.{◌≡◌};

use mw_metrics::{Meters, Stopwatch};
use mw_report::Figures;
use mw_session::Service;
use mw_words::{Job, Name, Reply};
use std::time::Clock;

/// A service whose requests are timed and counted, if there are meters. Each call is one of the service below, and gives
/// what that gave. Without meters no clock is read.
#[derive(Drop)]
pub struct MeteredService<'a, S, K> {
    service: S,
    clock: &'a K,
    meters: Option<&'a Meters>,
}

impl<'a, S, K> MeteredService<'a, S, K> {
    /// Makes a service over this one, whose requests these meters count, by this clock.
    pub fn new(service: S, clock: &'a K, meters: Option<&'a Meters>) -> Self
        ensures { result.service ≡ service }
    {
        MeteredService {
            service,
            clock,
            meters,
        }
    }
}

impl<S: Service, K: Clock> Service for MeteredService<'_, S, K> {
    ghost answered = { λ old call new. S.answered old.service call new.service };

    ghost has_words = { λ metered. S.has_words metered.service };

    fn find(&self, name: &Name) -> Option<(u8, u16)> {
        self.service.find(name)
    }

    fn ask(&mut self, tenant: u8, job: &Job) -> Reply {
        let Some(meters) = self.meters else {
            return self.service.ask(tenant, job);
        };
        let started = Stopwatch::start(self.clock);
        let reply = self.service.ask(tenant, job);
        meters.record_request(tenant, job, &reply, started.nanos(self.clock));
        reply
    }

    fn figures(&mut self) -> Figures {
        self.service.figures()
    }
}
