//! The families of metrics: what each is called, what it tells, and of which type it is.
//!
//! Used by: `samples`, and what writes lines. Change it with `specs/Names` and docs/HTTP. Alerts and boards in
//! contrib, the script in `look.rt` of mw_server_pages, mw_serving_tests and scripts/http_parts read the names.
ghost use Rattle.std.specs.Prelude.{◌≡◌, ◌≤◌, length, codes};
ghost use Rattle.mw_metrics.specs.Names as spec;

/// A figure of one tenant at the moment.
#[derive(Clone, Copy)]
pub(crate) enum TenantGauge {
    Words,
    Quota,
    RecordPlaces,
    ChangesUnderWay,
    Up,
    FileReplaced,
}

/// A figure of the whole server, a number with no label.
#[derive(Clone, Copy)]
pub(crate) enum ServerFigure {
    PoolFree,
    Served,
    Waiting,
    Accepted,
    PassesInUse,
    PassWaits,
    Received,
    Sent,
}

/// A family of metrics.
#[derive(Clone, Copy)]
pub(crate) enum Family {
    Build,
    Uptime,
    Lease,
    Server(ServerFigure),
    Closed,
    Tenant(TenantGauge),
    Requests,
    DeviceFailures,
    RequestTime,
    DeviceTime,
}

/// The most bytes of a family's name.
pub(crate) const MAX_FAMILY_NAME: usize = 40;

/// The most bytes of a family's explanation.
pub(crate) const MAX_HELP: usize = 120;

/// All figures of one tenant at the moment.
pub(crate) const TENANT_GAUGES: [TenantGauge; 6] = [
    TenantGauge::Words,
    TenantGauge::Quota,
    TenantGauge::RecordPlaces,
    TenantGauge::ChangesUnderWay,
    TenantGauge::Up,
    TenantGauge::FileReplaced,
];

/// All figures of the whole server without a label.
pub(crate) const SERVER_FIGURES: [ServerFigure; 8] = [
    ServerFigure::PoolFree,
    ServerFigure::Served,
    ServerFigure::Waiting,
    ServerFigure::Accepted,
    ServerFigure::PassesInUse,
    ServerFigure::PassWaits,
    ServerFigure::Received,
    ServerFigure::Sent,
];

/// What a scraper is told of a family.
#[derive(Drop)]
pub(crate) struct Description {
    /// The family's name.
    pub(crate) name: &'static [u8],
    /// What the family tells, a sentence.
    pub(crate) help: &'static [u8],
    /// The family's type.
    pub(crate) type_text: &'static [u8],
}

impl TenantGauge {
    #[tactic(auto, unfolding(crate::specs::Names::gauge_name, crate::specs::Names::gauge_help))]
    fn description(self) -> Description
        ensures name { result.name.now ≡ spec.gauge_name self }
        ensures help { result.help.now ≡ spec.gauge_help self }
        ensures type_text { result.type_text.now ≡ codes "gauge" }
        ensures short_name { length result.name.now ≤ MAX_FAMILY_NAME }
        ensures short_help { length result.help.now ≤ MAX_HELP }
    {
        match self {
            TenantGauge::Words => Description {
                name: b"mondlexi_words",
                help: b"Words of the tenant.",
                type_text: b"gauge",
            },
            TenantGauge::Quota => Description {
                name: b"mondlexi_quota",
                help: b"Changes that the tenant may have under way at a time.",
                type_text: b"gauge",
            },
            TenantGauge::RecordPlaces => Description {
                name: b"mondlexi_record_places",
                help: b"Record places of the tenant's file.",
                type_text: b"gauge",
            },
            TenantGauge::ChangesUnderWay => Description {
                name: b"mondlexi_changes_under_way",
                help: b"Changes of the tenant under way.",
                type_text: b"gauge",
            },
            TenantGauge::Up => Description {
                name: b"mondlexi_up",
                help: b"1 if the tenant's file takes changes, 0 if it has failed.",
                type_text: b"gauge",
            },
            TenantGauge::FileReplaced => Description {
                name: b"mondlexi_file_replaced",
                help: b"1 if the tenant's file was replaced, cut or overwritten since the start.",
                type_text: b"gauge",
            },
        }
    }
}

impl ServerFigure {
    #[tactic(auto, unfolding(crate::specs::Names::figure_name, crate::specs::Names::figure_help, crate::specs::Names::figure_type))]
    fn description(self) -> Description
        ensures name { result.name.now ≡ spec.figure_name self }
        ensures help { result.help.now ≡ spec.figure_help self }
        ensures type_text { result.type_text.now ≡ spec.figure_type self }
        ensures short_name { length result.name.now ≤ MAX_FAMILY_NAME }
        ensures short_help { length result.help.now ≤ MAX_HELP }
        ensures short_type { length result.type_text.now ≤ 9 }
    {
        match self {
            ServerFigure::PoolFree => Description {
                name: b"mondlexi_pool_free_slots",
                help: b"Free slots of the pool that all tenants share.",
                type_text: b"gauge",
            },
            ServerFigure::Served => Description {
                name: b"mondlexi_connections_served",
                help: b"Connections that a session serves.",
                type_text: b"gauge",
            },
            ServerFigure::Waiting => Description {
                name: b"mondlexi_connections_waiting",
                help: b"Connections that wait for a session.",
                type_text: b"gauge",
            },
            ServerFigure::Accepted => Description {
                name: b"mondlexi_connections_total",
                help: b"Connections that were accepted.",
                type_text: b"counter",
            },
            ServerFigure::PassesInUse => Description {
                name: b"mondlexi_passes_in_use",
                help: b"Passes of the engine that are in use.",
                type_text: b"gauge",
            },
            ServerFigure::PassWaits => Description {
                name: b"mondlexi_pass_waits_total",
                help: b"Requests that waited for a pass of the engine.",
                type_text: b"counter",
            },
            ServerFigure::Received => Description {
                name: b"mondlexi_received_bytes_total",
                help: b"Bytes that clients sent.",
                type_text: b"counter",
            },
            ServerFigure::Sent => Description {
                name: b"mondlexi_sent_bytes_total",
                help: b"Bytes that clients were sent.",
                type_text: b"counter",
            },
        }
    }
}

impl Family {
    /// Gives what a scraper is told of the family.
    #[tactic(auto, unfolding(crate::specs::Names::family_name, crate::specs::Names::family_help, crate::specs::Names::family_type))]
    pub(crate) fn description(self) -> Description
        ensures name { result.name.now ≡ spec.family_name self }
        ensures help { result.help.now ≡ spec.family_help self }
        ensures type_text { result.type_text.now ≡ spec.family_type self }
        ensures short_name { length result.name.now ≤ MAX_FAMILY_NAME }
        ensures short_help { length result.help.now ≤ MAX_HELP }
        ensures short_type { length result.type_text.now ≤ 9 }
    {
        match self {
            Family::Build => Description {
                name: b"mondlexi_build_info",
                help: b"The version of the server. The value is always 1.",
                type_text: b"gauge",
            },
            Family::Uptime => Description {
                name: b"mondlexi_uptime_seconds",
                help: b"Seconds since the server started.",
                type_text: b"gauge",
            },
            Family::Lease => Description {
                name: b"mondlexi_lease_age_seconds",
                help: b"Seconds since the last beat of the lease that went well began.",
                type_text: b"gauge",
            },
            Family::Server(figure) => figure.description(),
            Family::Closed => Description {
                name: b"mondlexi_connections_closed_total",
                help: b"Connections that were closed, by the reason.",
                type_text: b"counter",
            },
            Family::Tenant(gauge) => gauge.description(),
            Family::Requests => Description {
                name: b"mondlexi_requests_total",
                help: b"Requests that were answered, by their kind and their reply.",
                type_text: b"counter",
            },
            Family::DeviceFailures => Description {
                name: b"mondlexi_device_failures_total",
                help: b"Calls of the device of a tenant's file that failed.",
                type_text: b"counter",
            },
            Family::RequestTime => Description {
                name: b"mondlexi_request_seconds",
                help: b"Seconds from a request's line to its reply.",
                type_text: b"histogram",
            },
            Family::DeviceTime => Description {
                name: b"mondlexi_device_seconds",
                help: b"Seconds of a call of the device of a tenant's file.",
                type_text: b"histogram",
            },
        }
    }
}
