//! Writes all figures in the text format of Prometheus.
//!
//! Used by: `meters`. Change it with `specs/Figures`.
ghost use Rattle.std.specs.Prelude.{◌≡◌, ◌+◌, ◌≤◌, length, IfOk};
ghost use Rattle.mw_words.specs.declared.limits.TheConstants.{MAX_TENANTS};
ghost use Rattle.mw_metrics.specs.Figures as spec;

use crate::figures::{ServerMetrics, TenantMetrics};
use crate::samples::MAX_LABEL_VALUE;
use crate::server_lines::put_server;
use crate::tenant_lines::put_tenants;
use crate::text::{MAX_METRICS, Text};
use mw_words::MAX_TENANTS;
use std::alloc::{AllocError, Global};

/// Gives the text of all figures in the text format of Prometheus, version 0.0.4: the version of the server, of at most
/// [`MAX_LABEL_VALUE`] bytes, its figures, and those of at most [`MAX_TENANTS`] tenants, in their order. `specs/Exposition`
/// has the format, `specs/Figures` the text. It asks for memory once, for [`MAX_METRICS`] bytes.
///
/// # Errors
///
/// This memory is out.
pub fn metrics_text(
    alloc: Global,
    version: &[u8],
    server: &ServerMetrics,
    tenants: &[TenantMetrics],
) -> Result<Vec<u8>, AllocError>
    requires version { length version.now ≤ MAX_LABEL_VALUE }
    requires few { length tenants.now ≤ MAX_TENANTS }
    ensures text { IfOk result (λ text. text.items ≡ spec.metrics version.now server.now tenants.now) }
    ensures short { IfOk result (λ text. length text.items ≤ MAX_METRICS) }
{
    let mut text = Text::new(alloc)?;
    put_server(&mut text, version, server);
    put_tenants(&mut text, tenants);
    Ok(text.bytes)
}
