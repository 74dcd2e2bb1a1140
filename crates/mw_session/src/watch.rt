//! Is told of the requests that are answered FAULT.
//!
//! mw_service tells it; mw_upkeep writes notes by it, and mw_programs hands it on.

/// Is told when a request was answered FAULT.
pub trait FaultWatch {
    /// A request of the tenant of this number was answered FAULT.
    fn fault(&self, tenant: u8);
}
