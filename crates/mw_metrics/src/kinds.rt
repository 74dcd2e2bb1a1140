//! What is counted apart: the kinds of requests and of replies, the calls of a device, and why a connection was closed.
//! Each has the text of its label.
//!
//! Used by: `counters`, `counted`, `server_lines`, `tenant_lines`; mw_connections, for [`CloseReason`]; mw_opening,
//! for [`DeviceCall`]. A new kind needs its text here and in `specs/Names`, its place in the lists below and in
//! `counters`, and its name in the table of docs/HTTP.
ghost use Rattle.std.specs.Prelude.{◌≡◌, ◌≤◌, length};
ghost use Rattle.mw_metrics.specs.Names as spec;
ghost use Rattle.mw_metrics.specs.declared.samples.TheConstants.{MAX_LABEL_VALUE};

/// What a client's line asks for.
#[derive(Clone, Copy)]
pub enum RequestKind {
    /// The value of a word.
    Get,
    /// A change.
    Cas,
    /// Anything else, as a line that is no command.
    Other,
}

/// The kind of a reply.
#[derive(Clone, Copy)]
pub enum ReplyKind {
    Val,
    Yes,
    No,
    Busy,
    Fault,
    Worn,
    Err,
}

/// A call of the device that holds a tenant's file.
#[derive(Clone, Copy)]
pub enum DeviceCall {
    Read,
    Write,
    Sync,
}

/// Why a connection was closed.
#[derive(Clone, Copy)]
pub enum CloseReason {
    /// The client said `QUIT`.
    Quit,
    /// The client sent no more.
    PeerEnd,
    /// A line was too long.
    TooLong,
    /// A read failed, the client was silent or slow for too long (`--idle`, `--line-time`), or it sent too many lines
    /// with a fault (`--faults`).
    ReadFault,
    /// A write failed, the client took no reply for too long, or the server was without its lease (`--lease`).
    WriteFault,
    /// Memory was out for what the client sent.
    Memory,
    /// The connection waited for a session for too long, or was sent away for another one.
    Unserved,
}

/// All kinds of requests.
pub const REQUEST_KINDS: [RequestKind; 3] = [
    RequestKind::Get,
    RequestKind::Cas,
    RequestKind::Other,
];

/// All kinds of replies.
pub const REPLY_KINDS: [ReplyKind; 7] = [
    ReplyKind::Val,
    ReplyKind::Yes,
    ReplyKind::No,
    ReplyKind::Busy,
    ReplyKind::Fault,
    ReplyKind::Worn,
    ReplyKind::Err,
];

/// All calls of a device.
pub const DEVICE_CALLS: [DeviceCall; 3] = [DeviceCall::Read, DeviceCall::Write, DeviceCall::Sync];

/// All reasons why a connection is closed.
pub const CLOSE_REASONS: [CloseReason; 7] = [
    CloseReason::Quit,
    CloseReason::PeerEnd,
    CloseReason::TooLong,
    CloseReason::ReadFault,
    CloseReason::WriteFault,
    CloseReason::Memory,
    CloseReason::Unserved,
];

#[tactic(auto, unfolding(crate::specs::Names::kind_text))]
impl RequestKind {
    /// Gives the value of the label `kind`.
    pub fn text(self) -> &'static [u8]
        ensures text { result.now ≡ spec.kind_text self }
        ensures short { length result.now ≤ 5 }
    {
        match self {
            RequestKind::Get => b"GET",
            RequestKind::Cas => b"CAS",
            RequestKind::Other => b"other",
        }
    }
}

#[tactic(auto, unfolding(crate::specs::Names::reply_text))]
impl ReplyKind {
    /// Gives the value of the label `reply`.
    pub fn text(self) -> &'static [u8]
        ensures text { result.now ≡ spec.reply_text self }
        ensures short { length result.now ≤ 5 }
    {
        match self {
            ReplyKind::Val => b"VAL",
            ReplyKind::Yes => b"YES",
            ReplyKind::No => b"NO",
            ReplyKind::Busy => b"BUSY",
            ReplyKind::Fault => b"FAULT",
            ReplyKind::Worn => b"WORN",
            ReplyKind::Err => b"ERR",
        }
    }
}

#[tactic(auto, unfolding(crate::specs::Names::call_text))]
impl DeviceCall {
    /// Gives the value of the label `call`.
    pub fn text(self) -> &'static [u8]
        ensures text { result.now ≡ spec.call_text self }
        ensures short { length result.now ≤ 5 }
    {
        match self {
            DeviceCall::Read => b"read",
            DeviceCall::Write => b"write",
            DeviceCall::Sync => b"sync",
        }
    }
}

#[tactic(auto, unfolding(crate::specs::Names::reason_text))]
impl CloseReason {
    /// Gives the value of the label `reason`.
    pub fn text(self) -> &'static [u8]
        ensures text { result.now ≡ spec.reason_text self }
        ensures short { length result.now ≤ MAX_LABEL_VALUE }
    {
        match self {
            CloseReason::Quit => b"quit",
            CloseReason::PeerEnd => b"peer_end",
            CloseReason::TooLong => b"too_long",
            CloseReason::ReadFault => b"read_fault",
            CloseReason::WriteFault => b"write_fault",
            CloseReason::Memory => b"memory",
            CloseReason::Unserved => b"unserved",
        }
    }
}
