//! The replies to a job (a read or a change): a word's value, YES, NO, BUSY, FAULT and WORN.
//!
//! Every layer uses it. CONTRIBUTING lists under *A command* what a new reply needs.

/// The reply to a job.
#[derive(Clone, Copy, Debug, PartialEq, Eq)]
pub enum Reply {
    /// The value of the word that was asked for.
    Val(u64),
    /// Each entry's word had its expected value. All new values are written, durably.
    Yes,
    /// The word at this address had this value, which isn't the expected one. Nothing was written.
    No(u16, u64),
    /// All slots of the tenant's quota are in use. Nothing was written.
    Busy,
    /// The tenant's file has failed, or didn't open. If a change has this reply, a later start finds all of it
    /// or nothing.
    Fault,
    /// The numbers that tell changes apart are used up until the next start. A change with this reply may still
    /// be made: all of it or nothing.
    Worn,
}
