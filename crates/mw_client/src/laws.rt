//! The law that the server reads each request as it was sent: the contract of an empty function, proved in
//! `proofs/laws`.
//!
//! Nothing calls it, and no other crate cites it. To change it, begin with `specs/RequestLines`, which must match
//! `specs/Grammar` of mw_line.
ghost use Rattle.mw_client.specs.RequestLines.{WhatIsSentIsRead};

/// States that whoever reads the line of a request as the server does ([`mw_line::read_line`]) gets that
/// request.
pub fn what_is_sent_is_read()
    ensures { WhatIsSentIsRead }
{}
