//! States what is proved of calls on tenants' files: how they start and end, and what the file token says of a
//! file.
//!
//! The functions are empty: their contracts are the facts. mw_table and mw_law_threads cite the lemmas behind them. To
//! change a fact, begin with its definition in `specs`.
ghost use Rattle.mw_law_store.specs.Quotas.{EventsTellQuotas};
ghost use Rattle.mw_rule.specs.Calls.OtherEvents.{OthersLeaveFiles, OthersLeaveFilesLong};
ghost use Rattle.mw_rule.specs.Calls.CallsByToken.{CallingStays, CallingStaysLong, CallsEndByFileToken};
ghost use Rattle.mw_rule.specs.Calls.CallEnds.{CallsChangeNoMore, CallsEndWell, CallsFindFaults, CallsMeetFaults, CallsSkip, RequestsGoOnFromCalls};
ghost use Rattle.mw_rule.specs.Calls.FileTokens.{FileTokensFollowCalls, FileTokensFollowFaults, FileTokensTellCalls, FileTokensTellFiles, FileTokensTellOpenedFiles};
ghost use Rattle.mw_rule.specs.Calls.CallStarts.{CallsCanStart, CallsHaveWords};
ghost use Rattle.mw_rule.specs.Calls.TokensInWorlds.{CallsAreMadeByFileToken, EachFileHasAToken, FileTokensStay, FileTokensStayLong, FileTokensStayOverCalls, FileTokensTellOfCalls, StartsHaveFileTokens};
ghost use Rattle.mw_rule.specs.Calls.StableStatuses.{StatusesWait, StatusesWaitLong};

/// Every event but a start and a call on a tenant's file leaves that file, and so do any number of such events. Every
/// event leaves each tenant's file as many places as it had. Every event but a start leaves each tenant's quota; a
/// start gives a tenant the quota that it tells, if it tells one.
pub fn others_leave_files()
    ensures event { OthersLeaveFiles }
    ensures long { OthersLeaveFilesLong }
    ensures quotas { EventsTellQuotas }
{}

/// After every run the words that a call's end may use are there: its change's status, and its tenant's door.
pub fn calls_have_words()
    ensures { CallsHaveWords }
{}

/// After every run a call that starts can be made, if it doesn't fail because the file had failed. It has a place of
/// the file that is as it needs it, and its change is one of the file's words.
pub fn calls_can_start()
    ensures { CallsCanStart }
{}

/// After every run a call ends by a step on one shared word, which is its event. The step is a load of its change's
/// status, if the call doesn't start from it; an exchange of that status; or the fault at its tenant's door, if a
/// device call fails or the file had failed before.
pub fn calls_end()
    ensures skip { CallsSkip }
    ensures well { CallsEndWell }
    ensures meet_faults { CallsMeetFaults }
    ensures find_faults { CallsFindFaults }
{}

/// A call's event changes nothing of the world beside the shared words but this: its request is told how it went, and
/// its tenant gets the file after it and the mark that it means.
pub fn calls_change_no_more()
    ensures { CallsChangeNoMore }
{}

/// A request that is at a call asks for that call and has no reply. It has no reply yet after it is told how the call
/// went.
pub fn requests_go_on_from_calls()
    ensures { RequestsGoOnFromCalls }
{}

/// The request, the status of its change and the file stay while the request is at a call that starts from that
/// status. This holds after every run, over each event but a start and a call on the same file, and over any number
/// of such events.
pub fn statuses_wait()
    ensures event { StatusesWait }
    ensures long { StatusesWaitLong }
{}

/// A file token tells of each call on the file which place it is about, and whether it can be made. Each file has a
/// token, and so has a file that was just opened.
pub fn file_tokens_tell_files()
    ensures calls { FileTokensTellCalls }
    ensures files { FileTokensTellFiles }
    ensures opened { FileTokensTellOpenedFiles }
{}

/// After a call, the token after it tells of the file after it, whether the call went well or met a fault.
pub fn file_tokens_follow_files()
    ensures well { FileTokensFollowCalls }
    ensures faults { FileTokensFollowFaults }
{}

/// Each file has a token in each world, and the token stays true over events that don't change the file. A start
/// gives it. Every event but a start and a call that changes the file leaves it true.
pub fn file_tokens_tell_tenants()
    ensures start { StartsHaveFileTokens }
    ensures each { EachFileHasAToken }
    ensures event { FileTokensStay }
    ensures long { FileTokensStayLong }
    ensures same { FileTokensStayOverCalls }
{}

/// After every run, whoever has the token of a file knows two things of a call on it: whether it fails because the
/// file had failed, and which place it is about. If a call starts and doesn't fail, it can be made on the file that
/// the token tells. The token after it is true of the file after it.
pub fn calls_are_made_by_file_token()
    ensures told { FileTokensTellOfCalls }
    ensures made { CallsAreMadeByFileToken }
{}

/// A call by whoever has the file's token ends in each way that the token and the status that was found allow, by one
/// step on one shared word. While it is under way, each event but a start and a call on the same file leaves what it
/// rests on. Whoever makes the call says whether a device call failed.
pub fn calls_end_by_file_token()
    ensures event { CallingStays }
    ensures long { CallingStaysLong }
    ensures end { CallsEndByFileToken }
{}
