//! Runs one session: reads the client's bytes, and answers the lines that have come.
//!
//! Used by: `steps`, `writer`, mw_connections, for each connection; mw_service, for a script; mw_programs, for
//! [`Ended`]. `specs/WholeSessions` says what [`Session::run`] promises, `specs/RecordedCalls` of which calls of the
//! stream. The loop may change with `specs/UnderWay` and `specs/SessionParts`. docs/PROMISES cites `Session::run`.
//! docs/ARCHITECTURE tells the number of `PIECE`.
ghost use Rattle.std.specs.Prelude.{◌≡◌, ℕ, [], ◌∷◌, List, OnOk};
ghost use Rattle.std.specs.Io.KnownBytes.{IsAtEnd};
ghost use Rattle.mw_frame.specs.declared.lines.Line.{Line as LineRead};
ghost use Rattle.mw_frame.specs.Stream.{lines_of};
ghost use Rattle.mw_session.specs.KnownStreams.{IsTied, inner_of, reads_of, writes_of};
ghost use Rattle.mw_session.specs.RecordedCalls.{HasMade};
ghost use Rattle.mw_session.specs.SessionParts.{Gives, Performs, Turned, Writes};
ghost use Rattle.mw_session.specs.ServiceCalls.{AreAnswered, IsServed};
ghost use Rattle.mw_session.specs.StepOfLine.{Judges, Suits};
ghost use Rattle.mw_session.specs.declared.steps.Bound.{Bound as BoundRead};
ghost use Rattle.mw_session.specs.declared.steps.Step.TheVariants.{Report};
ghost use Rattle.mw_session.specs.WholeSessions.{Holds};
ghost use Rattle.mw_session.specs.declared.session.Ended.TheVariants.{PeerEnd};

use crate::recorded_stream::RecordedStream;
use crate::replies::{perform, report};
use crate::service::Service;
use crate::steps::{Bound, Step, next_step};
use crate::stream::{Others, PeerStream};
use crate::writer::write_counted;
use mw_frame::Feed;
use std::alloc::Global;
use std::sync::Wait;

/// How a session ended.
#[derive(Clone, Copy, PartialEq, Eq)]
pub enum Ended {
    /// The peer said `QUIT`. What it sent after that isn't looked at.
    Quit,
    /// The peer sends no more. A last line without its line feed got no reply.
    PeerEnd,
    /// A line was too long, and the peer was told so.
    TooLong,
    /// A read failed.
    ReadFault,
    /// A write failed, or took nothing, after so many bytes of this session were taken. The number stops at
    /// `u64::MAX`.
    WriteFault(u64),
    /// Memory was out for what came.
    Memory,
}

/// How many bytes are asked of the stream at a time.
const PIECE: usize = 512;

/// A session under way.
#[derive(Drop)]
pub struct Session {
    /// What has come and isn't looked at yet.
    feed: Feed,
    /// For whom the session speaks.
    bound: Bound,
    /// How many bytes the stream has taken; stops at `u64::MAX`.
    written: u64,
}

impl Session {
    /// Serves one peer until the session ends: reads its lines, and writes the reply to each before it looks at the
    /// next. While it waits for the peer, the stream may ask whether others wait. It may wait for ever, because a stream
    /// may never end.
    pub fn run<T: PeerStream, R: Wait, O: Others, S: Service>(
        alloc: Global,
        rt: &R,
        others: &O,
        stream: &mut RecordedStream<T>,
        service: &mut S,
    ) -> Ended
        ensures holds { Holds (reads_of stream.old) (reads_of stream.new) (writes_of stream.old) (writes_of stream.new)
            (AreAnswered S.answered service.old service.new) result }
        ensures tied { IsTied T.remaining T.contents stream.old stream.new }
        ensures made { HasMade T.called stream.old stream.new }
        ensures at_end { result ≡ PeerEnd → IsAtEnd (T.remaining (inner_of stream.new)) }
    {
        let Ok(feed) = Feed::new(alloc) else {
            return Ended::Memory;
        };
        let mut session = Session {
            feed,
            bound: Bound::Nobody,
            written: 0,
        };
        let mut piece = [0; PIECE];
        for _ in rt.forever() {
            match stream.read(rt, others, &mut piece) {
                Ok(0) => return Ended::PeerEnd,
                Ok(count) => {
                    if session.feed.feed(&piece[..count]).is_err() {
                        return Ended::Memory;
                    }
                    if let Err(ended) = session.answer_all(rt, others, stream, service) {
                        return ended;
                    }
                }
                Err(_) => return Ended::ReadFault,
            }
        }
        unreachable!()
    }

    /// Answers the complete lines that have come, in order. The error says how the session ended.
    fn answer_all<T: PeerStream, R: Wait, O: Others, S: Service>(
        &mut self,
        rt: &R,
        others: &O,
        stream: &mut RecordedStream<T>,
        service: &mut S,
    ) -> Result<(), Ended>
        requires { IsServed (S.has_words service.old) self.old.bound }
        ensures turned { (lines : List LineRead) × Gives self.old.feed lines self.new.feed
            × Turned (writes_of stream.old) (writes_of stream.new) (AreAnswered S.answered service.old service.new)
            self.old.written self.new.written lines self.old.bound self.new.bound result }
        ensures reads { reads_of stream.new ≡ reads_of stream.old }
        ensures tied { IsTied T.remaining T.contents stream.old stream.new }
        ensures made { HasMade T.called stream.old stream.new }
        ensures all { OnOk result (lines_of self.new.feed ≡ []) }
        ensures served { OnOk result (IsServed (S.has_words service.new) self.new.bound) }
    {
        while let Some(step) = next_step(&mut self.feed, self.bound) {
            let answered = self.answer(rt, others, &step, stream, service);
            if answered.is_err() {
                return answered;
            }
        }
        Ok(())
    }

    /// Takes the step of a line, and writes the reply. The error says how the session ended.
    fn answer<T: PeerStream, R: Wait, O: Others, S: Service>(
        &mut self,
        rt: &R,
        others: &O,
        step: &Step,
        stream: &mut RecordedStream<T>,
        service: &mut S,
    ) -> Result<(), Ended>
        requires served { IsServed (S.has_words service.old) self.old.bound }
        requires suits { Suits self.old.bound step.now }
        ensures turned { (line : LineRead) → Judges self.old.bound line step.now
            → Turned (writes_of stream.old) (writes_of stream.new) (AreAnswered S.answered service.old service.new)
            self.old.written self.new.written (line ∷ []) self.old.bound self.new.bound result }
        ensures reads { reads_of stream.new ≡ reads_of stream.old }
        ensures tied { IsTied T.remaining T.contents stream.old stream.new }
        ensures made { HasMade T.called stream.old stream.new }
        ensures served { IsServed (S.has_words service.new) self.new.bound }
        ensures feed { self.new.feed ≡ self.old.feed }
    {
        let sent = self.reply(rt, others, step, stream, service);
        if sent.is_err() {
            return sent;
        }
        match step.end() {
            Some(ended) => Err(ended),
            None => Ok(()),
        }
    }

    /// Takes a step, and writes the line to say or the report.
    ///
    /// # Errors
    ///
    /// As [`write_counted`].
    fn reply<T: PeerStream, R: Wait, O: Others, S: Service>(
        &mut self,
        rt: &R,
        others: &O,
        step: &Step,
        stream: &mut RecordedStream<T>,
        service: &mut S,
    ) -> Result<(), Ended>
        requires served { IsServed (S.has_words service.old) self.old.bound }
        requires suits { Suits self.old.bound step.now }
        ensures replies { (text : List ℕ) × Performs (AreAnswered S.answered service.old service.new) step.now self.old.bound self.new.bound text
            × Writes (writes_of stream.old) (writes_of stream.new) self.old.written self.new.written text result }
        ensures reads { reads_of stream.new ≡ reads_of stream.old }
        ensures tied { IsTied T.remaining T.contents stream.old stream.new }
        ensures made { HasMade T.called stream.old stream.new }
        ensures served { IsServed (S.has_words service.new) self.new.bound }
        ensures feed { self.new.feed ≡ self.old.feed }
    {
        match perform(step, &mut self.bound, service) {
            Some(say) => write_counted(rt, others, stream, &say.text(), &mut self.written),
            None => write_report(rt, others, stream, service, &mut self.written),
        }
    }
}

/// Writes the report, and counts its bytes. Only this function needs the room of a report.
///
/// # Errors
///
/// As [`write_counted`].
fn write_report<T: PeerStream, R: Wait, O: Others, S: Service>(
    rt: &R,
    others: &O,
    stream: &mut RecordedStream<T>,
    service: &mut S,
    count: &mut u64,
) -> Result<(), Ended>
    ensures replies { (text : List ℕ) × ((bound : BoundRead) → Performs (AreAnswered S.answered service.old service.new) Report bound bound text)
        × Writes (writes_of stream.old) (writes_of stream.new) count.old count.new text result }
    ensures words { (number words : ℕ) → S.has_words service.old number words → S.has_words service.new number words }
    ensures reads { reads_of stream.new ≡ reads_of stream.old }
    ensures tied { IsTied T.remaining T.contents stream.old stream.new }
    ensures made { HasMade T.called stream.old stream.new }
{
    let text = report(service);
    write_counted(rt, others, stream, &text, count)
}
