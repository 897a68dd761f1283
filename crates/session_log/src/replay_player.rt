//! Replays a log on a session.
ghost use Rattle.std.specs.Prelude.{◌≡◌, ◌<◌, ◌-◌, ◌^◌, List, [], OnOk};
ghost use Rattle.session_log.specs.Command.{PlaysThrough};
ghost use Rattle.session_log.specs.Replay.{Logs};
ghost use Rattle.session_log.specs.Replay.{FitsMeters};
ghost use Rattle.session_log.specs.Replay.{history, machine, replay_exchanges, Repeats};
ghost use Rattle.token_session.specs.declared.input.Timed.{Timed as OneInput};
ghost use Rattle.authn_core.specs.Turn.{Start};
ghost use Rattle.token_session.specs.Meters.{IsStateAfterValidStart, SessionState, IsStateAfter};

use crate::fault::LogFault;
use crate::line::Line;
use crate::line_writer::{Text, put_input, put_meters, put_text};
use crate::player::{Player, process_log};
use crate::source::Source;
use crate::target::Target;
use hid_packet::Outbox;
use token_session::laws::answers_follow_history;
use token_session::{Meters, Session};

/// Returns the meters of a session, as numbers of 64 bits.
pub fn meters_u64<const C: usize>(session: &Session<C>) -> Meters
    ensures value { result ≡ session.now.meters }
    ensures fits { FitsMeters result }
{
    session.meters()
}

/// Writes each input line and comment again. After an input line, writes the packets that are sent for the input.
#[derive(Drop)]
struct ReplayPlayer {
    outbox: Outbox,
    text: Text,
}

impl ReplayPlayer {
    /// Returns the state before the first line.
    fn new() -> Self
        ensures { result.outbox ≡ [] }
    {
        ReplayPlayer {
            outbox: Outbox::new(),
            text: Text::new(),
        }
    }
}

impl<const C: usize> Player<C> for ReplayPlayer {
    ghost State = { SessionState };

    ghost semantics = { machine };

    ghost state = { λ _ s. s };

    ghost IsReady = { λ player n. player.outbox ≡ [] };

    fn play<T: Target>(
        &mut self,
        meaning: Line,
        _line: &[u8],
        text: &[u8],
        _number: u64,
        writer: &mut T,
        session: &mut Session<C>,
    ) -> Result<(), LogFault> {
        match meaning {
            Line::Sent(_) | Line::Count => Ok(()),
            Line::Comment => put_text(writer, text),
            Line::Input(timed) => {
                session.step(timed.at, timed.input, &mut self.outbox);
                put_input(writer, &mut self.text, text, &mut self.outbox)
            }
        }
    }

    fn finish<T: Target>(&mut self, writer: &mut T, session: &Session<C>) -> Result<(), LogFault> {
        put_meters(writer, &mut self.text, session.meters())
    }
}

/// Replays a log on a session (docs/use/LOG_FORMAT.md): writes each input line and comment again, after each input line
/// the packets that the session sends for the input, and at the end the meters of the session, which are also returned.
/// The text for a line is written before more is read. Allocates nothing. After [`LogFault::BadLine`],
/// [`LogFault::TooLong`] and [`LogFault::TooManyLines`], the texts for the lines before the invalid line were written;
/// after [`LogFault::Read`], those for the complete lines that were read; after [`LogFault::Write`], only a part of the
/// text. The session has processed all inputs up to the error. A failed read or write is not retried. There are no
/// other errors.
pub fn replay<S: Source, T: Target, const C: usize>(
    reader: &mut S,
    writer: &mut T,
    session: &mut Session<C>,
) -> Result<Meters, LogFault>
    requires read { S.failed reader.old < 2 ^ 64 - 1 }
    requires write { T.failed writer.old < 2 ^ 64 - 1 }
    // On success, no line is invalid, and the whole log was written. An error in a line is that of the first invalid
    // line, and the lines before it were written. A failed read names its line, and the lines before it were written.
    // After a failed write, only a part of the log was written. For an invalid line, at most 256 bytes were read after
    // the lines before it; on success, everything was read. The reader's count of failures increases only for `Read`,
    // the writer's only for `Write`.
    ensures replayed { PlaysThrough machine session.old
        (λ bytes text. Logs machine session.old session.new bytes text result) S.left S.failed S.ended T.taken T.failed
        result (reader.old, reader.new) (writer.old, writer.new) }
    // Replaying the output on an equal session gives the same output.
    ensures again { OnOk result (Repeats (T.taken writer.old) (T.taken writer.new) session.old) }
    // For each history that leads to the session's state, the result is the one that the definitions in specs/ give for
    // the history.
    ensures history { (start : Start) (h : List OneInput) → IsStateAfter session.old start h
        → (later : List OneInput) × IsStateAfter session.new start later
        × PlaysThrough (history start) h (λ bytes text. Logs (history start) h later bytes text result)
        S.left S.failed S.ended T.taken T.failed result (reader.old, reader.new) (writer.old, writer.new) }
    // If the start of the history is valid, the result is also the one that the definitions without an authenticator's
    // state give.
    ensures told { (start : Start) (h : List OneInput) → IsStateAfterValidStart session.old start h
        → (later : List OneInput) × IsStateAfterValidStart session.new start later
        × PlaysThrough (replay_exchanges start) h (λ bytes text. Logs (replay_exchanges start) h later bytes text result)
        S.left S.failed S.ended T.taken T.failed result (reader.old, reader.new) (writer.old, writer.new) }
{
    answers_follow_history();
    let mut player = ReplayPlayer::new();
    process_log(&mut player, reader, writer, session)?;
    Ok(meters_u64(session))
}
