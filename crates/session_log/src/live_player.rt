//! Replays a log, and also writes what the session needs.
ghost use Rattle.std.specs.Prelude.{◌≡◌, ◌<◌, ◌-◌, ◌^◌, List, [], OnOk};
ghost use Rattle.session_log.specs.Command.{PlaysThrough};
ghost use Rattle.session_log.specs.Replay.{ending_of, read_fails, write_fails};
ghost use Rattle.session_log.specs.Semantics.{is_need_line as is_one};
ghost use Rattle.session_log.specs.Replay.{Logs, Plays, ReadsTo, Writes};
ghost use Rattle.session_log.specs.Replay.{live_history, live_machine, Repeats, RepeatsIn};
ghost use Rattle.token_session.specs.declared.input.Timed.{Timed as OneInput};
ghost use Rattle.authn_core.specs.Turn.{Start};
ghost use Rattle.token_session.specs.Meters.{SessionState, IsStateAfter};
ghost use Rattle.session_log.specs.Lines.{Counts, IsAtEndOfInput, ReadsAndWrites};

use crate::fault::LogFault;
use crate::line::Line;
use crate::line_writer::{Text, put_input_with_need, put_meters, put_text};
use crate::player::{Player, process_lines, process_log};
use crate::replay_player::meters_u64;
use crate::source::Source;
use crate::target::Target;
use hid_packet::Outbox;
use token_session::{Meters, Session};

/// Writes each input line and comment again. After an input line, writes the packets that are sent and what the session
/// needs. Comments about needs in an earlier run are dropped.
#[derive(Drop)]
struct LivePlayer {
    outbox: Outbox,
    text: Text,
}

impl LivePlayer {
    /// Returns the state before the first line.
    fn new() -> Self
        ensures { result.outbox ≡ [] }
    {
        LivePlayer {
            outbox: Outbox::new(),
            text: Text::new(),
        }
    }
}

/// Returns whether a comment is about a need in an earlier run.
fn is_need_line(comment: &[u8]) -> bool
    ensures { result ≡ is_one comment.now }
{
    comment.starts_with(b"# need ") || comment.starts_with(b"# signed ")
}

impl<const C: usize> Player<C> for LivePlayer {
    ghost State = { SessionState };

    ghost semantics = { live_machine };

    ghost state = { λ _ s. s };

    ghost IsReady = { λ player n. player.outbox ≡ [] };

    fn play<T: Target>(
        &mut self,
        meaning: Line,
        line: &[u8],
        text: &[u8],
        _number: u64,
        writer: &mut T,
        session: &mut Session<C>,
    ) -> Result<(), LogFault> {
        match meaning {
            Line::Sent(_) | Line::Count => Ok(()),
            Line::Comment => {
                if is_need_line(line) {
                    Ok(())
                } else {
                    put_text(writer, text)
                }
            }
            Line::Input(timed) => {
                session.step(timed.at, timed.input, &mut self.outbox);
                // What the session needs is determined after the input.
                put_input_with_need(
                    writer,
                    &mut self.text,
                    text,
                    &mut self.outbox,
                    session.need(),
                )
            }
        }
    }

    fn finish<T: Target>(&mut self, writer: &mut T, session: &Session<C>) -> Result<(), LogFault> {
        put_meters(writer, &mut self.text, session.meters())
    }
}

/// Plays lines of a log on a session, and writes the output of [`live`] for them, without the last line, which contains
/// the meters. This way, a log can be played in parts while it is recorded. The text for a line is written before more
/// is read. Allocates nothing. The errors are those of [`live`]; line numbers begin at 1 in these lines.
pub fn process_live_lines<S: Source, T: Target, const C: usize>(
    reader: &mut S,
    writer: &mut T,
    session: &mut Session<C>,
) -> Result<(), LogFault>
    requires read { S.failed reader.old < 2 ^ 64 - 1 }
    requires write { T.failed writer.old < 2 ^ 64 - 1 }
    ensures played { ReadsAndWrites (S.left reader.old) (S.left reader.new) (T.taken writer.old) (T.taken writer.new)
        (λ bytes text. Plays live_machine session.old session.new bytes text (ending_of result)) }
    ensures end { OnOk result (IsAtEndOfInput S.left S.ended reader.new) }
    ensures reach { ReadsTo live_machine session.old (S.left reader.old) (S.left reader.new)
        (IsAtEndOfInput S.left S.ended reader.new) (ending_of result) }
    // For each history that leads to the session's state, the result is the one that the definitions in specs/ give for
    // the history.
    ensures history { (start : Start) (h : List OneInput) → IsStateAfter session.old start h
        → (later : List OneInput) × IsStateAfter session.new start later
        × ReadsAndWrites (S.left reader.old) (S.left reader.new) (T.taken writer.old) (T.taken writer.new)
        (λ bytes text. Writes (live_history start) h later bytes text (ending_of result))
        × ReadsTo (live_history start) h (S.left reader.old) (S.left reader.new)
        (IsAtEndOfInput S.left S.ended reader.new) (ending_of result) }
    ensures reads { Counts S.failed (reader.old, reader.new) (read_fails (ending_of result)) }
    ensures writes { Counts T.failed (writer.old, writer.new) (write_fails (ending_of result)) }
{
    let mut player = LivePlayer::new();
    process_lines(&mut player, reader, writer, session)
}

/// Replays a log on a session like [`crate::replay`]. After the packets of each input line, also writes what the
/// session needs ([`Session::need`]; docs/use/LOG_FORMAT.md), as comments. Only the last of these comments begins with
/// `# need `. Comments in the log that begin with `# need ` or `# signed ` are dropped, so that playing the output
/// gives the same output. The text for a line is written before more is read. Allocates nothing. The errors are those
/// of [`crate::replay`].
pub fn live<S: Source, T: Target, const C: usize>(
    reader: &mut S,
    writer: &mut T,
    session: &mut Session<C>,
) -> Result<Meters, LogFault>
    requires read { S.failed reader.old < 2 ^ 64 - 1 }
    requires write { T.failed writer.old < 2 ^ 64 - 1 }
    // On success, no line is invalid, and the whole log was written with what the session needs. The errors are those
    // of a replay.
    ensures lived { PlaysThrough live_machine session.old
        (λ bytes text. Logs live_machine session.old session.new bytes text result) S.left S.failed S.ended T.taken
        T.failed result (reader.old, reader.new) (writer.old, writer.new) }
    // Playing the output on an equal session gives the same output.
    ensures again { OnOk result (RepeatsIn live_machine (T.taken writer.old) (T.taken writer.new) session.old) }
    // Replaying the output on an equal session gives the same output, too.
    ensures replays { OnOk result (Repeats (T.taken writer.old) (T.taken writer.new) session.old) }
    // For each history that leads to the session's state, the result is the one that the definitions in specs/ give for
    // the history.
    ensures history { (start : Start) (h : List OneInput) → IsStateAfter session.old start h
        → (later : List OneInput) × IsStateAfter session.new start later
        × PlaysThrough (live_history start) h (λ bytes text. Logs (live_history start) h later bytes text result)
        S.left S.failed S.ended T.taken T.failed result (reader.old, reader.new) (writer.old, writer.new) }
{
    let mut player = LivePlayer::new();
    process_log(&mut player, reader, writer, session)?;
    Ok(meters_u64(session))
}
