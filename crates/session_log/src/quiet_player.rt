//! Replaces the ignored inputs in a log by ticks.
ghost use Rattle.std.specs.Prelude.{◌≡◌, ◌<◌, ◌-◌, ◌^◌, List, []};
ghost use Rattle.session_log.specs.Command.{PlaysLog, PlaysThrough};
ghost use Rattle.session_log.specs.declared.command.ReplayMode.TheVariants as commands;
ghost use Rattle.session_log.specs.Replay.{ending_of};
ghost use Rattle.session_log.specs.Replay.{PlaysWholeLog};
ghost use Rattle.session_log.specs.Replay.{quiet_history, quiet_machine};
ghost use Rattle.token_session.specs.declared.input.Timed.{Timed as OneInput};
ghost use Rattle.authn_core.specs.Turn.{Start};
ghost use Rattle.token_session.specs.Meters.{SessionState, IsStateAfter};

use crate::fault::LogFault;
use crate::line::Line;
use crate::line_writer::{Text, put_text, put_tick};
use crate::player::{Player, process_log};
use crate::source::Source;
use crate::target::Target;
use hid_packet::Outbox;
use token_session::Session;

/// Writes each input line and comment again, with ticks in place of ignored inputs.
#[derive(Drop)]
struct QuietPlayer {
    outbox: Outbox,
    text: Text,
}

impl QuietPlayer {
    /// Returns the state before the first line.
    fn new() -> Self
        ensures { result.outbox ≡ [] }
    {
        QuietPlayer {
            outbox: Outbox::new(),
            text: Text::new(),
        }
    }
}

/// Removes the packets from the outbox.
fn drop_packets(outbox: &mut Outbox)
    ensures { outbox.new ≡ [] }
{
    while outbox.pop().is_some() {}
}

impl<const C: usize> Player<C> for QuietPlayer {
    ghost State = { SessionState };

    ghost semantics = { quiet_machine };

    ghost state = { λ _ s. s };

    ghost IsReady = { λ player n. player.outbox ≡ [] };

    fn play<T: Target>(
        &mut self,
        meaning: Line,
        _line: &[u8],
        text: &[u8],
        _number: u64,
        writer: &mut T,
        session: &mut Session<C>,
    ) -> Result<(), LogFault> {
        match meaning {
            Line::Sent(_) | Line::Count => Ok(()),
            Line::Comment => put_text(writer, text),
            Line::Input(timed) => {
                // Whether the input is ignored is determined before the input is processed.
                let noise = session.noise(timed.at, &timed.input);
                session.step(timed.at, timed.input, &mut self.outbox);
                drop_packets(&mut self.outbox);
                if noise {
                    put_tick(writer, &mut self.text, timed.at)
                } else {
                    put_text(writer, text)
                }
            }
        }
    }

    fn finish<T: Target>(
        &mut self,
        _writer: &mut T,
        _session: &Session<C>,
    ) -> Result<(), LogFault> {
        Ok(())
    }
}

/// Replaces ignored inputs in a log by ticks (docs/use/LOG_FORMAT.md): writes each input line and comment again, with a
/// tick at the same time in place of an input that the session ignores ([`Session::noise`]). The session processes the
/// inputs of the original log; its packets and meters aren't written. If the output is replayed on an equal session,
/// the same packets are sent, except the responses to ignored inputs, and the meters at the end are the same. Allocates
/// nothing. The errors are those of [`crate::replay`].
pub fn quiet<S: Source, T: Target, const C: usize>(
    reader: &mut S,
    writer: &mut T,
    session: &mut Session<C>,
) -> Result<(), LogFault>
    requires read { S.failed reader.old < 2 ^ 64 - 1 }
    requires write { T.failed writer.old < 2 ^ 64 - 1 }
    // On success, all lines are valid, and the whole output was written. The errors are those of a replay.
    ensures made { PlaysThrough quiet_machine session.old
        (λ bytes text. PlaysWholeLog quiet_machine session.old session.new bytes text (ending_of result)) S.left S.failed S.ended
        T.taken T.failed result (reader.old, reader.new) (writer.old, writer.new) }
    // For each history that leads to the session's state, the result is the one that the definitions in specs/ give for
    // the history.
    ensures history { (start : Start) (h : List OneInput) → IsStateAfter session.old start h
        → PlaysLog commands.Quiet start h S.left S.failed S.ended T.taken T.failed result session.new (reader.old, reader.new)
        (writer.old, writer.new) }
{
    let mut player = QuietPlayer::new();
    process_log(&mut player, reader, writer, session)
}
