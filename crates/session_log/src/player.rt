//! Processing the lines of a log with a command.
ghost use Rattle.std.specs.Prelude.{◌≡◌, ◌<◌, ◌≤◌, ◌+◌, ◌-◌, ◌^◌, ℕ, length, take, drop, IfErr, OnOk};
ghost use Rattle.session_log.specs.Command.{PlaysThrough};
ghost use Rattle.session_log.specs.Replay.{ending_of};
ghost use Rattle.session_log.specs.Replay.{IsLineFault, PlaysWholeLogWithMeters, Plays, PlaysLine};
ghost use Rattle.session_log.specs.Semantics.{with_line_feed};

use crate::fault::LogFault;
use crate::line::{Line, parse_line};
use crate::line_reader::next_line;
use crate::source::Source;
use crate::target::Target;
use crate::window::Window;
use token_session::Session;

/// A command, with what it does for each line of a log.
pub trait Player<const C: usize> {
    ghost use Rattle.std.specs.Prelude.{◌≡◌, ◌<◌, ◌≤◌, ◌+◌, ◌-◌, ◌^◌, ℕ, length, Some, OnOk, IfErr};
    ghost use Rattle.session_log.specs.Replay.{ending_of};
    ghost use Rattle.session_log.specs.Replay.{FinishesLog, IsEndFault, IsLineFault, PlaysLine};
    ghost use Rattle.session_log.specs.Grammar.{parsed};
    ghost use Rattle.session_log.specs.Semantics.{with_line_feed};
    ghost use Rattle.session_log.specs.Semantics.{LineSemantics};
    ghost use Rattle.token_session.specs.Meters.{SessionState};

    /// In contracts, the type of the states between lines.
    ghost State: { Type 0 };

    /// The definition of what the command does for each line.
    ghost semantics: { LineSemantics State };

    /// The state after the lines that were processed.
    ghost state: { Self → SessionState → State };

    /// Whether the command is ready for line `n`.
    ghost IsReady: { Self → ℕ → Type 0 };

    /// Processes the parsed line `number` of the log. `text` is the line with its line feed. An invalid line leaves the
    /// session unchanged.
    fn play<T: Target>(
        &mut self,
        meaning: Line,
        line: &[u8],
        text: &[u8],
        number: u64,
        writer: &mut T,
        session: &mut Session<C>,
    ) -> Result<(), LogFault>
        requires write { T.failed writer.old < 2 ^ 64 - 1 }
        requires means { parsed line.now ≡ Some meaning }
        requires short { length line.now < 256 }
        requires ended { text.now ≡ with_line_feed line.now }
        requires few { number < 2 ^ 32 }
        requires ready { IsReady self.old number }
        ensures played { PlaysLine semantics T.taken T.failed number (state self.old session.old)
            (state self.new session.new) line.now (writer.old, writer.new) (ending_of result) }
        ensures own { IfErr result (IsLineFault number) }
        ensures next { OnOk result (IsReady self.new (number + 1)) };

    /// Writes the text after the last line.
    fn finish<T: Target>(&mut self, writer: &mut T, session: &Session<C>) -> Result<(), LogFault>
        requires write { T.failed writer.old < 2 ^ 64 - 1 }
        requires ready { (n : ℕ) × (n ≤ 2 ^ 32) × IsReady self.old n }
        ensures closed { FinishesLog semantics T.taken T.failed (state self.old session.now) (writer.old, writer.new)
            (ending_of result) }
        ensures own { IfErr result IsEndFault }
        ensures same { (s : SessionState) → state self.new s ≡ state self.old s };
}

/// Processes line `number` of a log, if it is a log line. Otherwise fails, and the session is unchanged.
fn parse_and_process_line<P: Player<C>, T: Target, const C: usize>(
    player: &mut P,
    line: &[u8],
    text: &[u8],
    number: u64,
    writer: &mut T,
    session: &mut Session<C>,
) -> Result<(), LogFault>
    requires write { T.failed writer.old < 2 ^ 64 - 1 }
    requires short { length line.now < 256 }
    requires ended { text.now ≡ with_line_feed line.now }
    requires few { number < 2 ^ 32 }
    requires ready { P.IsReady player.old number }
    ensures played { PlaysLine P.semantics T.taken T.failed number (P.state player.old session.old)
        (P.state player.new session.new) line.now (writer.old, writer.new) (ending_of result) }
    ensures own { IfErr result (IsLineFault number) }
    ensures next { OnOk result (P.IsReady player.new (number + 1)) }
{
    match parse_line(line) {
        Some(meaning) => player.play(meaning, line, text, number, writer, session),
        None => Err(LogFault::BadLine(number)),
    }
}

/// Processes the first line of a window, which ends with a line feed, and removes it from the window.
fn process_first_line<P: Player<C>, T: Target, const C: usize>(
    player: &mut P,
    window: &mut Window,
    end: usize,
    number: u64,
    writer: &mut T,
    session: &mut Session<C>,
) -> Result<(), LogFault>
    requires write { T.failed writer.old < 2 ^ 64 - 1 }
    requires whole { take (end + 1) window.old ≡ with_line_feed (take end window.old) }
    requires within { end < length window.old }
    requires short { length window.old ≤ 256 }
    requires few { number < 2 ^ 32 }
    requires ready { P.IsReady player.old number }
    ensures played { PlaysLine P.semantics T.taken T.failed number (P.state player.old session.old)
        (P.state player.new session.new) (take end window.old) (writer.old, writer.new) (ending_of result) }
    ensures own { IfErr result (IsLineFault number) }
    ensures next { OnOk result (P.IsReady player.new (number + 1)) }
    ensures rest { window.new ≡ drop (end + 1) window.old }
{
    let text = window.as_slice().split_at(end + 1).0;
    let played = parse_and_process_line(
        player,
        text.split_at(end).0,
        text,
        number,
        writer,
        session,
    );
    window.drop_front(end + 1);
    played
}

/// Processes all lines of a reader. Before a line is processed, at most this line and as much as fits into the window
/// are read.
pub fn process_lines<P: Player<C>, S: Source, T: Target, const C: usize>(
    player: &mut P,
    reader: &mut S,
    writer: &mut T,
    session: &mut Session<C>,
) -> Result<(), LogFault>
    requires read { S.failed reader.old < 2 ^ 64 - 1 }
    requires write { T.failed writer.old < 2 ^ 64 - 1 }
    requires ready { P.IsReady player.old 1 }
    ensures played { PlaysThrough P.semantics (P.state player.old session.old)
        (λ bytes text. Plays P.semantics (P.state player.old session.old) (P.state player.new session.new) bytes text
        (ending_of result)) S.left S.failed S.ended T.taken T.failed result (reader.old, reader.new)
        (writer.old, writer.new) }
    ensures ready { OnOk result ((n : ℕ) × (n ≤ 2 ^ 32) × P.IsReady player.new n) }
{
    let mut window = Window::new();
    let mut number = 1;
    'lines: while let Some(end) = next_line(&mut window, reader, number)? {
        process_first_line(player, &mut window, end, number, writer, session)?;
        number += 1;
    }
    if window.is_empty() {
        return Ok(());
    }
    // The last line has no line feed.
    let end = window.len();
    window.end_line();
    process_first_line(player, &mut window, end, number, writer, session)
}

/// Processes all lines of a reader, and writes the text after the last line.
pub fn process_log<P: Player<C>, S: Source, T: Target, const C: usize>(
    player: &mut P,
    reader: &mut S,
    writer: &mut T,
    session: &mut Session<C>,
) -> Result<(), LogFault>
    requires read { S.failed reader.old < 2 ^ 64 - 1 }
    requires write { T.failed writer.old < 2 ^ 64 - 1 }
    requires ready { P.IsReady player.old 1 }
    ensures { PlaysThrough P.semantics (P.state player.old session.old)
        (λ bytes text. PlaysWholeLogWithMeters P.semantics (P.state player.old session.old) (P.state player.new session.new) bytes text
        result) S.left S.failed S.ended T.taken T.failed result (reader.old, reader.new) (writer.old, writer.new) }
{
    process_lines(player, reader, writer, session)?;
    player.finish(writer, session)
}
