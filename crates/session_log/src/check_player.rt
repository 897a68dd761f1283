//! Compares a log with the packets that a session sends.
ghost use Rattle.std.specs.Prelude.{◌≡◌, ◌<◌, ◌≤◌, ◌+◌, ◌-◌, ◌^◌, ℕ, List, [], ◌∷◌, ◌++◌, None, Some, OnOk};
ghost use Rattle.session_log.specs.Check.{Compared, first_comparison, check_machine, log_comparison, due_packets};
ghost use Rattle.session_log.specs.Command.{PlaysLog, PlaysThrough};
ghost use Rattle.session_log.specs.declared.command.ReplayMode.TheVariants as commands;
ghost use Rattle.session_log.specs.Replay.{ending_of};
ghost use Rattle.session_log.specs.Replay.{PlaysWholeLog};
ghost use Rattle.token_session.specs.declared.input.Timed.{Timed as OneInput};
ghost use Rattle.authn_core.specs.Turn.{Start};
ghost use Rattle.token_session.specs.Meters.{SessionState, IsStateAfter};

use crate::fault::LogFault;
use crate::line::Line;
use crate::line_writer::{Text, put_check_result};
use crate::player::{Player, process_log};
use crate::source::Source;
use crate::target::Target;
use hid_packet::{Outbox, Packet};
use token_session::{Session, Timed};

/// Compares the packets of a log with those that the session sends, and writes nothing.
#[derive(Drop)]
struct CheckPlayer {
    /// The next expected packet of the log. The packets after it are in the outbox.
    awaited: Option<Packet>,
    outbox: Outbox,
    /// Number of lines read.
    lines: u64,
    /// The line of the last input, or 0 before the first input.
    input: u64,
    /// The number of packets that were found for the last input.
    found: u64,
    inputs: u64,
    packets: u64,
}

impl CheckPlayer {
    /// Returns the state before the first line.
    fn new() -> Self
        ensures begun { (s : SessionState) → log_comparison s result.lines result.input result.found
            (due_packets result.awaited result.outbox) result.inputs result.packets ≡ first_comparison s }
        ensures none { result.awaited ≡ None }
        ensures empty { result.outbox ≡ [] }
        ensures lines { result.lines ≡ 0 }
        ensures input { result.input ≡ 0 }
        ensures found { result.found ≡ 0 }
        ensures inputs { result.inputs ≡ 0 }
        ensures packets { result.packets ≡ 0 }
    {
        CheckPlayer {
            awaited: None,
            outbox: Outbox::new(),
            lines: 0,
            input: 0,
            found: 0,
            inputs: 0,
            packets: 0,
        }
    }

    /// Returns the error for the next packet of the last input: it differs, is missing or is one too many.
    fn difference(&self) -> LogFault
        requires { self.now.found < 2 ^ 64 - 1 }
        ensures { result ≡ LogFault.Differs self.now.input (self.now.found + 1) }
    {
        LogFault::Differs {
            line: self.input,
            packet: self.found + 1,
        }
    }

    /// Compares the packet on this line of the log with the expected one.
    fn match_packet(&mut self, number: u64)
        requires found { self.old.found < 2 ^ 64 - 1 }
        requires packets { self.old.packets < 2 ^ 64 - 1 }
        ensures lines { self.new.lines ≡ number }
        ensures input { self.new.input ≡ self.old.input }
        ensures found { self.new.found ≡ self.old.found + 1 }
        ensures due { due_packets self.new.awaited self.new.outbox ≡ self.old.outbox }
        ensures inputs { self.new.inputs ≡ self.old.inputs }
        ensures packets { self.new.packets ≡ self.old.packets + 1 }
        ensures all { self.new.awaited ≡ None → self.new.outbox ≡ [] }
    {
        self.awaited = self.outbox.pop();
        self.lines = number;
        self.found += 1;
        self.packets += 1;
    }

    /// Makes the packets in the outbox the expected ones. They belong to the input on this line.
    fn begin_input(&mut self, number: u64)
        requires { self.old.inputs < 2 ^ 64 - 1 }
        ensures lines { self.new.lines ≡ number }
        ensures input { self.new.input ≡ number }
        ensures found { self.new.found ≡ 0 }
        ensures due { due_packets self.new.awaited self.new.outbox ≡ self.old.outbox }
        ensures inputs { self.new.inputs ≡ self.old.inputs + 1 }
        ensures packets { self.new.packets ≡ self.old.packets }
        ensures all { self.new.awaited ≡ None → self.new.outbox ≡ [] }
    {
        self.awaited = self.outbox.pop();
        self.lines = number;
        self.input = number;
        self.found = 0;
        self.inputs += 1;
    }
}

impl<const C: usize> Player<C> for CheckPlayer {
    ghost State = { Compared SessionState };

    ghost semantics = { check_machine };

    ghost state = { λ c s. log_comparison s c.lines c.input c.found (due_packets c.awaited c.outbox) c.inputs c.packets };

    ghost IsReady = { λ c n. (n ≡ c.lines + 1) × (c.found ≤ c.lines) × (c.inputs ≤ c.lines) × (c.packets ≤ c.lines)
        × (c.awaited ≡ None → c.outbox ≡ []) };

    fn play<T: Target>(
        &mut self,
        meaning: Line,
        _line: &[u8],
        _text: &[u8],
        number: u64,
        _writer: &mut T,
        session: &mut Session<C>,
    ) -> Result<(), LogFault> {
        match meaning {
            Line::Comment | Line::Count => {
                self.lines = number;
                Ok(())
            }
            Line::Sent(packet) => {
                if self.awaited != Some(packet) {
                    return Err(self.difference());
                }
                self.match_packet(number);
                Ok(())
            }
            Line::Input(timed) => {
                if self.awaited.is_some() {
                    return Err(self.difference());
                }
                session.step(timed.at, timed.input, &mut self.outbox);
                self.begin_input(number);
                Ok(())
            }
        }
    }

    fn finish<T: Target>(&mut self, writer: &mut T, _session: &Session<C>) -> Result<(), LogFault> {
        match self.awaited {
            Some(_) => Err(self.difference()),
            None => put_check_result(writer, &mut Text::new(), self.inputs, self.packets),
        }
    }
}

/// Compares the packets in a log with those that a session sends for its inputs (docs/use/LOG_FORMAT.md). After each
/// input line, the log must contain exactly the packets sent for the input, in order; comments and lines of meters may
/// be between them. Hexadecimal digits are compared by value. At the end of the log, writes the number of equal inputs
/// and packets, and nothing else. Allocates nothing. Fails with [`LogFault::Differs`] at the first packet that differs,
/// is missing or is one too many. A missing packet is found at the next input line or at the end of the log.
/// [`LogFault::BadLine`], [`LogFault::TooLong`], [`LogFault::TooManyLines`] and [`LogFault::Read`] are as for
/// [`crate::replay`]. If there are several errors, the first one is returned. [`LogFault::Write`] occurs only at the
/// end of the log; then only a part of the text was written. The session has processed all inputs up to the error.
pub fn check<S: Source, T: Target, const C: usize>(
    reader: &mut S,
    writer: &mut T,
    session: &mut Session<C>,
) -> Result<(), LogFault>
    requires read { S.failed reader.old < 2 ^ 64 - 1 }
    requires write { T.failed writer.old < 2 ^ 64 - 1 }
    // On success, no line is invalid, no packet differs, is missing or is one too many, and the counts were written. An
    // invalid line or a difference is the first one in the log. A failed read names its line, and nothing before it
    // differs. For an invalid line or a difference, at most 256 bytes were read after the lines before it.
    ensures checked { (later : Compared SessionState) × (later.session ≡ session.new)
        × PlaysThrough check_machine (first_comparison session.old)
        (λ bytes text. PlaysWholeLog check_machine (first_comparison session.old) later bytes text (ending_of result)) S.left S.failed
        S.ended T.taken T.failed result (reader.old, reader.new) (writer.old, writer.new) }
    // For each history that leads to the session's state, the result is the one that the definitions in specs/ give for
    // the history.
    ensures history { (start : Start) (h : List OneInput) → IsStateAfter session.old start h
        → PlaysLog commands.Check start h S.left S.failed S.ended T.taken T.failed result session.new (reader.old, reader.new)
        (writer.old, writer.new) }
{
    let mut player = CheckPlayer::new();
    process_log(&mut player, reader, writer, session)
}
