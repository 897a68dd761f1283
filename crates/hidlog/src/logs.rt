//! The logs that the program reads.
ghost use Rattle.std.specs.Prelude.{◌≡◌, ℕ, false, List, [], IfOk, IfSome, MatchResult};
ghost use Rattle.std.specs.Io.KnownBytes.{prepend_known};
ghost use Rattle.hidlog.specs.Program.{unread};

use crate::buffered_output::{LineBoundaries, Lookahead};
use crate::recent_bytes::RecentBytes;
use crate::source_stats::SourceStats;
use session_log::{Failed, FromRead, Source};
use std::alloc::Global;
use std::cell::Cell;
use std::fs::{self, File};
use std::io::{self, BufReader, Chain, Cursor, Error, IsTerminal, Read, Stdin, Write};
use std::mem;

/// A source that can open a file.
pub trait Logs: Source {
    /// The same log, when it is read a second time.
    type Reread: Source + Drop;

    /// Opening the file at this path takes the source from the first state to the second. Nothing was read yet.
    ghost opened: { Self → List ℕ → Self → Type 0 };

    /// The file at a path cannot be opened.
    ghost unopenable: { Self → List ℕ → Type 0 };

    /// Opens the file at a path, or standard input. On failure, the source is unchanged.
    fn open(&mut self, path: Option<&str>) -> io::Result<()>
        ensures opens { IfSome path.entry (λ path. MatchResult result (λ _. opened self.old path.now self.new)
            (λ _. unopenable self.old path.now × (self.new ≡ self.old))) }
        ensures counted { Self.failed self.new ≡ Self.failed self.old };

    /// Returns the state of the log.
    fn state(&self) -> LogState<'_>;

    /// Returns the log from its start, if it is a file. With `takes_rest`, a log that can't be read twice, such as a
    /// pipe, is also returned if the bytes that were read so far were kept. The unread bytes are then read from the
    /// result, not from this source.
    fn reread(&mut self, takes_rest: bool) -> Option<Self::Reread>
        ensures counted { Self.failed self.new ≡ Self.failed self.old }
        ensures kept { takes_rest ≡ false → self.new ≡ self.old };
}

/// The state of a log that is being read.
#[derive(Clone, Copy)]
pub struct LogState<'a> {
    /// The name of the log: its path, or `standard input`.
    pub name: &'a str,
    /// The lines that were read last, without a first line whose beginning was dropped.
    pub lines: &'a [u8],
    /// The error of the failed read, if any.
    pub failure: Option<&'a Error>,
    /// The statistics of the log so far.
    pub seen: &'a SourceStats,
}

/// A stream from which a log is read.
pub trait OpenSource: Read + Drop {
    /// The stream reads the file at this path, from its start.
    ghost is_at: { List ℕ → Self → Type 0 };

    /// Opens the file at a path, or standard input. Also returns its length if it can be read a second time. Fails for
    /// a directory.
    fn open(rt: &HostRuntime, path: Option<&str>) -> io::Result<(Self, Option<u64>)>
        ensures { IfOk result (λ opened. IfSome path.entry (λ path. is_at path.now opened.0)) };
}

/// The stream of a log: standard input or a file.
#[derive(Drop)]
pub enum Stream<I, F> {
    /// Standard input.
    Standard(I),
    /// The file at a path.
    Named(F),
}

impl<I: Read, F: Read> Read for Stream<I, F> {
    ghost use Rattle.hidlog.specs.Program.{stream_left};

    ghost remaining = { λ s. stream_left I.remaining F.remaining s };

    fn read(&mut self, buf: &mut [u8]) -> io::Result<usize> {
        match self {
            Stream::Standard(input) => input.read(buf),
            Stream::Named(file) => file.read(buf),
        }
    }
}

/// Opens the file at a path. Also returns its length if it can be read a second time. Fails for a directory.
pub fn open_file(rt: &HostRuntime, path: &str) -> io::Result<(File, Option<u64>)> {
    let file = File::open(rt, path)?;
    let found = file.metadata()?;
    if found.is_dir() {
        return Err(Error::from_raw_os_error(EISDIR));
    }
    let size = if found.is_file() {
        Some(found.len())
    } else {
        None
    };
    Ok((file, size))
}

/// The system's streams. The contracts state nothing about their content.
impl OpenSource for Stream<Stdin, File> {
    ghost is_at = { λ _ _. Unit {0} };

    fn open(rt: &HostRuntime, path: Option<&str>) -> io::Result<(Self, Option<u64>)> {
        let Some(path) = path else {
            let mut size = None;
            if let Ok(found) = fs::metadata(rt, STANDARD_INPUT)
                && found.is_file()
            {
                size = Some(found.len());
            }
            return Ok((Stream::Standard(rt.stdin()), size));
        };
        let (file, size) = open_file(rt, path)?;
        Ok((Stream::Named(file), size))
    }
}

/// A log from its start: the bytes that were kept, followed by the unread bytes.
pub type RewoundSource<S> = FromRead<BufReader<Chain<Cursor<Vec<u8>>, S>>>;

/// The log of the program's process.
pub type ProcessLog<'a> = HostLog<'a, Stream<Stdin, File>>;

/// The path of standard input.
const STANDARD_INPUT: &str = "/dev/stdin";

/// The error number EISDIR, for a path that is a directory.
const EISDIR: i32 = 21;

/// The note that is shown when the log is read from a terminal.
const TERMINAL_NOTE: &[u8] = b"hidlog: reading a log from the terminal; end it with Ctrl-D\n";

/// What is shown at a terminal while a log is read.
#[derive(Clone, Copy, Default)]
pub struct ProgressMode {
    /// Whether the note that the program waits for input is shown.
    pub is_told: bool,
    /// Whether the progress of reading a long log is shown.
    pub sees_progress: bool,
}

/// The log of the process: standard input, unless a file is opened.
#[derive(Drop)]
pub struct HostLog<'a, S> {
    rt: &'a HostRuntime,
    /// The path of the opened file, if any.
    path: Option<String>,
    stream: S,
    /// Standard input, while a file is open.
    standard: Option<S>,
    /// The length of standard input, if it can be read a second time.
    standard_size: Option<u64>,
    /// The error of the failed read, if any.
    failure: Option<Error>,
    /// Whether the note that the program waits for input is shown at a terminal.
    is_told: bool,
    /// Whether this note still has to be shown for this log.
    is_awaited: bool,
    /// The allocator for the bytes of a log that can't be read a second time, if the log may be needed again.
    keeps: Option<Global>,
    seen: SourceStats,
    recent: RecentBytes,
    /// The boundaries of the lines that were read last, from which `ahead` is set.
    last: LineBoundaries,
    ahead: &'a Cell<Lookahead>,
    ended: bool,
    failures: u64,
}

impl<'a, S: OpenSource> HostLog<'a, S> {
    /// Returns the log on standard input, or an error. With `is_kept`, the bytes of a short log that can't be read a
    /// second time are kept. `progress_mode` determines what is shown at a terminal.
    pub fn new(
        rt: &'a HostRuntime,
        is_kept: bool,
        progress_mode: ProgressMode,
        ahead: &'a Cell<Lookahead>,
    ) -> io::Result<Self>
        ensures { IfOk result (λ log. ⟦<HostLog<'a, S> as Source>⟧.failed log ≡ 0) }
    {
        let (stream, size) = S::open(rt, None)?;
        HostLog::from_stream(rt, stream, size, is_kept, progress_mode, ahead)
    }

    /// Returns the log that a stream contains, or an allocation error. `size` is the log's length if it can be read a
    /// second time. The other parameters are those of `new`.
    pub fn from_stream(
        rt: &'a HostRuntime,
        stream: S,
        size: Option<u64>,
        is_kept: bool,
        progress_mode: ProgressMode,
        ahead: &'a Cell<Lookahead>,
    ) -> io::Result<Self>
        ensures left { IfOk result (λ log. ⟦<HostLog<'a, S> as Source>⟧.left log ≡ S.remaining stream) }
        ensures open { IfOk result (λ log. ⟦<HostLog<'a, S> as Source>⟧.ended log ≡ false) }
        ensures counted { IfOk result (λ log. ⟦<HostLog<'a, S> as Source>⟧.failed log ≡ 0) }
    {
        let keeps = if is_kept { Some(rt.alloc()) } else { None };
        Ok(HostLog {
            rt,
            path: None,
            stream,
            standard: None,
            standard_size: size,
            failure: None,
            is_told: progress_mode.is_told,
            is_awaited: progress_mode.is_told,
            keeps,
            seen: SourceStats::new(progress_mode.sees_progress, size, keeps),
            recent: RecentBytes::new(rt.alloc())?,
            last: LineBoundaries::of(b""),
            ahead,
            ended: false,
            failures: 0,
        })
    }
}

impl<S: OpenSource> Source for HostLog<'_, S> {
    // The bytes that were read but not consumed, followed by the rest of the stream.
    ghost left = { λ s. prepend_known (unread s.recent.held.items s.recent.at s.recent.end) (S.remaining s.stream) };

    ghost ended = { λ s. s.ended };

    ghost failed = { λ s. s.failures };

    fn get(&mut self, out: &mut [u8]) -> Result<usize, Failed> {
        let rt = self.rt;
        let recent = &mut self.recent;
        if recent.unread().is_empty() {
            if self.is_awaited && rt.stdin().is_terminal() {
                let _ = rt.stderr().write_all(TERMINAL_NOTE);
            }
            self.is_awaited = false;
            if let Err(error) = recent.fill(&mut self.stream) {
                self.failure = Some(error);
                self.failures += 1;
                return Err(Failed);
            }
            let read = recent.unread();
            self.seen.take(rt, read);
            self.last = LineBoundaries::of(read);
        }
        let last = self.last;
        // Copies at most the bytes before the next line with a boundary, and its first byte, so that `ahead` changes
        // when that line is played.
        let behind = recent.unread().len().saturating_sub(1);
        let most = last.next(behind).0.saturating_add(1);
        let n = recent.take(most, out);
        self.ahead.set(last.next(recent.unread().len()).1);
        self.ended = self.ended || n == 0 && !out.is_empty();
        Ok(n)
    }

    fn failures(&self) -> u64 {
        self.failures
    }
}

impl<S: OpenSource> Logs for HostLog<'_, S> {
    type Reread = RewoundSource<S>;

    ghost opened = { λ _ path s. S.is_at path s.stream
        × (unread s.recent.held.items s.recent.at s.recent.end ≡ []) };

    ghost unopenable = { λ _ _. Unit {0} };

    fn open(&mut self, path: Option<&str>) -> io::Result<()> {
        let alloc = self.rt.alloc();
        let recent = RecentBytes::new(alloc)?;
        let mut size = self.standard_size;
        if let Some(path) = path {
            let (stream, file_size) = S::open(self.rt, Some(path))?;
            let name = String::from_str(alloc, path)?;
            let before = mem::replace(&mut self.stream, stream);
            if self.path.is_none() {
                self.standard = Some(before);
            }
            self.path = Some(name);
            size = file_size;
        } else {
            self.path = None;
            if let Some(stream) = self.standard.take() {
                self.stream = stream;
            }
        }
        self.recent = recent;
        self.is_awaited = self.is_told && path.is_none();
        self.failure = None;
        self.seen = SourceStats::new(self.seen.progress.is_shown, size, self.keeps);
        self.ahead.set(Lookahead::Nothing);
        self.ended = false;
        Ok(())
    }

    fn state(&self) -> LogState<'_> {
        LogState {
            name: match &self.path {
                Some(path) => path.as_str(),
                None => "standard input",
            },
            lines: self.recent.lines(),
            failure: self.failure.as_ref(),
            seen: &self.seen,
        }
    }

    fn reread(&mut self, takes_rest: bool) -> Option<RewoundSource<S>> {
        let alloc = self.rt.alloc();
        let is_file = self.seen.progress.size.is_some();
        if !is_file && !takes_rest {
            return None;
        }
        let named = match &self.path {
            Some(path) => path.as_str(),
            None => STANDARD_INPUT,
        };
        let path = if is_file { Some(named) } else { None };
        let Ok((mut rest, _)) = S::open(self.rt, path) else {
            return None;
        };
        let mut kept = Vec::new(alloc);
        if !is_file {
            match self.seen.kept.take() {
                Some(bytes) => kept = bytes,
                None => return None,
            }
            rest = mem::replace(&mut self.stream, rest);
        }
        match BufReader::new(alloc, Cursor::new(kept).chain(rest)) {
            Ok(reader) => Some(FromRead::new(reader)),
            Err(_) => None,
        }
    }
}
