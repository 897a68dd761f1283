//! The streams of a caller, in place of the process's streams.
ghost use Rattle.std.specs.Prelude.{[]};
ghost use Rattle.hidlog.specs.Program.{caller_left};

use crate::buffered_output::Output;
use crate::logs::{OpenSource, open_file};
use session_log::{Failed, Source, Target};
use std::fs::File;
use std::io::{self, Error, ErrorKind, Read};

/// The stream of a log: the caller's source, or a file.
#[derive(Drop)]
pub enum CallerStream<S> {
    /// The caller's source, which takes the place of standard input.
    Source(S),
    /// The file at a path.
    Named(File),
}

impl<S: Source> Read for CallerStream<S> {
    ghost remaining = { λ s. caller_left S.left s };

    fn read(&mut self, buf: &mut [u8]) -> io::Result<usize> {
        match self {
            CallerStream::Source(source) => {
                if source.failures() == u64::MAX {
                    return Err(Error::from(ErrorKind::Other));
                }
                match source.get(buf) {
                    Ok(n) => Ok(n),
                    Err(_) => Err(Error::from(ErrorKind::Other)),
                }
            }
            CallerStream::Named(file) => file.read(buf),
        }
    }
}

/// Files are those of the system. The caller's source is open from the start, and can't be opened again.
impl<S: Source + Drop> OpenSource for CallerStream<S> {
    ghost is_at = { λ _ _. Unit {0} };

    fn open(rt: &HostRuntime, path: Option<&str>) -> io::Result<(Self, Option<u64>)> {
        match path {
            Some(path) => {
                let (file, size) = open_file(rt, path)?;
                Ok((CallerStream::Named(file), size))
            }
            None => Err(Error::from(ErrorKind::Unsupported)),
        }
    }
}

/// A target without a buffer.
#[derive(Drop)]
pub struct Unbuffered<O>(pub O);

impl<O: Target> Target for Unbuffered<O> {
    ghost taken = { λ s. O.taken s.0 };

    ghost failed = { λ s. O.failed s.0 };

    fn put(&mut self, piece: &[u8]) -> Result<usize, Failed> {
        self.0.put(piece)
    }

    fn failures(&self) -> u64 {
        self.0.failures()
    }
}

impl<O: Target> Output for Unbuffered<O> {
    ghost waits = { λ _. [] };

    fn flush_buffer(&mut self) -> Result<(), Failed> {
        Ok(())
    }
}
