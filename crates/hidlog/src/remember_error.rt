//! A writer that remembers the last error of a stream.
use std::io::{self, Write};

/// A writer that stores its last error, and returns an error of the same kind. A failed call is not retried.
#[derive(Drop)]
pub struct RememberError<W> {
    pub inner: W,
    pub failure: Option<io::Error>,
}

impl<W: Write> Write for RememberError<W> {
    ghost contents = { λ s. W.contents s.inner };

    fn write(&mut self, buf: &[u8]) -> io::Result<usize> {
        match self.inner.write(buf) {
            Ok(n) => Ok(n),
            Err(error) => {
                let kind = error.kind();
                self.failure = Some(error);
                Err(io::Error::from(kind))
            }
        }
    }

    fn flush(&mut self) -> io::Result<()> {
        self.inner.flush()
    }
}
