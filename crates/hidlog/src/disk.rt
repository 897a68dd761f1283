//! An interface to the files of a disk, by path, and to open files.
ghost use Rattle.std.specs.Prelude.{◌≡◌, ◌≤◌, ℕ, Bool, true, false, List, None, Option, Some, is_some, length, take, IfOk, IfSome, OnOk};
ghost use Rattle.hidlog.specs.Program.{overwritten_at};

use std::fs::{self, File, Metadata, OpenOptions, TryLockError};
use std::io::{self, Error, ErrorKind, Read, Write};
use std::os::unix::fs::{FileExt, FileTypeExt, MetadataExt};

/// An open file.
pub trait OpenFile {
    /// The open file is the one at this path.
    ghost is_at: { List ℕ → Self → Type 0 };

    /// Whether the content of files is known.
    ghost is_known: { Bool };

    /// The content of the file, if known.
    ghost bytes: { Self → Option (List ℕ) };

    /// Writes all bytes at an offset, which must not exceed the file's length.
    fn write_at_offset(&mut self, piece: &[u8], at: u64) -> io::Result<()>
        ensures bytes { OnOk result (IfSome (bytes self.old) (λ has. at ≤ length has → bytes self.new ≡ Some (overwritten_at has at piece.now))) }
        ensures place { (path : List ℕ) → is_at path self.old → is_at path self.new };

    /// Truncates the file to `size` bytes if it is longer, and syncs the file to disk if the file system supports
    /// syncing.
    fn cut(&mut self, size: u64) -> io::Result<()>
        ensures bytes { OnOk result (IfSome (bytes self.old) (λ has. size ≤ length has → bytes self.new ≡ Some (take size has))) }
        ensures place { (path : List ℕ) → is_at path self.old → is_at path self.new };
}

/// The kind of object at a path to which a snapshot may be written.
#[derive(Clone, Copy)]
pub enum PathKind {
    Nothing,
    File,
    Pipe,
    /// A device, a socket, or a symbolic link whose target doesn't exist.
    Other,
}

/// A disk.
pub trait Disk {
    type File: OpenFile + Drop;

    /// The file at a path has these bytes.
    ghost holds: { Self → List ℕ → List ℕ → Type 0 };

    /// These bytes were written to the object at this path, which isn't a regular file.
    ghost handed: { List ℕ → List ℕ → Type 0 };

    /// Reads a whole file. Fails with `FileTooLarge` if it has more than `most` bytes.
    fn read(&self, path: &str, most: u64) -> io::Result<Vec<u8>>
        ensures { IfOk result (λ bytes. holds self.now path.now bytes.items × length bytes.items ≤ most) };

    /// Returns the kind of object at a path. Fails for a directory, for the log, and for the file that standard output
    /// is redirected to. `log` is the log's path, or `None` for standard input.
    fn path_kind(&self, path: &str, log: Option<&str>) -> io::Result<PathKind>;

    /// Returns the inode number of the file at a path, or 0 on failure.
    fn inode(&self, path: &str) -> u64;

    /// Returns whether two paths lead to the same file.
    fn is_same(&self, path: &str, other: &str) -> bool;

    /// Opens a file to overwrite its content, and returns the file's length. The file is locked against other programs,
    /// unless this program already holds the lock.
    fn open(&self, path: &str, is_held: bool) -> io::Result<(Self::File, u64)>
        ensures place { IfOk result (λ opened. Self.File.is_at path.now opened.0) }
        ensures size { IfOk result (λ opened. IfSome (Self.File.bytes opened.0) (λ has. length has ≡ opened.1)) }
        ensures known { IfOk result (λ opened. Self.File.is_known ≡ true → is_some (Self.File.bytes opened.0) ≡ true) };

    /// Creates a file with these bytes and syncs it. Fails with `AlreadyExists` if the path exists, even as a broken
    /// symbolic link.
    fn create(&self, path: &str, bytes: &[u8]) -> io::Result<Self::File>
        ensures place { IfOk result (λ file. Self.File.is_at path.now file) }
        ensures known { IfOk result (λ file. Self.File.is_known ≡ true → Self.File.bytes file ≡ Some bytes.now) };

    /// Renames an open file. A file at the new path is replaced.
    fn rename(&self, file: Self::File, from: &str, to: &str) -> io::Result<Self::File>
        ensures place { IfOk result (λ moved. Self.File.is_at to.now moved) }
        ensures bytes { IfOk result (λ moved. Self.File.bytes moved ≡ Self.File.bytes file) };

    /// Removes a file.
    fn remove(&self, path: &str) -> io::Result<()>;

    /// Writes bytes to an object that isn't a regular file, such as a pipe. `found` is its kind.
    fn write_special(&self, path: &str, bytes: &[u8], found: PathKind) -> io::Result<()>
        ensures { OnOk result (handed path.now bytes.now) };
}

/// The system's files. The contracts state nothing about their content.
impl OpenFile for File {
    ghost is_at = { λ _ _. Unit {0} };

    ghost is_known = { false };

    ghost bytes = { λ _. None };

    fn write_at_offset(&mut self, piece: &[u8], at: u64) -> io::Result<()> {
        self.write_all_at(piece, at)
    }

    fn cut(&mut self, size: u64) -> io::Result<()> {
        self.set_len(size)?;
        let synced = self.sync_all();
        if let Err(error) = &synced
            && matches!(
                error.kind(),
                ErrorKind::InvalidInput | ErrorKind::Unsupported
            )
        {
            return Ok(());
        }
        synced
    }
}

/// The system's disk. The contracts state nothing about its content.
#[derive(Clone, Copy)]
pub struct HostDisk<'a>(pub &'a HostRuntime);

/// The error number EISDIR, for a path that is a directory.
const EISDIR: i32 = 21;

/// Returns whether a path leads to this file.
fn is_at(rt: &HostRuntime, path: &str, file: &Metadata) -> bool {
    match fs::metadata(rt, path) {
        Ok(other) => other.ino() == file.ino() && other.dev() == file.dev(),
        Err(_) => false,
    }
}

impl Disk for HostDisk<'_> {
    type File = File;

    ghost holds = { λ _ _ _. Unit {0} };

    ghost handed = { λ _ _. Unit {0} };

    fn read(&self, path: &str, most: u64) -> io::Result<Vec<u8>> {
        let mut bytes = Vec::new(self.0.alloc());
        File::open(self.0, path)?
            .take(most.saturating_add(1))
            .read_to_end(&mut bytes)?;
        if bytes.len() as u64 > most {
            return Err(Error::new(ErrorKind::FileTooLarge, "it is longer than any snapshot"));
        }
        Ok(bytes)
    }

    fn path_kind(&self, path: &str, log: Option<&str>) -> io::Result<PathKind> {
        let found = match fs::metadata(self.0, path) {
            Ok(found) => found,
            Err(error) => {
                if !matches!(error.kind(), ErrorKind::NotFound) {
                    return Err(error);
                }
                let is_link = fs::symlink_metadata(self.0, path).is_ok();
                return Ok(if is_link {
                    PathKind::Other
                } else {
                    PathKind::Nothing
                });
            }
        };
        if found.is_dir() {
            return Err(Error::from_raw_os_error(EISDIR));
        }
        if !found.is_file() {
            let is_pipe = found.file_type().is_fifo();
            return Ok(if is_pipe {
                PathKind::Pipe
            } else {
                PathKind::Other
            });
        }
        let message = if is_at(self.0, log.unwrap_or("/dev/stdin"), &found) {
            "it is the input log"
        } else if is_at(self.0, "/dev/stdout", &found) {
            "it is the file that standard output goes to"
        } else {
            return Ok(PathKind::File);
        };
        Err(Error::new(ErrorKind::InvalidInput, message))
    }

    fn inode(&self, path: &str) -> u64 {
        match fs::metadata(self.0, path) {
            Ok(found) => found.ino(),
            Err(_) => 0,
        }
    }

    fn is_same(&self, path: &str, other: &str) -> bool {
        match fs::metadata(self.0, path) {
            Ok(found) => found.is_file() && is_at(self.0, other, &found),
            Err(_) => false,
        }
    }

    fn open(&self, path: &str, is_held: bool) -> io::Result<(File, u64)> {
        let file = OpenOptions::new().write(true).open(self.0, path)?;
        // Some file systems don't support locks.
        if !is_held && let Err(TryLockError::WouldBlock) = file.try_lock() {
            let message = "another program is writing to it";
            return Err(Error::new(ErrorKind::WouldBlock, message));
        }
        let size = file.metadata()?.len();
        Ok((file, size))
    }

    fn create(&self, path: &str, bytes: &[u8]) -> io::Result<File> {
        let mut file = File::create_new(self.0, path)?;
        let mut written = file.write_at_offset(bytes, 0);
        if written.is_ok() {
            written = file.cut(bytes.len() as u64);
        }
        if let Err(error) = written {
            let _ = fs::remove_file(self.0, path);
            return Err(error);
        }
        Ok(file)
    }

    fn rename(&self, file: File, from: &str, to: &str) -> io::Result<File> {
        fs::rename(self.0, from, to)?;
        Ok(file)
    }

    fn remove(&self, path: &str) -> io::Result<()> {
        fs::remove_file(self.0, path)
    }

    fn write_special(&self, path: &str, bytes: &[u8], found: PathKind) -> io::Result<()> {
        let PathKind::Pipe = found else {
            return fs::write(self.0, path, bytes);
        };
        // Opening a pipe for both reading and writing doesn't wait for a reader. After `both` is dropped, writing fails
        // if there is no reader.
        let both = OpenOptions::new()
            .read(true)
            .write(true)
            .open(self.0, path)?;
        let mut end = OpenOptions::new().write(true).open(self.0, path)?;
        drop(both);
        end.write_all(bytes)
    }
}
