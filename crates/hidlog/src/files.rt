//! Reading and writing snapshot files.
ghost use Rattle.std.specs.Prelude.{◌≡◌, ◌⊎◌, ℕ, List, Some, true, length, IfErr, IfOk, IfSome, MatchResult, OnOk};
ghost use Rattle.std.specs.IoError.{error_kind};
ghost use Rattle.hidlog.specs.Program.{IsWritten};

use crate::disk::{Disk, OpenFile, PathKind};
use crate::sums::{MAX_SUMS_LEN, SumLine, are_sums};
use std::alloc::Global;
use std::io::{self, Error, ErrorKind};

/// Why writing a file failed, and what the file contains after the failure.
#[derive(Drop)]
pub enum SaveError {
    /// The content of the file is unchanged.
    Kept(Error),
    /// The file may contain only some of the new bytes. The copy with this number beside the file contains all of them.
    Copied(Error, u64),
    /// The file may contain only some of the new bytes, and there is no copy.
    Broken(Error),
    /// The file contains the new bytes. The copy with this number beside the file could not be removed.
    CopyRemains(Error, u64),
}

/// Access to files by path.
pub trait Files {
    /// A lock on a file, against other programs that load the file and then save to it.
    type Lock: Drop;

    /// The file at a path has these bytes.
    ghost holds: { Self → List ℕ → List ℕ → Type 0 };

    /// The file at a path cannot be read.
    ghost unreadable: { Self → List ℕ → Type 0 };

    /// These bytes replaced the content of the file at this path.
    ghost written: { Self → List ℕ → List ℕ → Self → Type 0 };

    /// These bytes could not be written to the file at this path. The file may contain some of them.
    ghost unwritten: { Self → List ℕ → List ℕ → Self → Type 0 };

    /// The file at a path cannot be written.
    ghost unwritable: { Self → List ℕ → Type 0 };

    /// Reads a whole file.
    fn read(&self, path: &str) -> io::Result<Vec<u8>>
        ensures { MatchResult result (λ bytes. holds self.now path.now bytes.items)
            (λ error. (error_kind error ≡ ErrorKind.OutOfMemory) ⊎ unreadable self.now path.now) };

    /// Locks the file at `path` if it is the same as that at `save`, until the result is dropped. Fails if another
    /// program holds the lock.
    fn lock_input(&self, path: &str, save: &str) -> io::Result<Option<Self::Lock>>
        ensures { IfErr result (λ _. unreadable self.now path.now) };

    /// Checks whether a file can be written, as far as possible without writing to it. Fails if it is the log, or the
    /// file that standard output is redirected to.
    fn check_writable(&self, path: &str, log: Option<&str>, is_held: bool) -> io::Result<()>
        ensures { IfErr result (λ _. unwritable self.now path.now) };

    /// Returns the number of the copy that an interrupted write left beside a file, if any.
    fn leftover_copy(&self, path: &str) -> Option<u64>;

    /// Writes a whole file. A file that exists is overwritten in place. Fails if it is the log, or the file that
    /// standard output is redirected to.
    fn write(
        &mut self,
        path: &str,
        bytes: &[u8],
        log: Option<&str>,
        is_held: bool,
    ) -> Result<(), SaveError>
        ensures { MatchResult result (λ _. written self.old path.now bytes.now self.new)
            (λ _. unwritten self.old path.now bytes.now self.new) };
}

/// The files of a disk, with the allocator for the paths of copies and checksums. The contracts don't state why a read
/// or a write fails.
#[derive(Drop)]
pub struct HostFiles<D>(pub D, pub Global);

/// Maximum length of a snapshot that is read: 64 MiB. This is much more than the longest valid snapshot, so that the
/// snapshot of a key with more capacity is rejected for its number of credentials, not for its length.
const MAX_SNAPSHOT_LEN: u64 = 1 << 26;

/// The error number ENOENT, for a path that doesn't exist.
const ENOENT: i32 = 2;

/// The suffix of a copy beside a file. A dot and the copy's number follow, unless the number is 0.
pub const COPY_SUFFIX: &str = ".hidlog-copy";

/// Maximum number of copies beside a file. An existing file is never overwritten, because it may not be a copy.
const MAX_COPIES: u64 = 100;

/// The suffix of a checksum file (src/sums.rt). A checksum file has a line for the content that the snapshot has or is
/// about to have. If the previous content was intact, a line for that content comes first.
const CHECKSUM_SUFFIX: &str = ".hidlog-sum";

/// Returns the path of a file's checksums.
fn checksum_path(alloc: Global, path: &str) -> io::Result<String> {
    Ok(format!(in alloc; "{path}{CHECKSUM_SUFFIX}")?)
}

/// Returns the path of a copy of a file.
fn copy_path(alloc: Global, path: &str, number: u64) -> io::Result<String> {
    if number == 0 {
        return Ok(format!(in alloc; "{path}{COPY_SUFFIX}")?);
    }
    Ok(format!(in alloc; "{path}{COPY_SUFFIX}.{number}")?)
}

/// The reason why a file to which the program will save can't be loaded: another program has locked it.
pub const LOCKED_REASON: &str = "another program has loaded it, and is going to save to it";

/// The reason why a file that doesn't match its checksums can't be loaded. At most 80 bytes.
pub const DAMAGED_REASON: &str =
    "its bytes don't match its .hidlog-sum: restore it, or remove the .hidlog-sum";

/// A new file beside another file.
#[derive(Drop)]
struct CopyFile<F> {
    file: F,
    name: String,
    number: u64,
}

/// Creates a file with these bytes beside the file at a path, under the first copy name that isn't in use.
fn create_copy<D: Disk>(
    files: &HostFiles<D>,
    path: &str,
    bytes: &[u8],
) -> io::Result<CopyFile<D::File>>
    ensures { IfOk result (λ made. D.File.is_known ≡ true → D.File.bytes made.file ≡ Some bytes.now) }
{
    for number in 0..MAX_COPIES {
        let name = copy_path(files.1, path, number)?;
        match files.0.create(name.as_str(), bytes) {
            Ok(file) => {
                return Ok(CopyFile { file, name, number });
            }
            Err(error) => {
                if !matches!(error.kind(), ErrorKind::AlreadyExists) {
                    return Err(error);
                }
            }
        }
    }
    Err(Error::new(
        ErrorKind::AlreadyExists,
        "there are too many copies beside it",
    ))
}

/// Returns the error for a checksum file that can't be read or contains no checksums.
fn checksum_error(kind: ErrorKind) -> Error {
    match kind {
        ErrorKind::InvalidInput => Error::new(
            kind,
            "its .hidlog-sum file has no checksums: remove that file",
        ),
        _ => Error::new(kind, "its .hidlog-sum file can't be read"),
    }
}

/// Returns a file's checksums, if any.
fn read_checksums<D: Disk>(files: &HostFiles<D>, path: &str) -> io::Result<Option<Vec<u8>>> {
    let name = checksum_path(files.1, path)?;
    match files.0.path_kind(name.as_str(), None) {
        Ok(PathKind::Nothing) => Ok(None),
        Ok(PathKind::File) => match files.0.read(name.as_str(), MAX_SUMS_LEN as u64) {
            Ok(sums) if are_sums(&sums) => Ok(Some(sums)),
            Ok(_) => Err(checksum_error(ErrorKind::InvalidInput)),
            Err(error) => match error.kind() {
                ErrorKind::OutOfMemory => Err(error),
                ErrorKind::FileTooLarge => Err(checksum_error(ErrorKind::InvalidInput)),
                kind => Err(checksum_error(kind)),
            },
        },
        // Opening a pipe could block.
        Ok(_) => Err(checksum_error(ErrorKind::InvalidInput)),
        Err(error) => match error.kind() {
            // A file with a name of this length can't exist.
            ErrorKind::InvalidFilename => Ok(None),
            ErrorKind::OutOfMemory => Err(error),
            ErrorKind::IsADirectory => Err(checksum_error(ErrorKind::InvalidInput)),
            kind => Err(checksum_error(kind)),
        },
    }
}

/// Writes the checksums of the file with this inode number, before the file itself is written: those of the new bytes
/// and, unless the present content is damaged, those of the present content. So after an interrupted write, the file
/// can be loaded with either content. If the file had no checksums, a failure to write them is ignored.
fn write_checksums<D: Disk>(
    files: &HostFiles<D>,
    path: &str,
    number: u64,
    old: Option<&[u8]>,
    bytes: &[u8],
) -> io::Result<()> {
    let known = read_checksums(files, path)?;
    let name = checksum_path(files.1, path)?;
    let mut text = Vec::new(files.1);
    if let Some(old) = old {
        let line = SumLine::of(old, number);
        let is_whole = match &known {
            Some(sums) => line.is_in(sums) || !line.is_for_same_file(sums),
            None => true,
        };
        if is_whole {
            text.extend_from_slice(line.text())?;
        }
    }
    text.extend_from_slice(SumLine::of(bytes, number).text())?;
    let written = write_and_rename(files, path, name.as_str(), &text);
    match (written, known) {
        (Err(error), Some(_)) => Err(error),
        _ => Ok(()),
    }
}

/// Overwrites an open file of this length, truncates it to the new length, and syncs it. The bytes beyond the old
/// length are written first, so that a full disk leaves the old content unchanged.
fn overwrite<F: OpenFile>(file: &mut F, old: u64, bytes: &[u8]) -> io::Result<()>
    ensures bytes { OnOk result (IfSome (F.bytes file.old) (λ has. length has ≡ old → F.bytes file.new ≡ Some bytes.now)) }
    ensures place { (path : List ℕ) → F.is_at path file.old → F.is_at path file.new }
{
    let shared = usize::try_from(old).unwrap_or(bytes.len()).min(bytes.len());
    let (front, more) = bytes.split_at(shared);
    let written = file.write_at_offset(more, old);
    if written.is_err() {
        let _ = file.cut(old);
        return written;
    }
    file.write_at_offset(front, 0)?;
    file.cut(bytes.len() as u64)
}

/// Writes and syncs a file beside the file at a path, and then renames it to that path, so that the file at the path is
/// always complete.
fn write_and_rename<D: Disk>(
    files: &HostFiles<D>,
    path: &str,
    to: &str,
    bytes: &[u8],
) -> io::Result<D::File>
    ensures { IfOk result (λ file. IsWritten D.File.is_at D.File.is_known D.File.bytes to.now bytes.now file) }
{
    let CopyFile { file, name, .. } = create_copy(files, path, bytes)?;
    let written = files.0.rename(file, name.as_str(), to);
    if written.is_err() {
        let _ = files.0.remove(name.as_str());
    }
    written
}

/// Writes a new file, with its checksums.
fn write_new<D: Disk>(files: &HostFiles<D>, path: &str, bytes: &[u8]) -> io::Result<D::File>
    ensures { IfOk result (λ file. IsWritten D.File.is_at D.File.is_known D.File.bytes path.now bytes.now file) }
{
    let CopyFile { file, name, .. } = create_copy(files, path, bytes)?;
    let number = files.0.inode(name.as_str());
    let written = match write_checksums(files, path, number, None, bytes) {
        Ok(()) => files.0.rename(file, name.as_str(), path),
        Err(error) => Err(error),
    };
    if written.is_err() {
        let _ = files.0.remove(name.as_str());
    }
    written
}

/// Overwrites a file. Meanwhile, a copy of the new bytes exists beside the file, if it can be created. If the write
/// fails, the old content is restored if possible.
fn replace<D: Disk>(
    files: &HostFiles<D>,
    path: &str,
    bytes: &[u8],
    is_held: bool,
) -> Result<D::File, SaveError>
    ensures { IfOk result (λ file. IsWritten D.File.is_at D.File.is_known D.File.bytes path.now bytes.now file) }
{
    let disk = &files.0;
    let (mut file, size) = match disk.open(path, is_held) {
        Ok(opened) => opened,
        Err(error) => return Err(SaveError::Kept(error)),
    };
    let old = disk.read(path, u64::MAX).ok();
    let had = match &old {
        Some(old) => Some(old.as_slice()),
        None => None,
    };
    if let Err(error) = write_checksums(files, path, disk.inode(path), had, bytes) {
        return Err(SaveError::Kept(error));
    }
    let copy = create_copy(files, path, bytes).ok();
    if let Err(error) = overwrite(&mut file, size, bytes) {
        let is_back = match &old {
            Some(old) => overwrite(&mut file, old.len() as u64, old.as_slice()).is_ok(),
            None => false,
        };
        return Err(match (is_back, &copy) {
            (true, None) => SaveError::Kept(error),
            (true, Some(copy)) if disk.remove(copy.name.as_str()).is_ok() => SaveError::Kept(error),
            (_, Some(copy)) => SaveError::Copied(error, copy.number),
            (false, None) => SaveError::Broken(error),
        });
    }
    if let Some(copy) = &copy
        && let Err(error) = disk.remove(copy.name.as_str())
    {
        return Err(SaveError::CopyRemains(error, copy.number));
    }
    Ok(file)
}

impl<D: Disk> Files for HostFiles<D> {
    ghost holds = { λ files path bytes. D.holds files.0 path bytes };

    ghost unreadable = { λ _ _. Unit {0} };

    ghost written = { λ _ path bytes _. D.handed path bytes
        ⊎ ((file : D.File) × IsWritten D.File.is_at D.File.is_known D.File.bytes path bytes file) };

    ghost unwritten = { λ _ _ _ _. Unit {0} };

    ghost unwritable = { λ _ _. Unit {0} };

    type Lock = D::File;

    fn lock_input(&self, path: &str, save: &str) -> io::Result<Option<D::File>> {
        if !self.0.is_same(path, save) {
            return Ok(None);
        }
        match self.0.open(save, false) {
            Ok((file, _)) => Ok(Some(file)),
            Err(error) => {
                if !matches!(error.kind(), ErrorKind::WouldBlock) {
                    // Other errors are reported later, when the file is written.
                    return Ok(None);
                }
                Err(Error::new(ErrorKind::WouldBlock, LOCKED_REASON))
            }
        }
    }

    fn read(&self, path: &str) -> io::Result<Vec<u8>> {
        // Another program may be writing the file, after it wrote the checksums. Therefore this retries.
        for _ in 0..3 {
            let bytes = self.0.read(path, MAX_SNAPSHOT_LEN)?;
            let Some(sums) = read_checksums(self, path)? else {
                return Ok(bytes);
            };
            let line = SumLine::of(&bytes, self.0.inode(path));
            if line.is_in(&sums) || !line.is_for_same_file(&sums) {
                return Ok(bytes);
            }
        }
        Err(Error::new(ErrorKind::InvalidData, DAMAGED_REASON))
    }

    fn leftover_copy(&self, path: &str) -> Option<u64> {
        let sums = read_checksums(self, path).ok()?;
        let file = self.0.inode(path);
        for number in 0..MAX_COPIES {
            let name = copy_path(self.1, path, number).ok()?;
            if let Ok(PathKind::File) = self.0.path_kind(name.as_str(), None)
                && let Ok(bytes) = self.0.read(name.as_str(), MAX_SNAPSHOT_LEN)
            {
                let is_last = match &sums {
                    Some(sums) => sums.ends_with(SumLine::of(&bytes, file).text()),
                    None => true,
                };
                if is_last {
                    return Some(number);
                }
            }
        }
        None
    }

    fn check_writable(&self, path: &str, log: Option<&str>, is_held: bool) -> io::Result<()> {
        let found = self.0.path_kind(path, log)?;
        if let PathKind::File = found {
            self.0.open(path, is_held)?;
        }
        let PathKind::Nothing = found else {
            return Ok(());
        };
        if path.is_empty() {
            return Err(Error::from_raw_os_error(ENOENT));
        }
        // To check that a missing file can be created, an empty copy is created beside its path, and removed.
        let made = create_copy(self, path, b"")?;
        self.0.remove(made.name.as_str())
    }

    fn write(
        &mut self,
        path: &str,
        bytes: &[u8],
        log: Option<&str>,
        is_held: bool,
    ) -> Result<(), SaveError> {
        match self.0.path_kind(path, log) {
            Ok(PathKind::Nothing) => match write_new(self, path, bytes) {
                Ok(_) => Ok(()),
                Err(error) => Err(SaveError::Kept(error)),
            },
            Ok(PathKind::File) => match replace(self, path, bytes, is_held) {
                Ok(_) => Ok(()),
                Err(unwritten) => Err(unwritten),
            },
            Ok(found) => match self.0.write_special(path, bytes, found) {
                Ok(()) => Ok(()),
                Err(error) => Err(SaveError::Kept(error)),
            },
            Err(error) => Err(SaveError::Kept(error)),
        }
    }
}
