//! The file of a store, and what opens it.

ghost use Rattle.std.specs.Prelude.{◌≡◌, ℕ, Option, None, IfOk, OnOk};
ghost use Rattle.system_io.specs.StoreFile.{CountsSync, KeepsSyncs};

use outside_io::PathText;
use std::alloc::AllocError;
use std::fs;
use std::fs::{File, OpenOptions};
use std::io::{Error, ErrorKind, Result as IoResult};
use std::os::fd::AsRawFd;
use std::os::unix::fs::FileExt;
use std::path::{AsPath, Path};

// Standard input, standard output and standard error have the numbers below this one.
const STANDARD_STREAMS: i32 = 3;

/// A file that is read and written at offsets.
pub trait StoreFile: FileExt {
    /// How many syncs of the file have succeeded, where this is known.
    ghost syncs: { Self → Option ℕ };

    /// How many bytes the file has.
    fn size(&self) -> IoResult<u64>;

    /// Makes what was written safe from a crash.
    fn sync(&mut self) -> IoResult<()>
        ensures { OnOk result (CountsSync (syncs self.old) (syncs self.new)) };
}

/// What opens the file of a store.
pub trait StoreOpener<F: StoreFile> {
    /// How many syncs of the file have succeeded, where this is known.
    ghost syncs: { Self → Option ℕ };

    /// Opens the file for reading and writing, and creates it empty where it is missing.
    fn open_file(&self) -> IoResult<F>
        ensures { IfOk result (λ file. KeepsSyncs (syncs self.now) (F.syncs file)) };

    /// Makes the name of the file safe from a crash.
    fn sync_name(&self) -> IoResult<()>;
}

/// A file of the system. How often it was synced is not known.
impl StoreFile for File {
    ghost syncs = { λ _. None };

    fn size(&self) -> IoResult<u64> {
        Ok(self.metadata()?.len())
    }

    fn sync(&mut self) -> IoResult<()> {
        self.sync_all()
    }
}

/// Opens the regular file of a store at its path, and syncs its name.
///
/// The directory that has the name is opened before a run begins: to look it up takes memory, and of a disk a run can say
/// only that a call failed.
#[derive(Drop)]
pub struct SystemStore<'a> {
    rt: &'a HostRuntime,
    path: PathText,
    directory: Option<File>,
}

impl<'a> SystemStore<'a> {
    /// What opens the file at this path. If its directory can't be opened, the first sync tries again. The only error is
    /// that memory runs out.
    pub fn at(rt: &'a HostRuntime, path: PathText) -> Result<Self, AllocError>
        ensures { IfOk result (λ store. store.path ≡ path) }
    {
        let directory = match open_directory(rt, path.as_str()) {
            Ok(directory) => Some(directory),
            Err(error) if error.kind() == ErrorKind::OutOfMemory => return Err(AllocError),
            Err(_) => None,
        };
        Ok(SystemStore {
            rt,
            path,
            directory,
        })
    }
}

impl StoreOpener<File> for SystemStore<'_> {
    ghost syncs = { λ _. None };

    fn open_file(&self) -> IoResult<File> {
        open(self.rt, self.path.as_str())
    }

    // Fails where no file has the name any more.
    fn sync_name(&self) -> IoResult<()> {
        fs::metadata(self.rt, self.path.as_str())?;
        match &self.directory {
            Some(directory) => directory.sync_all(),
            None => open_directory(self.rt, self.path.as_str())?.sync_all(),
        }
    }
}

// Opens the file under a number that no standard stream has. Where one of these is closed, the system gives its number to
// the file that is opened next, and what is written to the stream would be written into the store.
fn open(rt: &HostRuntime, path: &str) -> IoResult<File> {
    let mut holders = Vec::new(rt.alloc());
    for _ in 0..STANDARD_STREAMS {
        let file = open_once(rt, path)?;
        if file.as_raw_fd() >= STANDARD_STREAMS {
            return Ok(file);
        }
        holders.push(file)?;
    }
    open_once(rt, path)
}

// Opens the regular file at this path, and creates it where it is missing.
fn open_once(rt: &HostRuntime, path: &str) -> IoResult<File> {
    let file = OpenOptions::new()
        .read(true)
        .write(true)
        .create(true)
        .open(rt, path)?;
    if !file.metadata()?.is_file() {
        return Err(Error::from(ErrorKind::InvalidInput));
    }
    Ok(file)
}

// Opens the directory that has the file's name: where the path leads through links, that of the file itself. The name of
// a file that isn't there yet is the path's own, unless this is a link.
fn open_directory(rt: &HostRuntime, path: &str) -> IoResult<File> {
    match fs::canonicalize(rt, path) {
        Ok(whole) => open_parent(rt, whole.as_path()),
        Err(error) => {
            if error.kind() != ErrorKind::NotFound || fs::symlink_metadata(rt, path).is_ok() {
                return Err(error);
            }
            open_parent(rt, Path::new(path))
        }
    }
}

fn open_parent(rt: &HostRuntime, path: Path<'_>) -> IoResult<File> {
    match path.parent() {
        Some(parent) if parent.path_text() == "" => File::open(rt, "."),
        Some(parent) => File::open(rt, parent),
        None => Err(Error::from(ErrorKind::NotFound)),
    }
}
