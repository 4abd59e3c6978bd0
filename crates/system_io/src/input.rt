//! The source of an input's bytes.

ghost use Rattle.std.specs.Prelude.{◌≡◌, ℕ, List, Option, None, IfOk};
ghost use Rattle.std.specs.Io.KnownBytes.{Keeps};
ghost use Rattle.system_io.specs.Input.{input_remaining, IsInput, late_remaining};

use outside_io::PathText;
use std::fs::File;
use std::io::{Read, Result as IoResult, Stdin};

/// What a path names as an input.
pub type NamedInput<'a> = Input<Stdin, LateFile<&'a HostRuntime, File>>;

/// The bytes of a capture or of a text: those of a stream or of a file.
#[derive(Drop)]
pub enum Input<S, F> {
    /// No bytes, for an input that the command doesn't read.
    Nothing,
    /// The contents of standard input.
    Standard(S),
    /// The contents of a file.
    File(F),
}

impl<S: Read, F: Read> Read for Input<S, F> {
    // Those of the stream or of the file, or none.
    ghost remaining = { input_remaining S.remaining F.remaining };

    fn read(&mut self, into: &mut [u8]) -> IoResult<usize> {
        match self {
            Input::Nothing => Ok(0),
            Input::Standard(stream) => stream.read(into),
            Input::File(file) => file.read(into),
        }
    }
}

/// What opens files.
pub trait Opener<F: Read> {
    /// The contents of the file at a path, where they are known.
    ghost contents: { Self → List ℕ → Option (List ℕ) };

    /// Opens the file at a path, to be read from its beginning.
    fn open(&self, path: &str) -> IoResult<F>
        ensures { IfOk result (λ file. Keeps (contents self.now path.now) (F.remaining file)) };
}

/// Opens files of the system. Their contents are not known.
impl Opener<File> for &HostRuntime {
    ghost contents = { λ _ _. None };

    fn open(&self, path: &str) -> IoResult<File> {
        File::open(self, path)
    }
}

/// A file that is opened by the first read, so that no file is touched before the arguments are accepted.
#[derive(Drop)]
pub struct LateFile<O, F> {
    opener: O,
    path: PathText,
    opened: Option<F>,
}

impl<O, F> LateFile<O, F> {
    /// The file at this path, not yet opened.
    pub fn new(opener: O, path: PathText) -> Self
        ensures path { result.path ≡ path }
        ensures unopened { result.opened ≡ None }
    {
        LateFile {
            opener,
            path,
            opened: None,
        }
    }
}

impl<O: Opener<F>, F: Read + Drop> Read for LateFile<O, F> {
    // Those of the opened file; before that, the contents of the file at the path.
    ghost remaining = { late_remaining O.contents F.remaining };

    // If the file can't be opened, the next read tries again.
    fn read(&mut self, into: &mut [u8]) -> IoResult<usize> {
        let mut file = match self.opened.take() {
            Some(file) => file,
            None => self.opener.open(self.path.as_str())?,
        };
        let count = file.read(into);
        self.opened = Some(file);
        count
    }
}

/// The input at this path. `-` is standard input; the path of an input that the command doesn't have is empty.
pub fn input_of(rt: &HostRuntime, path: PathText) -> NamedInput<'_>
    ensures { IsInput path result }
{
    if path.as_str() == "-" {
        Input::Standard(rt.stdin())
    } else if path.as_str() == "" {
        Input::Nothing
    } else {
        Input::File(LateFile::new(rt, path))
    }
}
