//! Lines in their order.

ghost use Rattle.std.specs.Prelude.{◌≡◌, ◌==◌, ◌<◌, ◌++◌, [], ◌∷◌, length, OnOk, OnErr, slice_get, Some};

use crate::Line;
use std::alloc::{AllocError, Global};
use std::marker::Model;

/// A list of lines, in the order in which they were pushed.
#[derive(Drop)]
pub struct Lines {
    lines: Vec<Line>,
}

impl Model for Lines {
    ghost use Rattle.std.specs.Prelude.{List};
    ghost use Rattle.hhh_report.specs.declared.line.Line.{Line};

    ghost Value = { List Line };

    ghost view = { λ l. l.lines.items };
}

impl Lines {
    /// An empty list. It allocates no memory.
    pub fn new(alloc: Global) -> Lines
        ensures { result ≡ [] }
    {
        Lines {
            lines: Vec::new(alloc),
        }
    }

    /// Appends a line. After an `Err` the list is as before.
    pub fn push(&mut self, line: Line) -> Result<(), AllocError>
        ensures ok { OnOk result (self.new ≡ self.old ++ line ∷ []) }
        ensures err { OnErr result (self.new ≡ self.old) }
    {
        Ok(self.lines.push(line)?)
    }

    /// How many lines there are.
    pub fn len(&self) -> usize
        ensures { result ≡ length self.now }
    {
        self.lines.len()
    }

    /// Whether there is no line.
    pub fn is_empty(&self) -> bool
        ensures { result ≡ (length self.now == 0) }
    {
        self.lines.is_empty()
    }

    /// The line at an index below the length.
    pub fn at(&self, place: usize) -> &Line
        requires { place < length self.now }
        ensures { slice_get self.now place ≡ Some result.now }
    {
        &self.lines[place]
    }

    /// The lines in their order.
    pub fn as_slice(&self) -> &[Line]
        ensures { result.now ≡ self.now }
    {
        self.lines.as_slice()
    }
}
