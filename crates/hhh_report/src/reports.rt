//! Reports in their order.

ghost use Rattle.std.specs.Prelude.{◌≡◌, ◌==◌, ◌<◌, ◌++◌, [], ◌∷◌, length, OnOk, OnErr, slice_get, Some};

use crate::{Positions, Report};
use std::alloc::{AllocError, Global};
use std::marker::Model;

/// A report of a session.
#[derive(Drop)]
pub struct Reported {
    /// The report.
    pub report: Report,
    /// The positions that were saved after it, if any were.
    pub saved: Option<Positions>,
}

/// A list of reports, in the order in which they were pushed.
#[derive(Drop)]
pub struct Reports {
    reports: Vec<Reported>,
}

impl Model for Reports {
    ghost use Rattle.std.specs.Prelude.{List};
    ghost use Rattle.hhh_report.specs.declared.reports.Reported.{Reported};

    ghost Value = { List Reported };

    ghost view = { λ r. r.reports.items };
}

impl Reports {
    /// An empty list. It allocates no memory.
    pub fn new(alloc: Global) -> Reports
        ensures { result ≡ [] }
    {
        Reports {
            reports: Vec::new(alloc),
        }
    }

    /// Appends a report. After an `Err` the list is as before.
    pub fn push(&mut self, reported: Reported) -> Result<(), AllocError>
        ensures ok { OnOk result (self.new ≡ self.old ++ reported ∷ []) }
        ensures err { OnErr result (self.new ≡ self.old) }
    {
        Ok(self.reports.push(reported)?)
    }

    /// How many reports there are.
    pub fn len(&self) -> usize
        ensures { result ≡ length self.now }
    {
        self.reports.len()
    }

    /// Whether there is no report.
    pub fn is_empty(&self) -> bool
        ensures { result ≡ (length self.now == 0) }
    {
        self.reports.is_empty()
    }

    /// The report at an index below the length.
    pub fn at(&self, place: usize) -> &Reported
        requires { place < length self.now }
        ensures { slice_get self.now place ≡ Some result.now }
    {
        &self.reports[place]
    }

    /// The reports in their order.
    pub fn as_slice(&self) -> &[Reported]
        ensures { result.now ≡ self.now }
    {
        self.reports.as_slice()
    }
}
