//! Alarms in their order.

ghost use Rattle.std.specs.Prelude.{◌≡◌, ◌==◌, ◌<◌, ◌++◌, [], ◌∷◌, length, OnOk, OnErr, slice_get, Some};

use crate::Alarm;
use std::alloc::{AllocError, Global};
use std::marker::Model;

/// A list of alarms, in the order in which they were pushed.
#[derive(Drop)]
pub struct Alarms {
    alarms: Vec<Alarm>,
}

impl Model for Alarms {
    ghost use Rattle.std.specs.Prelude.{List};
    ghost use Rattle.watch_rules.specs.declared.alarm.Alarm.{Alarm};

    ghost Value = { List Alarm };

    ghost view = { λ a. a.alarms.items };
}

impl Alarms {
    /// An empty list. It allocates no memory.
    pub fn new(alloc: Global) -> Alarms
        ensures { result ≡ [] }
    {
        Alarms {
            alarms: Vec::new(alloc),
        }
    }

    /// Appends an alarm. After an `Err` the list is as before.
    pub fn push(&mut self, alarm: Alarm) -> Result<(), AllocError>
        ensures ok { OnOk result (self.new ≡ self.old ++ alarm ∷ []) }
        ensures err { OnErr result (self.new ≡ self.old) }
    {
        Ok(self.alarms.push(alarm)?)
    }

    /// Appends all alarms of another list. After an `Err` the list is as before.
    pub fn append(&mut self, others: &Alarms) -> Result<(), AllocError>
        ensures ok { OnOk result (self.new ≡ self.old ++ others.now) }
        ensures err { OnErr result (self.new ≡ self.old) }
    {
        self.alarms.extend_from_slice(others.as_slice())
    }

    /// How many alarms there are.
    pub fn len(&self) -> usize
        ensures { result ≡ length self.now }
    {
        self.alarms.len()
    }

    /// Whether there is no alarm.
    pub fn is_empty(&self) -> bool
        ensures { result ≡ (length self.now == 0) }
    {
        self.alarms.is_empty()
    }

    /// The alarm at an index below the length.
    pub fn at(&self, place: usize) -> &Alarm
        requires { place < length self.now }
        ensures { slice_get self.now place ≡ Some result.now }
    {
        &self.alarms[place]
    }

    /// The alarms in their order.
    pub fn as_slice(&self) -> &[Alarm]
        ensures { result.now ≡ self.now }
    {
        self.alarms.as_slice()
    }
}
