//! Gates: what is called around each try to fold a shard and around each read.

/// What workers and callers call as they go. It is shared by threads, and changes nothing of what they do: a test may
/// hold a thread here.
pub trait Gate {
    /// A worker is about to try to fold a shard.
    fn before_fold(&self, worker: u32, shard: u32);

    /// A worker tried to fold a shard.
    fn after_fold(&self, worker: u32, shard: u32);

    /// A caller is about to read a cut in this round.
    fn before_read(&self, caller: u32, round: u32);

    /// A caller read a cut in this round.
    fn after_read(&self, caller: u32, round: u32);
}

/// Which caller reads, in which of its rounds, and the gate that is told before and after.
#[derive(Drop)]
pub struct Turn<'a, G: Gate> {
    /// What is called before and after the read.
    pub gate: &'a G,
    /// The number of the caller.
    pub caller: u32,
    /// The number of the round, from 0.
    pub round: u32,
}

/// The gate that holds nobody.
#[derive(Clone, Copy, Debug, Drop)]
pub struct OpenGate;

impl Gate for OpenGate {
    fn before_fold(&self, _worker: u32, _shard: u32) {}

    fn after_fold(&self, _worker: u32, _shard: u32) {}

    fn before_read(&self, _caller: u32, _round: u32) {}

    fn after_read(&self, _caller: u32, _round: u32) {}
}
