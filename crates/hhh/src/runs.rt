//! The commands that read one capture, one session or one store.

ghost use Rattle.std.specs.Prelude.{◌≡◌, ℕ, IfOk, OnErr};
ghost use Rattle.std.specs.Process.{exit_status};
ghost use Rattle.prefix_lattice.specs.{RecordValue};
ghost use Rattle.deal_rules.specs.{dealer_of};
ghost use Rattle.hhh_engine.specs.{argument_texts, RunEnds, status_line, status_number};
ghost use Rattle.hhh.specs.Ending.{TellsEnding};
ghost use Rattle.hhh.specs.Named.{ArePathsOf, AreUnusedStreams, EndsAtPaths};
ghost use Rattle.hhh.specs.Rules.{program_rules, rule_shard, severity};
ghost use Rattle.hhh.specs.Streams.{streams_of};
ghost use Rattle.watch_rules.specs.{GoesByFormula};
ghost use Rattle.system_io.specs.{sink_contents};

use crate::ending::finish;
use crate::rules::{by_both, by_place, by_source};
use crate::severity::by_multiple;
use deal_rules::{DealKind, Dealer, Dealers, Deals};
use gate_workers::OpenGate;
use hhh_engine::{PathTexts, Status, WordsRefusal, paths, run, runs_follow_formulas};
use outside_io::{PathText, Sink, Source};
use slot_disk::Disk;
use std::alloc::{AllocError, Global};
use std::io::{Stdout, Write};
use std::marker::Sync;
use std::process::ExitCode;
use std::sync::Wait;
use std::thread::Threads;
use system_io::{NamedInput, StdSink, StdSource, StoreDisk, SystemStore, input_of};
use watch_rules::{Judge, Judges};

// What a run reads, writes and keeps.
#[derive(Drop)]
pub(crate) struct Streams<S, T, K, D> {
    // The capture.
    pub(crate) capture: S,
    // The text of a session, for an audit or a watch.
    pub(crate) text: T,
    // Standard output.
    pub(crate) output: K,
    // The file of the store.
    pub(crate) store: D,
}

// The streams of the system.
type SystemStreams<'a> = Streams<
    StdSource<NamedInput<'a>>,
    StdSource<NamedInput<'a>>,
    StdSink<Stdout>,
    StoreDisk<'a>,
>;

/// Runs the command of these words over the streams of the system, and reports how it ended. `threads` starts threads.
pub(crate) fn run_named<R: Threads + Wait + Sync, W: Write + Drop>(
    rt: &HostRuntime,
    threads: &R,
    alloc: Global,
    words: &[&str],
    errors: &mut StdSink<W>,
) -> Result<ExitCode, AllocError>
    ensures ends { IfOk result (EndsAtPaths
        ⟦<StdSource<NamedInput<'static>> as Source>⟧ ⟦<StdSink<Stdout> as Sink>⟧ ⟦<StoreDisk<'static> as Disk>⟧
        (argument_texts words.now) (sink_contents W.contents errors.old) (sink_contents W.contents errors.new)) }
    ensures silent { OnErr result (errors.new ≡ errors.old) }
{
    let paths = named_paths(alloc, words)?;
    let mut streams = streams_at(rt, alloc, paths)?;
    run_to_end(threads, alloc, words, &mut streams, errors)
}

// The paths that the arguments name. Arguments that ask for no command name none, and are refused before anything is read.
fn named_paths(alloc: Global, words: &[&str]) -> Result<PathTexts, AllocError>
    ensures { IfOk result (ArePathsOf (argument_texts words.now)) }
{
    match paths(alloc, words) {
        Ok(paths) => Ok(paths),
        Err(WordsRefusal::Bad(_)) => Ok(PathTexts {
            capture: PathText::of(alloc, "")?,
            report: PathText::of(alloc, "")?,
            store: PathText::of(alloc, "")?,
        }),
        Err(WordsRefusal::OutOfMemory) => Err(AllocError),
    }
}

// The streams of the system at the paths of a run. A command without a store leaves the file at the empty path alone.
fn streams_at(
    rt: &HostRuntime,
    alloc: Global,
    paths: PathTexts,
) -> Result<SystemStreams<'_>, AllocError>
    ensures { IfOk result (AreUnusedStreams paths) }
{
    let store = SystemStore::at(rt, paths.store)?;
    Ok(Streams {
        capture: StdSource::new(alloc, input_of(rt, paths.capture))?,
        text: StdSource::new(alloc, input_of(rt, paths.report))?,
        output: StdSink::new(rt.stdout()),
        store: StoreDisk::new(alloc, store)?,
    })
}

// Runs the command, and ends as the status of the run says: with its number, and its line on standard error.
fn run_to_end<R: Threads + Wait + Sync, S: Source, T: Source, K: Sink, D: Disk, W: Write + Drop>(
    rt: &R,
    alloc: Global,
    words: &[&str],
    streams: &mut Streams<S, T, K, D>,
    errors: &mut StdSink<W>,
) -> Result<ExitCode, AllocError>
    ensures ends { IfOk result (λ code. (status : Status)
        × RunEnds S.Source T.Source K.Sink D.Disk (streams_of streams.old) (streams_of streams.new)
        (argument_texts words.now) program_rules status
        × (exit_status code ≡ status_number status)
        × TellsEnding (sink_contents W.contents errors.old) (sink_contents W.contents errors.new) (status_number status) (status_line status)) }
    ensures unmade { OnErr result (streams_of streams.new ≡ streams_of streams.old) }
    ensures silent { OnErr result (errors.new ≡ errors.old) }
{
    let status = run_by_rules(rt, alloc, words, streams)?;
    Ok(finish(alloc, &status, errors))
}

// Runs the command with the program's three rules of dealing and its rule of severity, so that the records are dealt and the
// alarms are judged by these formulas.
fn run_by_rules<R: Threads + Wait + Sync, S: Source, T: Source, K: Sink, D: Disk>(
    rt: &R,
    alloc: Global,
    words: &[&str],
    streams: &mut Streams<S, T, K, D>,
) -> Result<Status, AllocError>
    ensures ends { IfOk result (RunEnds S.Source T.Source K.Sink D.Disk (streams_of streams.old) (streams_of streams.new)
        (argument_texts words.now) program_rules) }
    ensures unmade { OnErr result (streams_of streams.new ≡ streams_of streams.old) }
{
    let dealers = Dealers {
        round: Dealer::new(DealKind::RoundRobin, Box::new(alloc, by_place)?),
        source: Dealer::new(DealKind::BySource, Box::new(alloc, by_source)?),
        free: Dealer::new(DealKind::Free, Box::new(alloc, by_both)?),
    };
    let judge = Judge::new(Box::new(alloc, by_multiple)?);
    Ok(run_judged(rt, alloc, words, streams, &dealers, &judge))
}

// Runs the command with dealers that follow the three formulas, and a judge that follows that of severity.
fn run_judged<R: Threads + Wait + Sync, S: Source, T: Source, K: Sink, D: Disk>(
    rt: &R,
    alloc: Global,
    words: &[&str],
    streams: &mut Streams<S, T, K, D>,
    dealers: &Dealers,
    judge: &Judge,
) -> Status
    requires by_formulas { (kind : DealKind) (place : ℕ) (rec : RecordValue) (shards number : ℕ)
        → ⟦<Dealer as Deals>⟧.may_answer (dealer_of kind dealers.now) place rec shards number → number ≡ rule_shard kind place rec shards }
    requires by_severity { GoesByFormula severity (⟦<Judge as Judges>⟧.may_answer judge.now) }
    ensures { RunEnds S.Source T.Source K.Sink D.Disk (streams_of streams.old) (streams_of streams.new)
        (argument_texts words.now) program_rules result }
{
    runs_follow_formulas::<S, T, K, D>(dealers, judge);
    run(
        rt,
        alloc,
        words,
        &mut streams.capture,
        &mut streams.text,
        &mut streams.output,
        &mut streams.store,
        &OpenGate,
        dealers,
        judge,
    )
}
