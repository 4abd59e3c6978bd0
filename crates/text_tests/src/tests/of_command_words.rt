//! The arguments of the command line.

use command_words::{
    Command, Opt, PathTexts, Settings, WordsKind, WordsRefusal, paths, read_words,
};
use deal_rules::DealKind;
use frame_records::Weigh;
use prefix_lattice::{Grain, Prefix, PrefixFault, Side};
use std::alloc::{AllocError, Global};
use std::test::Fail;

const DEFAULTS: Settings = Settings {
    shards: 4,
    capacity: 512,
    phi: 10_000,
    block: 1024,
    workers: 4,
    callers: 0,
    rounds: 0,
    weigh: Weigh::Bytes,
    deal: DealKind::RoundRobin,
    grain: Grain::Byte,
    front: false,
    store: false,
};

// Arguments joined by single spaces, and what is wrong with them.
type BadWords = (&'static str, WordsKind);

const BAD_WORDS: [BadWords; 108] = [
    ("", WordsKind::NoCommand),
    ("way", WordsKind::UnknownCommand),
    ("Report", WordsKind::UnknownCommand),
    ("watches --report R --limit 5", WordsKind::UnknownCommand),
    ("sites --limit 5", WordsKind::UnknownCommand),
    ("--shards 1 report", WordsKind::UnknownCommand),
    // the form
    ("weigh", WordsKind::Refused),
    ("weigh 0.0.0.0/0", WordsKind::Refused),
    ("weigh 0.0.0.0/0 0.0.0.0/0 0.0.0.0/0", WordsKind::Refused),
    ("weigh 0.0.0.0/0 0.0.0.0/0 --shards 1", WordsKind::Refused),
    ("weigh 0.0.0.0/0 0.0.0.0/0 --bits 4", WordsKind::Refused),
    ("report x", WordsKind::Refused),
    ("report -h", WordsKind::Refused),
    ("report --help", WordsKind::Refused),
    ("report --", WordsKind::Refused),
    ("report --shard 1", WordsKind::Refused),
    ("report --report R", WordsKind::Refused),
    ("report --store S --store=S", WordsKind::Refused),
    ("format", WordsKind::Refused),
    ("format --capacity 2", WordsKind::Refused),
    ("format --store S --capture C", WordsKind::Refused),
    ("format --store S --phi 1", WordsKind::Refused),
    ("format --bits 4", WordsKind::Refused),
    ("format --store S --front yes", WordsKind::Refused),
    ("audit", WordsKind::Refused),
    ("audit --report R --store S", WordsKind::Refused),
    ("audit --report R --block 1", WordsKind::Refused),
    ("make 7", WordsKind::Refused),
    ("make 7 1 --shards 1", WordsKind::Refused),
    ("make 7 1 --front yes", WordsKind::Refused),
    ("demo 7 1 --capture C", WordsKind::Refused),
    ("demo 7 1 --front no", WordsKind::Refused),
    ("report --shards", WordsKind::Refused),
    ("report --shards --phi", WordsKind::Refused),
    ("report --shards=", WordsKind::Refused),
    ("report --shards 1 --shards 1", WordsKind::Refused),
    ("report --shards 1 --shards=1", WordsKind::Refused),
    ("watch", WordsKind::Refused),
    ("watch --limit 5", WordsKind::Refused),
    ("watch --report R", WordsKind::Refused),
    ("watch --report R --limit 5 x", WordsKind::Refused),
    ("watch --report R --limit 5 --capture C", WordsKind::Refused),
    ("watch --report R --limit 5 --src=", WordsKind::Refused),
    // the prefix
    (
        "weigh 10.1.2 0.0.0.0/0",
        WordsKind::BadPrefix(PrefixFault::BadAddress(Side::Source)),
    ),
    (
        "weigh 10.1.0.0/15 0.0.0.0/0",
        WordsKind::BadPrefix(PrefixFault::BadLength(Side::Source)),
    ),
    (
        "weigh 10.1.0.0/12 0.0.0.0/0",
        WordsKind::BadPrefix(PrefixFault::BadLength(Side::Source)),
    ),
    (
        "weigh 10.1.2.0/16 0.0.0.0/0",
        WordsKind::BadPrefix(PrefixFault::LooseBits(Side::Source)),
    ),
    (
        "weigh 0.0.0.0/0 10.1.2.0/16",
        WordsKind::BadPrefix(PrefixFault::LooseBits(Side::Dest)),
    ),
    (
        "weigh 10.1.2 0.0.0.0/0 --weigh x",
        WordsKind::BadPrefix(PrefixFault::BadAddress(Side::Source)),
    ),
    (
        "watch --report R --limit 5 --src 1.0.0/8",
        WordsKind::BadPrefix(PrefixFault::BadAddress(Side::Source)),
    ),
    (
        "watch --report R --limit 5 --src 1.16.0.0/12",
        WordsKind::BadPrefix(PrefixFault::BadLength(Side::Source)),
    ),
    (
        "watch --report R --limit 5 --dst 1.16.0.0/12 --bits 8",
        WordsKind::BadPrefix(PrefixFault::BadLength(Side::Dest)),
    ),
    (
        "watch --report R --limit 5 --bits 4 --dst 1.16.0.0/13",
        WordsKind::BadPrefix(PrefixFault::BadLength(Side::Dest)),
    ),
    (
        "watch --report R --limit 5 --bits 4 --dst 1.8.0.0/12",
        WordsKind::BadPrefix(PrefixFault::LooseBits(Side::Dest)),
    ),
    (
        "watch --report R --limit 5 --src 1.16.0.0/12 --bits 04",
        WordsKind::BadPrefix(PrefixFault::BadLength(Side::Source)),
    ),
    (
        "watch --report R --limit 0 --bits 5 --src 1.16.0.0/12",
        WordsKind::BadPrefix(PrefixFault::BadLength(Side::Source)),
    ),
    // the values
    (
        "weigh 0.0.0.0/0 --weigh=x 0.0.0.0/0",
        WordsKind::BadChoice(Opt::Weigh),
    ),
    ("report --shards 01", WordsKind::BadNumber(Opt::Shards)),
    ("report --shards +1", WordsKind::BadNumber(Opt::Shards)),
    (
        "report --shards 18446744073709551616",
        WordsKind::BadNumber(Opt::Shards),
    ),
    (
        "report --shards 18446744073709551615",
        WordsKind::OutOfLimits(Opt::Shards),
    ),
    ("report --shards 0", WordsKind::OutOfLimits(Opt::Shards)),
    ("report --shards 17", WordsKind::OutOfLimits(Opt::Shards)),
    ("report --capacity 1", WordsKind::OutOfLimits(Opt::Capacity)),
    ("report --deal hash", WordsKind::BadChoice(Opt::Deal)),
    ("report --block 0", WordsKind::OutOfLimits(Opt::Block)),
    ("report --block 65537", WordsKind::OutOfLimits(Opt::Block)),
    ("report --workers 0", WordsKind::OutOfLimits(Opt::Workers)),
    ("report --workers 17", WordsKind::OutOfLimits(Opt::Workers)),
    ("report --callers 9", WordsKind::OutOfLimits(Opt::Callers)),
    ("report --rounds 33", WordsKind::OutOfLimits(Opt::Rounds)),
    ("report --bits x", WordsKind::BadNumber(Opt::Bits)),
    ("report --bits 5", WordsKind::OutOfLimits(Opt::Bits)),
    (
        "report --bits 4 --capacity 1025",
        WordsKind::OutOfLimits(Opt::Bits),
    ),
    (
        "format --store S --bits 5",
        WordsKind::OutOfLimits(Opt::Bits),
    ),
    (
        "format --bits 4 --capacity 1025 --store S",
        WordsKind::OutOfLimits(Opt::Bits),
    ),
    (
        "audit --report R --bits 4 --capacity 4096",
        WordsKind::OutOfLimits(Opt::Bits),
    ),
    ("demo 7 1 --bits 0", WordsKind::OutOfLimits(Opt::Bits)),
    ("report --front maybe", WordsKind::BadChoice(Opt::Front)),
    (
        "weigh 0.0.0.0/0 0.0.0.0/0 --front=Yes",
        WordsKind::BadChoice(Opt::Front),
    ),
    ("make 07 1", WordsKind::BadNumber(Opt::Seed)),
    (
        "make 18446744073709551616 1",
        WordsKind::BadNumber(Opt::Seed),
    ),
    ("make 7 x", WordsKind::BadNumber(Opt::Frames)),
    ("make 7 0", WordsKind::OutOfLimits(Opt::Frames)),
    ("make 7 1000001", WordsKind::OutOfLimits(Opt::Frames)),
    (
        "watch --report R --limit 0",
        WordsKind::OutOfLimits(Opt::Limit),
    ),
    (
        "watch --limit=05 --report R",
        WordsKind::BadNumber(Opt::Limit),
    ),
    (
        "watch --report R --limit 18446744073709551616",
        WordsKind::BadNumber(Opt::Limit),
    ),
    // the first of several faults
    ("make x 0", WordsKind::BadNumber(Opt::Seed)),
    ("demo --shards x 7 0", WordsKind::OutOfLimits(Opt::Frames)),
    (
        "report --deal hash --shards 0",
        WordsKind::OutOfLimits(Opt::Shards),
    ),
    (
        "report --capacity 5000 --shards x",
        WordsKind::BadNumber(Opt::Shards),
    ),
    (
        "report --phi 1 --capacity x",
        WordsKind::BadNumber(Opt::Capacity),
    ),
    (
        "report --phi 1 --deal hash",
        WordsKind::BadChoice(Opt::Deal),
    ),
    (
        "report --rounds x --workers 0",
        WordsKind::OutOfLimits(Opt::Workers),
    ),
    (
        "format --capacity 1 --store S",
        WordsKind::OutOfLimits(Opt::Capacity),
    ),
    (
        "report --bits 4 --capacity 4097",
        WordsKind::OutOfLimits(Opt::Capacity),
    ),
    (
        "report --bits 4 --store s --rounds 33",
        WordsKind::OutOfLimits(Opt::Rounds),
    ),
    (
        "report --bits 4 --capacity 1025 --phi 1",
        WordsKind::OutOfLimits(Opt::Bits),
    ),
    (
        "audit --report R --front maybe --bits 5",
        WordsKind::OutOfLimits(Opt::Bits),
    ),
    (
        "report --front maybe --capacity 1025 --bits 4",
        WordsKind::OutOfLimits(Opt::Bits),
    ),
    (
        "report --phi 1 --front maybe",
        WordsKind::BadChoice(Opt::Front),
    ),
    (
        "watch --report R --limit x --bits 5",
        WordsKind::OutOfLimits(Opt::Bits),
    ),
    (
        "watch --report R --limit 0 --bits 5 --src 1.0.0.0/8",
        WordsKind::OutOfLimits(Opt::Bits),
    ),
    // the bound
    ("report --capacity 17 --phi 117647", WordsKind::Bound),
    (
        "audit --capacity 17 --report R --phi 117647",
        WordsKind::Bound,
    ),
    ("demo 7 1 --capacity 17 --phi 117647", WordsKind::Bound),
    (
        "demo 7 0 --capacity 17 --phi 117647",
        WordsKind::OutOfLimits(Opt::Frames),
    ),
];

#[test]
fn refuses_words(rt: HostRuntime) -> Result<(), Fail> {
    assert_eq!(rt; first_taken(rt.alloc(), &BAD_WORDS)?, None);
    Ok(())
}

// The place of the first arguments that are not refused as they should be. A test's table is a parameter of what goes
// through it: a proof with the table in every fact takes far longer.
fn first_taken(alloc: Global, cases: &[BadWords]) -> Result<Option<usize>, AllocError> {
    for (place, (line, kind)) in cases.iter().enumerate() {
        if !are_refused(alloc, line, WordsRefusal::Bad(*kind))? {
            return Ok(Some(place));
        }
    }
    Ok(None)
}

fn are_refused(alloc: Global, line: &str, refusal: WordsRefusal) -> Result<bool, AllocError> {
    let words: Vec<&str> = line.split_whitespace().collect(alloc)?;
    Ok(
        read_words(alloc, words.as_slice()) == Err(refusal)
            && paths(alloc, words.as_slice()).err() == Some(refusal),
    )
}

// Arguments, what they ask for, and the capture, the text of reports and the store that they name.
struct GoodWords {
    line: &'static str,
    command: Command,
    capture: &'static str,
    report: &'static str,
    store: &'static str,
}

const LEAST: Settings = Settings {
    capacity: 16,
    phi: 125_000,
    ..DEFAULTS
};

const ALL: Settings = Settings {
    shards: 16,
    capacity: 17,
    phi: 117_648,
    weigh: Weigh::Packets,
    deal: DealKind::Free,
    block: 1,
    workers: 16,
    callers: 8,
    rounds: 32,
    grain: Grain::Byte,
    front: true,
    store: true,
};

const SMALL: Settings = Settings {
    capacity: 2,
    store: true,
    ..DEFAULTS
};

const BY_PACKETS: Settings = Settings {
    weigh: Weigh::Packets,
    ..DEFAULTS
};

const FRONT: Settings = Settings {
    front: true,
    ..DEFAULTS
};

const FRONT_BY_PACKETS: Settings = Settings {
    weigh: Weigh::Packets,
    front: true,
    ..DEFAULTS
};

const BUSY: Settings = Settings {
    shards: 16,
    workers: 16,
    ..DEFAULTS
};

const BY_HALF_BYTES: Settings = Settings {
    capacity: 1024,
    grain: Grain::Nibble,
    ..DEFAULTS
};

const STORED_BY_HALF_BYTES: Settings = Settings {
    grain: Grain::Nibble,
    store: true,
    ..DEFAULTS
};

const GOOD_WORDS: [GoodWords; 16] = [
    GoodWords {
        line: "report",
        command: Command::Report(DEFAULTS),
        capture: "-",
        report: "",
        store: "",
    },
    GoodWords {
        line: "report --capture=a=b",
        command: Command::Report(DEFAULTS),
        capture: "a=b",
        report: "",
        store: "",
    },
    GoodWords {
        line: "report --capacity 16 --phi 125000",
        command: Command::Report(LEAST),
        capture: "-",
        report: "",
        store: "",
    },
    GoodWords {
        line: "report --phi=117648 --rounds 32 --deal free --capacity 17 --block 1 --shards=16 --store s --workers=16 --weigh packets --callers 8 --front yes --bits 8 --capture c",
        command: Command::Report(ALL),
        capture: "c",
        report: "",
        store: "s",
    },
    GoodWords {
        line: "format --store=s --capacity 2",
        command: Command::Format(SMALL),
        capture: "",
        report: "",
        store: "s",
    },
    GoodWords {
        line: "format --bits 4 --store S",
        command: Command::Format(STORED_BY_HALF_BYTES),
        capture: "",
        report: "",
        store: "S",
    },
    GoodWords {
        line: "report --bits 4 --store S",
        command: Command::Report(STORED_BY_HALF_BYTES),
        capture: "-",
        report: "",
        store: "S",
    },
    GoodWords {
        line: "report --front no",
        command: Command::Report(DEFAULTS),
        capture: "-",
        report: "",
        store: "",
    },
    GoodWords {
        line: "audit --front=yes --report R",
        command: Command::Audit(FRONT),
        capture: "-",
        report: "R",
        store: "",
    },
    GoodWords {
        line: "audit --report R",
        command: Command::Audit(DEFAULTS),
        capture: "-",
        report: "R",
        store: "",
    },
    GoodWords {
        line: "audit --weigh packets --report=r --capture c",
        command: Command::Audit(BY_PACKETS),
        capture: "c",
        report: "r",
        store: "",
    },
    GoodWords {
        line: "report --bits 4 --capacity 1024",
        command: Command::Report(BY_HALF_BYTES),
        capture: "-",
        report: "",
        store: "",
    },
    GoodWords {
        line: "audit --capacity=1024 --bits=4 --report R",
        command: Command::Audit(BY_HALF_BYTES),
        capture: "-",
        report: "R",
        store: "",
    },
    GoodWords {
        line: "demo --bits 4 7 --capacity 1024 1",
        command: Command::Demo {
            seed: 7,
            frames: 1,
            settings: BY_HALF_BYTES,
        },
        capture: "",
        report: "",
        store: "",
    },
    GoodWords {
        line: "make 18446744073709551615 1000000",
        command: Command::Make {
            seed: 18_446_744_073_709_551_615,
            frames: 1_000_000,
        },
        capture: "",
        report: "",
        store: "",
    },
    GoodWords {
        line: "demo --shards=16 0 --workers 16 1",
        command: Command::Demo {
            seed: 0,
            frames: 1,
            settings: BUSY,
        },
        capture: "",
        report: "",
        store: "",
    },
];

#[test]
fn reads_words(rt: HostRuntime) -> Result<(), Fail> {
    assert_eq!(rt; first_misread(rt.alloc(), &GOOD_WORDS)?, None);
    Ok(())
}

// The place of the first arguments that are not read as they should be.
fn first_misread(alloc: Global, cases: &[GoodWords]) -> Result<Option<usize>, Fail> {
    for (place, case) in cases.iter().enumerate() {
        if !is_read(alloc, case)? {
            return Ok(Some(place));
        }
    }
    Ok(None)
}

fn is_read(alloc: Global, case: &GoodWords) -> Result<bool, Fail> {
    let words: Vec<&str> = case.line.split_whitespace().collect(alloc)?;
    Ok(
        ask_for(alloc, words.as_slice(), case.command)
            && names_these(&paths(alloc, words.as_slice())?, case),
    )
}

fn ask_for(alloc: Global, words: &[&str], command: Command) -> bool {
    read_words(alloc, words) == Ok(command)
}

fn names_these(named: &PathTexts, case: &GoodWords) -> bool {
    named.capture.as_str() == case.capture
        && named.report.as_str() == case.report
        && named.store.as_str() == case.store
}

const WEIGH_BY_PACKETS: [&str; 6] = [
    "weigh",
    "10.1.0.0/16",
    "--weigh",
    "packets",
    "--front=yes",
    "0.0.0.0/0",
];

#[test]
fn reads_a_prefix(rt: HostRuntime) -> Result<(), Fail> {
    let prefix = Prefix::parse(Grain::Byte, b"10.1.0.0/16", b"0.0.0.0/0")?;
    let command = Command::Weigh {
        prefix,
        settings: FRONT_BY_PACKETS,
    };
    assert!(rt; ask_for(rt.alloc(), &WEIGH_BY_PACKETS, command));
    Ok(())
}

// The arguments of `watch`, the text of reports that they name, and the rule that they ask for: the sides of its prefix, by
// this grain, and its limit.
struct WatchWords {
    line: &'static str,
    report: &'static str,
    grain: Grain,
    source: &'static str,
    dest: &'static str,
    limit: u64,
}

const WATCH_WORDS: [WatchWords; 4] = [
    WatchWords {
        line: "watch --report R --limit 100",
        report: "R",
        grain: Grain::Byte,
        source: "0.0.0.0/0",
        dest: "0.0.0.0/0",
        limit: 100,
    },
    WatchWords {
        line: "watch --limit=5 --src 1.0.0.0/8 --report=r",
        report: "r",
        grain: Grain::Byte,
        source: "1.0.0.0/8",
        dest: "0.0.0.0/0",
        limit: 5,
    },
    WatchWords {
        line: "watch --dst=1.16.0.0/12 --report R --bits 4 --limit 18446744073709551615",
        report: "R",
        grain: Grain::Nibble,
        source: "0.0.0.0/0",
        dest: "1.16.0.0/12",
        limit: 18_446_744_073_709_551_615,
    },
    WatchWords {
        line: "watch --src 1.2.3.4/32 --bits=8 --dst 5.6.0.0/16 --limit 1 --report R",
        report: "R",
        grain: Grain::Byte,
        source: "1.2.3.4/32",
        dest: "5.6.0.0/16",
        limit: 1,
    },
];

#[test]
fn reads_rules(rt: HostRuntime) -> Result<(), Fail> {
    assert_eq!(rt; first_rule_misread(rt.alloc(), &WATCH_WORDS)?, None);
    Ok(())
}

// The place of the first arguments of `watch` that are not read as they should be.
fn first_rule_misread(alloc: Global, cases: &[WatchWords]) -> Result<Option<usize>, Fail> {
    for (place, case) in cases.iter().enumerate() {
        if !is_rule_read(alloc, case)? {
            return Ok(Some(place));
        }
    }
    Ok(None)
}

fn is_rule_read(alloc: Global, case: &WatchWords) -> Result<bool, Fail> {
    let words: Vec<&str> = case.line.split_whitespace().collect(alloc)?;
    let named = paths(alloc, words.as_slice())?;
    let names_text = named.capture.as_str().is_empty()
        && named.report.as_str() == case.report
        && named.store.as_str().is_empty();
    Ok(names_text && is_rule_of(&read_words(alloc, words.as_slice())?, case)?)
}

fn is_rule_of(command: &Command, case: &WatchWords) -> Result<bool, PrefixFault> {
    let Command::Watch { rule, grain } = command else {
        return Ok(false);
    };
    let prefix = Prefix::parse(case.grain, case.source.as_bytes(), case.dest.as_bytes())?;
    Ok(rule.prefix == prefix && rule.limit == case.limit && *grain == case.grain)
}

// Why arguments are refused, and how it is told.
type Told = (WordsKind, &'static str);

const TOLD: [Told; 19] = [
    (WordsKind::NoCommand, "no command"),
    (WordsKind::UnknownCommand, "unknown command"),
    (WordsKind::Refused, "refused"),
    (
        WordsKind::BadPrefix(PrefixFault::BadLength(Side::Source)),
        "prefix: source: bad length",
    ),
    (WordsKind::BadNumber(Opt::Seed), "SEED: no number"),
    (
        WordsKind::OutOfLimits(Opt::Frames),
        "FRAMES: outside its limits",
    ),
    (WordsKind::BadChoice(Opt::Weigh), "weigh: no such choice"),
    (WordsKind::BadNumber(Opt::Shards), "shards: no number"),
    (
        WordsKind::OutOfLimits(Opt::Capacity),
        "capacity: outside its limits",
    ),
    (WordsKind::OutOfLimits(Opt::Phi), "phi: outside its limits"),
    (WordsKind::BadChoice(Opt::Deal), "deal: no such choice"),
    (
        WordsKind::OutOfLimits(Opt::Block),
        "block: outside its limits",
    ),
    (WordsKind::BadNumber(Opt::Workers), "workers: no number"),
    (WordsKind::BadNumber(Opt::Callers), "callers: no number"),
    (WordsKind::BadNumber(Opt::Rounds), "rounds: no number"),
    (
        WordsKind::OutOfLimits(Opt::Bits),
        "bits: outside its limits",
    ),
    (WordsKind::BadChoice(Opt::Front), "front: no such choice"),
    (
        WordsKind::OutOfLimits(Opt::Limit),
        "limit: outside its limits",
    ),
    (WordsKind::Bound, "phi times capacity is below 2000000"),
];

#[test]
fn writes_refusals(rt: HostRuntime) -> Result<(), Fail> {
    assert_eq!(rt; first_told_otherwise(rt.alloc(), &TOLD)?, None);
    assert!(rt; is_written(rt.alloc(), WordsRefusal::OutOfMemory, "out of memory")?);
    Ok(())
}

// The place of the first fault that is not told as it should be.
fn first_told_otherwise(alloc: Global, cases: &[Told]) -> Result<Option<usize>, Fail> {
    for (place, (kind, text)) in cases.iter().enumerate() {
        if !is_told(alloc, *kind, text)? {
            return Ok(Some(place));
        }
    }
    Ok(None)
}

fn is_told(alloc: Global, kind: WordsKind, text: &str) -> Result<bool, Fail> {
    let told = format!(in alloc; "{kind}")?;
    Ok(told.as_str() == text && is_written(alloc, WordsRefusal::Bad(kind), text)?)
}

fn is_written(alloc: Global, refusal: WordsRefusal, text: &str) -> Result<bool, Fail> {
    Ok(format!(in alloc; "{refusal}")?.as_str() == text)
}
