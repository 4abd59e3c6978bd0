//! The text of reports and of the lines around them.

ghost use Rattle.std.specs.Prelude.{◌≡◌, ◌≤◌, ◌++◌, length, OnOk, OnErr};
ghost use Rattle.report_text.specs.Printing.{ShowsPositions, report_text, mark_text};
ghost use Rattle.report_text.specs.Printing.{lines_text, positions_text, tail_text};
ghost use Rattle.prefix_lattice.specs.{shard_limit};

use crate::Mark;
use crate::putting::{put, put_cut, put_lines, put_number, put_positions};
use frame_records::Records;
use hhh_report::{Positions, Report};
use std::alloc::AllocError;

// The most bytes of a report line: `line `, a prefix and two numbers.
const LINE_ROOM: usize = 85;

// The most bytes of the other lines of a report: 16 positions, two numbers and the words.
const REPORT_ROOM: usize = 409;

// The most bytes of a line of 16 positions, with the longer of its two names.
const POSITIONS_ROOM: usize = 343;

// The most bytes of a line of 16 positions and a name of 32 bytes.
const NAMED_ROOM: usize = 369;

// The most bytes of the last lines of a session: five numbers and the words.
const TAIL_ROOM: usize = 128;

/// Appends the text of a report of 1 to 16 shards: the lines `report`, `at` with the positions, `total` and
/// `threshold` with their numbers, one `line` with prefix, low and high for each line of the report, and `done`.
/// Each line ends with a line feed. A position is at most 16,777,216, and the threshold at least 1. Memory is
/// reserved first, so after an `Err`, which means that memory ran out, the bytes are as before.
pub fn print(report: &Report, into: &mut Vec<u8>) -> Result<(), AllocError>
    requires positions { ShowsPositions report.now.positions }
    requires threshold { 1 ≤ report.now.threshold }
    ensures ok { OnOk result (into.new.items ≡ into.old.items ++ report_text report.now) }
    ensures err { OnErr result (into.new.items ≡ into.old.items) }
{
    let lines = report.lines.as_slice();
    into.reserve(REPORT_ROOM + LINE_ROOM * lines.len())?;
    put(into, b"report\n");
    put_positions(into, b"at", report.positions.as_slice());
    put_number(into, b"total ", report.total);
    put_number(into, b"\nthreshold ", report.threshold);
    put(into, b"\n");
    put_lines(into, lines);
    put(into, b"done\n");
    Ok(())
}

/// Appends the line `opened` or `saved` with the positions of 1 to 16 shards, each at most 16,777,216. Memory is
/// reserved first, so after an `Err`, which means that memory ran out, the bytes are as before.
pub fn print_positions(
    mark: Mark,
    positions: &Positions,
    into: &mut Vec<u8>,
) -> Result<(), AllocError>
    requires { ShowsPositions positions.now }
    ensures ok { OnOk result (into.new.items ≡ into.old.items ++ mark_text mark positions.now) }
    ensures err { OnErr result (into.new.items ≡ into.old.items) }
{
    let name: &[u8] = match mark {
        Mark::Opened => b"opened",
        Mark::Saved => b"saved",
    };
    into.reserve(POSITIONS_ROOM)?;
    put_positions(into, name, positions.as_slice());
    Ok(())
}

/// Appends a line of a name of at most 32 bytes and at most 16 positions, with a space before each. Memory is reserved first,
/// so after an `Err`, which means that memory ran out, the bytes are as before.
pub fn print_named_positions(
    name: &[u8],
    positions: &[u64],
    into: &mut Vec<u8>,
) -> Result<(), AllocError>
    requires short { length name.now ≤ 32 }
    requires few { length positions.now ≤ shard_limit }
    ensures ok { OnOk result (into.new.items ≡ into.old.items ++ positions_text name.now positions.now) }
    ensures err { OnErr result (into.new.items ≡ into.old.items) }
{
    into.reserve(NAMED_ROOM)?;
    put_positions(into, name, positions);
    Ok(())
}

/// Appends the lines of a report alone, for each `line` with prefix, low and high. Memory is reserved first, so after an `Err`,
/// which means that memory ran out, the bytes are as before.
pub fn print_lines(report: &Report, into: &mut Vec<u8>) -> Result<(), AllocError>
    ensures ok { OnOk result (into.new.items ≡ into.old.items ++ lines_text report.now.lines) }
    ensures err { OnErr result (into.new.items ≡ into.old.items) }
{
    let lines = report.lines.as_slice();
    into.reserve(LINE_ROOM * lines.len())?;
    put_lines(into, lines);
    Ok(())
}

/// Appends the last lines of a session: `frames` with the number of frames that were read, `skipped` with the
/// numbers of frames skipped as not IPv4, as short and for a bad header, `cut` with the place of the frame inside which
/// the capture ended, if it did, and `end`. Memory is reserved first, so after an `Err`, which means that memory ran
/// out, the bytes are as before.
pub fn print_tail(records: &Records, into: &mut Vec<u8>) -> Result<(), AllocError>
    ensures ok { OnOk result (into.new.items ≡ into.old.items ++ tail_text records.now) }
    ensures err { OnErr result (into.new.items ≡ into.old.items) }
{
    into.reserve(TAIL_ROOM)?;
    put_number(into, b"frames ", records.frames);
    put_number(into, b"\nskipped ", records.not_ipv4);
    put_number(into, b" ", records.short);
    put_number(into, b" ", records.bad_header);
    put(into, b"\n");
    put_cut(into, records.cut);
    put(into, b"end\n");
    Ok(())
}
