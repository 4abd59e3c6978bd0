//! Reading one line of a session.

ghost use Rattle.std.specs.Prelude.{◌≡◌, ◌≢◌, ◌≤◌, ◌<◌, ◌^◌, ℕ, List, [], ◌∷◌, map, codes, decimal, IfOk, IfSome};
ghost use Rattle.std.specs.Prelude.{IfNone};
ghost use Rattle.prefix_lattice.specs.declared.grain.Grain.{Grain as GrainValue};
ghost use Rattle.hhh_report.specs.declared.line.Line.{Line as LineValue};
ghost use Rattle.report_text.specs.Printing.{ShowsPositions};
ghost use Rattle.report_text.specs.Session.{AreSkips, IsSessionLine, IsReportLine};
ghost use Rattle.report_text.specs.Session.{report_words, skipped_words, line_words};
ghost use Rattle.report_text.specs.Stages.{words_in};
ghost use Rattle.report_text.specs.declared.session_line.SessionLine.{SessionLine};
ghost use Rattle.report_text.specs.declared.session_line.Skips.{Skips};

use crate::session_line::{SessionLine, Skips};
use crate::word_cut::cut_word;
use hhh_report::{Line, Positions};
use prefix_lattice::{Grain, Prefix, number_of};
use std::alloc::{AllocError, Global};

// The most positions of a list.
const MOST_POSITIONS: usize = 16;

// The greatest position, the most frames of a capture.
const GREATEST_POSITION: u64 = 16_777_216;

/// Reads a line without its line feed. A prefix in it is of the grain. `None` exactly if no line of a session has this
/// text.
pub(crate) fn read_line(
    alloc: Global,
    grain: Grain,
    text: &[u8],
) -> Result<Option<SessionLine>, AllocError>
    ensures read { IfOk result (λ read. IfSome read
        (λ line. IsSessionLine grain line × (words_in text.now ≡ line_words line))) }
    ensures refused { IfOk result (λ read. IfNone read
        ((line : SessionLine) → IsSessionLine grain line → words_in text.now ≢ line_words line)) }
{
    match cut_word(text) {
        Some(cut) => read_words(alloc, grain, cut.word, cut.rest),
        None => Ok(read_word(text)),
    }
}

// Reads a line of one word.
fn read_word(word: &[u8]) -> Option<SessionLine>
    ensures read { (grain : GrainValue) → IfSome result
        (λ line. IsSessionLine grain line × (word.now ∷ [] ≡ line_words line)) }
    ensures refused { (grain : GrainValue) → IfNone result
        ((line : SessionLine) → IsSessionLine grain line → word.now ∷ [] ≢ line_words line) }
{
    if word == b"report".as_slice() {
        return Some(SessionLine::Report);
    }
    if word == b"done".as_slice() {
        return Some(SessionLine::Done);
    }
    if word == b"end".as_slice() {
        return Some(SessionLine::End);
    }
    None
}

// Reads a line with this first word and this text after it.
fn read_words(
    alloc: Global,
    grain: Grain,
    name: &[u8],
    rest: &[u8],
) -> Result<Option<SessionLine>, AllocError>
    ensures read { IfOk result (λ read. IfSome read
        (λ line. IsSessionLine grain line × (name.now ∷ words_in rest.now ≡ line_words line))) }
    ensures refused { IfOk result (λ read. IfNone read
        ((line : SessionLine) → IsSessionLine grain line → name.now ∷ words_in rest.now ≢ line_words line)) }
{
    if name == b"line".as_slice() {
        return Ok(report_line_of(grain, rest).map(SessionLine::Line));
    }
    if name == b"at".as_slice() {
        return Ok(positions_of(alloc, rest)?.map(SessionLine::At));
    }
    if name == b"opened".as_slice() {
        return Ok(positions_of(alloc, rest)?.map(SessionLine::Opened));
    }
    if name == b"saved".as_slice() {
        return Ok(positions_of(alloc, rest)?.map(SessionLine::Saved));
    }
    Ok(read_numbers(name, rest))
}

// Reads a line of numbers. The name is none of those before.
fn read_numbers(name: &[u8], rest: &[u8]) -> Option<SessionLine>
    requires line { name.now ≢ codes "line" }
    requires at { name.now ≢ codes "at" }
    requires opened { name.now ≢ codes "opened" }
    requires saved { name.now ≢ codes "saved" }
    ensures read { (grain : GrainValue) → IfSome result
        (λ line. IsSessionLine grain line × (name.now ∷ words_in rest.now ≡ line_words line)) }
    ensures refused { (grain : GrainValue) → IfNone result
        ((line : SessionLine) → IsSessionLine grain line → name.now ∷ words_in rest.now ≢ line_words line) }
{
    if name == b"total".as_slice() {
        return last_number(rest).map(SessionLine::Total);
    }
    if name == b"threshold".as_slice() {
        return threshold_of(rest).map(SessionLine::Threshold);
    }
    if name == b"frames".as_slice() {
        return last_number(rest).map(SessionLine::Frames);
    }
    if name == b"skipped".as_slice() {
        return skips_of(rest).map(SessionLine::Skipped);
    }
    if name == b"cut".as_slice() {
        return last_number(rest).map(SessionLine::Cut);
    }
    None
}

// The number that is the only word of a text.
fn last_number(text: &[u8]) -> Option<u64>
    ensures small { IfSome result (λ number. number < 2 ^ 64) }
    ensures read { IfSome result (λ number. words_in text.now ≡ decimal number ∷ []) }
    ensures refused { IfNone result ((number : ℕ) → number < 2 ^ 64 → words_in text.now ≢ decimal number ∷ []) }
{
    let Some(number) = number_of(text) else {
        return None;
    };
    Some(number)
}

fn threshold_of(text: &[u8]) -> Option<u64>
    ensures small { IfSome result (λ threshold. threshold < 2 ^ 64) }
    ensures read { IfSome result (λ threshold. (1 ≤ threshold) × (words_in text.now ≡ decimal threshold ∷ [])) }
    ensures refused { IfNone result ((threshold : ℕ) → 1 ≤ threshold → threshold < 2 ^ 64 → words_in text.now ≢ decimal threshold ∷ []) }
{
    let Some(threshold) = last_number(text) else {
        return None;
    };
    if threshold == 0 {
        return None;
    }
    Some(threshold)
}

fn skips_of(text: &[u8]) -> Option<Skips>
    ensures small { IfSome result AreSkips }
    ensures read { IfSome result (λ skips. words_in text.now ≡ skipped_words skips) }
    ensures refused { IfNone result ((skips : Skips) → AreSkips skips → words_in text.now ≢ skipped_words skips) }
{
    let Some(first) = cut_word(text) else {
        return None;
    };
    let Some(second) = cut_word(first.rest) else {
        return None;
    };
    let Some(not_ipv4) = number_of(first.word) else {
        return None;
    };
    let Some(short) = number_of(second.word) else {
        return None;
    };
    let Some(bad_header) = last_number(second.rest) else {
        return None;
    };
    Some(Skips {
        not_ipv4,
        short,
        bad_header,
    })
}

fn report_line_of(grain: Grain, text: &[u8]) -> Option<Line>
    ensures read { IfSome result (λ line. IsReportLine grain line × (words_in text.now ≡ report_words line)) }
    ensures refused { IfNone result
        ((line : LineValue) → IsReportLine grain line → words_in text.now ≢ report_words line) }
{
    let Some(source) = cut_word(text) else {
        return None;
    };
    let Some(dest) = cut_word(source.rest) else {
        return None;
    };
    let Some(low) = cut_word(dest.rest) else {
        return None;
    };
    let Ok(prefix) = Prefix::parse(grain, source.word, dest.word) else {
        return None;
    };
    let Some(lo) = number_of(low.word) else {
        return None;
    };
    let Some(hi) = last_number(low.rest) else {
        return None;
    };
    if lo > hi {
        return None;
    }
    Some(Line { prefix, lo, hi })
}

// Reads 1 to 16 positions.
fn positions_of(alloc: Global, text: &[u8]) -> Result<Option<Positions>, AllocError>
    ensures read { IfOk result (λ read. IfSome read (λ positions. ShowsPositions positions × (words_in text.now ≡ map decimal positions))) }
    ensures refused { IfOk result (λ read. IfNone read
        ((positions : List ℕ) → ShowsPositions positions → words_in text.now ≢ map decimal positions)) }
{
    let mut positions = Positions::new(alloc);
    let mut rest = text;
    while let Some(cut) = cut_word(rest) {
        let Some(position) = position_of(cut.word) else {
            return Ok(None);
        };
        if positions.len() + 1 == MOST_POSITIONS {
            return Ok(None);
        }
        positions.push(position)?;
        rest = cut.rest;
    }
    let Some(position) = position_of(rest) else {
        return Ok(None);
    };
    positions.push(position)?;
    Ok(Some(positions))
}

fn position_of(word: &[u8]) -> Option<u64>
    ensures read { IfSome result (λ position. (position ≤ GREATEST_POSITION) × (word.now ≡ decimal position)) }
    ensures refused { IfNone result ((position : ℕ) → position ≤ GREATEST_POSITION → word.now ≢ decimal position) }
{
    let Some(position) = number_of(word) else {
        return None;
    };
    if position > GREATEST_POSITION {
        return None;
    }
    Some(position)
}
