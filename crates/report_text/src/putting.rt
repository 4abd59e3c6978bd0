//! Appending parts of a text within room that is already reserved.

ghost use Rattle.std.specs.Prelude.{◌≡◌, ◌+◌, ◌*◌, ◌≤◌, ◌∷◌, ◌++◌, length, decimal, vec_len, vec_capacity};
ghost use Rattle.prefix_lattice.specs.{prefix_text, longest_prefix_text};
ghost use Rattle.report_text.specs.Printing.{cut_text, line_text, lines_text, positions_text};
ghost use Rattle.report_text.specs.Printing.{cut_length, number_length, line_length};

use hhh_report::Line;
use itoa::Buffer;
use prefix_lattice::Prefix;

/// Appends bytes to a text.
pub(crate) fn put(text: &mut Vec<u8>, bytes: &[u8])
    requires { vec_len text.old + length bytes.now ≤ vec_capacity text.old }
    ensures text { text.new.items ≡ text.old.items ++ bytes.now }
    ensures length { vec_len text.new ≡ vec_len text.old + length bytes.now }
    ensures room { vec_capacity text.old ≤ vec_capacity text.new }
{
    text.extend_from_slice(bytes).unwrap();
}

/// Appends bytes and a number in decimal to a text. A number needs at most 20 bytes.
pub(crate) fn put_number(text: &mut Vec<u8>, before: &[u8], number: u64)
    requires { vec_len text.old + length before.now + number_length ≤ vec_capacity text.old }
    ensures text { text.new.items ≡ text.old.items ++ before.now ++ decimal number }
    ensures length { vec_len text.new ≤ vec_len text.old + length before.now + number_length }
    ensures room { vec_capacity text.old ≤ vec_capacity text.new }
{
    let mut buffer = Buffer::new();
    put(text, before);
    put(text, buffer.format(number).as_bytes());
}

/// Appends a line of positions to a text. A position needs at most 21 bytes, including the space before it.
pub(crate) fn put_positions(text: &mut Vec<u8>, name: &[u8], positions: &[u64])
    requires { vec_len text.old + length name.now + (1 + number_length) * length positions.now + 1 ≤ vec_capacity text.old }
    ensures text { text.new.items ≡ text.old.items ++ positions_text name.now positions.now }
    ensures length { vec_len text.new ≤ vec_len text.old + length name.now + (1 + number_length) * length positions.now + 1 }
    ensures room { vec_capacity text.old ≤ vec_capacity text.new }
{
    put(text, name);
    for position in positions {
        put_number(text, b" ", *position);
    }
    put(text, b"\n");
}

/// Appends the lines of a report to a text. A line needs at most 85 bytes.
pub(crate) fn put_lines(text: &mut Vec<u8>, lines: &[Line])
    requires { vec_len text.old + line_length * length lines.now ≤ vec_capacity text.old }
    ensures text { text.new.items ≡ text.old.items ++ lines_text lines.now }
    ensures length { vec_len text.new ≤ vec_len text.old + line_length * length lines.now }
    ensures room { vec_capacity text.old ≤ vec_capacity text.new }
{
    for line in lines {
        put_line(text, line);
    }
}

fn put_line(text: &mut Vec<u8>, line: &Line)
    requires { vec_len text.old + line_length ≤ vec_capacity text.old }
    ensures text { text.new.items ≡ text.old.items ++ line_text line.now }
    ensures length { vec_len text.new ≤ vec_len text.old + line_length }
    ensures room { vec_capacity text.old ≤ vec_capacity text.new }
{
    put(text, b"line ");
    put_prefix(text, &line.prefix);
    put_number(text, b" ", line.lo);
    put_number(text, b" ", line.hi);
    put(text, b"\n");
}

/// Appends the line of the frame inside which a capture ended to a text, if it did.
pub(crate) fn put_cut(text: &mut Vec<u8>, cut: Option<u64>)
    requires { vec_len text.old + cut_length ≤ vec_capacity text.old }
    ensures text { text.new.items ≡ text.old.items ++ cut_text cut }
    ensures length { vec_len text.new ≤ vec_len text.old + cut_length }
    ensures room { vec_capacity text.old ≤ vec_capacity text.new }
{
    let Some(place) = cut else {
        return;
    };
    put_number(text, b"cut ", place);
    put(text, b"\n");
}

fn put_prefix(text: &mut Vec<u8>, prefix: &Prefix)
    requires { vec_len text.old + longest_prefix_text ≤ vec_capacity text.old }
    ensures text { text.new.items ≡ text.old.items ++ prefix_text prefix.now }
    ensures length { vec_len text.new ≤ vec_len text.old + longest_prefix_text }
    ensures room { vec_capacity text.old ≤ vec_capacity text.new }
{
    let mut written = [0; 37];
    let len = prefix.write_text(&mut written);
    put(text, &written[..len]);
}
