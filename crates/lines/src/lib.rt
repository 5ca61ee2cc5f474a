// The lines of a printout, each put behind a text.
#![tactic(auto)]

ghost use mathlib.Core.List.{flat_map};
ghost use Rattle.std.specs.Prelude.{◌≡◌, ◌+◌, ◌*◌, ◌≤◌, length, take, drop};
ghost use Rattle.rows.specs.Rows.{rows_at, row_size, rows_in};
ghost use Rattle.ring.specs.Ring.{max_ring};
ghost use Rattle.text.specs.Decimal.{decimal};
ghost use Rattle.lines.specs.Lines.{spaced, line_end, ended, mark, number_or_mark, summary_fields};
ghost use Rattle.lines.specs.Lines.{answer_line, ring_line, row_line};
ghost use Rattle.text.specs.Steps.{Behind};

use ring::Ring;
use rows::Row;
use summary::Summary;
use text::{Text, put_byte, put_decimal, put_word};

// What stands before a field, and at the end of a line.
const SPACE: u8 = 32;

const NEWLINE: u8 = 10;

// A number as a field.
fn put_number(text: Text, n: u16) -> Text
    ensures { Behind text (spaced (decimal n)) result }
{
    put_decimal(put_byte(text, SPACE), n)
}

// A mark as a field.
fn put_mark(text: Text) -> Text
    ensures { Behind text (spaced mark) result }
{
    put_word(text, b" -")
}

// The end of a line.
fn put_end(text: Text) -> Text
    ensures { Behind text line_end result }
{
    put_byte(text, NEWLINE)
}

// The line of an answer.
pub fn put_answer(text: Text, answer: u8) -> Text
    ensures { Behind text (answer_line answer) result }
{
    put_end(put_number(put_word(text, b"answer"), answer as u16))
}

// A number as a field, or the mark where there is none.
fn put_number_or_mark(text: Text, number: Option<u16>) -> Text
    ensures { Behind text (spaced (number_or_mark number)) result }
{
    match number {
        Some(n) => put_number(text, n),
        None => put_mark(text),
    }
}

// The fields of a summary and the end of its line.
pub fn put_summary(text: Text, summary: Summary) -> Text
    ensures { Behind text (ended (summary_fields summary)) result }
{
    let upright = put_number(text, summary.upright as u16);
    let flat = put_number(upright, summary.flat as u16);
    let inverted = put_number(flat, summary.inverted as u16);
    let score = put_number_or_mark(inverted, summary.worst.map(|score| score.value()));
    put_end(put_number_or_mark(score, summary.octave.map(u16::from)))
}

// The line of the ring, or of the chain.
pub fn put_ring(text: Text, ring: Ring) -> Text
    requires { (ring.m ≤ max_ring) × (length ring.v ≡ max_ring) }
    ensures { Behind text (ring_line (take ring.m ring.v)) result }
{
    let mut line = put_word(text, b"ring");
    for &point in &ring.v[..ring.m as usize] {
        line = put_number(line, point as u16);
    }
    put_end(line)
}

// The line of a row.
fn put_row(text: Text, row: Row) -> Text
    ensures { Behind text (row_line row) result }
{
    let word = put_word(text, b"row");
    let p = put_number(word, row.p as u16);
    let q = put_number(p, row.q as u16);
    let r = put_number(q, row.r as u16);
    let s = put_number(r, row.s as u16);
    put_end(put_number(s, row.region as u16))
}

// The lines of the rows from row `from` on, of the first n.
pub fn put_rows(text: Text, table: &[u8], from: usize, n: usize) -> Text
    requires { (from ≤ n) × (rows_at + row_size * n ≤ length table.now) }
    ensures { Behind text (flat_map row_line (drop from (rows_in table.now n))) result }
{
    let mut lines = text;
    for i in from..n {
        lines = put_row(lines, rows::row_in(table, i));
    }
    lines
}
