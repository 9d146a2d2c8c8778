// A label on two lines, read and written again: what the programs `relabel` and `trials` print.
#![tactic(auto)]

ghost use Rattle.std.specs.Prelude.{◌≡◌, ◌+◌, ◌*◌, ◌≤◌, ◌<◌, length};
ghost use Rattle.label.specs.Limits.{max_text_bytes, max_indices_bytes, max_units, max_glyphs, max_line_bytes};
ghost use Rattle.label.specs.Relabel.{line, relabel_read};
ghost use Rattle.label.specs.Calls.{outcome_of, lengths, text_after, indices_after, outputs};
ghost use Rattle.std.specs.Iterator.{at_most};
ghost use Rattle.lines.specs.Labels.{line_behind, line_end, place_ptr, TwoLinesOf, OwnLines, GivesLabel};
ghost use Rattle.lines.specs.Lines.{answered, places_written, relabelled, text_line, indices_line};

use label::{Cause, Counts, Label, Lengths, Limits, Refusal};
use wire::Run;

// The counts of the run that was read, and the lengths of the lines that were written.
#[derive(Clone, Copy)]
pub struct Relabelled {
    pub read: Counts,
    pub written: Lengths,
}

// A line, and what follows it: parts of the input, where they are empty too.
#[derive(Clone, Copy)]
struct Line<'a> {
    bytes: &'a [u8],
    rest: &'a [u8],
}

// The first line: a line feed ends it and is no part of it. std's `splitn(2, ..)` would give the same two parts by an iterator.
fn first_line(input: &[u8]) -> Line<'_>
    ensures bytes { result.bytes.now ≡ (line input.now).before }
    ensures rest { result.rest.now ≡ (line input.now).after }
    ensures own { (result.bytes.ref_ptr ≡ input.entry.ref_ptr)
        × (result.rest.ref_ptr ≡ place_ptr input.entry.ref_ptr (line_behind input.now (line_end input.now 0))) }
{
    match octets::position_of(input, b'\n') {
        Some(end) => Line {
            bytes: &input[..end],
            rest: &input[end + 1..],
        },
        None => Line {
            bytes: input,
            rest: &input[input.len()..],
        },
    }
}

// The label of two lines, and what follows them.
#[derive(Clone, Copy)]
pub struct TwoLines<'a> {
    pub label: Label<'a>,
    pub rest: &'a [u8],
}

// The first two lines, parts of the input; a missing one is empty.
pub fn two_lines(input: &[u8]) -> TwoLines<'_>
    ensures lines { TwoLinesOf input.now result }
    ensures own { OwnLines input.entry.ref_ptr input.now result }
    ensures less { 0 < length input.now → length result.rest.now < length input.now }
{
    let text = first_line(input);
    let indices = first_line(text.rest);
    let label = Label {
        text: text.bytes,
        indices: indices.bytes,
    };
    TwoLines {
        label,
        rest: indices.rest,
    }
}

// The labels of an input, two lines each, up to its end.
#[derive(Clone, Copy)]
pub struct Labels<'a> {
    pub rest: &'a [u8],
}

impl<'a> Iterator for Labels<'a> {
    type Item = Label<'a>;

    ghost next_gives = { GivesLabel };

    ghost remaining = { λ s. at_most (length s.rest.now) };

    fn next(&mut self) -> Option<Label<'a>> {
        if self.rest.is_empty() {
            return None;
        }
        let lines = two_lines(self.rest);
        self.rest = lines.rest;
        Some(lines.label)
    }
}

// Writes the run whose counts these are from the bytes at the front of three buffers: 2 a unit, 8 a cluster and 16 a glyph. The two outputs are no struct, as
// each has a clause of its own that says what it holds afterwards.
fn write_places(
    n: Counts,
    buffers: Run,
    first: &mut [u8],
    second: &mut [u8],
) -> Result<Relabelled, Refusal>
    requires { let b = buffers in
        (2 * n.units ≤ length b.units.now) × (8 * n.clusters ≤ length b.clusters.now) × (16 * n.glyphs ≤ length b.glyphs.now) }
    ensures result { let b = buffers.entry in let room = outputs first.old second.old in
        outcome_of result ≡ answered n (lengths (places_written n b.units.now b.clusters.now b.glyphs.now room)) }
    ensures text { let b = buffers.entry in let room = outputs first.old second.old in
        first.new ≡ text_after (places_written n b.units.now b.clusters.now b.glyphs.now room) first.old }
    ensures indices { let b = buffers.entry in let room = outputs first.old second.old in
        second.new ≡ indices_after (places_written n b.units.now b.clusters.now b.glyphs.now room) second.old }
{
    let run = Run {
        units: &buffers.units[..2 * n.units],
        clusters: &buffers.clusters[..8 * n.clusters],
        glyphs: &buffers.glyphs[..16 * n.glyphs],
    };
    let written = writer::write_as(false, run, first, second)?;
    Ok(Relabelled { read: n, written })
}

// A label whose indices line is not too long, read into buffers that hold every run. They go one by one to `reader::read`, which has a clause for each.
fn relabel_in(
    label: Label,
    units: &mut [u8],
    clusters: &mut [u8],
    glyphs: &mut [u8],
    first: &mut [u8],
    second: &mut [u8],
) -> Result<Relabelled, Refusal>
    requires indices_len_bound { length label.indices.now ≤ max_line_bytes }
    requires buffers { (length units.old ≡ 2 * max_units) × (length clusters.old ≡ 8 * max_glyphs) × (length glyphs.old ≡ 16 * max_glyphs) }
    requires outputs { (max_text_bytes ≤ length first.old) × (max_indices_bytes ≤ length second.old) }
    ensures result { outcome_of result ≡ relabelled (relabel_read label.entry.text.now label.entry.indices.now) }
    ensures text { first.new ≡ text_line (relabel_read label.entry.text.now label.entry.indices.now) first.old }
    ensures indices { second.new ≡ indices_line (relabel_read label.entry.text.now label.entry.indices.now) second.old }
{
    let reading = reader::read(label, units, clusters, glyphs)?;
    let buffers = Run {
        units,
        clusters,
        glyphs,
    };
    write_places(reading.counts, buffers, first, second)
}

// A label of two lines: its counts and its normal lines, which are written to the two outputs, or the refusal.
pub fn relabel(label: Label, first: &mut [u8], second: &mut [u8]) -> Result<Relabelled, Refusal>
    requires { (max_text_bytes ≤ length first.old) × (max_indices_bytes ≤ length second.old) }
    ensures result { outcome_of result ≡ relabelled (relabel_read label.entry.text.now label.entry.indices.now) }
    ensures text { first.new ≡ text_line (relabel_read label.entry.text.now label.entry.indices.now) first.old }
    ensures indices { second.new ≡ indices_line (relabel_read label.entry.text.now label.entry.indices.now) second.old }
{
    if Limits::LINE_BYTES < label.indices.len() {
        return Err(Cause::TooManyBytes.at(0));
    }
    // There is no heap: arrays that hold every run, of which the counts say how much is filled.
    let mut units = [0u8; 2 * Limits::UNITS];
    let mut clusters = [0u8; 8 * Limits::GLYPHS];
    let mut glyphs = [0u8; 16 * Limits::GLYPHS];
    relabel_in(label, &mut units, &mut clusters, &mut glyphs, first, second)
}
