// The calls for programs in C. A run's numbers are bytes here: a unit is 2 and every other number 4, two's complement, low byte first.
#![tactic(auto)]

ghost use Rattle.label.specs.Places.{places};
ghost use Rattle.label.specs.Pick.{pick_glyphs, pick_units};
ghost use Rattle.std.specs.Prelude.{◌≡◌, true, false};
ghost use Rattle.label.specs.Fault.{fault_part};
ghost use Rattle.label.specs.Calls.{reading_outcome, reading_rounded, outcome_of};
ghost use Rattle.glyph_label.specs.CallContracts.{ReadCall, WriteCall, ResolveCall, SheetCall};
ghost use Rattle.glyph_label.specs.Answers.{version, reading_answer, writing_answer, filled_answer, stretch_answer, part_answer};
ghost use Rattle.glyph_label.specs.Fits.{Small32, ReadingFits, WritingFits, StretchFits};

use label::{Label, Lengths, Part, Reading, Refusal, Source, Stretch};
use wire::Run;

// ── answers ──

// What was read: how many units, clusters and glyphs, and how many given fields were rounded. In each of four answers `number` is 0, or a refusal's number,
// and then `place` is its place and all else 0: flat structs, as C has no enum with values.
#[repr(C)]
#[derive(Clone, Copy)]
pub struct GlyphLabelReading {
    pub number: u32,
    pub place: u32,
    pub units: u32,
    pub clusters: u32,
    pub glyphs: u32,
    pub rounded: u32,
}

// How many bytes were written.
#[repr(C)]
#[derive(Clone, Copy)]
pub struct GlyphLabelWriting {
    pub number: u32,
    pub place: u32,
    pub text: u32,
    pub indices: u32,
}

// How many places of a lent buffer were filled: bytes, or numbers of an answer list. A raw value and a file have any size, and so has a place in them.
#[repr(C)]
#[derive(Clone, Copy)]
pub struct GlyphLabelFilled {
    pub number: u32,
    pub place: usize,
    pub filled: usize,
}

// The stretch of units or of glyphs that was picked.
#[repr(C)]
#[derive(Clone, Copy)]
pub struct GlyphLabelStretch {
    pub number: u32,
    pub place: u32,
    pub first: u32,
    pub end: u32,
}

// A part of the text (`in_indices` is 0) or of the indices (1): a number, which the header gives C for the enum `Source`.
#[repr(C)]
#[derive(Clone, Copy)]
pub struct GlyphLabelPart {
    pub in_indices: u32,
    pub start: usize,
    pub length: usize,
}

// These three are no `From`: their numbers have to fit 32 bits, and a `From` asks nothing of what it takes.
fn reading_answer(r: Result<Reading, Refusal>) -> GlyphLabelReading
    requires { ReadingFits (reading_outcome r) × Small32 (reading_rounded r) }
    ensures { result ≡ reading_answer (reading_outcome r) (reading_rounded r) }
{
    match r {
        Ok(r) => GlyphLabelReading {
            number: 0,
            place: 0,
            units: r.counts.units as u32,
            clusters: r.counts.clusters as u32,
            glyphs: r.counts.glyphs as u32,
            rounded: r.rounded as u32,
        },
        Err(x) => GlyphLabelReading {
            number: x.cause.number(),
            place: x.place as u32,
            units: 0,
            clusters: 0,
            glyphs: 0,
            rounded: 0,
        },
    }
}

fn writing_answer(r: Result<Lengths, Refusal>) -> GlyphLabelWriting
    requires { WritingFits (outcome_of r) }
    ensures { result ≡ writing_answer (outcome_of r) }
{
    match r {
        Ok(n) => GlyphLabelWriting {
            number: 0,
            place: 0,
            text: n.text as u32,
            indices: n.indices as u32,
        },
        Err(x) => GlyphLabelWriting {
            number: x.cause.number(),
            place: x.place as u32,
            text: 0,
            indices: 0,
        },
    }
}

fn stretch_answer(r: Result<Stretch, Refusal>) -> GlyphLabelStretch
    requires { StretchFits (outcome_of r) }
    ensures { result ≡ stretch_answer (outcome_of r) }
{
    match r {
        Ok(s) => GlyphLabelStretch {
            number: 0,
            place: 0,
            first: s.first as u32,
            end: s.end as u32,
        },
        Err(x) => GlyphLabelStretch {
            number: x.cause.number(),
            place: x.place as u32,
            first: 0,
            end: 0,
        },
    }
}

impl From<Result<usize, Refusal>> for GlyphLabelFilled {
    ghost from_gives = { λ r a. a ≡ filled_answer (outcome_of r) };

    fn from(r: Result<usize, Refusal>) -> GlyphLabelFilled {
        match r {
            Ok(n) => GlyphLabelFilled {
                number: 0,
                place: 0,
                filled: n,
            },
            Err(x) => GlyphLabelFilled {
                number: x.cause.number(),
                place: x.place,
                filled: 0,
            },
        }
    }
}

impl From<Part> for GlyphLabelPart {
    ghost from_gives = { λ x r. r ≡ part_answer x };

    fn from(x: Part) -> GlyphLabelPart {
        GlyphLabelPart {
            in_indices: match x.source {
                Source::Text => 0,
                Source::Indices => 1,
            },
            start: x.start,
            length: x.length,
        }
    }
}

// ── the calls ──

// A run is three arguments in C. Each call names them in a `Run` where it needs one: a function that did so would take the same three.

// The version of these calls, their structs and their answers.
#[unsafe(no_mangle)]
pub extern "C" fn glyph_label_version() -> u32
    ensures { result ≡ version }
{
    1
}

// Reads a label: its run as bytes into three lent buffers, where none of 1 to 18 holds.
#[unsafe(no_mangle)]
pub extern "C" fn glyph_label_read(
    text: &[u8],
    indices: &[u8],
    units: &mut [u8],
    clusters: &mut [u8],
    glyphs: &mut [u8],
) -> GlyphLabelReading
    ensures { ReadCall text.now indices.now units.old clusters.old glyphs.old result
        units.new clusters.new glyphs.new }
{
    reading_answer(reader::read(Label { text, indices }, units, clusters, glyphs))
}

// Writes a run handed in as bytes: its normal writing into two lent buffers, where none of 19 to 21 holds.
#[unsafe(no_mangle)]
pub extern "C" fn glyph_label_write(
    units: &[u8],
    clusters: &[u8],
    glyphs: &[u8],
    text: &mut [u8],
    indices: &mut [u8],
) -> GlyphLabelWriting
    ensures { WriteCall false (places units.now clusters.now glyphs.now) text.old indices.old result
        text.new indices.new }
{
    let run = Run {
        units,
        clusters,
        glyphs,
    };
    writing_answer(writer::write_as(false, run, text, indices))
}

// The same with `&`, `<`, `"`, tab, line feed and carriage return of the text as references, counted in 20.
#[unsafe(no_mangle)]
pub extern "C" fn glyph_label_write_escaped(
    units: &[u8],
    clusters: &[u8],
    glyphs: &[u8],
    text: &mut [u8],
    indices: &mut [u8],
) -> GlyphLabelWriting
    ensures { WriteCall true (places units.now clusters.now glyphs.now) text.old indices.old result
        text.new indices.new }
{
    let run = Run {
        units,
        clusters,
        glyphs,
    };
    writing_answer(writer::write_as(true, run, text, indices))
}

// The code units of all clusters touched by glyphs `first` up to and without `end`.
#[unsafe(no_mangle)]
pub extern "C" fn glyph_label_units_of(
    units: &[u8],
    clusters: &[u8],
    glyphs: &[u8],
    first: usize,
    end: usize,
) -> GlyphLabelStretch
    ensures { result ≡ stretch_answer (pick_units (places units.now clusters.now glyphs.now) first end) }
{
    let run = Run {
        units,
        clusters,
        glyphs,
    };
    stretch_answer(picks::units_of(run, Stretch { first, end }))
}

// The glyphs of all clusters touched by code units `first` up to and without `end`.
#[unsafe(no_mangle)]
pub extern "C" fn glyph_label_glyphs_of(
    units: &[u8],
    clusters: &[u8],
    glyphs: &[u8],
    first: usize,
    end: usize,
) -> GlyphLabelStretch
    ensures { result ≡ stretch_answer (pick_glyphs (places units.now clusters.now glyphs.now) first end) }
{
    let run = Run {
        units,
        clusters,
        glyphs,
    };
    stretch_answer(picks::glyphs_of(run, Stretch { first, end }))
}

// One raw attribute value resolved into `out`, where neither 23 nor 24 holds.
#[unsafe(no_mangle)]
pub extern "C" fn glyph_label_resolve(raw: &[u8], out: &mut [u8]) -> GlyphLabelFilled
    ensures { ResolveCall raw.now out.old result out.new }
{
    GlyphLabelFilled::from(attribute::resolve(raw, out))
}

// The answers to the labels of a sheet's file, as bytes, two numbers a label, where none of 25 to 27 holds.
#[unsafe(no_mangle)]
pub extern "C" fn glyph_label_sheet(file: &[u8], answers: &mut [u8]) -> GlyphLabelFilled
    ensures { SheetCall file.now answers.old result answers.new }
{
    GlyphLabelFilled::from(sheet::read_sheet(file, answers))
}

// The offending part of a refused label, as offsets into the text or the indices.
#[unsafe(no_mangle)]
pub extern "C" fn glyph_label_fault(
    text: &[u8],
    indices: &[u8],
    number: u32,
    place: usize,
) -> GlyphLabelPart
    ensures { result ≡ part_answer (fault_part text.now indices.now number place) }
{
    GlyphLabelPart::from(faults::find_part(Label { text, indices }, number, place))
}
