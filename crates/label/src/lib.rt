// The types that the definitions and the code share, and the limits of labels.
// The definitions are in specs/, their laws and the demands' proofs in proofs/.
#![tactic(auto)]

ghost use Rattle.std.specs.Prelude.{◌≡◌, Some};
ghost use Rattle.label.specs.Limits.{max_text_bytes, max_indices_bytes, max_units, max_glyphs, max_index, max_digits, max_exponent_digits, max_thousandths, max_line_bytes};
ghost use Rattle.label.specs.Cause.{cause_number, CauseOf, refusal_text};
ghost use Rattle.label.specs.Calls.{refusal};

use std::fmt;

// The limits, as constants of one type, which makes the cursor too: a form that document 01 names.
#[derive(Clone, Copy)]
pub struct Limits;

impl Limits {
    // Bytes of a text, `{}` included.
    pub const TEXT_BYTES: usize = 16_384;

    // Bytes of the indices.
    pub const INDICES_BYTES: usize = 262_144;

    // Code units of a run.
    pub const UNITS: usize = 4_096;

    // Glyphs of a run, the unwritten tail included.
    pub const GLYPHS: usize = 4_096;

    // The largest glyph index.
    pub const INDEX: u64 = 65_535;

    // Digits of a number before its exponent, and in it.
    pub const DIGITS: usize = 18;

    pub const EXPONENT_DIGITS: usize = 2;

    // The largest size of a value, in thousandths.
    pub const THOUSANDTHS: u64 = 1_000_000_000;

    // Bytes of the second line that `relabel` reads.
    pub const LINE_BYTES: usize = 32_768;

    // The cursor before the first entry and the first code unit.
    pub fn fresh_cursor() -> Cursor
        ensures { result ≡ record { entry = 0; unit = 0; lack = 0; opener = 0; clusters = 0 } }
    {
        Cursor {
            entry: 0,
            unit: 0,
            lack: 0,
            opener: 0,
            clusters: 0,
        }
    }

    // Ties each constant to the name that the definitions cite.
    pub fn values() -> LimitValues
        ensures { result ≡ record {
          text = max_text_bytes;
          indices = max_indices_bytes;
          units = max_units;
          glyphs = max_glyphs;
          index = max_index;
          digits = max_digits;
          exponent = max_exponent_digits;
          thousandths = max_thousandths;
          line = max_line_bytes;
        } }
    {
        LimitValues {
            text: Limits::TEXT_BYTES,
            indices: Limits::INDICES_BYTES,
            units: Limits::UNITS,
            glyphs: Limits::GLYPHS,
            index: Limits::INDEX,
            digits: Limits::DIGITS,
            exponent: Limits::EXPONENT_DIGITS,
            thousandths: Limits::THOUSANDTHS,
            line: Limits::LINE_BYTES,
        }
    }
}

#[derive(Clone, Copy)]
pub struct LimitValues {
    pub text: usize,
    pub indices: usize,
    pub units: usize,
    pub glyphs: usize,
    pub index: u64,
    pub digits: usize,
    pub exponent: usize,
    pub thousandths: u64,
    pub line: usize,
}

// Where the walk over the entries stands: the number of the next entry; the units used; the glyphs that the open cluster lacks and the entry that opened
// it; the clusters so far.
// What is lacked is a count, so 0 says by itself that no cluster is open; the entry that opened one is looked at only where it lacks glyphs.
// It holds numbers and no slices: `Limits::fresh_cursor` makes it before there is a label, a form that document 01 names.
#[derive(Clone, Copy)]
pub struct Cursor {
    pub entry: usize,
    pub unit: usize,
    pub lack: usize,
    pub opener: usize,
    pub clusters: usize,
}

// A glyph index: named by the label, or chosen by the font. Document 01 names this enum's form, and that of the next.
#[derive(Clone, Copy)]
pub enum Index {
    Named(u16),
    Font,
}

// An advance: given by the label, in thousandths, or the font's own.
#[derive(Clone, Copy)]
pub enum Advance {
    Given(u32),
    Own,
}

// A glyph record; the offsets are in thousandths.
#[derive(Clone, Copy)]
pub struct Glyph {
    pub index: Index,
    pub advance: Advance,
    pub u: i32,
    pub v: i32,
}

#[derive(Clone, Copy)]
pub struct Cluster {
    pub units: u32,
    pub glyphs: u32,
}

// Why a label, a run or a file is refused: the causes of both documents' tables in the order of their numbers, in the documents' words.
// Callers may compare them.
#[derive(Clone, Copy, PartialEq, Eq)]
pub enum Cause {
    // text above 16,384 bytes or indices above 262,144
    TooManyBytes = 1,
    // ill-formed UTF-8
    IllFormedText,
    // character outside XML Char
    BarredCharacter,
    // `{` first, no `}` after
    LoneBrace,
    // above 4,096 units
    TooManyUnits,
    // no units and no indices bytes
    NothingGiven,
    // entry not well formed
    IllFormedEntry,
    // index above 65,535
    IndexTooLarge,
    // above 18 digits before the exponent, above 2 in it, or size above 1,000,000,000 thousandths
    NumberTooLarge,
    // a or b is 0
    ZeroCount,
    // map or missing index where barred above
    MisplacedEntry,
    // cluster passes the end of a text that has units
    PastTextEnd,
    // cluster ends inside a pair
    SplitPair,
    // open cluster lacks glyphs
    MissingGlyphs,
    // above 4,096 glyphs, tail included
    TooManyGlyphs,
    // unit buffer too short
    UnitRoom,
    // cluster buffer too short
    ClusterRoom,
    // glyph buffer too short
    GlyphRoom,
    // run handed in is not sound
    UnsoundRun,
    // text output too short
    TextRoom,
    // indices output too short
    IndicesRoom,
    // pick empty, reversed or past the end
    BadPick,
    // bad reference or raw `<`
    BadReference,
    // lent buffer too short
    ResolvedRoom,
    // mark or version wrong or cut off
    BadSheetMark,
    // file ends inside a record
    CutSheet,
    // answer list too short
    AnswerRoom,
}

impl Cause {
    // Its number in the tables.
    pub fn number(self) -> u32
        ensures { result ≡ cause_number self }
    {
        self as u32
    }

    // The refusal with this cause at this place. Each call tests for room by an `if` of its own: a function for it would take the cause, what is lent and what
    // is needed, and say no less.
    pub fn at(self, place: usize) -> Refusal
        ensures { result ≡ refusal self place }
    {
        Refusal { cause: self, place }
    }
}

// A number that no cause has.
#[derive(Clone, Copy)]
pub struct UnknownCause(pub u32);

impl TryFrom<u32> for Cause {
    type Error = UnknownCause;

    ghost try_from_gives = { CauseOf };

    // For callers that have a refusal's number: nothing here calls this. std derives no way back from a number, so the numbers stand once more.
    fn try_from(number: u32) -> Result<Cause, UnknownCause> {
        match number {
            1 => Ok(Cause::TooManyBytes),
            2 => Ok(Cause::IllFormedText),
            3 => Ok(Cause::BarredCharacter),
            4 => Ok(Cause::LoneBrace),
            5 => Ok(Cause::TooManyUnits),
            6 => Ok(Cause::NothingGiven),
            7 => Ok(Cause::IllFormedEntry),
            8 => Ok(Cause::IndexTooLarge),
            9 => Ok(Cause::NumberTooLarge),
            10 => Ok(Cause::ZeroCount),
            11 => Ok(Cause::MisplacedEntry),
            12 => Ok(Cause::PastTextEnd),
            13 => Ok(Cause::SplitPair),
            14 => Ok(Cause::MissingGlyphs),
            15 => Ok(Cause::TooManyGlyphs),
            16 => Ok(Cause::UnitRoom),
            17 => Ok(Cause::ClusterRoom),
            18 => Ok(Cause::GlyphRoom),
            19 => Ok(Cause::UnsoundRun),
            20 => Ok(Cause::TextRoom),
            21 => Ok(Cause::IndicesRoom),
            22 => Ok(Cause::BadPick),
            23 => Ok(Cause::BadReference),
            24 => Ok(Cause::ResolvedRoom),
            25 => Ok(Cause::BadSheetMark),
            26 => Ok(Cause::CutSheet),
            27 => Ok(Cause::AnswerRoom),
            _ => Err(UnknownCause(number)),
        }
    }
}

// A refusal: its cause, and the place that the table of causes names for it, 0 where it names none.
#[derive(Clone, Copy)]
pub struct Refusal {
    pub cause: Cause,
    pub place: usize,
}

impl fmt::Display for Refusal {
    ghost output = { λ x. Some (refusal_text x) };

    fn fmt<W: fmt::Write>(&self, f: &mut fmt::Formatter<W>) -> fmt::Result {
        // `write!` takes a reference, behind which a number is not known to fit its type: it is read here.
        let place = self.place;
        write!(f, "{} {place}", self.cause.number())
    }
}

// How many units, clusters and glyphs a run has.
#[derive(Clone, Copy)]
pub struct Counts {
    pub units: usize,
    pub clusters: usize,
    pub glyphs: usize,
}

// A label: its text and its indices, where they stand.
#[derive(Clone, Copy)]
pub struct Label<'a> {
    pub text: &'a [u8],
    pub indices: &'a [u8],
}

// What the reader says of a label that it accepts: its run's counts, and beside them how many given fields were not whole thousandths.
#[derive(Clone, Copy)]
pub struct Reading {
    pub counts: Counts,
    pub rounded: usize,
}

// How many bytes the writer wrote.
#[derive(Clone, Copy)]
pub struct Lengths {
    pub text: usize,
    pub indices: usize,
}

// A stretch of code units or of glyphs, from `first` up to and without `end`: two numbers, as C's form of it has them; std's `Range` is no `Copy`.
#[derive(Clone, Copy)]
pub struct Stretch {
    pub first: usize,
    pub end: usize,
}

// The text of a label, or its indices.
#[derive(Clone, Copy)]
pub enum Source {
    Text,
    Indices,
}

// A part of the text or of the indices of a label, by two numbers, as C's form of it has them; `faults::fault` makes a slice of it.
#[derive(Clone, Copy)]
pub struct Part {
    pub source: Source,
    pub start: usize,
    pub length: usize,
}
