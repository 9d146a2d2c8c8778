// The first pass over a label's text and indices: it judges 1 to 15 and counts; nothing is stored.
#![tactic(auto)]

ghost use Rattle.std.specs.Prelude.{◌+◌, ◌≤◌, ◌≡◌, [], not, ◌&&◌, eqb, leb, length, IfOk};
ghost use Rattle.label.specs.Limits.{max_text_bytes, max_indices_bytes, max_units};
ghost use Rattle.label.specs.Outcome.{ok};
ghost use Rattle.label.specs.Run.{named, tail};
ghost use Rattle.label.specs.Checks.{read as read_label};
ghost use Rattle.label.specs.Steps.{walk, run_from};
ghost use Rattle.label.specs.Calls.{outcome_of, reading_outcome, reading_rounded, counted};
ghost use Rattle.label.specs.Requests.RoundedCount.{rounded as rounded_in, beside};
ghost use Rattle.text.specs.Moves.{units, Moves};
ghost use Rattle.survey.specs.Steps.{bare, state_at, advanced, Opens, Turns, TurnsIndex, counts_within, counted_from, Starts, reading_of};

mod walk;

use entry::{Entries, ReadEntry};
use label::{Cause, Counts, Cursor, Index, Label, Limits, Reading, Refusal};
use text::{MoveFault, Passage, TextUnits};
use walk::Walk;

// ── one entry ──

// The cursor behind an entry that opens a cluster or goes on with one: it takes `units` units and has `glyphs` in its map.
// Its two counts are no `label::Cluster` before they are judged. It takes a cursor and no `Walk`, as the definition
// `advanced` does; what a `Walk` knows of its cursor is required here.
#[tactic(auto, unfolding(crate::specs::Steps::advanced))]
pub fn advance(at: Cursor, units: usize, glyphs: usize) -> Cursor
    requires { (at.entry ≤ max_indices_bytes) × (at.unit + units ≤ max_units) × (at.clusters ≤ at.entry) }
    ensures value { result ≡ advanced at units glyphs }
    ensures bounds { (result.entry ≡ at.entry + 1) × (result.unit ≡ at.unit + units) × (result.clusters ≤ result.entry) }
{
    let next = Cursor {
        entry: at.entry + 1,
        unit: at.unit + units,
        ..at
    };
    if at.lack == 0 {
        Cursor {
            lack: glyphs.saturating_sub(1),
            opener: at.entry,
            clusters: at.clusters + 1,
            ..next
        }
    } else {
        Cursor {
            lack: at.lack - 1,
            ..next
        }
    }
}

// Whether both counts of an entry's map are at least 1.
fn has_counts(x: entry::Item) -> bool
    ensures { result ≡ (leb 1 x.units && leb 1 x.glyphs) }
{
    1 <= x.units && 1 <= x.glyphs
}

// Whether an entry names an index and has no map.
fn is_plain_index(x: entry::Item) -> bool
    ensures { result ≡ (not x.mapped && named x.glyph.index) }
{
    !x.mapped && matches!(x.glyph.index, Index::Named(_))
}

// What stands behind `units` units of a passage. Most clusters have one, of U+0020 to U+007F, which is looked for first for speed.
fn pass_units(ahead: Passage<'_>, units: usize) -> Result<Passage<'_>, MoveFault>
    ensures { Moves ahead.entry units result }
{
    if units == 1
        && let Some(behind) = ahead.past_plain()
    {
        return Ok(behind);
    }
    ahead.move_past(units)
}

impl<'a> Walk<'a> {
    // Before the first entry.
    fn new(run: TextUnits<'a>) -> Walk<'a>
        ensures at { result.at ≡ record { entry = 0; unit = 0; lack = 0; opener = 0; clusters = 0 } }
        ensures ahead { (result.ahead ≡ run.entry.passage) × (result.count ≡ run.entry.count) }
    {
        Walk {
            count: run.count,
            at: Limits::fresh_cursor(),
            ahead: run.passage,
        }
    }

    // Behind an entry that takes `taken` units, with these ahead, and has `glyphs` glyphs in its map.
    fn step(self, taken: usize, glyphs: usize, ahead: Passage<'a>) -> Walk<'a>
        requires entry { self.at.entry ≤ max_indices_bytes }
        requires taken { length (units self.ahead) ≡ taken + length (units ahead) }
        ensures { (result.at ≡ advanced self.entry.at taken glyphs) × (result.ahead ≡ ahead.entry) × (result.count ≡ self.entry.count) }
    {
        Walk {
            count: self.count,
            at: advance(self.at, taken, glyphs),
            ahead,
        }
    }

    // Whether an entry opens a cluster here: none is open, and the text has units.
    fn opens_here(self) -> bool
        ensures { result ≡ (eqb self.entry.at.lack 0 && not (bare self.entry)) }
    {
        self.at.lack == 0 && self.count != 0
    }

    // An entry that opens a cluster of `units` units: 12 and 13.
    fn open_cluster(self, units: usize, glyphs: usize) -> Result<Walk<'a>, Refusal>
        requires { self.at.entry ≤ max_indices_bytes }
        ensures { Opens self.entry units glyphs result }
    {
        match pass_units(self.ahead, units) {
            Ok(ahead) => Ok(self.step(units, glyphs, ahead)),
            Err(MoveFault::PastEnd) => Err(Cause::PastTextEnd.at(self.at.entry)),
            Err(MoveFault::InsidePair) => Err(Cause::SplitPair.at(self.at.unit + units)),
        }
    }

    // An entry's checks 10 to 13. Each entry before this one has its `;`, so there are no more of them than bytes of the indices, which is what is required.
    fn take_entry(self, x: entry::Item) -> Result<Walk<'a>, Refusal>
        requires { self.at.entry ≤ max_indices_bytes }
        ensures { Turns self.entry x result }
    {
        if !has_counts(x) {
            Err(Cause::ZeroCount.at(self.at.entry))
        } else if self.opens_here() {
            self.open_cluster(x.units, x.glyphs)
        } else if is_plain_index(x) {
            Ok(self.step(0, x.glyphs, self.ahead))
        } else {
            Err(Cause::MisplacedEntry.at(self.at.entry))
        }
    }

    // The same checks of an index alone, which pass but for 12 and 13. For speed: most entries are such.
    fn take_index(self) -> Result<Walk<'a>, Refusal>
        requires { self.at.entry ≤ max_indices_bytes }
        ensures { TurnsIndex self.entry result }
    {
        if self.opens_here() {
            self.open_cluster(1, 1)
        } else {
            Ok(self.step(0, 1, self.ahead))
        }
    }

    // The counts with the tail behind the entries: 15.
    fn count_tail(self) -> Result<Counts, Refusal>
        ensures { let w = self.entry in outcome_of result ≡ counted_from w.count w.at.clusters w.at.entry (ok (tail (units w.ahead))) }
    {
        let rest = self.ahead.count_tail();
        let counts = Counts {
            units: self.count,
            clusters: self.at.clusters + rest,
            glyphs: self.at.entry + rest,
        };
        limit(counts)
    }

    // The end of the entries: 14, and the tail.
    fn close(self) -> Result<Counts, Refusal>
        ensures { let w = self.entry in outcome_of result ≡ counted_from w.count w.at.clusters w.at.entry (walk (bare w) (state_at w) []) }
    {
        if self.at.lack != 0 {
            return Err(Cause::MissingGlyphs.at(self.at.opener));
        }
        self.count_tail()
    }
}

// ── the first pass ──

// The counts, or 15.
fn limit(counts: Counts) -> Result<Counts, Refusal>
    ensures { outcome_of result ≡ counts_within counts.units counts.clusters counts.glyphs }
{
    if Limits::GLYPHS < counts.glyphs {
        return Err(Cause::TooManyGlyphs.at(0));
    }
    Ok(counts)
}

// Whether a label has neither units nor indices.
fn has_nothing(count: usize, indices: &[u8]) -> bool
    ensures { result ≡ (eqb count 0 && eqb (length indices.now) 0) }
{
    count == 0 && indices.is_empty()
}

// The run of these units: 6 to 15 and the counts.
fn survey_run(run: TextUnits<'_>, indices: &[u8]) -> Result<Reading, Refusal>
    requires { length indices.now ≤ max_indices_bytes }
    ensures result_value { reading_outcome result ≡ counted (run_from (units run.entry.passage) indices.now) }
    ensures rounded { reading_rounded result ≡ beside (rounded_in indices.now) (reading_outcome result) }
{
    if has_nothing(run.count, indices) {
        return Err(Cause::NothingGiven.at(0));
    }
    let mut walk = Walk::new(run);
    let mut rounded = 0;
    for entry in Entries::new(indices) {
        let entry = entry?;
        match entry {
            ReadEntry::Index { .. } => walk = walk.take_index()?,
            ReadEntry::Full(x) => {
                walk = walk.take_entry(x)?;
                rounded += x.rounded;
            }
        }
    }
    Ok(Reading {
        counts: walk.close()?,
        rounded,
    })
}

// What 1 to 15 say of a label that none of them refuses, and the units of its run.
#[derive(Clone, Copy)]
pub struct Surveyed<'a> {
    pub reading: Reading,
    pub units: TextUnits<'a>,
}

// Whether a label is longer than its limits: 1.
fn is_oversized(label: Label<'_>) -> bool
    ensures { result ≡ not (leb (length label.entry.text.now) max_text_bytes && leb (length label.entry.indices.now) max_indices_bytes) }
{
    Limits::TEXT_BYTES < label.text.len() || Limits::INDICES_BYTES < label.indices.len()
}

// All of 1 to 15 in order, and the counts, of rounded fields too; nothing is stored.
pub fn survey(label: Label<'_>) -> Result<Surveyed<'_>, Refusal>
    ensures reading_value { let l = label.entry in reading_outcome (reading_of result) ≡ counted (read_label l.text.now l.indices.now) }
    ensures rounded { let l = label.entry in reading_rounded (reading_of result) ≡ beside (rounded_in l.indices.now) (read_label l.text.now l.indices.now) }
    ensures units { Starts label.entry.text.now result }
    ensures same_text { IfOk result (λ x. x.units.passage.text ≡ label.entry.text) }
{
    if is_oversized(label) {
        return Err(Cause::TooManyBytes.at(0));
    }
    let units = text::survey_text(label.text)?;
    let reading = survey_run(units, label.indices)?;
    Ok(Surveyed { reading, units })
}
