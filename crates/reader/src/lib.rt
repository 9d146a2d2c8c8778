// The reading of a label into lent buffers: the crate `survey` judges 1 to 15 and counts, and a second pass here fills the buffers.
// Nothing is stored before 18 has been judged.
#![tactic(auto)]

ghost use Rattle.std.specs.Prelude.{◌+◌, ◌*◌, ◌/◌, ◌≤◌, ◌<◌, ◌≡◌, length, drop};
ghost use Rattle.std.proofs.lemmas.List.Edits.{sets};
ghost use Rattle.label.specs.Limits.{max_units};
ghost use Rattle.label.specs.Run.{cluster, tail};
ghost use Rattle.label.specs.Steps.{run_from};
ghost use Rattle.label.specs.Fetched.{halves};
ghost use Rattle.label.specs.Calls.{reading_outcome, reading_rounded, room_of, read_into, counted, units_after, clusters_after, glyphs_after};
ghost use Rattle.label.specs.Requests.RoundedCount.{rounded as rounded_in, beside};
ghost use Rattle.wire.specs.Stores.{glyph_places};
ghost use Rattle.entry.specs.Results.{item_said};
ghost use Rattle.text.specs.Moves.{units as units_of};
ghost use Rattle.reader.specs.Stores.{cluster_places, cluster_bytes, glyph_bytes, opened, added, behind, cluster_opened, Storable, Fillable};

use entry::{Entries, Item, ReadEntry};
use label::{Advance, Cause, Glyph, Index, Label, Reading, Refusal};
use text::TextUnits;
use wire::{ClusterNumbers, GlyphNumbers};

// How much of a run is stored: its clusters, its glyphs and the units of its clusters; and how many glyphs the last cluster still lacks, a count,
// so 0 says by itself that none is open. No `label::Cursor`: the tail goes on with it, behind the entries, and only a refusal asks for an opener.
#[derive(Clone, Copy)]
struct Stored {
    clusters: usize,
    glyphs: usize,
    units: usize,
    lack: usize,
}

// A glyph that is wholly the font's.
const FONT: Glyph = Glyph {
    index: Index::Font,
    advance: Advance::Own,
    u: 0,
    v: 0,
};

// Stores a cluster of `units` units and `count` glyphs, and its first glyph.
// The buffers go side by side with what is stored, here and below: C lends them one by one, `add_glyph` stores in one of them, and the definitions say of each
// by itself what it holds afterwards.
fn open_cluster(
    at: Stored,
    units: usize,
    count: usize,
    glyph: Glyph,
    clusters: &mut [u8],
    glyphs: &mut [u8],
) -> Stored
    requires counts { (units < 2147483648) × (count < 2147483648) × (at.units + units ≤ max_units) }
    requires room { (at.clusters < length clusters.old / 8) × (at.glyphs < length glyphs.old / 16) }
    ensures value { result ≡ opened at units count }
    ensures clusters { clusters.new ≡ sets clusters.old (8 * at.clusters) (cluster_places (cluster units count)) }
    ensures glyphs { glyphs.new ≡ sets glyphs.old (16 * at.glyphs) (glyph_places glyph) }
{
    let cluster = ClusterNumbers {
        units: units as i32,
        glyphs: count as i32,
    };
    cluster.put_at(clusters, at.clusters);
    GlyphNumbers::from(glyph).put_at(glyphs, at.glyphs);
    Stored {
        clusters: at.clusters + 1,
        glyphs: at.glyphs + 1,
        units: at.units + units,
        lack: count.saturating_sub(1),
    }
}

// Stores a further glyph of the last cluster.
fn add_glyph(at: Stored, glyph: Glyph, glyphs: &mut [u8]) -> Stored
    requires { (0 < at.lack) × (at.glyphs < length glyphs.old / 16) }
    ensures value { result ≡ added at }
    ensures glyphs { glyphs.new ≡ sets glyphs.old (16 * at.glyphs) (glyph_places glyph) }
{
    GlyphNumbers::from(glyph).put_at(glyphs, at.glyphs);
    Stored {
        glyphs: at.glyphs + 1,
        lack: at.lack - 1,
        ..at
    }
}

// Stores what entry x says in a text of `count` units: the cluster that it opens, if none is open, and its glyph.
#[inline(always)]
fn put_entry(count: usize, at: Stored, x: Item, clusters: &mut [u8], glyphs: &mut [u8]) -> Stored
    requires { Storable count at x (length clusters.old) (length glyphs.old) }
    ensures value { result ≡ behind count at x }
    ensures clusters { clusters.new ≡ sets clusters.old (8 * at.clusters) (cluster_opened count at x) }
    ensures glyphs { glyphs.new ≡ sets glyphs.old (16 * at.glyphs) (glyph_places x.glyph) }
{
    if at.lack != 0 {
        return add_glyph(at, x.glyph, glyphs);
    }
    // In a text of no units a cluster has none.
    let units = if count == 0 { 0 } else { x.units };
    open_cluster(at, units, x.glyphs, x.glyph, clusters, glyphs)
}

// The same of an entry that was read. The two kinds go apart for speed: of an index alone all but the index is known here.
#[inline(always)]
fn put_read(
    count: usize,
    at: Stored,
    entry: ReadEntry,
    clusters: &mut [u8],
    glyphs: &mut [u8],
) -> Stored
    requires { Storable count at (item_said entry) (length clusters.old) (length glyphs.old) }
    ensures value { result ≡ behind count at (item_said entry) }
    ensures clusters { clusters.new ≡ sets clusters.old (8 * at.clusters) (cluster_opened count at (item_said entry)) }
    ensures glyphs { glyphs.new ≡ sets glyphs.old (16 * at.glyphs) (glyph_places (item_said entry).glyph) }
{
    match entry {
        ReadEntry::Index { .. } => put_entry(count, at, entry.item(), clusters, glyphs),
        ReadEntry::Full(x) => put_entry(count, at, x, clusters, glyphs),
    }
}

// Stores the tail: the units of the run that no cluster has yet, each with a glyph of the font's.
fn fill_tail(units: &[u8], at: Stored, clusters: &mut [u8], glyphs: &mut [u8])
    requires units { (at.units ≤ length (halves units.now)) × (length (halves units.now) ≤ max_units) }
    requires room { let t = tail (drop at.units (halves units.now)) in
        (8 * (at.clusters + length t.clusters) ≤ length clusters.old) × (16 * (at.glyphs + length t.glyphs) ≤ length glyphs.old) }
    ensures clusters_after { clusters.new ≡ sets clusters.old (8 * at.clusters) (cluster_bytes (tail (drop at.units (halves units.now))).clusters) }
    ensures glyphs_after { glyphs.new ≡ sets glyphs.old (16 * at.glyphs) (glyph_bytes (tail (drop at.units (halves units.now))).glyphs) }
{
    let count = wire::unit_count(units);
    let mut at = at;
    // A cluster of the tail has one unit or two, so the next begins where what is stored ends; `char::decode_utf16` would decode only for lengths.
    while at.units < count {
        let left = &units[2 * at.units..];
        let taken = if units::begins_with_pair(left) { 2 } else { 1 };
        at = open_cluster(at, taken, 1, FONT, clusters, glyphs);
    }
}

// Stores the run of these units and indices, which are accepted.
fn fill(text: TextUnits, indices: &[u8], units: &mut [u8], clusters: &mut [u8], glyphs: &mut [u8])
    requires { Fillable (units_of text.passage) indices.now (length units.old) (length clusters.old) (length glyphs.old) }
    ensures units { units.new ≡ units_after (run_from (units_of text.entry.passage) indices.now) units.old }
    ensures clusters { clusters.new ≡ clusters_after (run_from (units_of text.entry.passage) indices.now) clusters.old }
    ensures glyphs { glyphs.new ≡ glyphs_after (run_from (units_of text.entry.passage) indices.now) glyphs.old }
{
    text.passage.fill_units(units);
    let mut at = Stored {
        clusters: 0,
        glyphs: 0,
        units: 0,
        lack: 0,
    };
    for entry in Entries::new(indices) {
        match entry {
            Ok(entry) => at = put_read(text.count, at, entry, clusters, glyphs),
            // An accepted label has no such entry.
            Err(_) => unreachable!(),
        }
    }
    // The lent buffer may be longer than the run.
    fill_tail(&units[..2 * text.count], at, clusters, glyphs);
}

// The reading of a label: 1 to 18 in order, or its run is stored.
pub fn read(
    label: Label,
    units: &mut [u8],
    clusters: &mut [u8],
    glyphs: &mut [u8],
) -> Result<Reading, Refusal>
    ensures result { let room = room_of units.old clusters.old glyphs.old in
        reading_outcome result ≡ counted (read_into room label.entry.text.now label.entry.indices.now) }
    ensures rounded { let room = room_of units.old clusters.old glyphs.old in
        reading_rounded result ≡ beside (rounded_in label.entry.indices.now) (read_into room label.entry.text.now label.entry.indices.now) }
    ensures units { let room = room_of units.old clusters.old glyphs.old in
        units.new ≡ units_after (read_into room label.entry.text.now label.entry.indices.now) units.old }
    ensures clusters { let room = room_of units.old clusters.old glyphs.old in
        clusters.new ≡ clusters_after (read_into room label.entry.text.now label.entry.indices.now) clusters.old }
    ensures glyphs { let room = room_of units.old clusters.old glyphs.old in
        glyphs.new ≡ glyphs_after (read_into room label.entry.text.now label.entry.indices.now) glyphs.old }
{
    let found = survey::survey(label)?;
    // Each of the three tests asks for one of the counts.
    let counts = found.reading.counts;
    if units.len() / 2 < counts.units {
        return Err(Cause::UnitRoom.at(counts.units));
    }
    if clusters.len() / 8 < counts.clusters {
        return Err(Cause::ClusterRoom.at(counts.clusters));
    }
    if glyphs.len() / 16 < counts.glyphs {
        return Err(Cause::GlyphRoom.at(counts.glyphs));
    }
    fill(found.units, label.indices, units, clusters, glyphs);
    Ok(found.reading)
}
