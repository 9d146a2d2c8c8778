// The writer: a sound run's normal writing, text and indices, escaped where that is asked for. The run is read where it stands, in its bytes.
#![tactic(auto)]

ghost use Rattle.std.specs.Prelude.{◌≡◌, true, ◌+◌, ◌<◌, ◌≤◌, length, replicate};
ghost use Rattle.label.specs.Fetched.{words};
ghost use Rattle.label.specs.Sound.{clusters_of, glyphs_of, sound};
ghost use Rattle.label.specs.Write.{indices_of};
ghost use Rattle.label.specs.Calls.{outcome_of, lengths, text_after, indices_after, write_asked, outputs};
ghost use Rattle.octets.specs.Outputs.{Gains};
ghost use Rattle.wire.specs.Numbers.{as_places};
ghost use Rattle.writer.specs.Entries.{cluster_of, bytes_of, led, owing};

use label::{Cause, Cluster, Lengths, Refusal};
use octets::Output;
use wire::{EntryNumbers, Run};

// ── the indices ──

fn put_semis(out: &mut Output, n: usize)
    ensures { Gains out.old (replicate n 59) out.new }
{
    for _ in 0..n {
        out.put_byte(b';');
    }
}

// The cluster that an entry is written with: the one that its glyph opens; that of a further glyph is written as 1:1.
fn cluster_of(entry: EntryNumbers) -> Cluster
    ensures { result ≡ cluster_of entry }
{
    match entry.cluster {
        Some(cluster) => Cluster::from(cluster),
        None => Cluster {
            units: 1,
            glyphs: 1,
        },
    }
}

// An entry, behind the separators owed before it; nothing for a glyph wholly the font's, whose entry has no bytes. What is owed before the next entry: one
// separator, and those before an entry that was not stored.
fn put_next(out: &mut Output, owed: usize, entry: EntryNumbers) -> usize
    requires { owed < 18446744073709551615 }
    ensures bytes { Gains out.old (led owed (bytes_of entry)) out.new }
    ensures owed { result ≡ owing owed (bytes_of entry) }
    ensures bounds { result ≤ owed + 1 }
{
    if entry.glyph.is_font() {
        return owed + 1;
    }
    put_semis(out, owed);
    entry_bytes::put_entry(out, cluster_of(entry), entry.glyph);
    1
}

// The indices of a run. Entries without bytes at the end are never stored, as the separators before an entry are stored with it.
fn put_indices(out: &mut Output, run: Run)
    ensures { Gains out.old (indices_of (clusters_of (words run.entry.clusters.now)) (glyphs_of (words run.entry.glyphs.now))) out.new }
{
    let mut owed = 0;
    for entry in run.entries() {
        owed = put_next(out, owed, entry);
    }
}

// How many bytes the indices of a run have.
fn indices_length(run: Run) -> usize
    requires { sound (as_places run) ≡ true }
    ensures { result ≡ length (indices_of (clusters_of (words run.entry.clusters.now)) (glyphs_of (words run.entry.glyphs.now))) }
{
    let mut counted = Output::counting();
    put_indices(&mut counted, run);
    counted.at
}

// ── the call ──

// The writing of a run as it is asked for, where the run is sound and both outputs have room. Indices have no byte to escape. The outputs are two parameters,
// as each has a clause of its own that says what it holds afterwards, and C lends two.
#[tactic(auto, using(label::proofs::Steps::write_steps))]
pub fn write_as(
    escape: bool,
    run: Run,
    text: &mut [u8],
    indices: &mut [u8],
) -> Result<Lengths, Refusal>
    ensures result { outcome_of result ≡ lengths (write_asked escape (outputs text.old indices.old) (as_places run.entry)) }
    ensures text { text.new ≡ text_after (write_asked escape (outputs text.old indices.old) (as_places run.entry)) text.old }
    ensures indices { indices.new ≡ indices_after (write_asked escape (outputs text.old indices.old) (as_places run.entry)) indices.old }
{
    sound::check(run)?;
    let text_bytes = text_bytes::text_length(escape, run.units);
    if text.len() < text_bytes {
        return Err(Cause::TextRoom.at(text_bytes));
    }
    let indices_bytes = indices_length(run);
    if indices.len() < indices_bytes {
        return Err(Cause::IndicesRoom.at(indices_bytes));
    }
    text_bytes::put_text(escape, &mut Output::on(text), run.units);
    put_indices(&mut Output::on(indices), run);
    Ok(Lengths {
        text: text_bytes,
        indices: indices_bytes,
    })
}
