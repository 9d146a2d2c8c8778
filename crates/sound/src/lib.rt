// Whether the bytes of three buffers are a sound run: one that some accepted label reads as.
#![tactic(auto)]

ghost use Rattle.std.specs.Prelude.{◌≡◌, ◌+◌, ◌*◌, ◌<◌, ◌≤◌, length, IsTrue, Some};
ghost use Rattle.label.specs.Fetched.{halves, words};
ghost use Rattle.label.specs.Limits.{max_units, max_glyphs};
ghost use Rattle.label.specs.Outcome.{need};
ghost use Rattle.label.specs.Sound.{nat, glyphs_of, sound};
ghost use Rattle.label.specs.Calls.{outcome_of};
ghost use Rattle.rules.specs.Rules.{whole_run};
ghost use Rattle.sound.specs.Sounds.{may_stand, opened, walked, well_run};
ghost use Rattle.wire.specs.Numbers.{as_places};

use label::{Cause, Refusal};
use wire::{ClusterNumbers, EntryNumbers, GlyphNumbers, Run};

// ── the run ──

// What a walk over a run has used up: units, clusters and glyphs, those included that the open cluster still lacks; and whether all glyphs from here on have to
// be wholly the font's.
#[derive(Clone, Copy)]
struct Walk {
    units: usize,
    clusters: usize,
    glyphs: usize,
    tail: bool,
}

impl Walk {
    // The walk behind a cluster that opens, with its first glyph.
    fn behind(self, cluster: ClusterNumbers, glyph: GlyphNumbers) -> Walk
        requires units { self.units + nat cluster.units ≤ max_units }
        requires glyphs { (self.clusters < max_glyphs) × (self.glyphs ≤ self.clusters * 0x8000_0000) }
        ensures value { result ≡ opened self glyph (Some cluster) }
        ensures bounds { result.glyphs ≤ result.clusters * 0x8000_0000 }
    {
        Walk {
            units: self.units + cluster.unit_count(),
            clusters: self.clusters + 1,
            glyphs: self.glyphs + cluster.glyph_count(),
            tail: self.tail || rules::owes_tail(cluster, glyph),
        }
    }
}

// Whether an entry's glyph may stand where the walk stands, and its cluster where it opens one.
#[tactic(auto, using(crate::proofs::Walks::steps), unfolding(crate::specs::Sounds::may_stand))]
fn may_stand(run: Run, walk: Walk, entry: EntryNumbers) -> bool
    requires { walk.units ≤ length (halves run.units.now) }
    ensures { result ≡ may_stand (halves run.entry.units.now) walk entry }
{
    let EntryNumbers { cluster, glyph } = entry;
    if !rules::glyph_ok(glyph) || walk.tail && !glyph.is_font() {
        return false;
    }
    match cluster {
        Some(cluster) => rules::opens_at(run, walk.units, cluster, glyph),
        None => glyph.is_named(),
    }
}

// One walk over the glyphs and the clusters: the numbers are in range, and the clusters use up the units and the glyphs.
#[tactic(auto, using(crate::proofs::Walks::whole), unfolding(crate::specs::Sounds::walked))]
fn well_run(run: Run) -> bool
    requires whole { IsTrue (whole_run (length run.units.now) (length run.clusters.now) (length run.glyphs.now)) }
    requires units { length (halves run.units.now) ≤ max_units }
    requires glyphs { length (glyphs_of (words run.glyphs.now)) ≤ max_glyphs }
    ensures { result ≡ well_run (halves run.entry.units.now) (words run.entry.clusters.now) (words run.entry.glyphs.now) }
{
    let mut walk = Walk {
        units: 0,
        clusters: 0,
        glyphs: 0,
        tail: false,
    };
    for entry in run.entries() {
        if !may_stand(run, walk, entry) {
            return false;
        }
        if let Some(cluster) = entry.cluster {
            walk = walk.behind(cluster, entry.glyph);
        }
    }
    walk.units == run.unit_count()
        && walk.clusters == run.cluster_count()
        && walk.glyphs == run.glyph_count()
}

// Whether some accepted label reads as these bytes.
#[tactic(auto, using(crate::proofs::Sounds::sound_is))]
pub fn is_sound(run: Run) -> bool
    ensures { result ≡ sound (as_places run.entry) }
{
    rules::is_whole(run)
        && rules::is_limited(run.unit_count(), run.glyph_count())
        && units::proper_units(run.units)
        && well_run(run)
}

// Refuses a run that is not sound: 19.
pub fn check(run: Run) -> Result<(), Refusal>
    ensures { outcome_of result ≡ need (sound (as_places run.entry)) 19 0 }
{
    if !is_sound(run) {
        return Err(Cause::UnsoundRun.at(0));
    }
    Ok(())
}
