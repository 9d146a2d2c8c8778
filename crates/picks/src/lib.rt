// Picks: from a stretch of glyphs to the stretch of code units of all clusters touched, and from code units to glyphs.
#![tactic(auto)]

ghost use Rattle.std.specs.Prelude.{◌≡◌, ◌<◌, ◌≤◌, length};
ghost use Rattle.label.specs.Fetched.{words};
ghost use Rattle.label.specs.Sound.{clusters_of};
ghost use Rattle.label.specs.Pick.{turned, touched, pick_glyphs, pick_units};
ghost use Rattle.label.specs.Calls.{outcome_of};
ghost use Rattle.picks.specs.Ways.{along, turn, total, pick_along};
ghost use Rattle.sound.specs.Sounds.{unit_sum};
ghost use Rattle.wire.specs.Numbers.{as_cluster, as_places};

use label::{Cause, Refusal, Stretch};
use wire::{ClusterNumbers, Run};

// ── the clusters touched ──

// From glyphs to units, or from units to glyphs. Both are one walk, over the clusters or over them turned, with units for glyphs and glyphs for units.
#[derive(Clone, Copy)]
enum Way {
    ToUnits,
    ToGlyphs,
}

impl Way {
    fn turn(self, cluster: ClusterNumbers) -> ClusterNumbers
        ensures { as_cluster result ≡ turn self (as_cluster cluster) }
    {
        match self {
            Way::ToUnits => cluster,
            Way::ToGlyphs => ClusterNumbers {
                units: cluster.glyphs,
                glyphs: cluster.units,
            },
        }
    }

    // How many a run has of what is picked from.
    fn total(self, run: Run) -> usize
        ensures { result ≡ total self (as_places run.entry) }
    {
        match self {
            Way::ToUnits => run.glyph_count(),
            Way::ToGlyphs => run.unit_count(),
        }
    }
}

// The units of all clusters touched by the glyphs picked; turned, the glyphs of those touched by units.
// `passed` glyphs and `at` units stand before a cluster, and `start` is the first unit of the last cluster that begins no later than the first glyph picked.
#[tactic(auto, using(crate::proofs::Touches::walk))]
fn touched(run: Run, way: Way, picked: Stretch) -> Stretch
    requires stretch { (picked.first < picked.end) × (picked.end ≤ unit_sum (turned (along way (clusters_of (words run.clusters.now))))) }
    requires bounds { (picked.end < 4294967296) × (unit_sum (along way (clusters_of (words run.clusters.now))) < 4294967296) }
    ensures { result ≡ touched picked.first picked.end (along way (clusters_of (words run.entry.clusters.now))) }
{
    let mut passed = 0;
    let mut at = 0;
    let mut start = 0;
    for cluster in run.clusters() {
        let cluster = way.turn(cluster);
        if passed <= picked.first {
            start = at;
        }
        passed += cluster.glyph_count();
        at += cluster.unit_count();
        if picked.end <= passed {
            break;
        }
    }
    Stretch {
        first: start,
        end: at,
    }
}

// ── the calls ──
// A run and what is picked of it go side by side: a struct of both would be made in the two calls alone.

#[tactic(auto, using(crate::proofs::Picks::picking))]
fn pick(run: Run, way: Way, picked: Stretch) -> Result<Stretch, Refusal>
    ensures { outcome_of result ≡ pick_along way (as_places run.entry) picked.first picked.end }
{
    sound::check(run)?;
    if !(picked.first < picked.end && picked.end <= way.total(run)) {
        return Err(Cause::BadPick.at(0));
    }
    Ok(touched(run, way, picked))
}

// The code units of all clusters touched by the glyphs picked.
pub fn units_of(run: Run, picked: Stretch) -> Result<Stretch, Refusal>
    ensures { outcome_of result ≡ pick_units (as_places run.entry) picked.first picked.end }
{
    pick(run, Way::ToUnits, picked)
}

// The glyphs of all clusters touched by the code units picked.
pub fn glyphs_of(run: Run, picked: Stretch) -> Result<Stretch, Refusal>
    ensures { outcome_of result ≡ pick_glyphs (as_places run.entry) picked.first picked.end }
{
    pick(run, Way::ToGlyphs, picked)
}
