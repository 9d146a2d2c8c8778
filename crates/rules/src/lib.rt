// The rules of a sound run, each by itself: how many, a glyph, a cluster over its units. The walk over a whole run is the crate `sound`.
#![tactic(auto)]

ghost use Rattle.std.specs.Prelude.{◌≡◌, [], ◌∷◌, ◌/◌, ◌≤◌, ◌&&◌, leb, length};
ghost use Rattle.label.specs.Fetched.{halves};
ghost use Rattle.label.specs.Limits.{max_thousandths};
ghost use Rattle.label.specs.Run.{keeps_pair};
ghost use Rattle.label.specs.Sound.{choice, nat, size, glyph_fits, tail_pair};
ghost use Rattle.wire.specs.Numbers.{as_cluster, as_glyph};
ghost use Rattle.rules.specs.Rules.{whole_bytes, whole_run, limited, glyph_ok, opens_at, owes};

use label::Limits;
use wire::{ClusterNumbers, GlyphNumbers, Run};

// ── how many ──

// Whether so many bytes are whole numbers, 2 bytes a unit and 4 each number of a cluster or a glyph: by `%`, as the definition has it, and not by
// `is_multiple_of`.
pub fn whole_bytes(units: usize, clusters: usize, glyphs: usize) -> bool
    ensures { result ≡ whole_bytes units clusters glyphs }
{
    units % 2 == 0 && clusters % 4 == 0 && glyphs % 4 == 0
}

// Whether the bytes of a run are whole numbers, and these whole clusters, of two, and glyphs, of four.
pub fn is_whole(run: Run) -> bool
    ensures { result ≡ whole_run (length run.entry.units.now) (length run.entry.clusters.now) (length run.entry.glyphs.now) }
{
    let clusters = run.clusters.len();
    let glyphs = run.glyphs.len();
    whole_bytes(run.units.len(), clusters, glyphs) && clusters % 8 == 0 && glyphs % 16 == 0
}

// Whether a run of so many units and glyphs is within the limits and not empty.
pub fn is_limited(units: usize, glyphs: usize) -> bool
    ensures { result ≡ limited units glyphs }
{
    units <= Limits::UNITS && glyphs <= Limits::GLYPHS && !(units == 0 && glyphs == 0)
}

// ── a glyph ──

// The limits as `i32`, which a run's numbers are: by a cast, as `try_from` is no form for a constant.
const INDEX: i32 = Limits::INDEX as i32;

const THOUSANDTHS: i32 = Limits::THOUSANDTHS as i32;

// Whether index and advance are not below 0, or -1, which leaves them to the font.
fn has_choices(glyph: GlyphNumbers) -> bool
    ensures { result ≡ (choice glyph.index && choice glyph.advance) }
{
    -1 <= glyph.index && -1 <= glyph.advance
}

fn has_offsets(glyph: GlyphNumbers) -> bool
    ensures { result ≡ (leb (size glyph.u) max_thousandths && leb (size glyph.v) max_thousandths) }
{
    let limit = THOUSANDTHS.unsigned_abs();
    glyph.u.unsigned_abs() <= limit && glyph.v.unsigned_abs() <= limit
}

fn keeps_limits(glyph: GlyphNumbers) -> bool
    ensures { result ≡ glyph_fits (as_glyph glyph) }
{
    glyph.index <= INDEX && glyph.advance <= THOUSANDTHS && has_offsets(glyph)
}

// Whether index and advance are not below -1, and all four numbers keep the limits.
pub fn glyph_ok(glyph: GlyphNumbers) -> bool
    ensures { result ≡ glyph_ok glyph }
{
    has_choices(glyph) && keeps_limits(glyph)
}

// ── a cluster with its first glyph ──
// The two go side by side: `wire::EntryNumbers` has a cluster only where the glyph opens one, and here it does.

// Whether all glyphs behind the first have to be wholly the font's: the cluster is not 1:1 and its glyph names no index, so it is a pair of the tail.
pub fn owes_tail(cluster: ClusterNumbers, glyph: GlyphNumbers) -> bool
    ensures { result ≡ owes (as_cluster cluster) (as_glyph glyph) }
{
    !(glyph.is_named() || cluster.units == 1 && cluster.glyphs == 1)
}

// Of the units from a cluster on: whether it takes some of them, for some glyphs, and the one behind those is not the low half of a pair.
fn stands(cluster: ClusterNumbers, units: &[u8]) -> bool
    ensures { let us = halves units.now in
        let n = nat cluster.units in
        result ≡ (leb 1 n && leb 1 (nat cluster.glyphs) && leb n (length us) && keeps_pair n us) }
{
    let n = cluster.unit_count();
    1 <= n
        && 1 <= cluster.glyphs
        && n <= wire::unit_count(units)
        && !units::is_low(wire::unit_at(units, n))
}

// Whether it is a pair of the tail: the first two of them, and one glyph that is wholly the font's.
#[tactic(auto, unfolding(label::specs::Sound::all_font))]
fn is_tail_pair(cluster: ClusterNumbers, glyph: GlyphNumbers, units: &[u8]) -> bool
    ensures { result ≡ tail_pair (halves units.now) (as_cluster cluster) (as_glyph glyph ∷ []) }
{
    cluster.units == 2 && cluster.glyphs == 1 && units::begins_with_pair(units) && glyph.is_font()
}

// Whether the cluster may stand from unit `at` on, as far as its first glyph tells. In a run without units a cluster has none.
// The run goes whole, with a place in it: what it asks first is whether the run has units, and only then which are left from there on.
#[tactic(auto, using(crate::proofs::Units::from_a_unit), unfolding(crate::specs::Rules::opens_at))]
pub fn opens_at(run: Run, at: usize, cluster: ClusterNumbers, glyph: GlyphNumbers) -> bool
    requires { at ≤ length run.units.now / 2 }
    ensures { result ≡ opens_at (halves run.entry.units.now) at cluster glyph }
{
    if run.unit_count() == 0 {
        return cluster.units == 0 && cluster.glyphs == 1 && glyph.is_named();
    }
    let left = &run.units[2 * at..];
    stands(cluster, left) && (!owes_tail(cluster, glyph) || is_tail_pair(cluster, glyph, left))
}
