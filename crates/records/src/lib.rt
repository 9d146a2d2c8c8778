// The glyphs of a sound run as a list of glyph records.
#![tactic(auto)]

ghost use Rattle.std.specs.Prelude.{◌≡◌, ◌≤◌, length, map, IsTrue};
ghost use Rattle.label.specs.Calls.{outcome_of, filled, filled_count, filled_after, list_into};
ghost use Rattle.label.specs.Sound.{glyph_fits};
ghost use Rattle.records.specs.Records.{all_fit};
ghost use Rattle.wire.specs.Numbers.{as_glyph, as_places};
ghost use Rattle.wire.specs.Walks.{glyphs_left};

use label::{Advance, Cause, Glyph, Index, Refusal};
use wire::{GlyphNumbers, Glyphs, Run};

// The record of a glyph's numbers: a negative index or advance leaves it to the font.
fn record_of(numbers: GlyphNumbers) -> Glyph
    requires { IsTrue (glyph_fits (as_glyph numbers)) }
    ensures { result ≡ as_glyph numbers }
{
    Glyph {
        index: u16::try_from(numbers.index).map_or(Index::Font, Index::Named),
        advance: u32::try_from(numbers.advance).map_or(Advance::Own, Advance::Given),
        u: numbers.u,
        v: numbers.v,
    }
}

// Stores the records of the glyphs at the start of `out`.
// A `zip` with `out.iter_mut()` tells nothing of `out` afterwards, so each glyph is taken inside the loop.
#[tactic(auto, using(crate::proofs::Filled::fills), unfolding(crate::specs::Records::all_fit))]
fn fill(out: &mut [Glyph], glyphs: Glyphs)
    requires room { length (glyphs_left glyphs) ≤ length out.old }
    requires fit { IsTrue (all_fit (glyphs_left glyphs)) }
    ensures { out.new ≡ filled (map as_glyph (glyphs_left glyphs.entry)) out.old }
{
    let mut glyphs = glyphs;
    for record in out.iter_mut() {
        let Some(numbers) = glyphs.next() else {
            break;
        };
        *record = record_of(numbers);
    }
}

// Lists the glyphs of a run in `out`: 19 where the run is not sound, 18 where `out` is too short. The records behind stay, and a refusal changes none.
#[tactic(auto, using(crate::proofs::Listed::listing))]
pub fn list_records(run: Run, out: &mut [Glyph]) -> Result<usize, Refusal>
    ensures result { let p = as_places run.entry in
        outcome_of result ≡ filled_count (list_into (length out.old) p) }
    ensures records { let p = as_places run.entry in
        out.new ≡ filled_after (list_into (length out.old) p) out.old }
{
    sound::check(run)?;
    let n = run.glyph_count();
    if out.len() < n {
        return Err(Cause::GlyphRoom.at(n));
    }
    fill(out, run.glyphs());
    Ok(n)
}

// Four records by value, and what the listing into them answers.
#[derive(Clone, Copy)]
pub struct Four {
    pub answer: Result<usize, Refusal>,
    pub records: [Glyph; 4],
}

// The same with four records that are passed by value and handed back.
pub fn list_four(run: Run, records: [Glyph; 4]) -> Four
    ensures result { let p = as_places run.entry in
        outcome_of result.answer ≡ filled_count (list_into 4 p) }
    ensures records { let p = as_places run.entry in
        result.records ≡ filled_after (list_into 4 p) records }
{
    let mut out = records;
    let answer = list_records(run, &mut out);
    Four {
        answer,
        records: out,
    }
}
