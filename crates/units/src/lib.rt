// Code units, by themselves and where they stand in a run's bytes: the halves of pairs, and whether they are well-formed XML characters.
#![tactic(auto)]

ghost use Rattle.std.specs.Prelude.{◌≡◌, ◌/◌, ◌≤◌, false, length, drop};
ghost use Rattle.label.specs.Text.{is_high, is_low, is_pair, xml_char};
ghost use Rattle.label.specs.Fetched.{halves};
ghost use Rattle.label.specs.Sound.{proper_units};

use wire::Units;

// ── a unit in hand ──

// A high half or a low half of a pair.
pub fn is_high(u: u16) -> bool
    ensures { result ≡ is_high u }
{
    matches!(u, 0xd800..=0xdbff)
}

pub fn is_low(u: u16) -> bool
    ensures { result ≡ is_low u }
{
    matches!(u, 0xdc00..=0xdfff)
}

// ── the units of a run ──

// Whether the first two are the halves of one pair.
pub fn begins_with_pair(us: &[u8]) -> bool
    ensures { result ≡ is_pair (halves us.now) }
{
    is_high(wire::unit_at(us, 0)) && is_low(wire::unit_at(us, 1))
}

// Whether XML allows a unit as a character by itself. The range of most is asked first, for speed.
#[tactic(auto, unfolding(label::specs::Text::xml_char))]
fn is_single(u: u16) -> bool
    ensures { result ≡ xml_char u }
{
    matches!(u, 0x20..=0xd7ff) || utf8::is_xml(u32::from(u))
}

// How many units stand in front of the first that XML does not allow as a character by itself: no half of a pair is one.
fn single_count(us: &[u8]) -> usize
    ensures value { proper_units false (halves us.now) ≡ proper_units false (drop result (halves us.now)) }
    ensures bounds { result ≤ length us.now / 2 }
{
    for i in 0..wire::unit_count(us) {
        if !is_single(wire::unit_at(us, i)) {
            return i;
        }
    }
    wire::unit_count(us)
}

// Whether the units are well-formed XML characters. Most runs have no pair, so the units in front of the first go by themselves, for speed.
pub fn proper_units(us: &[u8]) -> bool
    ensures { result ≡ proper_units false (halves us.now) }
{
    let rest = &us[2 * single_count(us)..];
    for c in char::decode_utf16(Units::of(rest)) {
        let Ok(c) = c else { return false };
        if !utf8::is_xml(u32::from(c)) {
            return false;
        }
    }
    true
}
