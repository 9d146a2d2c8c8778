// The text of a label: from UTF-8 to code units, and the moves over a text that the reader makes.
#![tactic(auto)]

ghost use Rattle.std.specs.Prelude.{◌≡◌, true, is_some, IfSome, IfOk, ◌&&◌, ◌+◌, ◌-◌, ◌*◌, ◌/◌, ◌%◌, ◌≤◌, ◌<◌, ltb, length, get_or, drop};
ghost use Rattle.std.specs.Iterator.{item_count};
ghost use Rattle.std.proofs.lemmas.List.Edits.{sets};
ghost use Rattle.label.specs.Limits.{max_text_bytes, max_units};
ghost use Rattle.label.specs.Outcome.{ok};
ghost use Rattle.label.specs.Run.{tail};
ghost use Rattle.label.specs.Text.{within, units_of};
ghost use Rattle.label.specs.Steps.{decode};
ghost use Rattle.label.specs.Wire.{from_halves};
ghost use Rattle.label.specs.Calls.{outcome_of, filled};
ghost use Rattle.text.specs.Walk.{fault_refusal, left, Takes};
ghost use Rattle.text.specs.Texts.{IsPlain, text_count, start_read};
ghost use Rattle.text.specs.Units.{units_from, well_formed};
ghost use Rattle.text.specs.Moves.{units, Reads, MovesTo, Moves};

use label::{Cause, Refusal};
use utf8::{Char, CharFault};

mod passage;

pub use passage::{Passage, TextUnits};

// ── the characters of a text ──

// The refusal for what is wrong with a character at a place: 2 or 3.
fn refused(fault: CharFault, place: usize) -> Refusal
    ensures { result ≡ fault_refusal fault place }
{
    match fault {
        CharFault::IllFormed => Cause::IllFormedText.at(place),
        CharFault::Barred => Cause::BarredCharacter.at(place),
    }
}

// The characters from byte `at` on, up to the first that is refused, which is the last. The place stands beside the text, as refusals name it.
#[derive(Drop)]
struct Characters<'a> {
    text: &'a [u8],
    at: usize,
}

impl<'a> Iterator for Characters<'a> {
    type Item = Result<Char, Refusal>;

    ghost next_gives = { Takes };

    ghost remaining = { item_count left };

    #[inline(always)]
    #[tactic(auto, using(crate::proofs::Walk::steps))]
    fn next(&mut self) -> Option<Result<Char, Refusal>> {
        // where the step begins, which a refusal names when the walk stands elsewhere
        let place = self.at;
        if self.text.len() <= place {
            return None;
        }
        match utf8::char_at(self.text, place) {
            Ok(c) => {
                self.at = c.next;
                Some(Ok(c))
            }
            Err(fault) => {
                self.at = self.text.len();
                Some(Err(refused(fault, place)))
            }
        }
    }
}

fn characters_from(text: &[u8], at: usize) -> Characters<'_>
    ensures { result ≡ record { text = text.entry; at = at } }
{
    Characters { text, at }
}

// ── a text's units ──

// How many units a character is. Its number is no `char` (`utf8::Char`), whose `len_utf16` says the same.
#[tactic(auto, unfolding(label::specs::Text::units_of))]
fn unit_count(code: u32) -> usize
    ensures value { result ≡ length (units_of code) }
    ensures bounds { (1 ≤ result) × (result ≤ 2) }
{
    if code <= 0xffff { 1 } else { 2 }
}

// How many bytes of U+0020 to U+007F the text begins with.
fn plain_length(text: &[u8]) -> usize
    ensures { IsPlain text.now result }
{
    for (count, b) in text.iter().enumerate() {
        if !matches!(b, 0x20..=0x7f) {
            return count;
        }
    }
    text.len()
}

// How many of these stand from a place on, at most so many.
fn plain_stretch(text: &[u8], at: usize, most: usize) -> usize
    ensures { (result ≤ most) × IsPlain (drop at text.now) result }
{
    let ahead = text.get(at..).unwrap_or(&[]);
    plain_length(ahead.get(..most).unwrap_or(ahead))
}

// How many units the text has, `{}` included, or 2 or 3 with its place. Each plain byte in front is a character of one unit: most texts have no others, so
// these are counted by themselves, for speed.
#[tactic(auto, using(crate::proofs::Counts::counted_all, crate::proofs::Walk::no_more))]
fn count_units(text: &[u8]) -> Result<usize, Refusal>
    requires { length text.now ≤ max_text_bytes }
    ensures { outcome_of result ≡ text_count (decode 0 0 text.now) }
{
    let plain = plain_length(text);
    let mut n = plain;
    for c in characters_from(text, plain) {
        n += unit_count(c?.code);
    }
    Ok(n)
}

// The byte where the units of a text's run start, behind `{}` where the text begins with that, or 4.
#[tactic(auto, using(crate::proofs::Texts::starts), unfolding(crate::specs::Texts::start_read))]
fn start_of(text: &[u8]) -> Result<usize, Refusal>
    ensures { outcome_of result ≡ start_read text.now }
{
    if text.starts_with(b"{}") {
        Ok(2)
    } else if text.starts_with(b"{") {
        Err(Cause::LoneBrace.at(0))
    } else {
        Ok(0)
    }
}

// The units of a text's run, or the first refusal of 2 to 5.
#[tactic(auto, using(crate::proofs::Texts::surveys))]
pub fn survey_text(text: &[u8]) -> Result<TextUnits<'_>, Refusal>
    requires { length text.now ≤ max_text_bytes }
    ensures read { Reads text.now result }
    ensures same_text { IfOk result (λ t. t.passage.text ≡ text.entry) }
{
    let all = count_units(text)?;
    let at = start_of(text)?;
    let count = all - at;
    if label::Limits::UNITS < count {
        return Err(Cause::TooManyUnits.at(0));
    }
    Ok(TextUnits {
        count,
        passage: Passage { text, at },
    })
}

// ── storing a text's units ──

// The halves of a pair: the high ten bits of the character's number less 0x10000, and the low ten. Document 01 names shifts and masks for them.
fn halves(c: u32) -> (u16, u16)
    requires { (65536 ≤ c) × (c ≤ 1114111) }
    ensures { (result.0 ≡ 55296 + (c - 65536) / 1024) × (result.1 ≡ 56320 + (c - 65536) % 1024) }
{
    let v = c - 0x10000;
    ((v >> 10) as u16 | 0xd800, (v & 0x3ff) as u16 | 0xdc00)
}

// Stores the units of a character as units n and following, and gives the number of the next.
// The number stands beside the bytes: with an `octets::Output`, which tests for room and counts at each byte, letters take three times as long.
#[tactic(auto, unfolding(label::specs::Text::units_of, label::specs::Wire::from_halves, octets::specs::Puts::puts))]
fn put_char(out: &mut [u8], n: usize, c: u32) -> usize
    requires { (c ≤ 1114111) × (2 * (n + length (units_of c)) ≤ length out.old) }
    ensures { (result ≡ n + length (units_of c)) × (out.new ≡ sets out.old (2 * n) (from_halves (units_of c))) }
{
    if let Ok(unit) = u16::try_from(c) {
        wire::put_unit(out, n, unit);
        return n + 1;
    }
    let (high, low) = halves(c);
    let m = n + 1;
    wire::put_unit(out, n, high);
    wire::put_unit(out, m, low);
    n + 2
}

// ── moves over a text ──

// Why a text has no place behind so many units: fewer are left, or they end between the halves of a pair.
#[derive(Clone, Copy)]
pub enum MoveFault {
    PastEnd,
    InsidePair,
}

impl<'a> Passage<'a> {
    // The byte behind the first `count` units: of the passage that begins there the place alone, for the speed of moves.
    #[tactic(auto, using(crate::proofs::Moves::moves))]
    fn place_past(self, count: usize) -> Result<usize, MoveFault>
        ensures { MovesTo self.entry count result }
    {
        // The plain ones in front go by themselves, for speed, as in `count_units`.
        let plain = plain_stretch(self.text, self.at, count);
        let mut rest = characters_from(self.text, self.at + plain);
        let mut left = count - plain;
        // A `for` over `rest.by_ref()` would need a case in front, for no units to pass, and one behind, for a text that ends too early: so a `while`.
        while left != 0 {
            let c = match rest.next() {
                Some(Ok(c)) => c,
                Some(Err(_)) => unreachable!(),
                None => return Err(MoveFault::PastEnd),
            };
            left = left
                .checked_sub(unit_count(c.code))
                .ok_or(MoveFault::InsidePair)?;
        }
        Ok(rest.at)
    }

    // What stands behind the first `count` units.
    #[inline(always)]
    pub fn move_past(self, count: usize) -> Result<Passage<'a>, MoveFault>
        ensures { Moves self.entry count result }
    {
        let at = self.place_past(count)?;
        Ok(Passage {
            text: self.text,
            at,
        })
    }

    // What stands behind the first character, where that is one of U+0020 to U+007F.
    #[tactic(auto, using(crate::proofs::Moves::steps))]
    pub fn past_plain(self) -> Option<Passage<'a>>
        ensures value { is_some result ≡ (ltb self.entry.at (length self.entry.text.now) && within 32 127 (get_or self.entry.text.now self.entry.at 0)) }
        ensures moves { IfSome result (λ p. (p.at ≡ self.entry.at + 1) × Moves self.entry 1 (Ok p)) }
    {
        match self.text.get(self.at) {
            Some(0x20..=0x7f) => Some(Passage {
                text: self.text,
                at: self.at + 1,
            }),
            _ => None,
        }
    }

    // Stores its units at the start of `out`.
    #[tactic(auto, using(crate::proofs::Fills::fills))]
    pub fn fill_units(self, out: &mut [u8])
        requires { 2 * length (units self) ≤ length out.old }
        ensures { out.new ≡ filled (from_halves (units self.entry)) out.old }
    {
        let mut n = 0;
        for c in characters_from(self.text, self.at) {
            match c {
                Ok(c) => n = put_char(out, n, c.code),
                Err(_) => unreachable!(),
            }
        }
    }

    // How many characters it has: as many as clusters in the tail that it is, each with one glyph.
    pub fn count_tail(self) -> usize
        requires { length (units self) ≤ max_units }
        ensures { result ≡ length (tail (units self.entry)).clusters }
    {
        // The plain ones in front go by themselves here too.
        let plain = plain_stretch(self.text, self.at, self.text.len());
        plain + characters_from(self.text, self.at + plain).count()
    }
}
