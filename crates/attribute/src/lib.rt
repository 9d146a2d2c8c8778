// Raw XML attribute values: references resolved and white space replaced, as XML 1.0 says.
#![tactic(auto)]

ghost use Rattle.std.specs.Prelude.{◌≡◌, ◌+◌, ◌-◌, ◌*◌, ◌≤◌, ◌<◌, true, false, length, MatchOption, SomeIff};
ghost use Rattle.std.specs.Iterator.{at_most};
ghost use Rattle.label.specs.Calls.{outcome_of, filled_count, filled_after};
ghost use Rattle.label.specs.Requests.Attribute.{numbered, is_reference, is_good, gives, further, resolve_into};
ghost use Rattle.octets.specs.Puts.{Put};
ghost use Rattle.octets.specs.Outputs.{Gains};
ghost use Rattle.label.specs.Text.{xml_char};
ghost use Rattle.label.specs.Write.{utf8};
ghost use Rattle.attribute.specs.Pieces.{GivesChar, named, IsReference, IsPiece, GivesPiece, Stores};

use label::{Cause, Refusal};
use octets::Output;

// ── references ──

// One more digit of the base behind n, where n is not behind every character already.
fn with_digit(n: u32, base: u32, digit: u32) -> Option<u32>
    requires { (base ≤ 16) × (digit ≤ 16) }
    ensures { SomeIff result (n ≤ 0x10ffff) (n * base + digit) }
{
    if u32::from(char::MAX) < n {
        return None;
    }
    Some(n * base + digit)
}

// The XML character with a number.
fn character_of(n: u32) -> Option<char>
    ensures { SomeIff result (xml_char n ≡ true) n }
{
    if utf8::is_xml(n) {
        char::from_u32(n)
    } else {
        None
    }
}

// The XML character whose number the digits of base ten or sixteen at the front are, which `;` ends, and how many bytes that is. No byte behind the first that
// is no digit is looked at.
#[inline(always)]
fn numbered(behind: &[u8], base: u32) -> Option<(char, usize)>
    requires { (2 ≤ base) × (base ≤ 16) }
    ensures { GivesChar (numbered base) behind.now result }
{
    let mut n = 0;
    for (count, b) in behind.iter().enumerate() {
        if *b == b';' && 0 < count {
            return Some((character_of(n)?, count + 1));
        }
        let digit = char::from(*b).to_digit(base)?;
        n = with_digit(n, base, digit)?;
    }
    None
}

// The character of the name at the front, one of five, which `;` ends, and how many bytes that is.
#[inline(always)]
#[tactic(auto, using(crate::proofs::Names::names))]
fn predefined(behind: &[u8]) -> Option<(char, usize)>
    ensures { result ≡ named behind.now }
{
    match behind {
        [b'a', b'm', b'p', b';', ..] => Some(('&', 4)),
        [b'l', b't', b';', ..] => Some(('<', 3)),
        [b'g', b't', b';', ..] => Some(('>', 3)),
        [b'q', b'u', b'o', b't', b';', ..] => Some(('"', 5)),
        [b'a', b'p', b'o', b's', b';', ..] => Some(('\'', 5)),
        _ => None,
    }
}

// The character of the reference whose `&` stands before these bytes, and how many of them it has: `#x` with hexadecimal digits, `#` with decimal ones, or a
// name.
#[inline(always)]
fn read_reference(behind: &[u8]) -> Option<(char, usize)>
    ensures { MatchOption result (is_reference behind.now ≡ false) (λ r. IsReference behind.now r.0 r.1) }
{
    match behind {
        [b'#', b'x', digits @ ..] => {
            let (c, length) = numbered(digits, 16)?;
            Some((c, 2 + length))
        }
        [b'#', digits @ ..] => {
            let (c, length) = numbered(digits, 10)?;
            Some((c, 1 + length))
        }
        name => predefined(name),
    }
}

// ── raw values ──

// What comes out of a piece of a raw value: a byte, or the character of a reference.
#[derive(Clone, Copy)]
enum Piece {
    Byte(u8),
    Char(char),
}

// The piece that starts with a byte, before those behind it, and how many bytes it has. None: the byte is a raw `<`, or begins a bad reference.
#[inline(always)]
#[tactic(auto, using(crate::proofs::Opened::opened))]
fn read_piece(b: u8, behind: &[u8]) -> Option<(Piece, usize)>
    ensures { MatchOption result (is_good b behind.now ≡ false) (λ p. IsPiece b behind.now p.0 p.1) }
{
    match b {
        b'<' => None,
        b'&' => {
            let (c, length) = read_reference(behind)?;
            Some((Piece::Char(c), 1 + length))
        }
        b'\r' if behind.first() == Some(&b'\n') => Some((Piece::Byte(b' '), 2)),
        b'\t' | b'\n' | b'\r' => Some((Piece::Byte(b' '), 1)),
        _ => Some((Piece::Byte(b), 1)),
    }
}

// The pieces of a raw value from a place on; behind a bad reference or a raw `<`, which is refused, there are none. A refusal names its place in the whole
// value, so the place stands beside the bytes.
#[derive(Clone, Copy)]
struct Pieces<'a> {
    raw: &'a [u8],
    at: usize,
}

impl Iterator for Pieces<'_> {
    type Item = Result<Piece, Refusal>;

    ghost next_gives = { GivesPiece };

    ghost remaining = { λ s. at_most (length s.raw.now - s.at) };

    #[inline(always)]
    fn next(&mut self) -> Option<Result<Piece, Refusal>> {
        let b = *self.raw.get(self.at)?;
        let Some((piece, length)) = read_piece(b, &self.raw[self.at + 1..]) else {
            let refusal = Cause::BadReference.at(self.at);
            self.at = self.raw.len();
            return Some(Err(refusal));
        };
        self.at += length;
        Some(Ok(piece))
    }
}

// Stores what the raw value resolves to from the start of `out`, as far as there is room, and counts it. For speed, both passes have the whole walk inlined:
// the first has no room, and its stores fall away.
#[inline(always)]
fn put_resolved(out: &mut [u8], raw: &[u8]) -> Result<usize, Refusal>
    ensures { Stores raw.now out.old result out.new }
{
    let mut output = Output::on(out);
    let pieces = Pieces { raw, at: 0 };
    for piece in pieces {
        match piece? {
            Piece::Byte(b) => output.put_byte(b),
            Piece::Char(c) => text_bytes::put_char(&mut output, u32::from(c)),
        }
    }
    Ok(output.at)
}

// ── the call ──

// One raw attribute value resolved into `out`, where no reference is bad, no raw `<` stands in it, and `out` has room. A first pass judges and measures, with
// room for nothing; a second one stores.
pub fn resolve(raw: &[u8], out: &mut [u8]) -> Result<usize, Refusal>
    ensures result { outcome_of result ≡ filled_count (resolve_into (length out.old) raw.now) }
    ensures out { out.new ≡ filled_after (resolve_into (length out.old) raw.now) out.old }
{
    let n = put_resolved(&mut [], raw)?;
    if out.len() < n {
        return Err(Cause::ResolvedRoom.at(n));
    }
    put_resolved(out, raw)
}
