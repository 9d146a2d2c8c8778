// The text of a run's units: its bytes in UTF-8, escaped where that is asked for.
#![tactic(auto)]

ghost use Rattle.label.specs.Text.{braced};
ghost use Rattle.std.specs.Prelude.{◌≡◌, [], ◌∷◌, ◌+◌, ◌%◌, ◌≤◌, ◌<◌, length};
ghost use Rattle.label.specs.Fetched.{halves};
ghost use Rattle.label.specs.Write.{utf8, paired, unit_bytes, units_bytes, text_of};
ghost use Rattle.label.specs.Requests.Attribute.{escape_byte, as_asked};
ghost use Rattle.octets.specs.Outputs.{Gains};

use octets::Output;

// ── a character in UTF-8 ──

// A byte behind the first, with the six lowest bits of c.
fn put_tail(out: &mut Output, c: u32)
    ensures { Gains out.old ((128 + c % 64) ∷ []) out.new }
{
    out.put_byte((0x80 + c % 64) as u8);
}

// A character's bytes, by its number: what `pair_of` gives where no low half follows may be above every `char`, so `encode_utf8` does not take it.
// It is inlined, as all that stores a text below, for speed: the output of a loop then stands in registers, and one that only counts makes no bytes.
#[inline(always)]
pub fn put_char(out: &mut Output, c: u32)
    requires { c < 2097152 }
    ensures gains { Gains out.old (utf8 c) out.new }
    ensures bounds { length (utf8 c) ≤ 4 }
{
    if c <= 0x7f {
        out.put_byte(c as u8);
    } else if c <= 0x7ff {
        out.put_byte((0xc0 + c / 64) as u8);
        put_tail(out, c);
    } else if c <= 0xffff {
        out.put_byte((0xe0 + c / 4096) as u8);
        put_tail(out, c / 64);
        put_tail(out, c);
    } else {
        out.put_byte((0xf0 + c / 262144) as u8);
        put_tail(out, c / 4096);
        put_tail(out, c / 64);
        put_tail(out, c);
    }
}

// ── a unit ──

// The character of a pair. The unit behind a high half may be no low half: `char::decode_utf16` has an error for it, where the definition has bytes.
fn pair_of(h: u16, l: u16) -> u32
    requires { (55296 ≤ h) × (h ≤ 56319) }
    ensures { (result ≡ paired h l) × (result < 2097152) }
{
    0x10000 + (u32::from(h) - 0xd800) * 1024 + u32::from(l.saturating_sub(0xdc00))
}

// The bytes of unit u before unit v: a pair's stand at its high half.
#[tactic(auto, using(octets::proofs::Outputs::nothing), unfolding(label::specs::Write::unit_bytes))]
#[inline(always)]
fn put_unit(out: &mut Output, u: u16, v: u16)
    ensures { Gains out.old (unit_bytes u v) out.new }
{
    if units::is_low(u) {
        return;
    }
    if units::is_high(u) {
        put_char(out, pair_of(u, v));
    } else {
        put_char(out, u32::from(u));
    }
}

// A byte escaped: one of six as its reference, any other as it is.
#[tactic(auto, unfolding(label::specs::Requests::Attribute::escape_byte, label::specs::Bytes::ascii))]
#[inline(always)]
fn put_escaped(out: &mut Output, b: u8)
    ensures { Gains out.old (escape_byte b) out.new }
{
    match b {
        b'&' => out.put_bytes(b"&amp;"),
        b'<' => out.put_bytes(b"&lt;"),
        b'"' => out.put_bytes(b"&quot;"),
        b'\t' => out.put_bytes(b"&#9;"),
        b'\n' => out.put_bytes(b"&#10;"),
        b'\r' => out.put_bytes(b"&#13;"),
        _ => out.put_byte(b),
    }
}

// A byte as it is asked for.
// `escape` is a bool, as the definition `as_asked` has it: with an enum each contract that hands it on would have to turn it into one.
// It is no field of the output, nor of a struct with the units: what an output gains is said of it alone, and most stores do not ask for it.
#[inline(always)]
fn put_asked(escape: bool, out: &mut Output, b: u8)
    ensures { Gains out.old (as_asked escape (b ∷ [])) out.new }
{
    if escape {
        put_escaped(out, b);
    } else {
        out.put_byte(b);
    }
}

// ── a run's units ──

// Only a character of one byte can be one of the six, and only a half of a pair is asked for the unit behind it: the last unit has none, and `array_windows`
// leaves it out, so they are fetched by their numbers.
#[inline(always)]
fn put_units(escape: bool, out: &mut Output, us: &[u8])
    ensures { Gains out.old (as_asked escape (units_bytes (halves us.now))) out.new }
{
    for i in 0..wire::unit_count(us) {
        let u = wire::unit_at(us, i);
        if u <= 0x7f {
            put_asked(escape, out, u as u8);
        } else if u < 0xd800 {
            put_char(out, u32::from(u));
        } else {
            put_unit(out, u, wire::unit_at(us, i + 1));
        }
    }
}

// Whether the text of these units begins with `{}`: the first of them is `{`, in two bytes.
fn is_braced(us: &[u8]) -> bool
    ensures { result ≡ braced (halves us.now) }
{
    us.starts_with(b"{\0")
}

// The text of a run's units. `{}` has none of the six bytes.
#[inline(always)]
pub fn put_text(escape: bool, out: &mut Output, us: &[u8])
    ensures { Gains out.old (as_asked escape (text_of (halves us.now))) out.new }
{
    if is_braced(us) {
        out.put_bytes(b"{}");
    }
    put_units(escape, out, us);
}

// How many bytes the text of a run has.
pub fn text_length(escape: bool, us: &[u8]) -> usize
    requires { length (halves us.now) ≤ 1000000000000 }
    ensures { result ≡ length (as_asked escape (text_of (halves us.now))) }
{
    let mut counted = Output::counting();
    put_text(escape, &mut counted, us);
    counted.at
}
