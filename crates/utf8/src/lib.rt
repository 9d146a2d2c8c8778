// The character at a place of UTF-8: the rows of Unicode's Table 3-7, the bits of Table 3-6, XML 1.0's Char.
#![tactic(auto)]

ghost use Rattle.std.specs.Prelude.{◌≡◌, true, cond, is_some, IfSome, ◌+◌, ◌*◌, ◌%◌, ◌≤◌, ◌<◌, length, get_or, take, drop};
ghost use Rattle.std.specs.List.{list_all};
ghost use Rattle.label.specs.Text.{within, scalar, xml_char};
ghost use Rattle.utf8.specs.Rows.{lead, trail};
ghost use Rattle.utf8.specs.Chars.{standing, char_at};

// ── Table 3-7 ──

// What a row says of the bytes behind a first byte in its range: how many there are, and the range of the second.
// In the row of one byte the range is 0 and 0, without an `Option`: `fits_row` looks at it only where there is a second byte.
#[derive(Clone, Copy)]
pub struct Trailing {
    pub more: usize,
    pub lo: u8,
    pub hi: u8,
}

// A row with so many bytes behind its first, the second from lo to hi.
fn row(more: usize, lo: u8, hi: u8) -> Option<Trailing>
    ensures { result ≡ Some (record { more = more; lo = lo; hi = hi }) }
{
    Some(Trailing { more, lo, hi })
}

// The row of Table 3-7 that a first byte chooses: the nine rows, in the table's order. A third and a fourth byte are from 80 to BF in every row that has one.
#[tactic(auto, unfolding(crate::specs::Rows::lead, crate::specs::Rows::chosen, label::specs::Text::table))]
fn row_of(b: u8) -> Option<Trailing>
    ensures { result ≡ lead b }
{
    match b {
        // U+0000..U+007F: 00..7F
        0x00..=0x7f => row(0, 0, 0),
        // U+0080..U+07FF: C2..DF, 80..BF
        0xc2..=0xdf => row(1, 0x80, 0xbf),
        // U+0800..U+0FFF: E0, A0..BF, 80..BF
        0xe0 => row(2, 0xa0, 0xbf),
        // U+1000..U+CFFF: E1..EC, 80..BF, 80..BF
        0xe1..=0xec => row(2, 0x80, 0xbf),
        // U+D000..U+D7FF: ED, 80..9F, 80..BF
        0xed => row(2, 0x80, 0x9f),
        // U+E000..U+FFFF: EE..EF, 80..BF, 80..BF
        0xee..=0xef => row(2, 0x80, 0xbf),
        // U+10000..U+3FFFF: F0, 90..BF, 80..BF, 80..BF
        0xf0 => row(3, 0x90, 0xbf),
        // U+40000..U+FFFFF: F1..F3, 80..BF, 80..BF, 80..BF
        0xf1..=0xf3 => row(3, 0x80, 0xbf),
        // U+100000..U+10FFFF: F4, 80..8F, 80..BF, 80..BF
        0xf4 => row(3, 0x80, 0x8f),
        _ => None,
    }
}

// Whether each is from 80 to BF, as a third and a fourth byte are.
fn are_trailing(bytes: &[u8]) -> bool
    ensures { result ≡ list_all (within 0x80 0xbf) bytes.now }
{
    bytes.iter().all(|b| matches!(*b, 0x80..=0xbf))
}

// Whether the bytes are those of a row behind its first: the second byte is from its lo to its hi, the others from 80 to BF.
#[tactic(auto, using(crate::proofs::Rows::trail_none))]
fn fits_row(bytes: &[u8], row: Trailing) -> bool
    ensures { result ≡ trail (length bytes.now) row.lo row.hi bytes.now }
{
    match bytes {
        [] => true,
        [second, others @ ..] => (row.lo..=row.hi).contains(second) && are_trailing(others),
    }
}

// Those that a row has behind its first, where the bytes begin with them.
#[tactic(auto, using(crate::proofs::Rows::trail_short, crate::proofs::Rows::trail_taken))]
fn follows(behind: &[u8], row: Trailing) -> Option<&[u8]>
    ensures value { is_some result ≡ trail row.more row.lo row.hi behind.now }
    ensures bytes { IfSome result (λ x. x.now ≡ take row.more behind.now) }
{
    // For speed no `get`, by which a reading of three-byte characters takes a tenth more instructions.
    let (bytes, _) = behind.split_at_checked(row.more)?;
    fits_row(bytes, row).then_some(bytes)
}

// ── characters ──

// A character, as a number, and the place behind it. No `char`: XML's Char is told by numbers, and `char::from_u32` would test each number once more.
#[derive(Clone, Copy)]
pub struct Char {
    pub code: u32,
    pub next: usize,
}

// What is wrong with the bytes at a place: no well-formed character, or one that may not stand.
#[derive(Clone, Copy)]
pub enum CharFault {
    IllFormed,
    Barred,
}

// XML 1.0's Char.
#[tactic(auto, unfolding(label::specs::Text::xml_char))]
pub fn is_xml(c: u32) -> bool
    ensures { result ≡ xml_char c }
{
    matches!(c, 0x9 | 0xa | 0xd | 0x20..=0xd7ff | 0xe000..=0xfffd | 0x10000..=0x10ffff)
}

// Six more bits, those of a byte after the first. Document 01 names shifts and masks for the bits.
fn with_six(c: u32, b: u8) -> u32
    requires { c < 32768 }
    ensures { result ≡ c * 64 + b % 64 }
{
    (c << 6) | (u32::from(b) & 0x3f)
}

// The number of the character of these bytes, from their bits.
#[tactic(auto, unfolding(label::specs::Text::scalar))]
fn scalar_of(first: u8, others: &[u8]) -> u32
    ensures { result ≡ scalar (length others.now) first others.now }
{
    let b = u32::from(first);
    match others {
        [] => b,
        [c] => with_six(b & 0x1f, *c),
        [c, d] => with_six(with_six(b & 0x0f, *c), *d),
        [c, d, e, ..] => with_six(with_six(with_six(b & 0x07, *c), *d), *e),
    }
}

// A well-formed character by its number, in front of place `next`.
fn judged(code: u32, next: usize) -> Result<Char, CharFault>
    ensures { result ≡ standing code next }
{
    if is_xml(code) {
        Ok(Char { code, next })
    } else {
        Err(CharFault::Barred)
    }
}

// The character at `at`, where it is well-formed and may stand, and the place behind it.
// The place stands beside the text, not a slice from it on, because the place behind, in the same text, is what callers go on with and what refusals name.
#[inline(always)]
#[tactic(auto, using(crate::proofs::Chars::found))]
pub fn char_at(s: &[u8], at: usize) -> Result<Char, CharFault>
    requires { at < length s.now }
    ensures { result ≡ char_at s.now at }
{
    match s[at] {
        // For speed: such a byte is a character without more reading, and most bytes are such.
        b @ 0x20..=0x7f => Ok(Char {
            code: u32::from(b),
            next: at + 1,
        }),
        // The others of the first row have no arm of their own, for speed too: with one, a reading of letters takes a seventh more instructions.
        b => {
            let (code, next) = if b < 0x80 {
                (u32::from(b), at + 1)
            } else {
                let row = row_of(b).ok_or(CharFault::IllFormed)?;
                let others = follows(&s[at + 1..], row).ok_or(CharFault::IllFormed)?;
                (scalar_of(b, others), at + 1 + others.len())
            };
            judged(code, next)
        }
    }
}
