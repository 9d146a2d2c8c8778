// The entries of the indices, each read in one pass over its bytes.
#![tactic(auto)]

ghost use Rattle.std.specs.Prelude.{◌≡◌, true, false, ◌&&◌, ◌+◌, ◌≤◌, leb, ltb, length, drop, IfSome, IfOk};
ghost use Rattle.std.specs.Bool.{then_some};
ghost use Rattle.std.specs.Iterator.{item_count};
ghost use Rattle.label.specs.Limits.{max_index};
ghost use Rattle.label.specs.Entry.{entries};
ghost use Rattle.number.specs.Digits.{ends, is_break, digits_from};
ghost use Rattle.entry.specs.Results.{item_said, result_said, entry_results, results_left, GivesEntry};
ghost use Rattle.entry.specs.Items.{is_semi, entry_here, index_item, IsIndex};
ghost use Rattle.entry.specs.Parts.{map_of, cut_map, front_of, field_of, cut_field, offsets_of, parts_of, well_parted, cut_parts, index_within, advance_within, offset_within, glyph_within, rounded_number, SmallNumber};

mod entries;

use entries::EntryBytes;
pub use entries::{Entries, ReadEntry};
use label::{Advance, Cause, Glyph, Index, Limits, Refusal};
use number::{Digits, Thousandths};

// What an entry says: whether it has a map, the map's two counts (1 and 1 without one; cut at 10^18), its glyph record, how many bytes it has, and how
// many of its fields were rounded.
// The two counts stand beside the flag because an entry without a map has both: its users count with them whatever the flag says. They are copied out of the
// map, which has bytes of its own, as they are the entry's for its users.
#[derive(Clone, Copy)]
pub struct Item {
    pub mapped: bool,
    pub units: usize,
    pub glyphs: usize,
    pub glyph: Glyph,
    pub used: usize,
    pub rounded: usize,
}

// ── bytes ──

// Whether the entry ends before these bytes.
fn ends_entry(s: &[u8]) -> bool
    ensures { result ≡ ends is_semi s.now }
{
    s.first().is_none_or(|b| *b == b';')
}

// Whether a field ends before them.
fn ends_field(s: &[u8]) -> bool
    ensures { result ≡ ends is_break s.now }
{
    s.first().is_none_or(|b| matches!(b, b',' | b';'))
}

// ── the index part ──

// The map at the start of an entry, of no bytes where there is none, which is 1:1. Each part says how many bytes it has, as the definitions do; that they are
// among those it was read from is a clause, as a part does not hold these.
#[derive(Clone, Copy)]
struct MapPart {
    used: usize,
    mapped: bool,
    units: usize,
    glyphs: usize,
}

const NO_MAP: MapPart = MapPart {
    used: 0,
    mapped: false,
    units: 1,
    glyphs: 1,
};

// The map, where it is well formed.
fn map_of(s: &[u8]) -> Option<MapPart>
    ensures value { let m = map_of s.now in result ≡ then_some m.ok (cut_map m) }
    ensures bounds { IfSome result (λ m. m.used ≤ length s.now) }
    ensures unmapped { IfSome result (λ m. m.mapped ≡ false → m.used ≡ 0) }
{
    if s.first() != Some(&b'(') {
        return Some(NO_MAP);
    }
    let x = number::digits_of(&s[1..], 0);
    let end = 1 + x.count;
    match s.get(end)? {
        b')' => (0 < x.count).then_some(MapPart {
            used: end + 1,
            mapped: true,
            units: x.value as usize,
            glyphs: 1,
        }),
        b':' => {
            let y = number::digits_of(&s[end + 1..], 0);
            let close = end + 1 + y.count;
            if s.get(close) != Some(&b')') {
                return None;
            }
            (0 < x.count && 0 < y.count).then_some(MapPart {
                used: close + 1,
                mapped: true,
                units: x.value as usize,
                glyphs: y.value as usize,
            })
        }
        _ => None,
    }
}

// The map and the index's digits: the bytes of both, and the index that they name, if any (cut at 10^18).
#[derive(Clone, Copy)]
struct Front {
    map: MapPart,
    used: usize,
    index: Option<u64>,
}

// Both, where they are well formed.
fn front_of(e: EntryBytes) -> Option<Front>
    ensures value { result ≡ front_of e.entry.bytes.now }
    ensures bounds { IfSome result (λ f. f.used ≤ length e.entry.bytes.now) }
{
    let map = map_of(e.bytes)?;
    let digits = if map.mapped {
        number::digits_of(&e.bytes[map.used..], 0)
    } else {
        e.first
    };
    if map.mapped && digits.count == 0 {
        return None;
    }
    Some(Front {
        map,
        used: map.used + digits.count,
        index: (0 < digits.count).then_some(digits.value),
    })
}

// ── fields ──

// A number with its sign; its size where that is within the limit.
#[derive(Clone, Copy)]
struct Signed {
    negative: bool,
    size: Option<Thousandths>,
}

// A field with its comma, of no bytes where the entry has ended; its number, where one is given.
#[derive(Clone, Copy)]
struct Field {
    used: usize,
    number: Option<Signed>,
}

// The field in front, where it is well formed.
fn field_of(s: &[u8]) -> Option<Field>
    ensures value { let f = field_of s.now in result ≡ then_some f.ok (cut_field f) }
    ensures bounds { IfSome result (λ f. f.used ≤ length s.now) }
    ensures small { IfSome result (λ f. SmallNumber f.number) }
{
    if s.first() != Some(&b',') {
        return Some(Field {
            used: 0,
            number: None,
        });
    }
    let behind = &s[1..];
    if ends_field(behind) {
        return Some(Field {
            used: 1,
            number: None,
        });
    }
    let sign = number::sign_length(behind);
    let n = number::number_of(&behind[sign..]).ok()?;
    Some(Field {
        used: 1 + sign + n.used,
        number: Some(Signed {
            negative: behind.first() == Some(&b'-'),
            size: n.size,
        }),
    })
}

// 1 where the exact value is another one, else 0.
fn rounded_of(number: Option<Signed>) -> usize
    ensures value { result ≡ rounded_number number }
    ensures bounds { result ≤ 1 }
{
    match number {
        Some(Signed { size: Some(z), .. }) => usize::from(!z.exact),
        _ => 0,
    }
}

// ── the glyph record ──

// The index that these digits name, where it is within the limit: `u16::try_from` would refuse the same numbers without naming the limit.
fn index_of(digits: Option<u64>) -> Option<Index>
    ensures { result ≡ index_within digits }
{
    match digits {
        Some(n) if Limits::INDEX < n => None,
        Some(n) => Some(Index::Named(n as u16)),
        None => Some(Index::Font),
    }
}

// The advance, where its size is within the limit.
fn advance_of(number: Option<Signed>) -> Option<Advance>
    ensures { result ≡ advance_within number }
{
    match number {
        Some(n) => Some(Advance::Given(n.size?.count)),
        None => Some(Advance::Own),
    }
}

// An offset, where its size is within the limit.
fn offset_of(number: Option<Signed>) -> Option<i32>
    requires { SmallNumber number }
    ensures { result ≡ offset_within number }
{
    match number {
        Some(n) => {
            let size = n.size?.count as i32;
            Some(if n.negative { -size } else { size })
        }
        None => Some(0),
    }
}

// Both offsets, where their sizes are within the limit; the bytes of their fields, and how many of these were rounded.
#[derive(Clone, Copy)]
struct Offsets {
    used: usize,
    u: Option<i32>,
    v: Option<i32>,
    rounded: usize,
}

// The offsets behind the advance, where both are well formed.
fn offsets_of(s: &[u8]) -> Option<Offsets>
    ensures value { result ≡ offsets_of s.now }
    ensures bounds { IfSome result (λ o. (o.used ≤ length s.now) × (o.rounded ≤ 2)) }
{
    // Most entries have none: the test for a comma, which each field makes too, is made here once for both.
    if s.first() != Some(&b',') {
        return Some(Offsets {
            used: 0,
            u: Some(0),
            v: Some(0),
            rounded: 0,
        });
    }
    let y = field_of(s)?;
    let z = field_of(&s[y.used..])?;
    Some(Offsets {
        used: y.used + z.used,
        u: offset_of(y.number),
        v: offset_of(z.number),
        rounded: rounded_of(y.number) + rounded_of(z.number),
    })
}

// ── an entry ──

// The parts of an entry, and the bytes of all of them.
#[derive(Clone, Copy)]
struct Parts {
    map: MapPart,
    index: Option<u64>,
    advance: Option<Signed>,
    offsets: Offsets,
    used: usize,
}

// The parts of the entry, where it is well formed (7): each of them is, the advance has no `-`, and behind them is a `;` or the end.
fn parts_of(e: EntryBytes) -> Option<Parts>
    ensures value { let p = parts_of e.entry.bytes.now in result ≡ then_some (well_parted p e.entry.bytes.now) (cut_parts p) }
    ensures bounds { IfSome result (λ p. (p.used ≤ length e.entry.bytes.now) × (p.offsets.rounded ≤ 2)) }
{
    let front = front_of(e)?;
    let fields = &e.bytes[front.used..];
    let x = field_of(fields)?;
    if x.number.is_some_and(|n| n.negative) {
        return None;
    }
    let behind = &fields[x.used..];
    let offsets = offsets_of(behind)?;
    ends_entry(&behind[offsets.used..]).then_some(Parts {
        map: front.map,
        index: front.index,
        advance: x.number,
        offsets,
        used: front.used + x.used + offsets.used,
    })
}

// The glyph record with this index, where the sizes are within the limit.
fn glyph_of(index: Index, p: Parts) -> Option<Glyph>
    ensures { result ≡ glyph_within index p }
{
    Some(Glyph {
        index,
        advance: advance_of(p.advance)?,
        u: p.offsets.u?,
        v: p.offsets.v?,
    })
}

// An entry of `used` bytes with this map and this glyph record, `rounded` of whose fields were rounded.
fn item_of(map: MapPart, glyph: Glyph, used: usize, rounded: usize) -> Item
    ensures { result ≡ record { mapped = map.mapped; units = map.units; glyphs = map.glyphs; glyph = glyph; used = used; rounded = rounded } }
{
    Item {
        mapped: map.mapped,
        units: map.units,
        glyphs: map.glyphs,
        glyph,
        used,
        rounded,
    }
}

// Entry number k from its parts: 7, 8 and 9 in order, or what it says.
fn read_parts(e: EntryBytes, k: usize) -> Result<Item, Refusal>
    ensures value { result ≡ entry_here k e.entry.bytes.now }
    ensures bounds { IfOk result (λ x. x.used ≤ length e.entry.bytes.now) }
{
    let p = parts_of(e).ok_or(Cause::IllFormedEntry.at(k))?;
    let index = index_of(p.index).ok_or(Cause::IndexTooLarge.at(k))?;
    let glyph = glyph_of(index, p).ok_or(Cause::NumberTooLarge.at(k))?;
    let rounded = rounded_of(p.advance) + p.offsets.rounded;
    Ok(item_of(p.map, glyph, p.used, rounded))
}

// ── an index alone ──

// Whether the entry is the first digits and nothing else, within the limit: such an entry needs no more reading.
fn is_index(e: EntryBytes) -> bool
    ensures value { result ≡ ((ltb 0 e.entry.first.count && leb e.entry.first.value max_index) && ends is_semi (drop e.entry.first.count e.entry.bytes.now)) }
    ensures alone { result ≡ true → IsIndex e.entry.bytes.now e.entry.first }
{
    0 < e.first.count && e.first.value <= Limits::INDEX && ends_entry(&e.bytes[e.first.count..])
}

// What these digits alone say.
pub fn index_item(d: Digits) -> Item
    requires { d.value ≤ max_index }
    ensures { result ≡ index_item d }
{
    let glyph = Glyph {
        index: Index::Named(d.value as u16),
        advance: Advance::Own,
        u: 0,
        v: 0,
    };
    item_of(NO_MAP, glyph, d.count, 0)
}

// ── the entries ──

impl ReadEntry {
    // What the entry says.
    pub fn item(self) -> Item
        ensures { result ≡ item_said self }
    {
        match self {
            ReadEntry::Index { index, used } => index_item(Digits {
                count: used,
                value: u64::from(index),
            }),
            ReadEntry::Full(item) => item,
        }
    }

    // How many bytes it has.
    fn used(self) -> usize
        ensures { result ≡ (item_said self).used }
    {
        match self {
            ReadEntry::Index { used, .. } => used,
            ReadEntry::Full(item) => item.used,
        }
    }
}

// The entry that s begins with, entry number k: an index alone, or one that is read by its parts. It is inlined with the step of the walk, for the speed of
// indices alone.
#[inline(always)]
pub fn read_entry(s: &[u8], k: usize) -> Result<ReadEntry, Refusal>
    ensures value { result_said result ≡ entry_here k s.now }
    ensures bounds { IfOk result (λ e. (item_said e).used ≤ length s.now) }
{
    let e = EntryBytes {
        bytes: s,
        first: number::digits_of(s, 0),
    };
    if is_index(e) {
        return Ok(ReadEntry::Index {
            index: e.first.value as u16,
            used: e.first.count,
        });
    }
    Ok(ReadEntry::Full(read_parts(e, k)?))
}

impl<'a> Entries<'a> {
    // All of them: zero bytes are no entries, and n semicolons make n + 1.
    pub fn new(indices: &'a [u8]) -> Entries<'a>
        ensures { results_left result ≡ entry_results 0 (entries indices.now) }
    {
        Entries {
            rest: (!indices.is_empty()).then_some(indices),
            number: 0,
        }
    }
}

impl<'a> Iterator for Entries<'a> {
    type Item = Result<ReadEntry, Refusal>;

    ghost next_gives = { GivesEntry };

    ghost remaining = { item_count results_left };

    #[inline(always)]
    fn next(&mut self) -> Option<Result<ReadEntry, Refusal>> {
        let s = self.rest?;
        let entry = read_entry(s, self.number);
        // Behind the last entry there is no `;`, and so no rest.
        self.rest = match entry {
            Ok(e) => s.get(e.used() + 1..),
            Err(_) => None,
        };
        self.number += 1;
        Some(entry)
    }
}
