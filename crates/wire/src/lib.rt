// A run's numbers where they stand, in its bytes: a unit is 2 bytes and every other number 4, two's complement, low byte first.
// So a cluster is 8 bytes and a glyph 16: who cuts or measures a buffer elsewhere writes 2, 8 and 16 out, as callers in C do.
#![tactic(auto)]

ghost use Rattle.std.specs.Prelude.{◌≡◌, ◌*◌, ◌/◌, ◌%◌, ◌<◌, length, get_or, pos, [], ◌∷◌};
ghost use Rattle.std.specs.Iterator.{YieldsFirst, item_count};
ghost use Rattle.label.specs.Wire.{bits_of, four_bytes};
ghost use Rattle.label.specs.Fetched.{halves, words};
ghost use Rattle.label.specs.Places.{index_number, advance_number};
ghost use Rattle.label.specs.Run.{named};
ghost use Rattle.label.specs.Sound.{nat as nat_of, clusters_of, glyphs_of, is_font};
ghost use Rattle.octets.specs.Puts.{puts};
ghost use Rattle.wire.specs.Numbers.{as_cluster, as_glyph, glyph_numbers, cluster_numbers};
ghost use Rattle.wire.specs.Stores.{cluster_stored, glyph_stored, glyph_places};
ghost use Rattle.wire.specs.Walks.{clusters_in, glyphs_in, entries_in, units_left, clusters_left, glyphs_left, entries_left};

use label::{Advance, Cluster, Glyph, Index};

// ── how many ──

// A division with a name: its contract says what it counts.
pub fn unit_count(s: &[u8]) -> usize
    ensures value { result ≡ length (halves s.now) }
    ensures bounds { result ≡ length s.now / 2 }
{
    s.len() / 2
}

// Likewise of numbers of 4 bytes: `number` takes one below this count.
#[tactic(auto, using(crate::proofs::Fetched::words_length))]
pub fn number_count(s: &[u8]) -> usize
    ensures value { result ≡ length (words s.now) }
    ensures bounds { result ≡ length s.now / 4 }
{
    s.len() / 4
}

// ── fetched ──

// A unit by its number, or 0 past the end: that is no half and no `{`, so who looks at the unit behind another needs no case for the end. The bytes go whole
// beside the number, as those from a unit on would be cut at twice its number in each caller.
pub fn unit_at(s: &[u8], j: usize) -> u16
    ensures { result ≡ get_or (halves s.now) j 0 }
{
    let (units, _) = s.as_chunks::<2>();
    match units.get(j) {
        Some(unit) => u16::from_le_bytes(*unit),
        None => 0,
    }
}

// Number k: two's complement, low byte first. By its number, as units are fetched.
pub fn number(s: &[u8], k: usize) -> i32
    requires { k < length (words s.now) }
    ensures { result ≡ get_or (words s.now) k (pos 0) }
{
    let (numbers, _) = s.as_chunks::<4>();
    i32::from_le_bytes(numbers[k])
}

// ── the numbers of a cluster and of a glyph ──

// How many units and how many glyphs a cluster has. Any numbers: a run handed in may hold such as no `Cluster` has.
#[derive(Clone, Copy)]
pub struct ClusterNumbers {
    pub units: i32,
    pub glyphs: i32,
}

impl ClusterNumbers {
    // Those in these bytes.
    #[tactic(auto, using(crate::proofs::Fetched::words_length), unfolding(crate::specs::Numbers::cluster_numbers))]
    fn of(bytes: &[u8; 8]) -> ClusterNumbers
        ensures { result ≡ cluster_numbers (words bytes.now) }
    {
        ClusterNumbers {
            units: number(bytes, 0),
            glyphs: number(bytes, 1),
        }
    }

    // 0 for a negative one: who asks for at least one needs no case for it. `usize::try_from` takes more instructions for each cluster.
    pub fn unit_count(self) -> usize
        ensures value { result ≡ nat_of self.units }
        ensures bounds { result < 2147483648 }
    {
        self.units.max(0) as usize
    }

    pub fn glyph_count(self) -> usize
        ensures value { result ≡ nat_of self.glyphs }
        ensures bounds { result < 2147483648 }
    {
        self.glyphs.max(0) as usize
    }
}

// The cluster that has these numbers; 0 for a negative one, by `max` for the reason at `unit_count`.
impl From<ClusterNumbers> for Cluster {
    ghost from_gives = { λ n c. c ≡ as_cluster n };

    fn from(numbers: ClusterNumbers) -> Cluster {
        Cluster {
            units: numbers.units.max(0) as u32,
            glyphs: numbers.glyphs.max(0) as u32,
        }
    }
}

// A glyph's index, -1 for the font; its advance, -1 for the font's own; and its two offsets. Any numbers: a run handed in may hold such as no `Glyph` has, so
// the choices stand here as they do in its bytes.
#[derive(Clone, Copy)]
pub struct GlyphNumbers {
    pub index: i32,
    pub advance: i32,
    pub u: i32,
    pub v: i32,
}

impl GlyphNumbers {
    // Those in these bytes.
    #[tactic(auto, using(crate::proofs::Fetched::words_length), unfolding(crate::specs::Numbers::glyph_numbers))]
    fn of(bytes: &[u8; 16]) -> GlyphNumbers
        ensures { result ≡ glyph_numbers (words bytes.now) }
    {
        GlyphNumbers {
            index: number(bytes, 0),
            advance: number(bytes, 1),
            u: number(bytes, 2),
            v: number(bytes, 3),
        }
    }

    // Whether the index is the label's.
    pub fn is_named(self) -> bool
        ensures { result ≡ named (as_glyph self).index }
    {
        0 <= self.index
    }

    // Whether the glyph is wholly the font's.
    pub fn is_font(self) -> bool
        ensures { result ≡ is_font (as_glyph self) }
    {
        self.index < 0 && self.advance < 0 && self.u == 0 && self.v == 0
    }
}

// ── a run ──

// A run's three buffers.
#[derive(Clone, Copy)]
pub struct Run<'a> {
    pub units: &'a [u8],
    pub clusters: &'a [u8],
    pub glyphs: &'a [u8],
}

impl<'a> Run<'a> {
    pub fn unit_count(self) -> usize
        ensures value { result ≡ length (halves self.entry.units.now) }
        ensures bounds { result ≡ length self.entry.units.now / 2 }
    {
        unit_count(self.units)
    }

    #[tactic(auto, using(crate::proofs::Runs::clusters_length))]
    pub fn cluster_count(self) -> usize
        ensures value { result ≡ length (clusters_of (words self.entry.clusters.now)) }
        ensures bounds { result ≡ length self.entry.clusters.now / 8 }
    {
        self.clusters.len() / 8
    }

    #[tactic(auto, using(crate::proofs::Runs::glyphs_length))]
    pub fn glyph_count(self) -> usize
        ensures value { result ≡ length (glyphs_of (words self.entry.glyphs.now)) }
        ensures bounds { result ≡ length self.entry.glyphs.now / 16 }
    {
        self.glyphs.len() / 16
    }

    pub fn clusters(self) -> Clusters<'a>
        ensures { clusters_left result ≡ clusters_in (words self.entry.clusters.now) }
    {
        Clusters {
            rest: self.clusters,
        }
    }

    pub fn glyphs(self) -> Glyphs<'a>
        ensures { glyphs_left result ≡ glyphs_in (words self.entry.glyphs.now) }
    {
        Glyphs { rest: self.glyphs }
    }

    // The glyphs with the clusters that they open.
    pub fn entries(self) -> Entries<'a>
        ensures { entries_left result ≡ entries_in 0 (clusters_in (words self.entry.clusters.now)) (glyphs_in (words self.entry.glyphs.now)) }
    {
        Entries {
            clusters: self.clusters(),
            glyphs: self.glyphs(),
            lack: 0,
        }
    }
}

// ── walks over a run ──
// Three over chunks of 2, 8 and 16 bytes: one over the size would take a trait with a law for what a chunk says, which is longer than the three.

// The units in these bytes, one by one. A byte behind them that is no whole unit is none.
#[derive(Clone, Copy)]
pub struct Units<'a> {
    rest: &'a [u8],
}

impl<'a> Units<'a> {
    pub fn of(bytes: &'a [u8]) -> Units<'a>
        ensures { units_left result ≡ halves bytes.now }
    {
        Units { rest: bytes }
    }
}

impl<'a> Iterator for Units<'a> {
    type Item = u16;

    ghost next_gives = { YieldsFirst units_left };

    ghost remaining = { item_count units_left };

    #[tactic(auto, using(crate::proofs::Walks::steps))]
    fn next(&mut self) -> Option<u16> {
        let (unit, rest) = self.rest.split_first_chunk::<2>()?;
        self.rest = rest;
        Some(u16::from_le_bytes(*unit))
    }
}

// The clusters in these bytes, one by one. Bytes behind them that are no whole cluster are none.
#[derive(Clone, Copy)]
pub struct Clusters<'a> {
    rest: &'a [u8],
}

impl<'a> Iterator for Clusters<'a> {
    type Item = ClusterNumbers;

    ghost next_gives = { YieldsFirst clusters_left };

    ghost remaining = { item_count clusters_left };

    #[tactic(auto, using(crate::proofs::Walks::steps))]
    fn next(&mut self) -> Option<ClusterNumbers> {
        let (cluster, rest) = self.rest.split_first_chunk::<8>()?;
        self.rest = rest;
        Some(ClusterNumbers::of(cluster))
    }
}

// The glyphs, likewise.
#[derive(Clone, Copy)]
pub struct Glyphs<'a> {
    rest: &'a [u8],
}

impl<'a> Iterator for Glyphs<'a> {
    type Item = GlyphNumbers;

    ghost next_gives = { YieldsFirst glyphs_left };

    ghost remaining = { item_count glyphs_left };

    #[tactic(auto, using(crate::proofs::Walks::steps))]
    fn next(&mut self) -> Option<GlyphNumbers> {
        let (glyph, rest) = self.rest.split_first_chunk::<16>()?;
        self.rest = rest;
        Some(GlyphNumbers::of(glyph))
    }
}

// A glyph and the cluster that it opens, if any: what an entry of the indices says.
#[derive(Clone, Copy)]
pub struct EntryNumbers {
    pub cluster: Option<ClusterNumbers>,
    pub glyph: GlyphNumbers,
}

// The glyphs with the clusters that they open; a cluster's further glyphs open none, and where there is no cluster to open, the walk ends.
#[derive(Clone, Copy)]
pub struct Entries<'a> {
    clusters: Clusters<'a>,
    glyphs: Glyphs<'a>,
    // how many glyphs the open cluster lacks; a count, so 0 says by itself that none is open
    lack: usize,
}

impl<'a> Iterator for Entries<'a> {
    type Item = EntryNumbers;

    ghost next_gives = { YieldsFirst entries_left };

    ghost remaining = { item_count entries_left };

    #[tactic(auto, using(crate::proofs::Walks::no_entry), unfolding(crate::specs::Walks::entries_in))]
    fn next(&mut self) -> Option<EntryNumbers> {
        let glyph = self.glyphs.next()?;
        if let Some(lack) = self.lack.checked_sub(1) {
            self.lack = lack;
            return Some(EntryNumbers {
                cluster: None,
                glyph,
            });
        }
        let cluster = self.clusters.next()?;
        self.lack = cluster.glyph_count().saturating_sub(1);
        Some(EntryNumbers {
            cluster: Some(cluster),
            glyph,
        })
    }
}

// ── stored ──
// Each by its number in a buffer that has room: by an `octets::Output`, which tests for room and counts at each byte, letters take three times as long. Units
// and numbers have a function each: `as_chunks_mut`, which would store as `as_chunks` fetches, says nothing of the slice afterwards, and one function over both
// sizes would have a product of two unknowns in each bound.

pub fn put_unit(out: &mut [u8], j: usize, u: u16)
    requires { j < length out.old / 2 }
    ensures { out.new ≡ puts out.old (2 * j) (u % 256 ∷ u / 256 ∷ []) }
{
    let i = 2 * j;
    out[i..i + 2].copy_from_slice(&u.to_le_bytes());
}

pub fn put_number(out: &mut [u8], k: usize, v: i32)
    requires { k < length out.old / 4 }
    ensures { out.new ≡ puts out.old (4 * k) (four_bytes (bits_of v)) }
{
    let i = 4 * k;
    out[i..i + 4].copy_from_slice(&v.to_le_bytes());
}

impl ClusterNumbers {
    // As cluster n's 8 bytes.
    #[tactic(auto, using(crate::proofs::Stored::cluster_puts, crate::proofs::Signed::back))]
    pub fn put_at(self, out: &mut [u8], n: usize)
        requires { n < length out.old / 8 }
        ensures { out.new ≡ puts out.old (8 * n) (cluster_stored self) }
    {
        put_number(out, 2 * n, self.units);
        put_number(out, 2 * n + 1, self.glyphs);
    }
}

// An index's number, -1 for the font.
fn index_number(i: Index) -> i32
    ensures { result ≡ index_number i }
{
    match i {
        Index::Named(n) => i32::from(n),
        Index::Font => -1,
    }
}

// An advance's, likewise; one of more than 31 bits keeps its bits.
fn advance_number(a: Advance) -> i32
    ensures { bits_of result ≡ bits_of (advance_number a) }
{
    match a {
        Advance::Given(n) => n.cast_signed(),
        Advance::Own => -1,
    }
}

// The numbers of a glyph record, to be stored.
impl From<Glyph> for GlyphNumbers {
    ghost from_gives = { λ g n. glyph_stored n ≡ glyph_places g };

    #[tactic(auto, using(crate::proofs::Signed::back), unfolding(crate::specs::Stores::glyph_stored, crate::specs::Stores::glyph_places))]
    fn from(g: Glyph) -> GlyphNumbers {
        GlyphNumbers {
            index: index_number(g.index),
            advance: advance_number(g.advance),
            u: g.u,
            v: g.v,
        }
    }
}

impl GlyphNumbers {
    // As glyph k's 16 bytes.
    #[tactic(auto, using(crate::proofs::Stored::glyph_puts, crate::proofs::Signed::back))]
    pub fn put_at(self, out: &mut [u8], k: usize)
        requires { k < length out.old / 16 }
        ensures { out.new ≡ puts out.old (16 * k) (glyph_stored self) }
    {
        let at = 4 * k;
        put_number(out, at, self.index);
        put_number(out, at + 1, self.advance);
        put_number(out, at + 2, self.u);
        put_number(out, at + 3, self.v);
    }
}
