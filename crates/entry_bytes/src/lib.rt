// One entry of the indices, written in its normal form.
#![tactic(auto)]

ghost use Rattle.std.specs.Prelude.{◌≡◌, cond, [], ◌∷◌, ◌+◌, ◌<◌, ◌≤◌, eqb, length};
ghost use Rattle.label.specs.Bytes.{decimal};
ghost use Rattle.label.specs.Sound.{number_index, number_advance};
ghost use Rattle.label.specs.Write.{fraction, value_bytes, advance_by, offset_by, map_bytes, index_bytes, entry_by};
ghost use Rattle.octets.specs.Outputs.{Gains};
ghost use Rattle.wire.specs.Numbers.{as_glyph};
ghost use Rattle.entry_bytes.specs.Fields.{fields};

use label::Cluster;
use octets::Output;
use wire::GlyphNumbers;

// ── numbers ──

fn put_digit(out: &mut Output, n: u32)
    requires { n < 10 }
    ensures { Gains out.old ((48 + n) ∷ []) out.new }
{
    out.put_byte(b'0' + n as u8);
}

// A number, without leading zeros: all digits but the last, then the last.
// `write!` of std, the one library that is used, gives a Result: its error, which no store here gives, would be an arm in every caller.
fn put_decimal(out: &mut Output, n: u32)
    ensures { Gains out.old (decimal n) out.new }
{
    if n < 10 {
        put_digit(out, n);
        return;
    }
    put_decimal(out, n / 10);
    put_digit(out, n % 10);
}

// The digits behind the point, without trailing zeros: by `%`, as the definition has it, here and in `put_value`.
fn put_fraction(out: &mut Output, f: u32)
    requires { f < 1000 }
    ensures { Gains out.old (fraction f) out.new }
{
    put_digit(out, f / 100);
    if f % 100 == 0 {
        return;
    }
    put_digit(out, f / 10 % 10);
    if f % 10 == 0 {
        return;
    }
    put_digit(out, f % 10);
}

// The whole part of a value that has a fraction: no lone zero.
#[tactic(auto, using(octets::proofs::Outputs::nothing))]
fn put_whole(out: &mut Output, whole: u32)
    ensures { Gains out.old (cond (eqb whole 0) [] (decimal whole)) out.new }
{
    if whole == 0 {
        return;
    }
    put_decimal(out, whole);
}

// A value in thousandths, without a sign.
fn put_value(out: &mut Output, n: u32)
    ensures { Gains out.old (value_bytes n) out.new }
{
    if n % 1000 == 0 {
        put_decimal(out, n / 1000);
        return;
    }
    put_whole(out, n / 1000);
    out.put_byte(b'.');
    put_fraction(out, n % 1000);
}

// ── fields ──

// An offset; nothing for 0.
#[tactic(auto, using(octets::proofs::Outputs::nothing), unfolding(label::specs::Write::offset_by))]
fn put_offset(out: &mut Output, n: i32)
    ensures { Gains out.old (offset_by value_bytes n) out.new }
{
    if n == 0 {
        return;
    }
    if n < 0 {
        out.put_byte(b'-');
    }
    put_value(out, n.unsigned_abs());
}

// An advance; nothing for the font's own.
#[tactic(auto, using(octets::proofs::Outputs::nothing), unfolding(label::specs::Write::advance_by))]
fn put_advance(out: &mut Output, n: i32)
    ensures { Gains out.old (advance_by value_bytes (number_advance n)) out.new }
{
    if 0 <= n {
        put_value(out, n.unsigned_abs());
    }
}

// `:b`, unless b is 1.
#[tactic(auto, using(octets::proofs::Outputs::nothing))]
fn put_colon(out: &mut Output, b: u32)
    ensures { Gains out.old (cond (eqb b 1) [] (58 ∷ decimal b)) out.new }
{
    if b == 1 {
        return;
    }
    out.put_byte(b':');
    put_decimal(out, b);
}

// The map of a cluster, `(a:b)`, unless it is 1:1 or 0:1.
#[tactic(auto, using(octets::proofs::Outputs::nothing), unfolding(label::specs::Write::map_bytes))]
fn put_map(out: &mut Output, cluster: Cluster)
    ensures { Gains out.old (map_bytes cluster.units cluster.glyphs) out.new }
{
    if cluster.units <= 1 && cluster.glyphs == 1 {
        return;
    }
    out.put_byte(b'(');
    put_decimal(out, cluster.units);
    put_colon(out, cluster.glyphs);
    out.put_byte(b')');
}

// An index with the map of its cluster; nothing for one that the font chooses.
#[tactic(auto, using(octets::proofs::Outputs::nothing), unfolding(label::specs::Write::index_bytes))]
fn put_index(out: &mut Output, cluster: Cluster, n: i32)
    ensures { Gains out.old (index_bytes cluster.units cluster.glyphs (number_index n)) out.new }
{
    if 0 <= n {
        put_map(out, cluster);
        put_decimal(out, n.unsigned_abs());
    }
}

// The fields behind the index, each behind its comma, up to the last that is not empty.
fn put_fields(out: &mut Output, advance: i32, u: i32, v: i32)
    ensures { Gains out.old (fields advance u v) out.new }
{
    if advance < 0 && u == 0 && v == 0 {
        return;
    }
    out.put_byte(b',');
    put_advance(out, advance);
    if u == 0 && v == 0 {
        return;
    }
    out.put_byte(b',');
    put_offset(out, u);
    if v == 0 {
        return;
    }
    out.put_byte(b',');
    put_offset(out, v);
}

// The entry of a glyph, with the cluster that it is written with.
pub fn put_entry(out: &mut Output, cluster: Cluster, g: GlyphNumbers)
    ensures gains { Gains out.old (entry_by value_bytes cluster.units cluster.glyphs (as_glyph g)) out.new }
    ensures bounds { length (entry_by value_bytes cluster.units cluster.glyphs (as_glyph g)) ≤ 80 }
{
    put_index(out, cluster, g.index);
    put_fields(out, g.advance, g.u, g.v);
}
