// Lists the glyphs of three runs in four records, and prints each answer and the records after it.
#![tactic(auto)]

use label::{Advance, Glyph, Index};
use std::io::Write;
use std::{fmt, io};
use wire::Run;

// A record as a line prints it: index, advance, u offset and v offset.
#[derive(Clone, Copy)]
struct Shown(Glyph);

impl fmt::Display for Shown {
    fn fmt<W: fmt::Write>(&self, f: &mut fmt::Formatter<W>) -> fmt::Result {
        let Glyph {
            index,
            advance,
            u,
            v,
        } = self.0;
        match index {
            Index::Named(n) => write!(f, "{n}")?,
            Index::Font => f.write_str("font")?,
        }
        match advance {
            Advance::Given(n) => write!(f, " {n}")?,
            Advance::Own => f.write_str(" own")?,
        }
        write!(f, " {u} {v}")
    }
}

// Lists the glyphs of a run in the records, and prints the answer, `listed` and the count or `no`, number and place, and the records.
fn show<W: Write>(out: &mut W, run: Run, records: &mut [Glyph; 4]) -> io::Result<()> {
    match records::list_records(run, records) {
        Ok(n) => writeln!(out, "listed {n}")?,
        Err(x) => writeln!(out, "no {x}")?,
    }
    for record in records.iter() {
        let record = Shown(*record);
        writeln!(out, "{record}")?;
    }
    Ok(())
}

// The bytes of a run: five units; a line for each cluster of a unit and a glyph; and a line for each glyph's index, advance, u and v.
const UNITS: &[u8] = b"A\0B\0C\0D\0E\0";

const CLUSTERS: &[u8] = b"\
    \x01\0\0\0\x01\0\0\0\
    \x01\0\0\0\x01\0\0\0\
    \x01\0\0\0\x01\0\0\0\
    \x01\0\0\0\x01\0\0\0\
    \x01\0\0\0\x01\0\0\0";

const GLYPHS: &[u8] = b"\
    \xff\xff\xff\xff\xff\xff\xff\xff\0\0\0\0\0\0\0\0\
    \xc0\0\0\0\xcc\xd8\0\0\x06\xff\xff\xff\xe8\x03\0\0\
    \xff\xff\xff\xff\0\0\0\0\0\0\0\0\0\0\0\0\
    \xff\xff\xff\xff\xff\xff\xff\xff\0\0\0\0\0\0\0\0\
    \xff\xff\xff\xff\xff\xff\xff\xff\0\0\0\0\0\0\0\0";

fn main(rt: HostRuntime) -> io::Result<()> {
    let blank = Glyph {
        index: Index::Named(0),
        advance: Advance::Given(0),
        u: 0,
        v: 0,
    };
    let mut out = rt.stdout();
    let whole = Run {
        units: UNITS,
        clusters: CLUSTERS,
        glyphs: GLYPHS,
    };
    let three = Run {
        units: &UNITS[..6],
        clusters: &CLUSTERS[..24],
        glyphs: &GLYPHS[..48],
    };
    let unsound = Run {
        units: &UNITS[..4],
        ..three
    };
    let mut records = [blank; 4];
    show(&mut out, three, &mut records)?;
    show(&mut out, unsound, &mut records)?;
    show(&mut out, whole, &mut records)
}
