// What the programs share: a read of their input into lent memory; and the printing of what comes of a label: `ok`, its counts and its two normal lines; or
// `no`, the refusal's number and place.
#![tactic(auto)]

ghost use Rattle.std.specs.Prelude.{◌≡◌, ◌≤◌, ◌<◌, length, take, IfOk};
ghost use Rattle.label.specs.Cause.{cause_number};
ghost use Rattle.label.specs.Outcome.{no};
ghost use Rattle.label.specs.Relabel.{printed, relabel_read};
ghost use Rattle.printing.specs.Prints.{Prints};
ghost use Rattle.printing.specs.Lines.{counts_line, line_of, run_lines};
ghost use Rattle.std.specs.Io.KnownBytes.{Consumes, IsAtEnd};

use label::{Counts, Label, Limits, Refusal};
use std::io;
use std::io::{Read, Write};

// Reads until buf is full or the input ends, and gives how many bytes it put at its start: lent memory, as for std's `read`, as there is no heap.
pub fn read_full<R: Read>(input: &mut R, buf: &mut [u8]) -> io::Result<usize>
    ensures bound { IfOk result (λ n. n ≤ length buf.new) }
    ensures bytes { IfOk result (λ n. Consumes (R.remaining input.old) (R.remaining input.new) (take n buf.new)) }
    ensures end { IfOk result (λ n. n < length buf.new → IsAtEnd (R.remaining input.new)) }
{
    // Each read gives as many bytes as it likes, so the place is counted on by that and no range gives it.
    let mut done = 0;
    while done < buf.len() {
        let n = input.read(&mut buf[done..])?;
        if n == 0 {
            break;
        }
        done += n;
    }
    Ok(done)
}

fn print_counts<W: Write>(out: &mut W, counts: Counts) -> io::Result<()>
    ensures { Prints result (W.contents out.old) (W.contents out.new) (counts_line counts) }
{
    let Counts {
        units,
        clusters,
        glyphs,
    } = counts;
    writeln!(out, "ok {units} {clusters} {glyphs}")
}

// A line's bytes need not be UTF-8, so they are no `&str` for `writeln!`.
fn print_line<W: Write>(out: &mut W, s: &[u8]) -> io::Result<()>
    ensures { Prints result (W.contents out.old) (W.contents out.new) (line_of s.now) }
{
    out.write_all(s)?;
    out.write_all(b"\n")
}

fn print_refusal<W: Write>(out: &mut W, x: Refusal) -> io::Result<()>
    ensures { Prints result (W.contents out.old) (W.contents out.new) (printed (no (cause_number x.cause) x.place)) }
{
    writeln!(out, "no {x}")
}

// The first n bytes, or all where there are fewer: how much of an array of fixed size is written, as there is no heap.
fn part(s: &[u8], n: usize) -> &[u8]
    ensures { result.now ≡ take n s.now }
{
    &s[..n.min(s.len())]
}

// A run's counts, and the label that is its normal writing.
fn print_run<W: Write>(out: &mut W, counts: Counts, normal: Label) -> io::Result<()>
    ensures { Prints result (W.contents out.old) (W.contents out.new) (run_lines counts normal.entry.text.now normal.entry.indices.now) }
{
    print_counts(out, counts)?;
    print_line(out, normal.text)?;
    print_line(out, normal.indices)
}

// Prints what `relabel` prints of a label of two lines.
pub fn print_label<W: Write>(out: &mut W, label: Label) -> io::Result<()>
    ensures { Prints result (W.contents out.old) (W.contents out.new) (printed (relabel_read label.entry.text.now label.entry.indices.now)) }
{
    // There is no heap: arrays that hold every writing.
    let mut out_text = [0u8; Limits::TEXT_BYTES];
    let mut out_indices = [0u8; Limits::INDICES_BYTES];
    match lines::relabel(label, &mut out_text, &mut out_indices) {
        Ok(x) => {
            let normal = Label {
                text: part(&out_text, x.written.text),
                indices: part(&out_indices, x.written.indices),
            };
            print_run(out, x.read, normal)
        }
        Err(x) => print_refusal(out, x),
    }
}
