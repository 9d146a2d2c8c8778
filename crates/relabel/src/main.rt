// Reads a label on two lines, text and indices, and prints its counts and its normal writing, or the refusal. Asked with `--help`, it prints how it is used
// instead; so it does on standard error where it knows no such argument.
#![tactic(auto)]

ghost use Rattle.std.specs.Prelude.{take, IfSome};
ghost use Rattle.label.specs.Relabel.{relabel};
ghost use Rattle.printing.specs.Prints.{Prints};

use std::env::{Env, FillError};
use std::io;
use std::io::{Read, Write};

fn print_usage<W: Write>(out: &mut W) -> io::Result<()> {
    out.write_all(
        b"\
usage: relabel < LABEL
       relabel --help
Reads a label from standard input: its text on the first line, its indices on
the second. A line feed ends a line and is no part of it, a carriage return is
a part of it, a missing line is empty, and what follows is not looked at.
Prints `ok`, the counts of units, clusters and glyphs, and the text and the
indices in their normal writing, a line each; or `no`, the number and the place
of the refusal. Indices above 32,768 bytes are refused as 1.
",
    )
}

// Whether there is an argument.
fn has_argument(rt: &impl Env) -> bool {
    !matches!(rt.arg(1, &mut []), Err(FillError::NotPresent))
}

// Whether the first argument is `--help`. std's `arg` fills lent memory, as there is no heap, and refuses an argument of more than these 8 bytes.
fn asks_for_help(rt: &impl Env) -> bool {
    let mut word = [0u8; 8];
    match rt.arg(1, &mut word) {
        Ok(n) => &word[..n] == b"--help".as_slice(),
        Err(_) => false,
    }
}

// Prints the label of the first two lines.
fn print_first<W: Write>(out: &mut W, s: &[u8]) -> io::Result<()>
    ensures { Prints result (W.contents out.old) (W.contents out.new) (relabel s.now) }
{
    let lines = lines::two_lines(s);
    printing::print_label(out, lines.label)
}

// There is no heap: 65,536 bytes hold two lines of the lengths that are read, and show that a longer line is too long.
fn relabel_input<R: Read, W: Write>(input: &mut R, out: &mut W) -> io::Result<()>
    ensures { IfSome (R.remaining input.old) (λ bytes.
        Prints result (W.contents out.old) (W.contents out.new) (relabel (take 65536 bytes))) }
{
    let mut buffer = [0u8; 65_536];
    let n = printing::read_full(input, &mut buffer)?;
    print_first(out, &buffer[..n])
}

fn main(rt: HostRuntime) -> io::Result<()> {
    if !has_argument(&rt) {
        relabel_input(&mut rt.stdin(), &mut rt.stdout())
    } else if asks_for_help(&rt) {
        print_usage(&mut rt.stdout())
    } else {
        print_usage(&mut rt.stderr())
    }
}
