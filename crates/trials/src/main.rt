// Reads labels, each on two lines, from the first 1,048,576 bytes of the input, and prints for each what `relabel` prints.
#![tactic(auto)]

ghost use Rattle.std.specs.Prelude.{length};
ghost use Rattle.lines.specs.Labels.{printed_labels};
ghost use Rattle.printing.specs.Prints.{Prints};

use lines::Labels;
use std::io;
use std::io::Write;

// Prints every label of the input.
fn print_labels<W: Write>(out: &mut W, input: &[u8]) -> io::Result<()>
    ensures { Prints result (W.contents out.old) (W.contents out.new) (printed_labels (length input.now) input.now) }
{
    for label in (Labels { rest: input }) {
        printing::print_label(out, label)?;
    }
    Ok(())
}

fn main(rt: HostRuntime) -> io::Result<()> {
    // There is no heap, so at most this much of the input is read.
    let mut input = [0u8; 1_048_576];
    let n = printing::read_full(&mut rt.stdin(), &mut input)?;
    print_labels(&mut rt.stdout(), &input[..n])
}
