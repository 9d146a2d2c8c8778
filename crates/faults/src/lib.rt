// Showing a fault: the part of a label that a refusal speaks of, as a place and as the caller's own bytes.
#![tactic(auto)]

ghost use Rattle.std.specs.Prelude.{◌≡◌, length};
ghost use Rattle.label.specs.Fault.{of_text, of_entry, fault_part, part_bytes, part_ptr};
ghost use Rattle.entry.specs.Items.{here};
ghost use Rattle.faults.specs.Faults.{text_shown, entry_shown};

use label::{Label, Part, Source};

// The text from `start` on, where that is a place of it.
fn text_from(text: &[u8], start: usize) -> Option<Part>
    ensures { result ≡ text_shown text.now start }
{
    if start < text.len() {
        Some(Part {
            source: Source::Text,
            start,
            length: text.len() - start,
        })
    } else {
        None
    }
}

// How long the entry is that the indices begin with: it ends at a `;` or where they do.
fn entry_length(indices: &[u8]) -> usize
    ensures { result ≡ length (here indices.now) }
{
    octets::position_of(indices, b';').unwrap_or(indices.len())
}

// Entry k of the indices, where there is one: no bytes are no entries, and behind each `;` is one more. The entries are counted by their `;` and not read,
// as a refused label's may be ill-formed.
fn find_entry(indices: &[u8], k: usize) -> Option<Part>
    ensures { result ≡ entry_shown indices.now k }
{
    if indices.is_empty() {
        return None;
    }
    let mut start = 0;
    for _ in 0..k {
        start += octets::position_of(&indices[start..], b';')? + 1;
    }
    Some(Part {
        source: Source::Indices,
        start,
        length: entry_length(&indices[start..]),
    })
}

// Whether the place of a refusal with this number is a byte of the text: a number and no `Cause`, as at `find_part`.
fn is_of_text(number: u32) -> bool
    ensures { result ≡ of_text number }
{
    matches!(number, 2..=4)
}

// Whether it is an entry of the indices.
fn is_of_entry(number: u32) -> bool
    ensures { result ≡ of_entry number }
{
    matches!(number, 7..=12 | 14)
}

// The part of the label that a refusal speaks of, or the empty start of the text, which document 01 gives where it speaks of none. A caller in C may hand over
// any number, so it is no `Cause`: `Cause::try_from` would refuse some, and all that is asked is in which of two ranges the number is.
#[tactic(auto, unfolding(label::specs::Fault::fault_part, crate::specs::Faults::entry_shown))]
pub fn find_part(label: Label, number: u32, place: usize) -> Part
    ensures { result ≡ fault_part label.entry.text.now label.entry.indices.now number place }
{
    let part = if is_of_text(number) {
        text_from(label.text, place)
    } else if is_of_entry(number) {
        find_entry(label.indices, place)
    } else {
        None
    };
    part.unwrap_or(Part {
        source: Source::Text,
        start: 0,
        length: 0,
    })
}

// Its bytes: the caller's own.
pub fn fault<'a>(label: Label<'a>, number: u32, place: usize) -> &'a [u8]
    ensures result_value { let part = fault_part label.entry.text.now label.entry.indices.now number place in
        result.now ≡ part_bytes label.entry.text.now label.entry.indices.now part }
    ensures own { let part = fault_part label.entry.text.now label.entry.indices.now number place in
        result.ref_ptr ≡ part_ptr label.entry.text.ref_ptr label.entry.indices.ref_ptr part }
{
    let part = find_part(label, number, place);
    let end = part.start + part.length;
    match part.source {
        Source::Text => &label.text[part.start..end],
        Source::Indices => &label.indices[part.start..end],
    }
}
