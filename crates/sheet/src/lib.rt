// A sheet's labels in one call: the records of its file are found, and each label is judged where it stands in the file.
#![tactic(auto)]

ghost use Rattle.std.specs.Prelude.{◌≡◌, ◌+◌, ◌*◌, ◌/◌, ◌^◌, ◌≤◌, ◌<◌, false, length, MatchOption};
ghost use Rattle.std.specs.Iterator.{at_most};
ghost use Rattle.label.specs.Calls.{outcome_of, filled_count, numbers_after};
ghost use Rattle.label.specs.Requests.Sheet.{is_record, answer, list_room, sheet_into};
ghost use Rattle.label.specs.Steps.{labels_from};
ghost use Rattle.sheet.specs.Records.{label_of, IsRecord, GivesRecord, Opens, Accepted, answers_of};

use label::{Cause, Label, Refusal};
use octets::Output;

// ── records ──

// The label of the record that stands first, two lengths, of 2 and of 4 bytes, the text and the indices; and the bytes behind it. None: they end inside it.
#[tactic(auto, using(crate::proofs::Splits::splits))]
fn split_record(bytes: &[u8]) -> Option<(Label<'_>, &[u8])>
    ensures { MatchOption result (is_record bytes.now ≡ false) (λ p. IsRecord bytes.now p.0 p.1.now) }
{
    let (text_length, rest) = bytes.split_first_chunk::<2>()?;
    let (indices_length, rest) = rest.split_first_chunk::<4>()?;
    let (text, rest) = rest.split_at_checked(usize::from(u16::from_le_bytes(*text_length)))?;
    let (indices, rest) = rest.split_at_checked(u32::from_le_bytes(*indices_length) as usize)?;
    Some((Label { text, indices }, rest))
}

// The labels of the records that are left; none for a record in which the file ends, and behind it there are no more.
#[derive(Clone, Copy)]
struct Records<'a> {
    rest: &'a [u8],
}

impl<'a> Records<'a> {
    // Those of a file: behind the mark `SLB` and the version.
    fn of(file: &'a [u8]) -> Result<Records<'a>, Refusal>
        ensures { Opens file.now result }
    {
        match file.strip_prefix(b"SLB\x01\x00") {
            Some(rest) => Ok(Records { rest }),
            None => Err(Cause::BadSheetMark.at(0)),
        }
    }
}

impl<'a> Iterator for Records<'a> {
    type Item = Option<Label<'a>>;

    ghost next_gives = { GivesRecord };

    ghost remaining = { λ s. at_most (length s.rest.now) };

    fn next(&mut self) -> Option<Option<Label<'a>>> {
        if self.rest.is_empty() {
            return None;
        }
        match split_record(self.rest) {
            Some((label, rest)) => {
                self.rest = rest;
                Some(Some(label))
            }
            None => {
                self.rest = &[];
                Some(None)
            }
        }
    }
}

// How many labels there are: a count beside the walk, as it is the result and, where a record is cut, the number of that record.
fn count_labels(records: Records) -> Result<usize, Refusal>
    ensures { outcome_of result ≡ filled_count (labels_from 0 0 records.entry.rest.now) }
{
    let mut count = 0;
    for label in records {
        label.ok_or(Cause::CutSheet.at(count))?;
        count += 1;
    }
    Ok(count)
}

// ── answers ──

// The answer to a label: the number and the place of its refusal, 0 and 0 where it is accepted, as the answer list for C has it. No run is stored.
fn answer_to(label: Label) -> [i32; 2]
    ensures { result ≡ answer (label_of label.entry) }
{
    match survey::survey(label) {
        Ok(_) => [0, 0],
        Err(x) => [x.cause.number() as i32, x.place as i32],
    }
}

// Stores the answers to all labels, two numbers each, from the start of the list on. A file that was judged ends inside no record.
fn put_answers(records: Records, answers: &mut [u8])
    requires { Accepted records.rest.now (list_room answers.old) }
    ensures { answers.new ≡ numbers_after (answers_of records.entry.rest.now) answers.old }
{
    let mut list = Output::on(answers);
    for label in records {
        let Some(label) = label else { unreachable!() };
        let [number, place] = answer_to(label);
        list.put_bytes(&number.to_le_bytes());
        list.put_bytes(&place.to_le_bytes());
    }
}

// ── the call ──

// The answers to the labels of a sheet's file as bytes, two numbers each, where none of 25 to 27 holds.
pub fn read_sheet(file: &[u8], answers: &mut [u8]) -> Result<usize, Refusal>
    ensures result { outcome_of result ≡ filled_count (sheet_into (list_room answers.old) file.now) }
    ensures answers { answers.new ≡ numbers_after (sheet_into (list_room answers.old) file.now) answers.old }
{
    let records = Records::of(file)?;
    let labels = count_labels(records)?;
    if answers.len() / 8 < labels {
        return Err(Cause::AnswerRoom.at(labels));
    }
    put_answers(records, answers);
    Ok(2 * labels)
}
