// The walk over the entries of the indices, and an entry's bytes: structs of their own file, since the definitions that say what they give name them.
ghost use Rattle.std.specs.Prelude.{◌≡◌, ◌+◌, ◌≤◌, ◌<◌, length};
ghost use Rattle.std.specs.Option.{ForSome};
ghost use Rattle.number.specs.Digits.{digits_from};

use crate::Item;
use number::Digits;

// An entry that was read: an index alone of so many bytes, as most are, or one that is told by all that it says. The two go apart for the speed of the former.
#[derive(Clone, Copy)]
pub enum ReadEntry {
    Index { index: u16, used: usize },
    Full(Item),
}

// The entries of the indices in order, each read, up to the first that is refused: the bytes from the next one on, where there is one, and its number.
#[derive(Clone, Copy)]
pub struct Entries<'a> {
    pub(crate) rest: Option<&'a [u8]>,
    pub(crate) number: usize,
    ghost counted: { ForSome rest (λ s. number + length s.now < 18446744073709551615) },
}

// The bytes from an entry's start on, and the digits that they begin with: the index, where the entry has no map.
#[derive(Clone, Copy)]
pub(crate) struct EntryBytes<'a> {
    pub(crate) bytes: &'a [u8],
    pub(crate) first: Digits,
    ghost leads: { first ≡ digits_from 0 bytes.now },
    ghost inside: { first.count ≤ length bytes.now },
}
