// The walk over the entries: a struct of its own file, since the definitions that say what a step does name it.
#![tactic(auto)]

ghost use Rattle.std.specs.Prelude.{◌≡◌, ◌+◌, ◌≤◌, length};
ghost use Rattle.label.specs.Limits.{max_indices_bytes, max_units};
ghost use Rattle.text.specs.Moves.{units};

use label::Cursor;
use text::Passage;

// Where the walk over the entries of a run of `count` units stands: its cursor, and the units that it has not used.
// The count is asked for beside what is ahead: in a run without units a cluster has none.
#[derive(Clone, Copy)]
pub struct Walk<'a> {
    pub count: usize,
    pub at: Cursor,
    pub ahead: Passage<'a>,
    ghost all: { count ≡ at.unit + length (units ahead) },
    ghost few_units: { count ≤ max_units },
    ghost few_entries: { at.entry ≤ max_indices_bytes + 1 },
    ghost some: { at.clusters ≤ at.entry },
}
