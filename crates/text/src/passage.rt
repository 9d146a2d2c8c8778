// What a text is known to be: a passage of well-formed characters, and the units of its run.
#![tactic(auto)]

ghost use Rattle.std.specs.Prelude.{◌≡◌, ◌≤◌, true, length};
ghost use Rattle.label.specs.Limits.{max_units};
ghost use Rattle.text.specs.Units.{units_from, well_formed};

// A text whose characters from byte `at` on are well-formed and may stand. The place stands beside the text, as in `Characters`, which walks it.
#[derive(Clone, Copy)]
pub struct Passage<'a> {
    pub text: &'a [u8],
    pub at: usize,
    ghost well_formed: { well_formed text.now at ≡ true },
}

// The units of a text's run: how many, and where they stand, behind `{}` where the text begins with that.
#[derive(Clone, Copy)]
pub struct TextUnits<'a> {
    pub count: usize,
    pub passage: Passage<'a>,
    ghost counted: { count ≡ length (units_from passage.text.now passage.at) },
    ghost few: { count ≤ max_units },
}
