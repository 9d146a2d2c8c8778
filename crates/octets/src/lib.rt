// Bytes in memory: one looked for, and bytes stored as far as there is room.
#![tactic(auto)]

ghost use Rattle.std.specs.Prelude.{◌≡◌, [], ◌∷◌, ◌==◌, position};
ghost use Rattle.octets.specs.Outputs.{Gains};

// ── bytes, looked for ──

// Where the first byte b stands, if it does.
pub fn position_of(s: &[u8], b: u8) -> Option<usize>
    ensures { result ≡ position (λ x. x == b) s.now }
{
    s.iter().position(|x| *x == b)
}

// ── bytes, stored one behind the other as far as there is room ──

// Bytes lent to be filled, and the place behind those that are stored. A byte that finds no room is only counted, so an output without bytes counts.
#[derive(Drop)]
pub struct Output<'a> {
    pub bytes: &'a mut [u8],
    pub at: usize,
}

impl<'a> Output<'a> {
    // An output that fills these bytes from their start.
    pub fn on(bytes: &'a mut [u8]) -> Output<'a>
        ensures same { result.bytes.ghost_name ≡ bytes.entry.ghost_name }
        ensures bytes { result.bytes.now ≡ bytes.old }
        ensures start { result.at ≡ 0 }
    {
        Output { bytes, at: 0 }
    }

    // An output that stores nothing and counts. Who counts makes one, stores into it and reads `at`: three lines, where a function for all would take the
    // storing as a closure and its promise with it.
    pub fn counting() -> Output<'a>
        ensures bytes { result.bytes.now ≡ [] }
        ensures start { result.at ≡ 0 }
    {
        Output::on(&mut [])
    }

    pub fn put_byte(&mut self, b: u8)
        ensures { Gains self.old (b ∷ []) self.new }
    {
        // A copy of the place: the field would be fetched again behind the store, one instruction in a hundred of a writing. Where there is room the count
        // cannot end, so a store is not held up by the test for it.
        let at = self.at;
        if at < self.bytes.len() {
            self.bytes[at] = b;
            self.at = at + 1;
        } else {
            self.at = at.saturating_add(1);
        }
    }

    // All at once where all find room, for speed; else byte by byte: those that find room are stored, and all are counted.
    pub fn put_bytes(&mut self, s: &[u8])
        ensures { Gains self.old s.now self.new }
    {
        let at = self.at;
        if at <= self.bytes.len() && s.len() <= self.bytes.len() - at {
            self.bytes[at..at + s.len()].copy_from_slice(s);
            self.at = at + s.len();
            return;
        }
        for b in s {
            self.put_byte(*b);
        }
    }
}
