#![tactic(auto)]
// Bytes written behind one another from the front of a lent room, as long as it holds them.
ghost use Rattle.std.specs.Prelude.{◌≡◌, ℕ, ◌≤◌, ◌<◌, [], ◌∷◌, true, false, length, take, slice_index, Some, None};

// The refusal of an output room that is too short, in a number for C.
pub const OUTPUT_ROOM: u32 = 11;

// A lent room, of which the first so many bytes are written.
#[derive(Drop)]
pub struct Output<'a> {
    room: &'a mut [u8],
    at: usize,
    ghost within: { at ≤ length room.now },
}

impl<'a> Output<'a> {
    ghost use Rattle.output.specs.Written.{Adds};

    // Nothing is written yet.
    pub fn new(room: &'a mut [u8]) -> Output<'a>
        ensures lent { result.room.ghost_name ≡ room.entry.ghost_name }
        ensures held { result.room.now ≡ room.old }
        ensures at { result.at ≡ 0 }
    {
        Output { room, at: 0 }
    }

    // How many bytes are written.
    pub fn count(&self) -> usize
        ensures { result ≡ self.now.at }
    {
        self.at
    }

    // Some bytes more, or none of them, if they are more than the room holds. Byte by byte: a copy of
    // the slice calls `memmove`, which the static libraries would then ask of whoever links them.
    pub fn put(&mut self, bytes: &[u8]) -> Option<()>
        ensures added { Adds self.old bytes.now result self.new }
        ensures stays { result ≡ None → self.new ≡ self.old }
    {
        if self.room.len() - self.at < bytes.len() {
            return None;
        }
        let from = self.at;
        for (i, b) in bytes.iter().enumerate() {
            self.room[from + i] = *b;
        }
        self.at = from + bytes.len();
        Some(())
    }

    // One byte.
    pub fn put_byte(&mut self, b: u8) -> Option<()>
        ensures added { Adds self.old (b ∷ []) result self.new }
        ensures stays { result ≡ None → self.new ≡ self.old }
    {
        self.put(&[b])
    }

    // Bytes from the front of some, as long as they are such ones and the room holds them: how many
    // these are.
    pub fn put_while<F: Fn(u8) -> bool>(&mut self, bytes: &[u8], such: F) -> usize
        requires { F.IsAlwaysCallable such }
        ensures within { result ≤ length bytes.now }
        ensures added { Adds self.old (take result bytes.now) (Some tt) self.new }
        ensures kept { (k : ℕ) → k < result → F.post such (slice_index bytes.now k) true }
        ensures stopped { result < length bytes.now → self.new.at < length self.new.room.now
            → F.post such (slice_index bytes.now result) false }
    {
        let from = self.at;
        let most = bytes.len().min(self.room.len() - from);
        for (i, b) in bytes[..most].iter().enumerate() {
            if !such(*b) {
                self.at = from + i;
                return i;
            }
            self.room[from + i] = *b;
        }
        self.at = from + most;
        most
    }
}
