// The strings of a payload, taken one by one.
ghost use Rattle.std.specs.Prelude.{◌≡◌};
ghost use Rattle.payload.specs.Cursor.{taken_at};

// A place in a payload, from which the next string is taken.
#[derive(Drop)]
pub struct Cursor {
    pub at: usize,
}

// What is found at a cursor.
#[derive(Drop)]
pub enum Taken {
    // A string: the bytes from start to end, where its nul stands; next is past the nul.
    String {
        start: usize,
        end: usize,
        next: Cursor,
    },
    // Bytes with no nul after them.
    Left,
    // Nothing.
    End,
}

impl Cursor {
    // The payload's beginning.
    pub fn new() -> Cursor
        ensures { result.at ≡ 0 }
    {
        Cursor { at: 0 }
    }

    pub fn next(self, s: &[u8]) -> Taken
        ensures { result ≡ taken_at s.now self.at }
    {
        let start = self.at;
        for i in start..s.len() {
            if s[i] == 0 {
                return Taken::String {
                    start,
                    end: i,
                    next: Cursor { at: i + 1 },
                };
            }
        }
        if start < s.len() {
            return Taken::Left;
        }
        Taken::End
    }
}
