// The slots that stand in line are the first `len` of the table. A table with its length beside and no vector, since a line
// is copied with its lock, which is written whole, and no vector is `Copy`.
ghost use Rattle.std.specs.Prelude.{◌≡◌, ◌<◌, [], ◌∷◌, ◌++◌, length, nat_lt};
ghost use Rattle.line_table.specs.Lines.{in_line, pushed};
ghost use Rattle.lock.specs.Line.{without};

#[derive(Clone, Copy)]
pub struct Line {
    slots: [usize; 32],
    len: usize,
}

impl Line {
    pub fn empty() -> Line
        ensures { in_line result ≡ [] }
    {
        Line {
            slots: [0; 32],
            len: 0,
        }
    }

    // A slot arrives at the end; a full line stays as it is.
    pub fn push(&mut self, slot: usize)
        ensures { in_line self.new ≡ pushed slot (in_line self.old) }
    {
        if self.has_room() {
            self.append(slot);
        }
    }

    // A slot quits the line, and those behind it move up. The loop counts: it writes the table that it reads, and no method
    // keeps what passes a test in an array.
    pub fn remove(&mut self, slot: usize)
        ensures { in_line self.new ≡ without slot (in_line self.old) }
    {
        let mut len = 0;
        for i in 0..self.len.min(32) {
            let other = self.slots[i];
            self.slots[len] = other;
            if other != slot {
                len += 1;
            }
        }
        self.len = len;
    }

    fn has_room(&self) -> bool
        ensures table { result ≡ nat_lt self.now.len 32 }
        ensures line { result ≡ nat_lt (length (in_line self.now)) 32 }
    {
        self.len < 32
    }

    fn append(&mut self, slot: usize)
        requires { self.old.len < 32 }
        ensures { in_line self.new ≡ in_line self.old ++ (slot ∷ []) }
    {
        self.slots[self.len] = slot;
        self.len += 1;
    }
}
