// The plain lock. Its word agrees with where the slots stand, so the word tells who may begin to hold.
ghost use Rattle.std.specs.Prelude.{◌≡◌, ◌+◌, ◌*◌, ◌≤◌, length};
ghost use Rattle.plain_lock.specs.Counts.{readers, writers};

use plain_words::Words;

pub mod steps;

#[derive(Clone, Copy)]
pub struct PlainLock {
    words: Words,
    ghost full: { length words.table.slots ≡ 32 },
    ghost counted: { words.word ≡ 2 * readers words.table.slots + writers words.table.slots },
    ghost alone: { writers words.table.slots ≤ 1 },
}

impl PlainLock {
    pub fn words(&self) -> Words
        ensures { result ≡ self.now.words }
    {
        self.words
    }
}
