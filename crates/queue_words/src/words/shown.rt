// What the queue lock's words are, for whoever shows or compares them.
ghost use Rattle.std.specs.Prelude.{◌≡◌};

use super::Words;

impl Words {
    pub fn tail(&self) -> Option<usize>
        ensures { result ≡ self.now.tail }
    {
        self.tail
    }

    pub fn next_writer(&self) -> Option<usize>
        ensures { result ≡ self.now.next_writer }
    {
        self.next_writer
    }

    pub fn reader_count(&self) -> u32
        ensures { result ≡ self.now.reader_count }
    {
        self.reader_count
    }
}
