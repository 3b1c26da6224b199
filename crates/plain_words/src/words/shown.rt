// What the plain lock's words are, for whoever shows or compares them.
ghost use Rattle.std.specs.Prelude.{◌≡◌};

use super::Words;

impl Words {
    pub fn word(&self) -> u32
        ensures { result ≡ self.now.word }
    {
        self.word
    }
}
