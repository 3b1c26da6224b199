// Checksums.
ghost use Rattle.std.specs.Prelude.{◌≡◌};
ghost use Rattle.lock_runs.specs.Mix.{mixed};

pub fn mix(sum: u32, word: u32) -> u32
    ensures { result ≡ mixed sum word }
{
    sum.wrapping_mul(31).wrapping_add(word)
}
