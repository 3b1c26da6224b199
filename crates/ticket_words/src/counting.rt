// A word counts readers in its upper half and writers in its lower.
ghost use Rattle.std.specs.Prelude.{◌≡◌};
ghost use Rattle.ticket_words.specs.Counting.{lower, upper, counted};

pub fn lower_half(word: u32) -> u32
    ensures { result ≡ lower word }
{
    word % 65536
}

fn upper_half(word: u32) -> u32
    ensures { result ≡ upper word }
{
    word / 65536
}

pub fn count_reader(word: u32) -> u32
    ensures readers { upper result ≡ counted (upper word) }
    ensures writers { lower result ≡ lower word }
{
    count(upper_half(word)) * 65536 + lower_half(word)
}

pub fn count_writer(word: u32) -> u32
    ensures readers { upper result ≡ upper word }
    ensures writers { lower result ≡ counted (lower word) }
{
    upper_half(word) * 65536 + count(lower_half(word))
}

fn count(half: u32) -> u32
    ensures { result ≡ counted half }
{
    half % 32768 + 1
}
