// The letters that stand for percentiles.
ghost use Rattle.std.specs.Prelude.{◌≡◌};
ghost use Rattle.ranking.specs.Letters.{percent_of};

// The percentile of a letter, if it has one.
pub fn percent_of(letter: char) -> Option<u8>
    ensures { result ≡ percent_of letter }
{
    match letter {
        'd' => Some(85),
        'a' => Some(50),
        'b' => Some(45),
        'y' => Some(45),
        'z' => Some(50),
        'u' => Some(90),
        't' => Some(50),
        _ => None,
    }
}
