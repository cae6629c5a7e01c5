// Which disk a word names.
ghost use Rattle.std.specs.Prelude.{◌≡◌, ◌≢◌, ◌<◌, ◌^◌, ℕ, IfSome, IsNone, MatchOption, decimal};
ghost use Rattle.sdr_system.specs.Place.{IsPlace, NamesNoSize, NamesSize};

use itoa::Buffer;

/// The disk that a word names.
#[derive(Clone, Copy)]
pub enum Place<'a> {
    /// An empty disk in memory.
    Memory,
    /// A file as it is.
    File { path: &'a str },
    /// A file that is made, or lengthened with zero bytes, to so many bytes.
    Sized { path: &'a str, bytes: u64 },
}

// The number that the digits are: as it is printed, so without a leading zero or a sign.
fn number_of(digits: &str) -> Option<u64>
    ensures some { IfSome result (λ n. digits.now ≡ decimal n) }
    ensures none { IsNone result → (n : ℕ) → n < 2 ^ 64 → digits.now ≢ decimal n }
{
    let number = digits.parse::<u64>().ok()?;
    if Buffer::new().format(number) == digits {
        Some(number)
    } else {
        None
    }
}

// The path and the number behind the last `=`.
fn sized(word: &str) -> Option<(&str, u64)>
    ensures { MatchOption result (NamesNoSize word.now) (λ x. NamesSize word.now x.0.now x.1) }
{
    let (path, digits) = word.rsplit_once("=")?;
    let bytes = number_of(digits)?;
    Some((path, bytes))
}

/// The disk that a word names: `-` is an empty one in memory, `PATH=N` a file of at least N bytes,
/// and any other word is the path of a file.
pub fn place_of(word: &str) -> Place<'_>
    ensures { IsPlace word.now result }
{
    if word == "-" {
        return Place::Memory;
    }
    match sized(word) {
        Some((path, bytes)) => Place::Sized { path, bytes },
        None => Place::File { path: word },
    }
}
