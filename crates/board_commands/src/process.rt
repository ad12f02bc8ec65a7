//! The words that the program is called with.

ghost use Rattle.std.specs.Prelude.{◌≡◌, drop};

/// The words after the program's name.
pub fn after_name(words: &[String]) -> &[String]
    ensures { result.now ≡ drop 1 words.now }
{
    match words {
        [] => words,
        [_, rest @ ..] => rest,
    }
}
