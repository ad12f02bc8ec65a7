//! The words for the end of a stream.

ghost use Rattle.std.specs.Prelude.{◌≡◌};
ghost use Rattle.wire_json.specs.ByeText.{bye_text, bye_from};

use game_sheet::Bye;

/// The word that stands for it on the wire.
pub fn text_of_bye(why: Bye) -> &'static str
    ensures { result.now ≡ bye_text why }
{
    match why {
        Bye::Left => "left",
        Bye::Lagging => "lagging",
    }
}

/// The end that a word stands for.
pub fn bye_of(word: &str) -> Option<Bye>
    ensures { result ≡ bye_from word.now }
{
    match word {
        "left" => Some(Bye::Left),
        "lagging" => Some(Bye::Lagging),
        _ => None,
    }
}
