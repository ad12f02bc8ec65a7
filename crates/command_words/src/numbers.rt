//! Numbers among the words of a command.

ghost use Rattle.std.specs.Prelude.{◌≡◌, ◌≤◌, IfSome, option_map};
ghost use Rattle.command_words.specs.Numbers.{number_or as number_is};

use wire_json::decimal_of;

/// The number that a word writes, from `lo` to `hi`, or what stands for one that isn't said; none where the word is in no form.
pub fn number_or(word: Option<&str>, lo: u64, hi: u64, unsaid: u64) -> Option<u64>
    requires { (lo ≤ unsaid) × (unsaid ≤ hi) }
    ensures value { result ≡ number_is lo hi unsaid (option_map (λ text. text.now) word.entry) }
    ensures bounds { IfSome result (λ n. (lo ≤ n) × (n ≤ hi)) }
{
    let Some(word) = word else {
        return Some(unsaid);
    };
    let number = decimal_of(word)?;
    if lo <= number && number <= hi {
        Some(number)
    } else {
        None
    }
}
