//! Why the words of a command give nothing to do.

ghost use Rattle.std.specs.Prelude.{◌≡◌};
ghost use Rattle.clap.specs.Words.{kind_of};
ghost use Rattle.clap.specs.declared.error.kind.ErrorKind.TheVariants.{OutOfMemory};
ghost use Rattle.command_words.specs.declared.words_no.WordsNo.TheVariants.{Usage};

use clap::error::ErrorKind;
use game_sheet::NoMemory;
use thiserror::Error;

/// Why the words of a command give nothing to do.
#[derive(Clone, Copy, Debug, Error)]
pub enum WordsNo {
    /// There was no memory to read them.
    #[error("no memory")]
    NoMemory,
    /// They are in no form.
    #[error("usage")]
    Usage,
}

impl From<NoMemory> for WordsNo {
    ghost use Rattle.std.specs.Prelude.{◌≡◌};
    ghost use Rattle.command_words.specs.declared.words_no.WordsNo.TheVariants.{NoMemory as Starved};

    ghost from_gives = { λ _ no. no ≡ Starved };

    fn from(_error: NoMemory) -> Self {
        WordsNo::NoMemory
    }
}

/// The word for a parse that failed.
pub fn word_of(error: &clap::Error) -> WordsNo
    ensures { result ≡ Usage → kind_of error.now ≡ OutOfMemory → ⊥ }
{
    match error.kind() {
        ErrorKind::OutOfMemory => WordsNo::NoMemory,
        _ => WordsNo::Usage,
    }
}
