//! Which part of the program its words are for.

ghost use Rattle.std.specs.Prelude.{◌≡◌};
ghost use Rattle.board_commands.specs.Modes.{mode_alone, mode_by, mode_of};

/// A part of the program.
#[derive(Clone, Copy)]
pub enum Mode {
    /// The page of help.
    Help,
    /// The line with the version.
    Version,
    /// To serve matches.
    Serve,
    /// To play a match.
    Play,
    /// To run a script over a room whose changes are kept.
    Kept,
    /// To say what a description of a game takes.
    Check,
    /// To ask a described game rows.
    Ask,
    /// To run what is read.
    Run,
}

/// Which part the words after the program's name are for: that of the first word, a page where it is alone and asks for one, and else what
/// runs by what it reads.
pub fn mode_of(words: &[String]) -> Mode
    ensures { result ≡ mode_of words.now }
{
    match words {
        [] => Mode::Run,
        [word] => mode_alone(word.as_bytes()),
        [word, ..] => mode_by(word.as_bytes()),
    }
}

/// Which part a word alone is for.
fn mode_alone(word: &[u8]) -> Mode
    ensures { result ≡ mode_alone word.now }
{
    if word == b"--help".as_slice() || word == b"-h".as_slice() {
        Mode::Help
    } else if word == b"--version".as_slice() {
        Mode::Version
    } else {
        mode_by(word)
    }
}

/// Which part a first word is for.
fn mode_by(word: &[u8]) -> Mode
    ensures { result ≡ mode_by word.now }
{
    if word == b"serve".as_slice() {
        Mode::Serve
    } else if word == b"play".as_slice() {
        Mode::Play
    } else if word == b"kept".as_slice() {
        Mode::Kept
    } else if word == b"check".as_slice() {
        Mode::Check
    } else if word == b"ask".as_slice() {
        Mode::Ask
    } else {
        Mode::Run
    }
}
