//! The words that the program is called with.

ghost use Rattle.std.specs.Prelude.{◌≡◌};
ghost use Rattle.board_commands.specs.Words.{command_by, command_of, workload_by, workload_of};

use wire_json::decimal_of;

/// The greatest number of steps of a workload.
const MOST_STEPS: u64 = 1_000_000;

/// What the words after the program's name ask for.
#[derive(Clone, Copy)]
pub enum Command {
    /// To run a script.
    Script,
    /// To run a world.
    World,
    /// To replay a journal.
    Replay,
    /// To run a workload.
    Workload {
        /// The number by which its steps draw their words.
        seed: u64,
        /// How many steps it has, 1 to 1,000,000.
        steps: u32,
    },
}

/// What words ask for; none where they are in no form.
pub fn command_of(words: &[String]) -> Option<Command>
    ensures { result ≡ command_of words.now }
{
    match words {
        [word] => command_by(word.as_bytes()),
        [word, seed, steps] => workload_by(word.as_bytes(), seed.as_str(), steps.as_str()),
        _ => None,
    }
}

/// What a word alone asks for.
fn command_by(word: &[u8]) -> Option<Command>
    ensures { result ≡ command_by word.now }
{
    if word == b"script".as_slice() {
        Some(Command::Script)
    } else if word == b"world".as_slice() {
        Some(Command::World)
    } else if word == b"replay".as_slice() {
        Some(Command::Replay)
    } else {
        None
    }
}

/// What three words ask for.
fn workload_by(word: &[u8], seed: &str, steps: &str) -> Option<Command>
    ensures { result ≡ workload_by word.now seed.now steps.now }
{
    if word == b"workload".as_slice() {
        workload_of(decimal_of(seed), decimal_of(steps))
    } else {
        None
    }
}

/// A workload of two numbers, if they are any.
fn workload_of(seed: Option<u64>, steps: Option<u64>) -> Option<Command>
    ensures { result ≡ workload_of seed steps }
{
    let seed = seed?;
    let steps = steps?;
    if 1 <= steps && steps <= MOST_STEPS {
        Some(Command::Workload {
            seed,
            steps: steps as u32,
        })
    } else {
        None
    }
}
