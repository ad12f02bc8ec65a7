//! The page and the line that the program prints of itself.

ghost use Rattle.std.specs.Prelude.{◌≡◌, ◌≤◌, IsSome};
ghost use Rattle.board_links.specs.Pieces.{told_bytes};
ghost use Rattle.board_commands.specs.Page.{PageEnds, PageRaises};

use board_links::{Put, Sink};
use line_runner::Exit;

/// The page of help.
pub const HELP: &str = "board_server: matches of turn-based games

board_server serve --listen ADDRESS [--rooms 16] [--workers 8] [--links N] [--sessions COUNT] [--silence SECONDS] [--idle MINUTES] [--status ADDRESS] [--ws [--origin TEXT] [--page FOLDER]]
        [--keep FOLDER | --bots GAME --seats COUNT [--pace SECONDS]]
    serves matches over TCP, or over WebSockets, N at once or as many as workers, without end or until so many sessions are over, and reports then;
    clears a match that no session looked at for so many minutes; tells at a second address, by HTTP, what goes on; gives browsers the page in a folder;
    keeps each room in a journal in a folder, and goes on from there at the next start; with bots at all seats of a first match, fewer than N, which answer at once or after so many seconds
board_server play --connect ADDRESS --game NAME --match MATCH [--seat SEAT --key KEY] [--draw]
    plays a match by the commands on standard input: act ACT, move NAME ARGS, end turn, end stage, end phase, undo, redo, read,
    wait, show, end; and draws what is shown
board_server script
    plays the script on standard input, and prints its transcript
board_server kept FILE
    plays the script on standard input over one room, keeps its changes in a journal, and prints its transcript
board_server check FILE [--play COUNT]
    says what a description of a game takes, and plays so many random matches of it; or says why it is refused, and where
board_server ask FILE
    asks the game of a description the rows on standard input, and prints what it gives
board_server world
    plays the world on standard input, and prints its transcript
board_server replay
    says what the journal on standard input holds: its records, and the match that they make
board_server workload SEED STEPS
    plays many matches by itself, and prints in numbers what came of them
board_server --help
board_server --version
";

/// The line with the version.
pub const VERSION: &str = "board_server 0.2\n";

/// Prints a page, which is all that its run does.
pub fn print_page<K: Sink>(sink: &mut K, page: &str) -> Exit
    ensures never_falls { K.faults sink.old ≤ K.faults sink.new }
    ensures raises { PageRaises result (K.faults sink.old) (K.faults sink.new) }
    ensures told { IsSome (K.held sink.old) → PageEnds result page.now (told_bytes (K.held sink.old)) (K.held sink.new) }
{
    match sink.put(page.as_bytes()) {
        Put::Done => Exit::Done,
        Put::Failed => Exit::WriteFault,
    }
}
