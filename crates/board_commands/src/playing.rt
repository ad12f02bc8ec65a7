//! Plays a match of any game over a link, as the words of `play` ask for.

ghost use Rattle.std.specs.Prelude.{◌≡◌, ◌≤◌, IsSome, None, Some, map, string_bytes};
ghost use Rattle.board_links.specs.Faults.{HasRisen};
ghost use Rattle.board_links.specs.Pieces.{told_bytes};
ghost use Rattle.board_links.specs.declared.link.Stage.TheVariants as at;
ghost use Rattle.client_predict.specs.Client.{fresh};
ghost use Rattle.command_words.specs.Play.{play_from};
ghost use Rattle.command_words.specs.declared.play.PlayWords.{PlayWords as Asked};
ghost use Rattle.link_play.specs.Counts.{ExitRaises, ExitShows};
ghost use Rattle.link_play.specs.Doing.{key_of};
ghost use Rattle.link_play.specs.Ends.{AreInForm, IsComplete};
ghost use Rattle.link_play.specs.Sitting.{Tell};
ghost use Rattle.line_runner.specs.declared.exit.Exit.TheVariants.{Usage};
ghost use Rattle.board_commands.specs.Playing.{IsRefused, Plays, who_asks};

use any_game::AnyGame;
use board_links::{Link, Sink, Source};
use client_predict::Client;
use command_words::{PlayWords, WordsNo, play_words};
use game_sheet::{Key, MatchName, Viewer};
use line_runner::Exit;
use link_play::play_match;
use std::alloc::Global;
use std::sync::Wait;

/// Plays the match that the words ask for over a link: asks for its stream, and does the commands of a source. The first word is `play`.
///
/// `Usage` comes exactly where the words are in no form, and then nothing was read, written, sent or received. Where source, sink and link
/// tell what they hold, `ends` says what was printed and sent, which answers the link was asked for, and where each end comes;
/// `completes`, that lines in form over a link that doesn't end are done to their end, or there was no memory.
pub fn play<S: Source, K: Sink, L: Link, R: Wait>(
    rt: &R,
    alloc: Global,
    words: &[String],
    source: &mut S,
    sink: &mut K,
    link: &mut L,
) -> Exit
    ensures source_never_falls { S.faults source.old ≤ S.faults source.new }
    ensures sink_never_falls { K.faults sink.old ≤ K.faults sink.new }
    ensures link_never_falls { L.faults link.old ≤ L.faults link.new }
    ensures usage { result ≡ Usage → play_from (map string_bytes words.now) ≡ None }
    ensures refused { play_from (map string_bytes words.now) ≡ None → IsRefused result }
    ensures untouched_source { play_from (map string_bytes words.now) ≡ None → source.new ≡ source.old }
    ensures untouched_sink { play_from (map string_bytes words.now) ≡ None → sink.new ≡ sink.old }
    ensures untouched_link { play_from (map string_bytes words.now) ≡ None → link.new ≡ link.old }
    ensures raises { (asked : Asked) → play_from (map string_bytes words.now) ≡ Some asked
        → ExitRaises result (S.faults source.old) (S.faults source.new) (K.faults sink.old) (K.faults sink.new) (L.faults link.old) (L.faults link.new) }
    ensures shows { ExitShows result (L.stage link.new) }
    ensures ends { (asked : Asked) → play_from (map string_bytes words.now) ≡ Some asked → IsSome (S.left source.old)
        → Tell (K.held sink.old) (L.sent link.old) (L.answers link.old)
        → Plays asked.game (who_asks asked) result (told_bytes (S.left source.old)) (told_bytes (S.left source.new))
        (K.held sink.old) (L.sent link.old) (L.answers link.old) (K.held sink.new) (L.sent link.new) (L.answers link.new) }
    ensures completes { (asked : Asked) → play_from (map string_bytes words.now) ≡ Some asked → IsSome (S.left source.old)
        → Tell (K.held sink.old) (L.sent link.old) (L.answers link.old) → AreInForm (told_bytes (S.left source.old))
        → (HasRisen (S.faults source.old) (S.faults source.new) → ⊥) → (HasRisen (K.faults sink.old) (K.faults sink.new) → ⊥)
        → (HasRisen (L.faults link.old) (L.faults link.new) → ⊥) → L.stage link.new ≡ at.Open → IsComplete result }
{
    match play_words(alloc, words) {
        Ok(asked) => play_asked(rt, alloc, asked, source, sink, link),
        Err(WordsNo::Usage) => Exit::Usage,
        Err(WordsNo::NoMemory) => Exit::NoMemory,
    }
}

/// Plays the match that was asked for.
fn play_asked<S: Source, K: Sink, L: Link, R: Wait>(
    rt: &R,
    alloc: Global,
    asked: PlayWords,
    source: &mut S,
    sink: &mut K,
    link: &mut L,
) -> Exit
    ensures source_never_falls { S.faults source.old ≤ S.faults source.new }
    ensures sink_never_falls { K.faults sink.old ≤ K.faults sink.new }
    ensures link_never_falls { L.faults link.old ≤ L.faults link.new }
    ensures raises { ExitRaises result (S.faults source.old) (S.faults source.new) (K.faults sink.old) (K.faults sink.new) (L.faults link.old) (L.faults link.new) }
    ensures shows { ExitShows result (L.stage link.new) }
    ensures ends { IsSome (S.left source.old) → Tell (K.held sink.old) (L.sent link.old) (L.answers link.old)
        → Plays asked.game (who_asks asked) result (told_bytes (S.left source.old)) (told_bytes (S.left source.new))
        (K.held sink.old) (L.sent link.old) (L.answers link.old) (K.held sink.new) (L.sent link.new) (L.answers link.new) }
    ensures completes { IsSome (S.left source.old) → Tell (K.held sink.old) (L.sent link.old) (L.answers link.old) → AreInForm (told_bytes (S.left source.old))
        → (HasRisen (S.faults source.old) (S.faults source.new) → ⊥) → (HasRisen (K.faults sink.old) (K.faults sink.new) → ⊥)
        → (HasRisen (L.faults link.old) (L.faults link.new) → ⊥) → L.stage link.new ≡ at.Open → IsComplete result }
{
    let PlayWords {
        connect,
        game,
        name,
        viewer,
        draws: _,
    } = asked;
    drop(connect);
    let player = Client::new(alloc, game, key_of(&viewer));
    play_as(rt, alloc, player, name, viewer, source, sink, link)
}

/// Plays the match of this name with a client that has read nothing.
fn play_as<S: Source, K: Sink, L: Link, R: Wait>(
    rt: &R,
    alloc: Global,
    mut player: Client<AnyGame>,
    name: MatchName,
    viewer: Viewer,
    source: &mut S,
    sink: &mut K,
    link: &mut L,
) -> Exit
    requires key { player.key ≡ key_of viewer }
    requires fresh { player.client ≡ fresh }
    ensures source_never_falls { S.faults source.old ≤ S.faults source.new }
    ensures sink_never_falls { K.faults sink.old ≤ K.faults sink.new }
    ensures link_never_falls { L.faults link.old ≤ L.faults link.new }
    ensures raises { ExitRaises result (S.faults source.old) (S.faults source.new) (K.faults sink.old) (K.faults sink.new) (L.faults link.old) (L.faults link.new) }
    ensures shows { ExitShows result (L.stage link.new) }
    ensures ends { IsSome (S.left source.old) → Tell (K.held sink.old) (L.sent link.old) (L.answers link.old)
        → Plays player.game (record { name = name; viewer = viewer }) result (told_bytes (S.left source.old)) (told_bytes (S.left source.new))
        (K.held sink.old) (L.sent link.old) (L.answers link.old) (K.held sink.new) (L.sent link.new) (L.answers link.new) }
    ensures completes { IsSome (S.left source.old) → Tell (K.held sink.old) (L.sent link.old) (L.answers link.old) → AreInForm (told_bytes (S.left source.old))
        → (HasRisen (S.faults source.old) (S.faults source.new) → ⊥) → (HasRisen (K.faults sink.old) (K.faults sink.new) → ⊥)
        → (HasRisen (L.faults link.old) (L.faults link.new) → ⊥) → L.stage link.new ≡ at.Open → IsComplete result }
{
    let exit = play_match(rt, alloc, &mut player, name, viewer, source, sink, link);
    drop(player);
    exit
}

/// The key that a viewer shows; none for a spectator.
fn key_of(viewer: &Viewer) -> Option<Key>
    ensures { result ≡ key_of viewer.now }
{
    match viewer {
        Some((_, key)) => Some(*key),
        None => None,
    }
}
