//! The names by which games are known, and for how many seats each game is.

ghost use Rattle.std.specs.Prelude.{◌≡◌, ◌↔◌, ◌&&◌, nat_le, List as Items, ℕ, map, Contains, IfOk, IsSome};
ghost use Rattle.any_game.specs.AnyRules.{named};
ghost use Rattle.any_game.specs.Names.{all_names, may_open};

use game_sheet::{List, NoMemory, Text};
use std::alloc::Global;

/// The names of all games that can be had by name, in byte order. [`crate::by_name`] gives a game for each of them and for no other.
#[tactic(auto, using(crate::proofs::NameLaws::are_known))]
pub fn game_names(alloc: Global) -> Result<List<Text>, NoMemory>
    ensures names { IfOk result (λ names. names ≡ all_names) }
    ensures known { IfOk result (λ names. (name : Items ℕ) → Contains names name ↔ IsSome (named name)) }
{
    let words = [
        "blind-bid",
        "captions",
        "countdown",
        "high-hand",
        "pig",
        "tic-tac-toe",
    ];
    let names = texts_of(alloc, &words)?;
    Ok(names)
}

/// These words, each as a text of its own.
fn texts_of(alloc: Global, words: &[&str]) -> Result<List<Text>, NoMemory>
    ensures { IfOk result (λ texts. texts ≡ map (λ word. word.now) words.now) }
{
    let mut texts = List::new(alloc);
    for word in words {
        texts.push(Text::from_str(alloc, word)?)?;
    }
    Ok(texts)
}

/// Whether there is a game of this name for so many seats. It takes no memory.
#[tactic(auto, unfolding(crate::specs::Names::may_open))]
pub fn may_open(game: &str, seats: u8) -> bool
    ensures { result ≡ may_open game.now seats }
{
    if game == "tic-tac-toe" {
        is_within(2, seats, 2)
    } else if game == "countdown" {
        is_within(2, seats, 4)
    } else if game == "pig" {
        is_within(2, seats, 4)
    } else if game == "high-hand" {
        is_within(2, seats, 4)
    } else if game == "blind-bid" {
        is_within(2, seats, 8)
    } else if game == "captions" {
        is_within(2, seats, 16)
    } else {
        false
    }
}

fn is_within(least: u8, seats: u8, most: u8) -> bool
    ensures { result ≡ (nat_le least seats && nat_le seats most) }
{
    least <= seats && seats <= most
}
