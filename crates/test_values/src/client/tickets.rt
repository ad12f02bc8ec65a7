//! How many actions may wait, and how their tickets count.

ghost use Rattle.std.specs.Prelude.{◌≡◌};
ghost use Rattle.client_predict.specs.Acting.{next_ticket};

use crate::client::lines::BID_OF_TWO;
use crate::client::steps::{Move, make};
use card_games::BlindBid;
use client_predict::{ActNo, Client, Predicted, Told};
use game_sheet::Key;
use game_trait::Game;
use std::alloc::Global;
use std::process::Abort;
use std::test::Fail;

/// Makes 33 moves, which are all guessed but for the last.
fn makes_many<X: Game + Drop>(rt: &impl Abort, alloc: Global, client: Client<X>) {
    let mut client = client;
    assert_eq!(rt; client.feed(BID_OF_TWO[0].0.as_bytes()), Ok(Told::Synced));
    for number in 0..32 {
        let made = make(alloc, &mut client, Move::Boast(number % 10));
        assert_eq!(rt; made, Ok(Predicted::Guessed), "{number}");
    }
    let made = make(alloc, &mut client, Move::Boast(9));
    assert_eq!(rt; made, Err(ActNo::TooManyWaiting));
    assert_eq!(rt; client.waiting(), 32);
    drop(client);
}

#[test]
fn at_most_32_actions_wait(rt: HostRuntime) -> Result<(), Fail> {
    let alloc = rt.alloc();
    let key = Key::new([0; 16]);
    let client = Client::new(alloc, BlindBid::new(alloc)?, Some(key));
    makes_many(&rt, alloc, client);
    Ok(())
}

/// After the last ticket comes the first, which no run of a test could reach.
fn tickets_begin_again()
    ensures next { next_ticket 4294967294 ≡ 4294967295 }
    ensures again { next_ticket 4294967295 ≡ 1 }
{}

#[test]
fn the_last_ticket_is_followed_by_the_first() {
    tickets_begin_again();
}
