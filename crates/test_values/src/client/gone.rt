//! Lines that make a client gone, until it reads a sync.

use crate::client::lines::{BID_OF_TWO, ROLL};
use crate::client::steps::{Move, Step, does};
use client_predict::{ActNo, Client, FeedNo, Predicted, Told};
use game_sheet::{Bye, NoMemory};
use std::alloc::Global;
use std::process::Abort;
use std::test::Fail;
use table_games::Pig;

/// Lines that are none for a client of Pig at number 0 whose action with ticket 1 waits, and why.
const LINES: [(&str, FeedNo); 13] = [
    ("{", FeedNo::BadLine),
    (
        "{\"ctx\":{\"activePlayers\":null,\"currentPlayer\":0,\"gameover\":null,\"numMoves\":1,\"numPlayers\":2,\"phase\":\"play\",\"playOrder\":[0,1],\"playOrderPos\":0,\"turn\":1},\"entry\":{\"act\":{\"args\":[],\"kind\":\"move\",\"move\":\"roll\"},\"number\":0,\"phase\":null,\"seat\":0,\"turn\":1},\"g\":{\"pot\":5,\"totals\":[0,0]},\"number\":1,\"type\":\"update\"}",
        FeedNo::BadLine,
    ),
    (
        "{\"ctx\":{\"activePlayers\":null,\"currentPlayer\":0,\"gameover\":null,\"numMoves\":1,\"numPlayers\":2,\"phase\":null,\"playOrder\":[0,1],\"playOrderPos\":0,\"turn\":1},\"entry\":{\"act\":{\"args\":[],\"kind\":\"move\",\"move\":\"roll\"},\"number\":0,\"phase\":null,\"seat\":0,\"turn\":1},\"g\":{\"pot\":-1,\"totals\":[0,0]},\"number\":7,\"type\":\"update\"}",
        FeedNo::BadLine,
    ),
    (
        "{\"ctx\":{\"activePlayers\":null,\"currentPlayer\":0,\"gameover\":null,\"numMoves\":1,\"numPlayers\":2,\"phase\":null,\"playOrder\":[0,1],\"playOrderPos\":0,\"turn\":1},\"entry\":{\"act\":{\"args\":[],\"kind\":\"move\",\"move\":\"roll\"},\"number\":0,\"phase\":null,\"seat\":0,\"turn\":1},\"g\":{\"pot\":5,\"totals\":[0,0]},\"number\":2,\"type\":\"update\"}",
        FeedNo::OutOfStep { have: 0, was: 2 },
    ),
    (
        "{\"ctx\":{\"activePlayers\":null,\"currentPlayer\":0,\"gameover\":null,\"numMoves\":1,\"numPlayers\":2,\"phase\":null,\"playOrder\":[0,1],\"playOrderPos\":0,\"turn\":1},\"entry\":{\"act\":{\"args\":[],\"kind\":\"move\",\"move\":\"roll\"},\"number\":0,\"phase\":null,\"seat\":0,\"turn\":1},\"g\":{\"pot\":5,\"totals\":[0,0]},\"number\":0,\"type\":\"update\"}",
        FeedNo::OutOfStep { have: 0, was: 0 },
    ),
    (
        "{\"ctx\":{},\"entry\":{},\"g\":{\"gone\":[],\"put\":{}},\"number\":7,\"type\":\"change\",\"was\":6}",
        FeedNo::BadLine,
    ),
    (
        "{\"ctx\":{},\"entry\":{\"act\":{\"args\":[],\"kind\":\"move\",\"move\":\"roll\"},\"number\":0,\"phase\":null,\"seat\":0,\"turn\":1},\"g\":{\"gone\":[\"pot\"],\"put\":{}},\"number\":7,\"type\":\"change\",\"was\":6}",
        FeedNo::OutOfStep { have: 0, was: 7 },
    ),
    (
        "{\"ctx\":{},\"entry\":{\"act\":{\"args\":[],\"kind\":\"move\",\"move\":\"roll\"},\"number\":0,\"phase\":null,\"seat\":0,\"turn\":1},\"g\":{\"gone\":[\"pot\"],\"put\":{}},\"number\":1,\"type\":\"change\",\"was\":0}",
        FeedNo::BadLine,
    ),
    (
        "{\"ctx\":{\"phase\":\"play\"},\"entry\":{\"act\":{\"args\":[],\"kind\":\"move\",\"move\":\"roll\"},\"number\":0,\"phase\":null,\"seat\":0,\"turn\":1},\"g\":{\"gone\":[],\"put\":{}},\"number\":1,\"type\":\"change\",\"was\":0}",
        FeedNo::BadLine,
    ),
    (
        "{\"ctx\":{},\"entry\":{\"act\":{\"args\":[],\"kind\":\"move\",\"move\":\"roll\"},\"number\":0,\"phase\":null,\"seat\":0,\"turn\":1},\"g\":{\"gone\":[],\"put\":{}},\"number\":1,\"type\":\"change\",\"was\":1}",
        FeedNo::BadLine,
    ),
    (
        "{\"number\":1,\"ticket\":2,\"type\":\"ok\"}",
        FeedNo::UnknownTicket { ticket: 2 },
    ),
    (
        "{\"number\":1,\"reason\":\"game-over\",\"ticket\":0,\"type\":\"no\"}",
        FeedNo::UnknownTicket { ticket: 0 },
    ),
    (
        "{\"ticket\":7,\"type\":\"again\"}",
        FeedNo::UnknownTicket { ticket: 7 },
    ),
];

const AGAIN: &str = "{\"ticket\":null,\"type\":\"again\"}";

/// Does the steps with a new client of Pig that has no key.
fn rolls(rt: &impl Abort, alloc: Global, steps: &[Step<'_>]) -> Result<(), NoMemory> {
    let client = Client::new(alloc, Pig::new(alloc)?, None);
    does(rt, alloc, client, steps);
    Ok(())
}

#[test]
fn a_line_that_is_none_makes_it_gone(rt: HostRuntime) -> Result<(), Fail> {
    let alloc = rt.alloc();
    let sync = ROLL[0].0;
    let others = BID_OF_TWO[0].0;
    for (line, why) in LINES {
        let steps = [
            Step::Reads(sync, Ok(Told::Synced)),
            Step::Makes(Move::Roll, Ok(Predicted::Sent)),
            Step::Reads(line, Err(why)),
            Step::Reads(AGAIN, Err(FeedNo::Gone)),
            Step::Makes(Move::Roll, Err(ActNo::Gone)),
            Step::Reads(others, Err(FeedNo::BadLine)),
            Step::Reads(sync, Ok(Told::Synced)),
            Step::Reads(AGAIN, Ok(Told::Again { ticket: None })),
        ];
        rolls(&rt, alloc, &steps)?;
    }
    Ok(())
}

#[test]
fn a_bye_and_lines_before_a_sync_make_it_gone(rt: HostRuntime) -> Result<(), Fail> {
    let alloc = rt.alloc();
    let sync = ROLL[0].0;
    let bye = "{\"type\":\"bye\",\"why\":\"left\"}";
    let left = [
        Step::Makes(Move::Roll, Err(ActNo::NotSynced)),
        Step::Reads(sync, Ok(Told::Synced)),
        Step::Reads(bye, Ok(Told::Ended(Bye::Left))),
        Step::Reads(bye, Err(FeedNo::Gone)),
        Step::Reads(sync, Ok(Told::Synced)),
    ];
    rolls(&rt, alloc, &left)?;
    for (sync, told) in ROLL {
        let early = [
            Step::Reads(told, Err(FeedNo::BadLine)),
            Step::Makes(Move::Roll, Err(ActNo::NotSynced)),
            Step::Reads(told, Err(FeedNo::Gone)),
            Step::Reads(sync, Ok(Told::Synced)),
            Step::Reads(told, Ok(Told::Updated)),
        ];
        rolls(&rt, alloc, &early)?;
    }
    Ok(())
}
