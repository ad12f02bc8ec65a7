//! Lines of sessions, in the first protocol and in the second.

/// The sync line of two players and the line of seat 1's bid, in the first protocol and in the second.
pub const BID_OF_TWO: [(&str, &str); 2] = [
    (
        "{\"match\":\"0-1\",\"seat\":0,\"snapshot\":{\"ctx\":{\"activePlayers\":{\"0\":\"bid\",\"1\":\"bid\"},\"currentPlayer\":0,\"gameover\":null,\"numMoves\":0,\"numPlayers\":2,\"phase\":null,\"playOrder\":[0,1],\"playOrderPos\":0,\"turn\":1},\"g\":{\"common\":{\"boasts\":[0,0],\"revealed\":null},\"players\":[{\"bid\":null},null],\"secret\":null},\"log\":[],\"number\":0},\"type\":\"sync\"}",
        "{\"ctx\":{\"activePlayers\":{\"0\":\"bid\"},\"currentPlayer\":0,\"gameover\":null,\"numMoves\":0,\"numPlayers\":2,\"phase\":null,\"playOrder\":[0,1],\"playOrderPos\":0,\"turn\":1},\"entry\":{\"act\":{\"args\":null,\"kind\":\"move\",\"move\":\"bid\"},\"number\":0,\"phase\":null,\"seat\":1,\"turn\":1},\"g\":{\"common\":{\"boasts\":[0,0],\"revealed\":null},\"players\":[{\"bid\":null},null],\"secret\":null},\"number\":1,\"type\":\"update\"}",
    ),
    (
        "{\"match\":\"0-1\",\"protocol\":2,\"seat\":0,\"snapshot\":{\"ctx\":{\"activePlayers\":{\"0\":\"bid\",\"1\":\"bid\"},\"currentPlayer\":0,\"gameover\":null,\"numMoves\":0,\"numPlayers\":2,\"phase\":null,\"playOrder\":[0,1],\"playOrderPos\":0,\"turn\":1},\"g\":{\"common\":{\"boasts\":[0,0],\"revealed\":null},\"players\":[{\"bid\":null},null],\"secret\":null},\"log\":[],\"number\":0},\"type\":\"sync\"}",
        "{\"ctx\":{\"activePlayers\":{\"0\":\"bid\"}},\"entry\":{\"act\":{\"args\":null,\"kind\":\"move\",\"move\":\"bid\"},\"number\":0,\"phase\":null,\"seat\":1,\"turn\":1},\"g\":{\"gone\":[],\"put\":{}},\"number\":1,\"type\":\"change\",\"was\":0}",
    ),
];

/// The sync line of Pig and the line of seat 0's roll of 5.
pub const ROLL: [(&str, &str); 2] = [
    (
        "{\"match\":\"0-1\",\"seat\":0,\"snapshot\":{\"ctx\":{\"activePlayers\":null,\"currentPlayer\":0,\"gameover\":null,\"numMoves\":0,\"numPlayers\":2,\"phase\":null,\"playOrder\":[0,1],\"playOrderPos\":0,\"turn\":1},\"g\":{\"pot\":0,\"totals\":[0,0]},\"log\":[],\"number\":0},\"type\":\"sync\"}",
        "{\"ctx\":{\"activePlayers\":null,\"currentPlayer\":0,\"gameover\":null,\"numMoves\":1,\"numPlayers\":2,\"phase\":null,\"playOrder\":[0,1],\"playOrderPos\":0,\"turn\":1},\"entry\":{\"act\":{\"args\":[],\"kind\":\"move\",\"move\":\"roll\"},\"number\":0,\"phase\":null,\"seat\":0,\"turn\":1},\"g\":{\"pot\":5,\"totals\":[0,0]},\"number\":1,\"type\":\"update\"}",
    ),
    (
        "{\"match\":\"0-1\",\"protocol\":2,\"seat\":0,\"snapshot\":{\"ctx\":{\"activePlayers\":null,\"currentPlayer\":0,\"gameover\":null,\"numMoves\":0,\"numPlayers\":2,\"phase\":null,\"playOrder\":[0,1],\"playOrderPos\":0,\"turn\":1},\"g\":{\"pot\":0,\"totals\":[0,0]},\"log\":[],\"number\":0},\"type\":\"sync\"}",
        "{\"ctx\":{\"numMoves\":1},\"entry\":{\"act\":{\"args\":[],\"kind\":\"move\",\"move\":\"roll\"},\"number\":0,\"phase\":null,\"seat\":0,\"turn\":1},\"g\":{\"gone\":[],\"put\":{\"pot\":5}},\"number\":1,\"type\":\"change\",\"was\":0}",
    ),
];
