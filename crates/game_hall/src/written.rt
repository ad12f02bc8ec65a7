//! Direct answers with their lines.

ghost use Rattle.std.specs.Prelude.{◌≡◌, IfOk};
ghost use Rattle.game_hall.specs.Answers.{line_of};
ghost use Rattle.game_hall.specs.Core.{is_again};
ghost use Rattle.game_hall.specs.declared.answer.Answer.TheVariants as answer;

use crate::answer::Answer;
use crate::rows::{Rows, row_line};
use crate::short_lines::{
    again_line, asked_line, created_line, joined_line, left_line, refused_line, renamed_line,
};
use any_game::game_names;
use arrayvec::ArrayVec;
use game_sheet::{Bytes, Key, MatchName, NoMemory, Seat};
use std::alloc::Global;
use std::marker::Model;
use wire_json::{MatchRow, Refusal, put_games};

/// A direct answer whose line is finished. Contracts see the answer.
///
/// The lines of all but the games, matches and their rows stand in the value itself, and take no memory.
pub struct WrittenAnswer {
    answer: Answer,
    line: Bytes,
}

impl Drop for WrittenAnswer {
    fn drop(self) {
        let WrittenAnswer { answer, line } = self;
        drop(answer);
        drop(line);
    }
}

impl Model for WrittenAnswer {
    ghost use Rattle.std.specs.Prelude.{◌≡◌};
    ghost use Rattle.game_hall.specs.Answers.{line_of};
    ghost use Rattle.game_hall.specs.declared.answer.Answer.{Answer as Said};

    ghost Value = { Said };

    ghost view = { λ a. a.answer };

    ghost invariant = { λ a. a.line ≡ line_of a.answer };
}

impl WrittenAnswer {
    /// The names of the games.
    pub fn games(alloc: Global) -> Result<WrittenAnswer, NoMemory>
        ensures { IfOk result (λ a. a ≡ answer.Games) }
    {
        match games_line(alloc) {
            Ok(line) => Ok(WrittenAnswer {
                answer: Answer::Games,
                line: Bytes::from_vec(line),
            }),
            Err(no) => Err(no),
        }
    }

    /// The matches of a game.
    pub fn matches(rows: Rows) -> WrittenAnswer
        ensures { result ≡ answer.Matches rows }
    {
        let (rows, line) = rows.into_parts();
        WrittenAnswer {
            answer: Answer::Matches(rows),
            line: Bytes::from_vec(line),
        }
    }

    /// The match that was looked at.
    pub fn row(alloc: Global, row: MatchRow) -> Result<WrittenAnswer, NoMemory>
        ensures { IfOk result (λ a. a ≡ answer.Match row) }
    {
        match row_line(alloc, &row) {
            Ok(line) => Ok(WrittenAnswer {
                answer: Answer::Match(row),
                line: Bytes::from_vec(line),
            }),
            Err(no) => Err(no),
        }
    }

    /// A match was made.
    pub fn created(name: MatchName) -> WrittenAnswer
        ensures { result ≡ answer.Created name }
    {
        let line = short(&created_line(&name));
        WrittenAnswer {
            answer: Answer::Created { name },
            line,
        }
    }

    /// A player sits at a seat.
    pub fn joined(key: Key, name: MatchName, seat: Seat) -> WrittenAnswer
        ensures { result ≡ answer.Joined key name seat }
    {
        let line = short(&joined_line(&key, &name, seat));
        WrittenAnswer {
            answer: Answer::Joined { key, name, seat },
            line,
        }
    }

    /// A player has another name.
    pub fn renamed(name: MatchName, seat: Seat) -> WrittenAnswer
        ensures { result ≡ answer.Renamed name seat }
    {
        let line = short(&renamed_line(&name, seat));
        WrittenAnswer {
            answer: Answer::Renamed { name, seat },
            line,
        }
    }

    /// A player has left.
    pub fn left(name: MatchName, seat: Seat) -> WrittenAnswer
        ensures { result ≡ answer.Left name seat }
    {
        let line = short(&left_line(&name, seat));
        WrittenAnswer {
            answer: Answer::Left { name, seat },
            line,
        }
    }

    /// The bot at a seat was asked to leave it.
    pub fn asked(name: MatchName, seat: Seat) -> WrittenAnswer
        ensures { result ≡ answer.Asked name seat }
    {
        let line = short(&asked_line(&name, seat));
        WrittenAnswer {
            answer: Answer::Asked { name, seat },
            line,
        }
    }

    /// There was no memory for the request; an act's ticket comes back.
    pub fn again(ticket: Option<u32>) -> WrittenAnswer
        ensures { result ≡ answer.Again ticket }
    {
        WrittenAnswer {
            answer: Answer::Again { ticket },
            line: short(&again_line(ticket)),
        }
    }

    /// The request is refused.
    pub fn refused(refusal: Refusal) -> WrittenAnswer
        ensures { result ≡ answer.Refused refusal }
    {
        WrittenAnswer {
            answer: Answer::Refused(refusal),
            line: short(&refused_line(refusal)),
        }
    }

    /// Whether it says that there was no memory.
    pub fn is_again(&self) -> bool
        ensures { result ≡ is_again (Some self.now) }
    {
        match &self.answer {
            Answer::Again { .. } => true,
            _ => false,
        }
    }

    /// The line.
    pub fn into_line(self) -> Bytes
        ensures { result ≡ line_of self }
    {
        let WrittenAnswer { answer, line } = self;
        drop(answer);
        line
    }
}

/// The line of the names of the games.
fn games_line(alloc: Global) -> Result<Vec<u8>, NoMemory>
    ensures { IfOk result (λ line. line.items ≡ line_of answer.Games) }
{
    let names = game_names(alloc)?;
    let mut line = Vec::new(alloc);
    match put_games(alloc, &mut line, names.as_slice()) {
        Ok(()) => Ok(line),
        Err(no) => Err(no),
    }
}

/// The bytes of a line that stands in an array.
fn short(line: &ArrayVec<u8, 128>) -> Bytes
    ensures { result ≡ line.now.items }
{
    Bytes::short(line.as_slice())
}
