//! What became of random matches, in lines of text.

ghost use Rattle.std.specs.Prelude.{◌≡◌, ◌<◌, ◌≤◌};

use crate::counts::{Counts, MoveCount};
use crate::matches::{End, Played};
use game_sheet::{NoMemory, Outcome, Sheet};
use json_text::put_natural;

/// What became of some random matches. A count stays at its greatest.
#[derive(Clone, Copy)]
pub struct Report {
    /// How many matches there were.
    pub matches: u64,
    /// How many each seat has won.
    pub won: [u64; 16],
    /// How many were drawn.
    pub drawn: u64,
    /// How many ended with neither.
    pub ended: u64,
    /// In how many nobody could act.
    pub stuck: u64,
    /// How many didn't end within the tries that they had.
    pub long: u64,
    /// How many didn't begin.
    pub no_start: u64,
    /// How many actions they had in all.
    pub actions: u64,
    /// How many actions the shortest had; 0 where there was no match.
    pub shortest: u32,
    /// How many actions the longest had.
    pub longest: u32,
    /// What they made of the moves.
    pub counts: Counts,
}

impl Report {
    /// No match yet.
    pub fn new() -> Report {
        Report {
            matches: 0,
            won: [0; 16],
            drawn: 0,
            ended: 0,
            stuck: 0,
            long: 0,
            no_start: 0,
            actions: 0,
            shortest: 0,
            longest: 0,
            counts: Counts::new(),
        }
    }

    /// Adds a match.
    pub(crate) fn add(&mut self, played: Played) {
        if self.matches == 0 || played.actions < self.shortest {
            self.shortest = played.actions;
        }
        self.longest = self.longest.max(played.actions);
        self.matches = self.matches.saturating_add(1);
        self.actions = self.actions.saturating_add(u64::from(played.actions));
        self.add_end(played.end);
    }

    fn add_end(&mut self, end: End) {
        match end {
            End::Over(Outcome::Winner(seat)) => self.add_winner(seat),
            End::Over(Outcome::Draw) => self.drawn = self.drawn.saturating_add(1),
            End::Over(Outcome::Ended) => self.ended = self.ended.saturating_add(1),
            End::Stuck => self.stuck = self.stuck.saturating_add(1),
            End::Long => self.long = self.long.saturating_add(1),
            End::NoStart => self.no_start = self.no_start.saturating_add(1),
        }
    }

    fn add_winner(&mut self, seat: u8) {
        let place = seat as usize;
        if place < 16 {
            self.won[place] = self.won[place].saturating_add(1);
        }
    }

    /// Appends the report, line by line.
    pub fn put(&self, out: &mut Vec<u8>, sheet: &Sheet) -> Result<(), NoMemory> {
        put_count(out, "", self.matches, " random matches\n")?;
        self.put_ends(out, sheet)?;
        self.put_lengths(out)?;
        self.put_refusals(out)?;
        self.put_moves(out, sheet)
    }

    fn put_ends(&self, out: &mut Vec<u8>, sheet: &Sheet) -> Result<(), NoMemory> {
        self.put_winners(out, sheet.max_seats)?;
        put_count(out, "drawn: ", self.drawn, "\n")?;
        put_count(out, "ended with no winner: ", self.ended, "\n")?;
        put_count(out, "nobody could act: ", self.stuck, "\n")?;
        put_count(out, "not ended in time: ", self.long, "\n")?;
        put_count(out, "not begun: ", self.no_start, "\n")
    }

    fn put_winners(&self, out: &mut Vec<u8>, seats: u8) -> Result<(), NoMemory> {
        let mut seat = 0;
        for won in self.won {
            if seat < seats {
                put_count(out, "won by seat ", u64::from(seat), ": ")?;
                put_count(out, "", won, "\n")?;
                seat += 1;
            }
        }
        Ok(())
    }

    fn put_lengths(&self, out: &mut Vec<u8>) -> Result<(), NoMemory> {
        put_count(out, "actions: ", u64::from(self.shortest), " at least, ")?;
        put_mean(out, self.actions, self.matches)?;
        put_count(out, " on the mean, ", u64::from(self.longest), " at most\n")
    }

    fn put_refusals(&self, out: &mut Vec<u8>) -> Result<(), NoMemory> {
        let refusals = self.counts.refusals;
        put_some(out, "offered and not allowed: ", refusals.invalid)?;
        put_some(out, "offered and too early: ", refusals.early)?;
        put_some(out, "offered and too many words: ", refusals.words)?;
        put_some(out, "offered and too many events: ", refusals.events)?;
        put_some(out, "turns ended by a player: ", self.counts.ended_turns)
    }

    fn put_moves(&self, out: &mut Vec<u8>, sheet: &Sheet) -> Result<(), NoMemory> {
        let mut place = 0;
        for row in sheet.moves.as_slice() {
            if place < 64 {
                put_text(out, "move ")?;
                put_text(out, row.name.as_str())?;
                put_move(out, self.counts.moves[place])?;
                place += 1;
            }
        }
        Ok(())
    }
}

fn put_move(out: &mut Vec<u8>, count: MoveCount) -> Result<(), NoMemory> {
    if count.offered == 0 {
        return put_text(out, ": never offered\n");
    }
    put_count(out, ": offered ", count.offered, " times, made ")?;
    put_count(out, "", count.made, "\n")
}

/// Appends the mean of some counts, with one digit after the point.
fn put_mean(out: &mut Vec<u8>, sum: u64, count: u64) -> Result<(), NoMemory> {
    if count == 0 {
        return put_text(out, "0");
    }
    put_natural(out, sum / count)?;
    out.push(b'.')?;
    Ok(put_natural(out, tenths(sum % count, count))?)
}

/// The tenths of a part of a whole, rounded down.
fn tenths(part: u64, whole: u64) -> u64
    requires { 1 ≤ whole }
{
    part.saturating_mul(10) / whole
}

/// Appends a line where a count isn't 0.
fn put_some(out: &mut Vec<u8>, before: &str, count: u64) -> Result<(), NoMemory> {
    if count == 0 {
        return Ok(());
    }
    put_count(out, before, count, "\n")
}

fn put_count(out: &mut Vec<u8>, before: &str, count: u64, after: &str) -> Result<(), NoMemory> {
    put_text(out, before)?;
    put_natural(out, count)?;
    put_text(out, after)
}

fn put_text(out: &mut Vec<u8>, text: &str) -> Result<(), NoMemory> {
    Ok(out.extend_from_slice(text.as_bytes())?)
}
