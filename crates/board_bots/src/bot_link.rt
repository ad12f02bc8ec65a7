//! The link of a bot: it answers a server's lines as a player would. For a server's door.

ghost use Rattle.std.specs.Prelude.{◌≡◌, ◌≤◌, ◌<◌, ◌∷◌, ◌++◌, [], List, Option, IfOk, IfSome, IsSome, OnErr, OnOk, None, Some, false, true, length, slice_get};
ghost use Rattle.any_game.specs.AnyRules.{any_rules};
ghost use Rattle.board_links.specs.Answers.{AreLines, CameRaises, IsWithin, OutRaises, Sends, stage_after, with_answer};
ghost use Rattle.board_links.specs.Doors.{IsFresh};
ghost use Rattle.board_links.specs.declared.link.Came.TheVariants as came;
ghost use Rattle.board_links.specs.declared.link.Stage.TheVariants as at;
ghost use Rattle.game_sheet.specs.Lines.{lines};
ghost use Rattle.bot_sitter.specs.Given.{gave_join, gave_leave, gave_sync, join_of, leave_of, sync_of};
ghost use Rattle.bot_sitter.specs.Hearing.{Hears};
ghost use Rattle.bot_sitter.specs.Sitting.{Stays, bot_seat_of, may_ask, new_sitting, step_of};
ghost use Rattle.bot_sitter.specs.declared.step.Step.TheVariants as steps;
ghost use Rattle.board_bots.specs.Bots.{ActsOn, Chooses, ChosenOn, DoesStep, GivesLine, IsChoice, IsPlay, Moment, Receives, SeesTo, came_of, last_after, moment};
ghost use Rattle.board_bots.specs.Sight.{Sees};
ghost use Rattle.board_bots.specs.declared.bot_link.Said.TheVariants as said;
ghost use Rattle.board_bots.specs.Glances.{glance_of};
ghost use Rattle.board_bots.specs.declared.glance.Glance.{Glance as Seen};

use crate::answers::Answers;
use crate::bot::Bot;
use crate::glance::Glance;
use crate::rest::Rest;
use any_game::{AnyG, AnyGame};
use board_links::{Came, Link, Out, SessionEnd, Stage};
use bot_sitter::{Sitter, Step};
use game_sheet::{Args, Bytes, Key, MatchName, MoveId, NoMemory, Number, Seat};
use game_trait::Game;
use player_sight::Snapshot;
use std::alloc::Global;
use std::sync::Wait;

/// How many bytes a line of a bot may have.
const LIMIT: u32 = 65_536;

/// The link of a bot, which sits at a match as a player does.
pub struct BotLink<R, B = Box<dyn Bot + Send>> {
    alloc: Global,
    sitter: Sitter<AnyGame>,
    bot: B,
    answers: Answers,
    stage: Stage,
    finished: Option<SessionEnd>,
    rest: R,
}

impl<B: Drop, R: Drop> Drop for BotLink<R, B> {
    fn drop(self) {
        let BotLink {
            alloc: _,
            sitter,
            bot,
            answers,
            stage: _,
            finished: _,
            rest,
        } = self;
        drop(sitter);
        drop(bot);
        drop(answers);
        drop(rest);
    }
}

/// What a receive is to answer.
#[derive(Drop)]
pub(crate) enum Said {
    /// A line.
    Line(Vec<u8>),
    /// Nothing.
    Quiet,
    /// An end.
    Ended,
}

/// What came of asking a bot.
#[derive(Drop)]
pub(crate) enum Choice {
    /// Its game offers it nothing, so it wasn't asked.
    NoOption,
    /// It was asked at this state number, and chose none.
    Passes(Number),
    /// It was asked at this state number, and chose this move.
    Plays(Number, MoveId, Args),
}

impl<B: Bot, R: Rest> BotLink<R, B> {
    /// A link whose bot is to sit at this seat of a match of this game.
    pub fn new(
        alloc: Global,
        game: AnyGame,
        name: MatchName,
        seat: Seat,
        bot: B,
        rest: R,
    ) -> Result<BotLink<R, B>, NoMemory>
        ensures sitting { IfOk result (λ l. l.sitter ≡ new_sitting game name seat) }
        ensures bot { IfOk result (λ l. (B.seen l.bot ≡ B.seen bot) × (B.chosen l.bot ≡ B.chosen bot)) }
        ensures answers { IfOk result (λ l. l.answers ≡ []) }
        ensures stage { IfOk result (λ l. l.stage ≡ at.Open) }
        ensures finished { IfOk result (λ l. l.finished ≡ None) }
        ensures fresh { IfOk result (λ l. IsFresh (⟦<BotLink<R, B> as Link>⟧.faults l) (⟦<BotLink<R, B> as Link>⟧.finished l)
            (⟦<BotLink<R, B> as Link>⟧.answers l) (⟦<BotLink<R, B> as Link>⟧.sent l)) }
        ensures sight { IfOk result (λ l. SeesTo (B.seen bot) (moment l.sitter (B.seen l.bot) (B.chosen l.bot))) }
    {
        match game.copy_game(alloc) {
            Ok(spare) => Ok(BotLink {
                alloc,
                sitter: Sitter::new(alloc, game, spare, name, seat),
                bot,
                answers: Answers::none(alloc),
                stage: Stage::Open,
                finished: None,
                rest,
            }),
            Err(no) => {
                drop(game);
                drop(bot);
                drop(rest);
                Err(no)
            }
        }
    }

    /// The answer of its next step, which is what `receive` gives.
    pub fn answer(&mut self) -> Came
        ensures receives { Receives result (moment self.old.sitter (B.seen self.old.bot) (B.chosen self.old.bot))
            (moment self.new.sitter (B.seen self.new.bot) (B.chosen self.new.bot)) }
        ensures sight { (opening : List Seen) → SeesTo opening (moment self.old.sitter (B.seen self.old.bot) (B.chosen self.old.bot))
            → SeesTo opening (moment self.new.sitter (B.seen self.new.bot) (B.chosen self.new.bot)) }
        ensures stays { Stays self.old.sitter self.new.sitter }
        ensures raises { CameRaises result 0 0 }
        ensures stage { self.new.stage ≡ stage_after result self.old.stage }
        ensures within { IsWithin 65536 result }
        ensures told { self.new.answers ≡ with_answer result self.old.answers }
        ensures finished { self.new.finished ≡ self.old.finished }
    {
        match self.say() {
            Ok(came) => came,
            Err(NoMemory) => {
                self.sitter.starve();
                Came::NoMemory
            }
        }
    }

    /// Keeps and hears what it is sent, which is what `send` does.
    pub fn hear(&mut self, bytes: &[u8]) -> Out
        requires lines { AreLines bytes.now }
        ensures hears { Hears (any_rules self.old.sitter.game) result bytes.now self.old.sitter self.new.sitter }
        ensures sight { (opening : List Seen) → SeesTo opening (moment self.old.sitter (B.seen self.old.bot) (B.chosen self.old.bot))
            → SeesTo opening (moment self.new.sitter (B.seen self.new.bot) (B.chosen self.new.bot)) }
        ensures raises { OutRaises result 0 0 }
        ensures told { Sends result bytes.now self.old.sitter.sent (Some self.new.sitter.sent) }
        ensures asked_out { self.new.sitter.asked_out ≡ self.old.sitter.asked_out }
        ensures bot_seat { IsSome (bot_seat_of self.old.sitter) → bot_seat_of self.new.sitter ≡ bot_seat_of self.old.sitter }
        ensures kept { (self.new.answers ≡ self.old.answers) × (self.new.stage ≡ self.old.stage) × (self.new.finished ≡ self.old.finished) }
    {
        self.sitter.send(bytes)
    }

    /// Gives the answer of its next step, and keeps it.
    fn say(&mut self) -> Result<Came, NoMemory>
        ensures receives { IfOk result (λ answer. Receives answer (moment self.old.sitter (B.seen self.old.bot) (B.chosen self.old.bot))
            (moment self.new.sitter (B.seen self.new.bot) (B.chosen self.new.bot))) }
        ensures sight { (opening : List Seen) → SeesTo opening (moment self.old.sitter (B.seen self.old.bot) (B.chosen self.old.bot))
            → SeesTo opening (moment self.new.sitter (B.seen self.new.bot) (B.chosen self.new.bot)) }
        ensures stays { Stays self.old.sitter self.new.sitter }
        ensures told { IfOk result (λ answer. self.new.answers ≡ with_answer answer self.old.answers) }
        ensures untold { OnErr result (self.new.answers ≡ self.old.answers) }
        ensures stage { IfOk result (λ answer. self.new.stage ≡ stage_after answer self.old.stage) }
        ensures unstaged { OnErr result (self.new.stage ≡ self.old.stage) }
        ensures within { IfOk result (IsWithin 65536) }
        ensures raises { IfOk result (λ answer. CameRaises answer 0 0) }
        ensures finished { self.new.finished ≡ self.old.finished }
    {
        let said = self.next()?;
        tell(self.alloc, said, &mut self.answers, &mut self.stage)
    }

    /// Makes its next step.
    fn next(&mut self) -> Result<Said, NoMemory>
        ensures does { IfOk result (λ said. DoesStep (step_of self.old.sitter) (moment self.old.sitter (B.seen self.old.bot) (B.chosen self.old.bot)) (came_of said)
            (moment self.new.sitter (B.seen self.new.bot) (B.chosen self.new.bot))) }
        ensures sight { (opening : List Seen) → SeesTo opening (moment self.old.sitter (B.seen self.old.bot) (B.chosen self.old.bot))
            → SeesTo opening (moment self.new.sitter (B.seen self.new.bot) (B.chosen self.new.bot)) }
        ensures stays { Stays self.old.sitter self.new.sitter }
        ensures kept { (self.new.answers ≡ self.old.answers) × (self.new.stage ≡ self.old.stage) × (self.new.finished ≡ self.old.finished) }
    {
        let step = self.sitter.step();
        self.take(step)
    }

    fn take(&mut self, step: Step) -> Result<Said, NoMemory>
        requires asked { step ≡ steps.Ask → (self.old.sitter.starved ≡ false) × (may_ask self.old.sitter.last self.old.sitter.client ≡ true) }
        ensures does { IfOk result (λ said. DoesStep step (moment self.old.sitter (B.seen self.old.bot) (B.chosen self.old.bot)) (came_of said)
            (moment self.new.sitter (B.seen self.new.bot) (B.chosen self.new.bot))) }
        ensures sight { (opening : List Seen) → SeesTo opening (moment self.old.sitter (B.seen self.old.bot) (B.chosen self.old.bot))
            → SeesTo opening (moment self.new.sitter (B.seen self.new.bot) (B.chosen self.new.bot)) }
        ensures stays { Stays self.old.sitter self.new.sitter }
        ensures kept { (self.new.answers ≡ self.old.answers) × (self.new.stage ≡ self.old.stage) × (self.new.finished ≡ self.old.finished) }
    {
        match step {
            Step::Starve => Err(NoMemory),
            Step::End => Ok(Said::Ended),
            Step::Rest => Ok(self.quiet()),
            Step::Leave(key) => give_leave(&mut self.sitter, key),
            Step::Join => give_join(&mut self.sitter),
            Step::Sync(key) => give_sync(&mut self.sitter, key),
            Step::Ask => self.ask(),
        }
    }

    /// One rest.
    fn quiet(&mut self) -> Said
        ensures quiet { result ≡ said.Quiet }
        ensures same { (self.new.sitter ≡ self.old.sitter) × (B.seen self.new.bot ≡ B.seen self.old.bot) × (B.chosen self.new.bot ≡ B.chosen self.old.bot) }
        ensures kept { (self.new.answers ≡ self.old.answers) × (self.new.stage ≡ self.old.stage) × (self.new.finished ≡ self.old.finished) }
    {
        self.rest.rest();
        Said::Quiet
    }

    /// Asks the bot, and makes the act that it chose.
    fn ask(&mut self) -> Result<Said, NoMemory>
        requires asked { (self.old.sitter.starved ≡ false) × (may_ask self.old.sitter.last self.old.sitter.client ≡ true) }
        ensures does { IfOk result (λ said. DoesStep steps.Ask (moment self.old.sitter (B.seen self.old.bot) (B.chosen self.old.bot)) (came_of said)
            (moment self.new.sitter (B.seen self.new.bot) (B.chosen self.new.bot))) }
        ensures sight { (opening : List Seen) → SeesTo opening (moment self.old.sitter (B.seen self.old.bot) (B.chosen self.old.bot))
            → SeesTo opening (moment self.new.sitter (B.seen self.new.bot) (B.chosen self.new.bot)) }
        ensures stays { Stays self.old.sitter self.new.sitter }
        ensures kept { (self.new.answers ≡ self.old.answers) × (self.new.stage ≡ self.old.stage) × (self.new.finished ≡ self.old.finished) }
    {
        match ask_bot(self.alloc, &self.sitter, &mut self.bot)? {
            Choice::NoOption => Ok(self.quiet()),
            Choice::Passes(number) => {
                self.sitter.asks_at(number);
                Ok(self.quiet())
            }
            Choice::Plays(number, id, args) => give_act(&mut self.sitter, number, id, args),
        }
    }
}

/// Gives an answer, and keeps it.
fn tell(
    alloc: Global,
    said: Said,
    answers: &mut Answers,
    stage: &mut Stage,
) -> Result<Came, NoMemory>
    ensures receives { IfOk result (λ answer. (m after : Moment) → DoesStep (step_of m.sitting) m (came_of said) after → Receives answer m after) }
    ensures told { IfOk result (λ answer. answers.new ≡ with_answer answer answers.old) }
    ensures untold { OnErr result (answers.new ≡ answers.old) }
    ensures stage { IfOk result (λ answer. stage.new ≡ stage_after answer stage.old) }
    ensures unstaged { OnErr result (stage.new ≡ stage.old) }
    ensures within { IfOk result (IsWithin 65536) }
    ensures raises { IfOk result (λ answer. CameRaises answer 0 0) }
{
    match said {
        Said::Quiet => {
            answers.quiet()?;
            *stage = Stage::Open;
            Ok(Came::Quiet)
        }
        Said::Ended => {
            answers.ended()?;
            *stage = Stage::Ended;
            Ok(Came::Ended)
        }
        Said::Line(line) => {
            let line = keep_line(alloc, answers, line)?;
            *stage = Stage::Open;
            Ok(Came::Line(line))
        }
    }
}

/// Gives the line that leaves the seat.
fn give_leave(sitter: &mut Sitter<AnyGame>, key: Key) -> Result<Said, NoMemory>
    ensures gives { IfOk result (λ said. GivesLine (leave_of sitter.old key) (came_of said) × (sitter.new ≡ gave_leave sitter.old)) }
    ensures stays { Stays sitter.old sitter.new }
    ensures last { sitter.new.last ≡ sitter.old.last }
{
    let line = sitter.leave(key)?;
    sitter.leaves();
    Ok(Said::Line(line))
}

/// Gives the line that joins the seat.
fn give_join(sitter: &mut Sitter<AnyGame>) -> Result<Said, NoMemory>
    ensures gives { IfOk result (λ said. GivesLine (join_of sitter.old) (came_of said) × (sitter.new ≡ gave_join sitter.old)) }
    ensures stays { Stays sitter.old sitter.new }
    ensures last { sitter.new.last ≡ sitter.old.last }
{
    let line = sitter.join()?;
    sitter.joins();
    Ok(Said::Line(line))
}

/// Gives the line that asks for the stream.
fn give_sync(sitter: &mut Sitter<AnyGame>, key: Key) -> Result<Said, NoMemory>
    ensures gives { IfOk result (λ said. GivesLine (sync_of sitter.old key) (came_of said) × (sitter.new ≡ gave_sync sitter.old)) }
    ensures stays { Stays sitter.old sitter.new }
    ensures last { sitter.new.last ≡ sitter.old.last }
{
    let line = sitter.sync(key)?;
    sitter.syncs();
    Ok(Said::Line(line))
}

/// Gives the line of the act that was chosen at a state number.
fn give_act(
    sitter: &mut Sitter<AnyGame>,
    number: Number,
    id: MoveId,
    args: Args,
) -> Result<Said, NoMemory>
    ensures acts { IfOk result (λ said. ActsOn sitter.old number id args said sitter.new) }
    ensures stays { Stays sitter.old sitter.new }
    ensures last { sitter.new.last ≡ Some number }
{
    sitter.asks_at(number);
    let line = sitter.act(id, &args);
    drop(args);
    let line = line?;
    Ok(Said::Line(line))
}

/// Keeps a line that is answered.
fn keep_line(alloc: Global, answers: &mut Answers, line: Vec<u8>) -> Result<Bytes, NoMemory>
    ensures line { IfOk result (λ bytes. bytes ≡ line.items) }
    ensures within { IfOk result (λ bytes. length bytes ≤ 65536) }
    ensures told { OnOk result (answers.new ≡ answers.old ++ came.Line line.items ∷ []) }
    ensures untold { OnErr result (answers.new ≡ answers.old) }
{
    if line.len() > LIMIT as usize {
        return Err(NoMemory);
    }
    let copy = Vec::from_slice(alloc, line.as_slice())?;
    answers.line(copy)?;
    Ok(Bytes::from_vec(line))
}

/// Asks a bot for one of the options that its game offers it, if there are any.
fn ask_bot<B: Bot>(alloc: Global, sitter: &Sitter<AnyGame>, bot: &mut B) -> Result<Choice, NoMemory>
    requires asked { (sitter.now.starved ≡ false) × (may_ask sitter.now.last sitter.now.client ≡ true) }
    ensures chooses { IfOk result (λ choice. Chooses choice sitter.now (B.seen bot.old) (B.chosen bot.old) (B.seen bot.new) (B.chosen bot.new)) }
    ensures unchanged { OnErr result ((B.seen bot.new ≡ B.seen bot.old) × (B.chosen bot.new ≡ B.chosen bot.old)) }
    ensures sight { IfOk result (λ choice. (opening : List Seen) → SeesTo opening (moment sitter.now (B.seen bot.old) (B.chosen bot.old))
        → Sees (any_rules sitter.now.game) opening (lines sitter.now.sent) (last_after choice sitter.now.last) (B.seen bot.new)) }
{
    let Some(settled) = sitter.settled() else {
        return Err(NoMemory);
    };
    let options = sitter.options(settled)?;
    let chosen = choose(alloc, sitter.game(), bot, settled, options.as_slice());
    drop(options);
    chosen
}

/// Asks a bot for one of some options, if there are any, and copies it.
fn choose<B: Bot>(
    alloc: Global,
    game: &AnyGame,
    bot: &mut B,
    settled: &Snapshot<AnyG>,
    options: &[(MoveId, Args)],
) -> Result<Choice, NoMemory>
    ensures chooses { IfOk result (λ choice. ChosenOn settled.now options.now choice (B.seen bot.old) (B.chosen bot.old) (B.seen bot.new) (B.chosen bot.new)) }
    ensures unchanged { OnErr result ((B.seen bot.new ≡ B.seen bot.old) × (B.chosen bot.new ≡ B.chosen bot.old)) }
{
    if options.is_empty() {
        return Ok(Choice::NoOption);
    }
    if options.len() > u32::MAX as usize {
        return Err(NoMemory);
    }
    let glance = glance(alloc, game, settled)?;
    let number = settled.number;
    let place = bot.choose(glance, options)?;
    Ok(choice_at(options, number, place))
}

/// What was chosen of some options at a state number.
fn choice_at(options: &[(MoveId, Args)], number: Number, place: Option<u32>) -> Choice
    requires some { 1 ≤ length options.now }
    requires there { IfSome place (λ place. place < length options.now) }
    ensures { IsChoice options.now number place result }
{
    match place {
        None => Choice::Passes(number),
        Some(place) => play_at(options, number, place),
    }
}

/// The option at a place, which was chosen at a state number.
fn play_at(options: &[(MoveId, Args)], number: Number, place: u32) -> Choice
    requires { place < length options.now }
    ensures { IsPlay (slice_get options.now place) number result }
{
    let Some((id, args)) = options.get(place as usize) else {
        unreachable!();
    };
    Choice::Plays(number, *id, args.copy())
}

/// What a bot is shown of a snapshot.
fn glance(alloc: Global, game: &AnyGame, settled: &Snapshot<AnyG>) -> Result<Glance, NoMemory>
    ensures { IfOk result (λ glance. glance ≡ glance_of settled.now) }
{
    let ctx = settled.ctx.copy(alloc)?;
    match game.copy(alloc, &settled.g) {
        Ok(g) => Ok(Glance {
            number: settled.number,
            ctx,
            g,
        }),
        Err(NoMemory) => {
            drop(ctx);
            Err(NoMemory)
        }
    }
}

impl<B: Bot, R: Rest> Link for BotLink<R, B> {
    ghost use Rattle.std.specs.Prelude.{Some, true};
    ghost use Rattle.bot_sitter.specs.Sitting.{bot_seat_of};

    ghost answers = { λ l. Some l.answers };

    ghost sent = { λ l. Some l.sitter.sent };

    ghost faults = { λ _. 0 };

    ghost stage = { λ l. l.stage };

    ghost limit = { λ _. 65536 };

    ghost clear = { λ _. true };

    ghost finished = { λ l. l.finished };

    ghost is_bot = { λ _. true };

    ghost bot_seat = { λ l. bot_seat_of l.sitter };

    ghost asked_out = { λ l. l.sitter.asked_out };

    fn limit(&self) -> u32 {
        LIMIT
    }

    fn receive<W: Wait>(&mut self, _rt: &W) -> Came
        ensures receives { Receives result (moment self.old.sitter (B.seen self.old.bot) (B.chosen self.old.bot))
            (moment self.new.sitter (B.seen self.new.bot) (B.chosen self.new.bot)) }
        ensures sight { (opening : List Seen) → SeesTo opening (moment self.old.sitter (B.seen self.old.bot) (B.chosen self.old.bot))
            → SeesTo opening (moment self.new.sitter (B.seen self.new.bot) (B.chosen self.new.bot)) }
        ensures stays { Stays self.old.sitter self.new.sitter }
        ensures raises { CameRaises result 0 0 }
        ensures stage { self.new.stage ≡ stage_after result self.old.stage }
        ensures within { IsWithin 65536 result }
        ensures told { self.new.answers ≡ with_answer result self.old.answers }
        ensures finished { self.new.finished ≡ self.old.finished }
    {
        self.answer()
    }

    fn send<W: Wait>(&mut self, _rt: &W, bytes: &[u8]) -> Out
        requires lines { AreLines bytes.now }
        ensures hears { Hears (any_rules self.old.sitter.game) result bytes.now self.old.sitter self.new.sitter }
        ensures sight { (opening : List Seen) → SeesTo opening (moment self.old.sitter (B.seen self.old.bot) (B.chosen self.old.bot))
            → SeesTo opening (moment self.new.sitter (B.seen self.new.bot) (B.chosen self.new.bot)) }
        ensures raises { OutRaises result 0 0 }
        ensures told { Sends result bytes.now self.old.sitter.sent (Some self.new.sitter.sent) }
        ensures asked_out { self.new.sitter.asked_out ≡ self.old.sitter.asked_out }
        ensures bot_seat { IsSome (bot_seat_of self.old.sitter) → bot_seat_of self.new.sitter ≡ bot_seat_of self.old.sitter }
        ensures kept { (self.new.answers ≡ self.old.answers) × (self.new.stage ≡ self.old.stage) × (self.new.finished ≡ self.old.finished) }
    {
        self.hear(bytes)
    }

    fn flush(&mut self) -> bool {
        true
    }

    fn finish(&mut self, end: SessionEnd) {
        self.finished = Some(end);
    }

    fn bot_seat(&self) -> Option<(MatchName, Seat)> {
        self.sitter.bot_seat()
    }

    fn ask_out(&mut self) {
        self.sitter.ask_out();
    }
}
