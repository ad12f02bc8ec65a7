//! High Hand for two to four seats.

ghost use Rattle.std.specs.Prelude.{◌≡◌, ◌<◌, ◌≤◌, ◌∷◌, ◌++◌, ℕ, List as Items, [], length, remove, slice_get, unwrap_or, option_map, IfOk, IsPermutation, None, OnOk, Some};
ghost use Rattle.card_games.specs.HighHand.{after_turn, are_empty, before_draws, card_end, card_offers, draw, draw_to, hand_of, have_places, high_hand_sheet, is_clear, is_free, is_full, is_played, laid, lay, lay_card, lay_down, lay_from, lay_offers, lays, opened, point_at, scored, with_deck, with_hand};
ghost use Rattle.card_games.specs.Pack.{pack};
ghost use Rattle.card_games.specs.Parts.{read_state};
ghost use Rattle.dice_words.specs.Dice.{shuffled};
ghost use Rattle.dice_words.specs.Strip.{Follows};
ghost use Rattle.game_trait.specs.Gives.{Gives, Opens};
ghost use Rattle.serde_json.specs.View.{view};

use crate::cards::{CardTable, Deck, Hand};
use crate::dealt::Dealt;
use crate::greatest::{first_greatest, one_greatest};
use crate::lists::{changed, copied_split, with_entry};
use crate::parts::Part;
use dice_words::Tape;
use game_sheet::{
    Arg, Args, Ctx, EventKind, EventQueue, List, MoveId, MoveRow, NoMemory, Order, Outcome,
    PhaseId, PhaseRow, Seat, Sheet, Text, TurnRow, unbroken,
};
use game_trait::{Game, Halt, HookHalt, may_be_offered};
use open_game::{blank_sheet, kept_if};
use secret_strip::{CopyPart, Split};
use serde_json::Value;
use std::alloc::Global;
use std::marker::Model;

/// The state: the table for everybody, a hand for each seat alone, and the deck for nobody.
pub type Cards = Split<CardTable, Deck, Hand>;

/// The 52 cards.
pub(crate) const PACK: [u8; 52] = [
    0, 1, 2, 3, 4, 5, 6, 7, 8, 9, 10, 11, 12, 13, 14, 15, 16, 17, 18, 19, 20, 21, 22, 23, 24, 25,
    26, 27, 28, 29, 30, 31, 32, 33, 34, 35, 36, 37, 38, 39, 40, 41, 42, 43, 44, 45, 46, 47, 48, 49,
    50, 51,
];

/// The game, which holds its sheet. Contracts see the deck that it deals, if that isn't shuffled.
#[derive(Drop)]
pub struct HighHand {
    sheet: Sheet,
    deck: Option<Dealt>,
}

impl Model for HighHand {
    ghost use Rattle.std.specs.Prelude.{◌≡◌, Option};
    ghost use Rattle.card_games.specs.HighHand.{high_hand_sheet};
    ghost use Rattle.card_games.specs.declared.dealt.Dealt.{Dealt};

    ghost Value = { Option Dealt };

    ghost view = { λ game. game.deck };

    ghost invariant = { λ game. game.sheet ≡ high_hand_sheet };
}

impl HighHand {
    /// The game with a shuffled deck.
    pub fn new(alloc: Global) -> Result<Self, NoMemory>
        ensures { IfOk result (λ game. game ≡ None) }
    {
        let sheet = make_sheet(alloc)?;
        Ok(HighHand { sheet, deck: None })
    }

    /// The game with a deck of the 52 cards in the order in which they are dealt. It draws no word.
    pub fn dealt(alloc: Global, deck: Vec<u8>) -> Result<Self, NoMemory>
        requires { IsPermutation pack deck.items }
        ensures { IfOk result (λ game. option_map (λ dealt. dealt.cards) game ≡ Some deck.items) }
    {
        let sheet = make_sheet(alloc)?;
        Ok(HighHand {
            sheet,
            deck: Some(Dealt::of(deck)),
        })
    }

    /// The same game.
    pub fn copy_game(&self, alloc: Global) -> Result<Self, NoMemory>
        ensures { IfOk result (λ game. game ≡ self.now) }
    {
        let deck = self.copied_deck(alloc)?;
        let sheet = make_sheet(alloc)?;
        Ok(HighHand { sheet, deck })
    }

    /// The deck that the game deals, if it isn't shuffled.
    fn copied_deck(&self, alloc: Global) -> Result<Option<Dealt>, NoMemory>
        ensures { IfOk result (λ deck. deck ≡ self.now) }
    {
        match &self.deck {
            Some(deck) => Ok(Some(deck.copy(alloc)?)),
            None => Ok(None),
        }
    }
}

/// The sheet: two moves, and a phase for each.
fn make_sheet(alloc: Global) -> Result<Sheet, NoMemory>
    ensures { IfOk result (λ made. made ≡ high_hand_sheet) }
{
    let mut sheet = blank_sheet(alloc, "high-hand", 2, 4, free_turn(Order::Default, 0, None))?;
    match fill_sheet(alloc, &mut sheet) {
        Ok(()) => Ok(sheet),
        Err(NoMemory) => {
            drop(sheet);
            Err(NoMemory)
        }
    }
}

/// Gives a sheet the game's rows.
fn fill_sheet(alloc: Global, sheet: &mut Sheet) -> Result<(), NoMemory>
    ensures { OnOk result (sheet.new ≡ record sheet.old { moves = sheet.old.moves ++ high_hand_sheet.moves; phases = sheet.old.phases ++ high_hand_sheet.phases; events = high_hand_sheet.events }) }
{
    add_moves(alloc, &mut sheet.moves)?;
    add_phases(alloc, &mut sheet.phases)?;
    sheet.events = List::from_slice(alloc, &[EventKind::EndTurn])?;
    Ok(())
}

/// Adds the game's moves.
fn add_moves(alloc: Global, rows: &mut List<MoveRow>) -> Result<(), NoMemory>
    ensures { OnOk result (rows.new ≡ rows.old ++ high_hand_sheet.moves) }
{
    rows.push(MoveRow {
        name: Text::from_str(alloc, "draw")?,
        redact: false,
        client: false,
        no_limit: false,
        ignore_stale: false,
    })?;
    rows.push(MoveRow {
        name: Text::from_str(alloc, "lay")?,
        redact: false,
        client: true,
        no_limit: false,
        ignore_stale: false,
    })?;
    Ok(())
}

/// Adds the game's phases.
fn add_phases(alloc: Global, rows: &mut List<PhaseRow>) -> Result<(), NoMemory>
    ensures { OnOk result (rows.new ≡ rows.old ++ high_hand_sheet.phases) }
{
    let draws = free_turn(Order::Once, 2, Some(2));
    rows.push(phase(
        alloc,
        "draw",
        true,
        Some(PhaseId::at(1)),
        MoveId::at(0),
        draws,
    )?)?;
    let lays = free_turn(Order::Reset, 1, None);
    rows.push(phase(alloc, "play", false, None, MoveId::at(1), lays)?)?;
    Ok(())
}

/// A phase with one move.
fn phase(
    alloc: Global,
    name: &str,
    start: bool,
    next: Option<PhaseId>,
    id: MoveId,
    turn: TurnRow,
) -> Result<PhaseRow, NoMemory>
    ensures { IfOk result (λ row. row ≡ record { name = name.now; start = start; next = next; moves = Some (id ∷ []); turn = Some turn }) }
{
    match named_move(alloc, name, id) {
        Ok((name, moves)) => Ok(PhaseRow {
            name,
            start,
            next,
            moves: Some(moves),
            turn: Some(turn),
        }),
        Err(NoMemory) => {
            drop(turn);
            Err(NoMemory)
        }
    }
}

/// A name, and a list of one move.
fn named_move(alloc: Global, name: &str, id: MoveId) -> Result<(Text, List<MoveId>), NoMemory>
    ensures { IfOk result (λ both. both ≡ (name.now, id ∷ [])) }
{
    let moves = List::from_slice(alloc, &[id])?;
    let name = Text::from_str(alloc, name)?;
    Ok((name, moves))
}

/// A turn of so many moves, in which nobody but the current player acts.
fn free_turn(order: Order, min_moves: u32, max_moves: Option<u32>) -> TurnRow
    ensures { result ≡ record { order = order; min_moves = min_moves; max_moves = max_moves; active = None } }
{
    TurnRow {
        order,
        min_moves,
        max_moves,
        active: None,
    }
}

/// The state with a shuffled pack as the deck.
fn open_shuffled(alloc: Global, seats: u8, tape: &mut Tape) -> Result<Cards, HookHalt>
    ensures deed { Opens result tape.new.left (opened seats (shuffled pack tape.old.left)) }
    ensures follows { Follows tape.old tape.new }
{
    let mut deck = PACK;
    tape.shuffle(&mut deck)?;
    let deck = List::from_slice(alloc, &deck)?;
    Ok(before_draws(alloc, seats, deck)?)
}

/// The state in which nobody has drawn from this deck.
fn before_draws(alloc: Global, seats: u8, deck: List<u8>) -> Result<Cards, NoMemory>
    ensures { IfOk result (λ g. g ≡ before_draws seats deck) }
{
    let common = free_table(alloc, seats)?;
    match empty_hands(alloc, seats) {
        Ok(players) => Ok(Split {
            common,
            secret: Some(Deck { cards: deck }),
            players,
        }),
        Err(NoMemory) => {
            drop(common);
            Err(NoMemory)
        }
    }
}

/// A table on which nothing lies, before the first draw and score.
fn free_table(alloc: Global, seats: u8) -> Result<CardTable, NoMemory>
    ensures { IfOk result (λ table. table ≡ (before_draws seats []).common) }
{
    let hands = vec![in alloc; 0u32; seats as usize]?;
    let scores = vec![in alloc; 0u32; seats as usize]?;
    let places = vec![in alloc; None; seats as usize]?;
    Ok(CardTable {
        hands: List::from_vec(hands),
        left: 52,
        scores: List::from_vec(scores),
        places: List::from_vec(places),
    })
}

/// An empty hand for each seat.
fn empty_hands(alloc: Global, seats: u8) -> Result<List<Option<Hand>>, NoMemory>
    ensures { IfOk result (λ hands. hands ≡ (before_draws seats []).players) }
{
    let mut hands = List::new(alloc);
    for _seat in 0..seats {
        let cards = List::new(alloc);
        hands.push(Some(Hand { cards }))?;
    }
    Ok(hands)
}

/// The hand of a seat, where it is there.
fn hand_of(g: &Cards, seat: Seat) -> Option<&[u8]>
    ensures { option_map (λ hand. hand.now) result ≡ hand_of g.now seat }
{
    match g.players.get(seat as usize) {
        Some(Some(hand)) => Some(hand.cards.as_slice()),
        _ => None,
    }
}

/// The state in which a seat has this hand, of which everybody sees the count.
fn with_hand(alloc: Global, g: &Cards, seat: Seat, hand: List<u8>) -> Result<Cards, NoMemory>
    requires { length hand ≤ 52 }
    ensures { IfOk result (λ h. h ≡ with_hand g.now seat hand) }
{
    let count = hand.len() as u32;
    let hands = changed(alloc, g.common.hands.as_slice(), seat as usize, count)?;
    let mut after = with_cards(alloc, g, seat, hand)?;
    after.common.hands = hands;
    Ok(after)
}

/// The state in which a seat has this hand, beside the counts that everybody saw.
fn with_cards(alloc: Global, g: &Cards, seat: Seat, hand: List<u8>) -> Result<Cards, NoMemory>
    ensures { IfOk result (λ h. h ≡ record g.now { players = (with_hand g.now seat hand).players }) }
{
    let entry = Hand { cards: hand };
    let players = with_entry(alloc, g.players.as_slice(), seat as usize, entry)?;
    match copied_split(alloc, g) {
        Ok(mut after) => {
            after.players = players;
            Ok(after)
        }
        Err(NoMemory) => {
            drop(players);
            Err(NoMemory)
        }
    }
}

/// The state with this deck, of which everybody sees the count.
fn with_deck(mut g: Cards, deck: List<u8>) -> Cards
    requires { length deck ≤ 52 }
    ensures { result ≡ with_deck g deck }
{
    g.common.left = deck.len() as u32;
    g.secret = Some(Deck { cards: deck });
    g
}

/// The first card of the deck goes to the end of the mover's hand.
fn draw(alloc: Global, g: &Cards, seat: Seat, args: &[Arg]) -> Result<Cards, Halt>
    ensures { (words : Items ℕ) → Gives result words words [] (draw g.now seat args.now words) }
{
    if !args.is_empty() {
        return Err(Halt::Invalid);
    }
    match &g.secret {
        Some(deck) => draw_to(alloc, g, seat, deck.cards.as_slice()),
        None => draw_to(alloc, g, seat, &[]),
    }
}

/// The first card of this deck goes to the end of the mover's hand.
fn draw_to(alloc: Global, g: &Cards, seat: Seat, deck: &[u8]) -> Result<Cards, Halt>
    ensures { (words : Items ℕ) → Gives result words words [] (draw_to g.now seat (hand_of g.now seat) deck.now words) }
{
    let Some(hand) = hand_of(g, seat) else {
        return Err(Halt::Invalid);
    };
    let Some((card, rest)) = deck.split_first() else {
        return Err(Halt::Invalid);
    };
    if hand.len() >= 52 || rest.len() > 52 {
        return Err(Halt::Invalid);
    }
    Ok(drawn(alloc, g, seat, hand, *card, rest)?)
}

/// The state with one more card in a seat's hand, and the rest of the deck.
fn drawn(
    alloc: Global,
    g: &Cards,
    seat: Seat,
    hand: &[u8],
    card: u8,
    rest: &[u8],
) -> Result<Cards, NoMemory>
    requires hand { length hand.now < 52 }
    requires rest { length rest.now ≤ 52 }
    ensures { IfOk result (λ h. h ≡ with_deck (with_hand g.now seat (hand.now ++ card ∷ [])) rest.now) }
{
    let cards = longer(alloc, hand, card)?;
    let deck = List::from_slice(alloc, rest)?;
    let after = with_hand(alloc, g, seat, cards)?;
    Ok(with_deck(after, deck))
}

/// A hand with one more card at its end.
fn longer(alloc: Global, hand: &[u8], card: u8) -> Result<List<u8>, NoMemory>
    ensures { IfOk result (λ cards. cards ≡ hand.now ++ card ∷ []) }
{
    let mut cards = Vec::from_slice(alloc, hand)?;
    cards.push(card)?;
    Ok(List::from_vec(cards))
}

/// A card of the mover's hand, whose place there is the one argument, goes to its free place on the table.
fn lay(alloc: Global, g: &Cards, seat: Seat, args: &[Arg]) -> Result<Cards, Halt>
    ensures { (words : Items ℕ) → Gives result words words [] (lay g.now seat args.now words) }
{
    match args {
        [Arg::Whole(place)] if *place >= 0 => lay_from(alloc, g, seat, *place as usize),
        _ => Err(Halt::Invalid),
    }
}

fn lay_from(alloc: Global, g: &Cards, seat: Seat, place: usize) -> Result<Cards, Halt>
    ensures { (words : Items ℕ) → Gives result words words [] (lay_from g.now seat place (hand_of g.now seat) words) }
{
    match hand_of(g, seat) {
        Some(hand) => lay_card(alloc, g, seat, place, hand),
        None => Err(Halt::Invalid),
    }
}

fn lay_card(alloc: Global, g: &Cards, seat: Seat, place: usize, hand: &[u8]) -> Result<Cards, Halt>
    ensures { (words : Items ℕ) → Gives result words words [] (lay_card g.now seat place hand.now (slice_get hand.now place) words) }
{
    let Some(card) = hand.get(place) else {
        return Err(Halt::Invalid);
    };
    let left = without(alloc, hand, place)?;
    lay_down(alloc, g, seat, *card, left)
}

/// A card goes to the mover's free place on the table, and this hand is left to the mover.
fn lay_down(alloc: Global, g: &Cards, seat: Seat, card: u8, left: List<u8>) -> Result<Cards, Halt>
    ensures { (words : Items ℕ) → Gives result words words [] (lay_down g.now seat card left words) }
{
    if left.len() > 52 || !is_free(g, seat) {
        return Err(Halt::Invalid);
    }
    Ok(laid(alloc, g, seat, card, left)?)
}

/// The hand without the card at a place.
fn without(alloc: Global, hand: &[u8], place: usize) -> Result<List<u8>, NoMemory>
    requires { place < length hand.now }
    ensures { IfOk result (λ left. left ≡ remove hand.now place) }
{
    let mut left = Vec::from_slice(alloc, hand)?;
    left.remove(place);
    Ok(List::from_vec(left))
}

/// Whether a seat's place on the table is there and free.
fn is_free(g: &Cards, seat: Seat) -> bool
    ensures { result ≡ is_free (slice_get g.now.common.places seat) }
{
    match g.common.places.get(seat as usize) {
        Some(place) => place.is_none(),
        None => false,
    }
}

/// The state in which this card of a seat lies on the table, and this hand is left to it.
fn laid(alloc: Global, g: &Cards, seat: Seat, card: u8, hand: List<u8>) -> Result<Cards, NoMemory>
    requires { length hand ≤ 52 }
    ensures { IfOk result (λ h. h ≡ laid g.now seat card hand) }
{
    let places = changed(alloc, g.common.places.as_slice(), seat as usize, Some(card))?;
    let mut after = with_hand(alloc, g, seat, hand)?;
    after.common.places = places;
    Ok(after)
}

/// The state after a turn, where a card lay on every place; none where a place is free.
fn after_turn(alloc: Global, g: &Cards) -> Result<Option<Cards>, NoMemory>
    ensures { IfOk result (λ o. unwrap_or o g.now ≡ after_turn g.now) }
{
    if is_full(g.common.places.as_slice()) {
        Ok(Some(scored(alloc, g)?))
    } else {
        Ok(None)
    }
}

/// Whether a card lies on every place.
fn is_full(places: &[Option<u8>]) -> bool
    ensures { result ≡ is_full places.now }
{
    places.iter().all(|place| place.is_some())
}

/// The state with a cleared table and a point for the least seat with the highest card.
fn scored(alloc: Global, g: &Cards) -> Result<Cards, NoMemory>
    ensures { IfOk result (λ h. h ≡ scored g.now) }
{
    let places = g.common.places.as_slice();
    let scores = with_point(alloc, g.common.scores.as_slice(), first_greatest(places))?;
    let free = vec![in alloc; None; places.len()]?;
    let mut after = copied_split(alloc, g)?;
    after.common.scores = scores;
    after.common.places = List::from_vec(free);
    Ok(after)
}

/// The scores with a point more at a place, if any. A score stands still at the greatest number of 32 bits.
fn with_point(alloc: Global, scores: &[u32], place: Option<usize>) -> Result<List<u32>, NoMemory>
    ensures { IfOk result (λ l. l ≡ point_at place scores.now) }
{
    match place {
        Some(place) => {
            let score = scores.get(place).copied().unwrap_or(0);
            changed(alloc, scores, place, score.saturating_add(1))
        }
        None => List::from_slice(alloc, scores),
    }
}

/// Once all cards are played, the one greatest score wins; two such scores are a draw.
fn outcome(g: &Cards, phase: Option<PhaseId>) -> Option<Outcome>
    ensures { result ≡ card_end g.now phase }
{
    if is_played(g, phase) {
        Some(one_greatest(g.common.scores.as_slice()))
    } else {
        None
    }
}

/// Whether the hands and the table are empty in the second phase.
fn is_played(g: &Cards, phase: Option<PhaseId>) -> bool
    ensures { result ≡ is_played g.now phase }
{
    match phase {
        Some(phase) => {
            phase.place() == 1
                && are_empty(g.common.hands.as_slice())
                && is_clear(g.common.places.as_slice())
        }
        None => false,
    }
}

fn are_empty(hands: &[u32]) -> bool
    ensures { result ≡ are_empty hands.now }
{
    hands.iter().all(|count| *count == 0)
}

fn is_clear(places: &[Option<u8>]) -> bool
    ensures { result ≡ is_clear places.now }
{
    places.iter().all(|place| place.is_none())
}

/// The moves that a seat is offered in a phase.
fn options(
    alloc: Global,
    g: &Cards,
    seat: Seat,
    phase: Option<PhaseId>,
) -> Result<List<(MoveId, Args)>, NoMemory>
    ensures { IfOk result (λ offers. offers ≡ card_offers g.now seat phase) }
{
    match phase {
        Some(phase) if phase.place() == 0 => {
            let mut offers = List::new(alloc);
            offers.push((MoveId::at(0), Args::new()))?;
            Ok(offers)
        }
        Some(phase) if phase.place() == 1 => lay_options(alloc, g, seat),
        _ => Ok(List::new(alloc)),
    }
}

/// A seat is offered each card of its hand where its place on the table is free.
fn lay_options(alloc: Global, g: &Cards, seat: Seat) -> Result<List<(MoveId, Args)>, NoMemory>
    ensures { IfOk result (λ offers. offers ≡ lay_offers g.now seat (hand_of g.now seat)) }
{
    match hand_of(g, seat) {
        Some(hand) if hand.len() <= 52 && is_free(g, seat) => lays(alloc, hand.len() as u8),
        _ => Ok(List::new(alloc)),
    }
}

/// The moves that lay one of so many cards, each by its place.
#[tactic(auto, using(crate::proofs::OfferLemmas::lays_more))]
fn lays(alloc: Global, count: u8) -> Result<List<(MoveId, Args)>, NoMemory>
    ensures { IfOk result (λ offers. offers ≡ lays count) }
{
    let mut offers = List::new(alloc);
    for place in 0..count {
        let mut args = Args::new();
        args.push(Arg::Whole(place as i32));
        offers.push((MoveId::at(1), args))?;
    }
    Ok(offers)
}

/// The state that is written so; none where none is.
fn from_value(alloc: Global, v: &Value) -> Result<Option<Cards>, NoMemory>
    ensures { IfOk result (λ g. g ≡ read_state (view v.now)) }
{
    match Cards::from_json(alloc, v)? {
        Some(g) => Ok(kept_if(have_places(&g), g)),
        None => Ok(None),
    }
}

/// Whether one to eight seats have an entry, a count of cards, a score and a place on the table each.
fn have_places(g: &Cards) -> bool
    ensures { result ≡ have_places g.now }
{
    let seats = g.players.len();
    seats >= 1
        && seats <= 8
        && g.common.hands.len() == seats
        && g.common.scores.len() == seats
        && g.common.places.len() == seats
}

impl Game for HighHand {
    ghost use Rattle.card_games.specs.HighHand.{high_hand};
    ghost use Rattle.card_games.specs.CardLaws.{high_hand_in_sheet, high_hand_lawful};

    type G = Cards;

    ghost rules = { high_hand };

    ghost in_sheet = { high_hand_in_sheet };

    ghost lawful = { high_hand_lawful };

    #[tactic(auto, unfolding(game_sheet::specs::SheetRules::broken))]
    fn sheet(&self) -> &Sheet {
        unbroken(&self.sheet)
    }

    fn setup(&self, alloc: Global, seats: u8, tape: &mut Tape) -> Result<Cards, HookHalt> {
        match &self.deck {
            Some(deck) => Ok(before_draws(alloc, seats, deck.cards.copy(alloc)?)?),
            None => open_shuffled(alloc, seats, tape),
        }
    }

    fn play(
        &self,
        alloc: Global,
        g: &Cards,
        ctx: &Ctx,
        seat: Seat,
        id: MoveId,
        args: &Args,
        tape: &mut Tape,
        events: &mut EventQueue,
    ) -> Result<Cards, Halt> {
        if seat >= 4 {
            Err(Halt::Invalid)
        } else if id.place() == 0 {
            draw(alloc, g, seat, args.as_slice())
        } else {
            lay(alloc, g, seat, args.as_slice())
        }
    }

    fn on_move(
        &self,
        alloc: Global,
        g: &Cards,
        ctx: &Ctx,
        seat: Seat,
        tape: &mut Tape,
        events: &mut EventQueue,
    ) -> Result<Option<Cards>, HookHalt> {
        Ok(None)
    }

    fn turn_begin(
        &self,
        alloc: Global,
        g: &Cards,
        ctx: &Ctx,
        tape: &mut Tape,
        events: &mut EventQueue,
    ) -> Result<Option<Cards>, HookHalt> {
        Ok(None)
    }

    fn turn_end(
        &self,
        alloc: Global,
        g: &Cards,
        ctx: &Ctx,
        tape: &mut Tape,
        events: &mut EventQueue,
    ) -> Result<Option<Cards>, HookHalt> {
        Ok(after_turn(alloc, g)?)
    }

    fn phase_begin(
        &self,
        alloc: Global,
        g: &Cards,
        ctx: &Ctx,
        phase: PhaseId,
        tape: &mut Tape,
        events: &mut EventQueue,
    ) -> Result<Option<Cards>, HookHalt> {
        Ok(None)
    }

    fn phase_end(
        &self,
        alloc: Global,
        g: &Cards,
        ctx: &Ctx,
        phase: PhaseId,
        tape: &mut Tape,
        events: &mut EventQueue,
    ) -> Result<Option<Cards>, HookHalt> {
        Ok(None)
    }

    fn game_end(
        &self,
        alloc: Global,
        g: &Cards,
        ctx: &Ctx,
        tape: &mut Tape,
        events: &mut EventQueue,
    ) -> Result<Option<Cards>, HookHalt> {
        Ok(None)
    }

    fn end_if(&self, g: &Cards, ctx: &Ctx) -> Option<Outcome> {
        outcome(g, ctx.phase)
    }

    fn turn_end_if(&self, g: &Cards, ctx: &Ctx) -> bool {
        false
    }

    fn phase_end_if(&self, g: &Cards, ctx: &Ctx) -> bool {
        false
    }

    fn play_order(&self, alloc: Global, g: &Cards, ctx: &Ctx) -> Result<List<Seat>, NoMemory> {
        Ok(List::new(alloc))
    }

    fn view(
        &self,
        alloc: Global,
        g: &Cards,
        ctx: &Ctx,
        viewer: Option<Seat>,
    ) -> Result<Cards, NoMemory> {
        g.strip(alloc, viewer)
    }

    fn undoable(&self, g: &Cards, ctx: &Ctx, id: MoveId) -> bool {
        id.place() == 1
    }

    fn options(
        &self,
        alloc: Global,
        g: &Cards,
        ctx: &Ctx,
        seat: Seat,
    ) -> Result<List<(MoveId, Args)>, NoMemory> {
        if may_be_offered(ctx, seat) {
            options(alloc, g, seat, ctx.phase)
        } else {
            Ok(List::new(alloc))
        }
    }

    fn to_value(&self, alloc: Global, g: &Cards) -> Result<Value, NoMemory> {
        Ok(g.to_json(alloc)?)
    }

    fn write(&self, alloc: Global, out: &mut Vec<u8>, g: &Cards) -> Result<(), NoMemory> {
        Ok(g.write(alloc, out)?)
    }

    fn from_value(&self, alloc: Global, v: &Value) -> Result<Option<Cards>, NoMemory> {
        from_value(alloc, v)
    }

    fn same(&self, a: &Cards, b: &Cards) -> bool {
        a.same(b)
    }

    fn copy(&self, alloc: Global, g: &Cards) -> Result<Cards, NoMemory> {
        copied_split(alloc, g)
    }
}
