//! The offers of all seats that may act, and one of them.

ghost use Rattle.std.specs.Prelude.{◌≡◌, ◌<◌, ◌≤◌, IfOk, IfSome, length, true};
ghost use Rattle.random_matches.specs.Chosen.{IsOffered};
ghost use Rattle.stage_map.specs.Moves.{may};

use crate::counts::Counts;
use game_sheet::{Args, Ctx, MoveId, NoMemory, Seat};
use game_trait::{Game, may_be_offered};
use stage_map::is_active;
use std::alloc::Global;

/// How many offers each seat has.
#[derive(Clone, Copy)]
pub(crate) struct Offers {
    each: [u32; 16],
}

impl Offers {
    /// How many offers there are in all, up to the greatest number of 32 bits.
    pub(crate) fn total(self) -> u32 {
        let mut total = 0_u32;
        for count in self.each {
            total = total.saturating_add(count);
        }
        total
    }

    /// The seat to which the offer at a place belongs, counted over the seats in turn, and its place among that seat's.
    pub(crate) fn find(self, place: u32) -> Option<(Seat, u32)> {
        let mut rest = place;
        for seat in 0..16_u8 {
            let count = self.each[seat as usize];
            if rest < count {
                return Some((seat, rest));
            }
            rest -= count;
        }
        None
    }
}

/// An offered move.
#[derive(Drop)]
pub(crate) struct Offer {
    /// Whose it is.
    pub(crate) seat: Seat,
    /// Which move.
    pub(crate) id: MoveId,
    /// Its arguments.
    pub(crate) args: Args,
}

/// How many offers each seat has, whose moves are counted.
pub(crate) fn count_offers<X: Game>(
    alloc: Global,
    game: &X,
    g: &X::G,
    ctx: &Ctx,
    counts: &mut Counts,
) -> Result<Offers, NoMemory> {
    let mut each = [0; 16];
    for seat in 0..16_u8 {
        if may_be_offered(ctx, seat) {
            let offers = game.options(alloc, g, ctx, seat)?;
            counts.offer(offers.as_slice());
            each[seat as usize] = short_count(offers.len());
        }
    }
    Ok(Offers { each })
}

fn short_count(count: usize) -> u32 {
    if count < 4294967295 {
        count as u32
    } else {
        4294967295
    }
}

/// The offer of a seat at a place, if it has so many.
pub(crate) fn offer_at<X: Game>(
    alloc: Global,
    game: &X,
    g: &X::G,
    ctx: &Ctx,
    seat: Seat,
    place: u32,
) -> Result<Option<Offer>, NoMemory>
    ensures { IfOk result (λ offer. IfSome offer (λ o. IsOffered (X.rules game.now) g.now ctx.now o.seat o.id o.args)) }
{
    if !is_active(ctx, seat) {
        return Ok(None);
    }
    let offers = game.options(alloc, g, ctx, seat)?;
    match offers.as_slice().get(place as usize) {
        Some(offer) if (offer.0.place() as usize) < game.sheet().moves.len() => Ok(Some(Offer {
            seat,
            id: offer.0,
            args: offer.1.copy(),
        })),
        _ => Ok(None),
    }
}

/// The first seat of the match that may act.
pub(crate) fn first_active(ctx: &Ctx) -> Option<Seat>
    ensures { IfSome result (λ seat. may ctx.now seat ≡ true) }
{
    for seat in 0..ctx.seats {
        if is_active(ctx, seat) {
            return Some(seat);
        }
    }
    None
}
