//! A place of a worker, with the link that it serves.

ghost use Rattle.std.specs.Prelude.{◌≡◌, Some, None, IsSome, is_some, IfSome, IfNone, not, option_map};
ghost use Rattle.std.specs.Borrow.{Lends, sem};
ghost use Rattle.board_links.specs.Doors.{IsNew, Shows};
ghost use Rattle.board_links.specs.Pieces.{told_bytes};
ghost use Rattle.link_rounds.specs.Places.{Served, Sits, Step, about, goes_on, seat};
ghost use Rattle.link_rounds.specs.Turns.{Takes, told_answers};

use crate::service::{Service, Stir};
use board_links::{Link, SessionEnd};
use std::marker::Model;
use std::sync::Wait;

/// A place of a worker: what serves there, the link that it serves, if any, and how its session ended, where it has.
#[derive(Drop)]
pub struct Place<S: Service, L: Link> {
    service: S,
    link: Option<L>,
    end: Option<SessionEnd>,
    /// Whether its last step was a turn.
    turned: bool,
    /// Whether its link kept bytes back when it was last asked.
    kept: bool,
}

impl<S: Service, L: Link> Model for Place<S, L> {
    ghost use Rattle.link_rounds.specs.Places.{Seat, seat};

    ghost Value = { Seat S L };

    ghost view = { λ p. seat p.service p.link p.end };
}

/// One turn of a session, and what is done where it has ended. Whether the link keeps bytes back is `kept` then.
fn serve<S: Service, L: Link, R: Wait>(
    rt: &R,
    hall: &S::Hall,
    service: &mut S,
    link: &mut L,
    kept: &mut bool,
) -> Option<SessionEnd>
    requires fits { S.fits hall.now service.old }
    ensures fits { S.fits hall.now service.new }
    ensures rests { IfSome result (λ why. S.rests service.new) }
    ensures shows { IfSome result (λ why. Shows why (L.stage link.new) (L.faults link.new) (L.sent link.new)) }
    ensures tells_answers { is_some (L.answers link.new) ≡ is_some (L.answers link.old) }
    ensures tells_sent { is_some (L.sent link.new) ≡ is_some (L.sent link.old) }
    ensures is_bot { L.is_bot link.new ≡ L.is_bot link.old }
    ensures number { S.number service.new ≡ S.number service.old }
    ensures takes { IsSome (L.answers link.old) → IsSome (L.sent link.old)
        → Takes S.turn S.leave service.old (told_answers (L.answers link.old)) (told_bytes (L.sent link.old)) result service.new (L.answers link.new) (L.sent link.new) }
{
    let ended = service.turn(rt, hall, link);
    // What isn't taken now is handed on before the next turn.
    *kept = !link.flush();
    let Some(why) = ended else {
        return None;
    };
    service.leave(rt, hall);
    Some(why)
}

impl<S: Service, L: Link> Place<S, L> {
    ghost use Rattle.link_rounds.specs.contracts.place.Place.{the_row};

    /// A place of a service that has no session.
    pub fn new(service: S) -> Place<S, L>
        ensures { result ≡ seat service None None }
    {
        Place {
            service,
            link: None,
            end: None,
            turned: false,
            kept: false,
        }
    }

    /// Gives its session a turn, unless there is none that goes on, or the link keeps back what it was sent.
    pub fn step<R: Wait>(&mut self, rt: &R, hall: &S::Hall)
        requires fits { S.fits hall.now self.old.service }
        requires sits { Sits S.turn S.leave (about L.answers L.sent L.faults L.stage L.clear L.is_bot) S.rests self.old }
        ensures fits { S.fits hall.now self.new.service }
        ensures sits { Sits S.turn S.leave (about L.answers L.sent L.faults L.stage L.clear L.is_bot) S.rests self.new }
        ensures number { S.number self.new.service ≡ S.number self.old.service }
        ensures step { Step S.turn S.leave (about L.answers L.sent L.faults L.stage L.clear L.is_bot) self.old self.new }
    {
        let Place {
            service,
            link,
            end,
            turned,
            kept,
        } = self;
        *turned = false;
        if end.is_some() {
            return;
        }
        let Some(link) = link else {
            return;
        };
        if link.flush() {
            *turned = true;
            *end = serve(rt, hall, service, link, kept);
        } else {
            *kept = true;
        }
    }

    /// Takes in a link that has told nothing.
    pub fn take_in(&mut self, link: L)
        requires empty { self.old.link ≡ None }
        requires new { IsNew (L.answers link) (L.sent link) }
        requires sits { Sits S.turn S.leave (about L.answers L.sent L.faults L.stage L.clear L.is_bot) S.rests self.old }
        ensures place { self.new ≡ seat self.old.service (Some link) None }
        ensures sits { Sits S.turn S.leave (about L.answers L.sent L.faults L.stage L.clear L.is_bot) S.rests self.new }
    {
        self.link = Some(link);
        self.end = None;
        self.kept = false;
    }

    /// The link whose session has ended, and how it did, once it keeps nothing back.
    pub fn hand_out(&mut self) -> Option<(L, SessionEnd)>
        requires sits { Sits S.turn S.leave (about L.answers L.sent L.faults L.stage L.clear L.is_bot) S.rests self.old }
        ensures sits { Sits S.turn S.leave (about L.answers L.sent L.faults L.stage L.clear L.is_bot) S.rests self.new }
        ensures service { self.new.service ≡ self.old.service }
        ensures shows { IfSome result (λ r. Shows r.1 (L.stage r.0) (L.faults r.0) (L.sent r.0)) }
        ensures served { IfSome result (λ r. Served S.turn S.leave (about L.answers L.sent L.faults L.stage L.clear L.is_bot) S.rests self.new.service r.1 r.0) }
        ensures finished { IfSome result (λ r. L.finished r.0 ≡ Some r.1) }
        ensures given { IfSome result (λ r. (option_map L.is_bot self.old.link ≡ Some (L.is_bot r.0)) × (self.new.link ≡ None)) }
        ensures kept { IfNone result (option_map L.is_bot self.new.link ≡ option_map L.is_bot self.old.link) }
    {
        let Some(why) = self.end else {
            return None;
        };
        let Some(mut link) = self.link.take() else {
            return None;
        };
        if !link.flush() {
            self.link = Some(link);
            self.kept = true;
            return None;
        }
        self.end = None;
        self.kept = false;
        link.finish(why);
        Some((link, why))
    }

    /// Whether it has no link.
    pub fn is_free(&self) -> bool
        ensures { result ≡ not (is_some self.now.link) }
    {
        self.link.is_none()
    }

    /// What serves there, for a change.
    pub(crate) fn service_mut(&mut self) -> &mut S
        ensures value { result.now ≡ self.old.service }
        ensures* lends { sem 𝓛 (Lends (the_row S.row L.row S.Hall.row S.Witness.row S.Service L.Link) S.row self.entry result (λ w. seat w self.old.link self.old.end)) }
    {
        &mut self.service
    }

    /// What served there, without the place and its link.
    pub(crate) fn into_service(self) -> S
        ensures { result ≡ self.service }
    {
        let Place {
            service,
            link: _,
            end: _,
            turned: _,
            kept: _,
        } = self;
        service
    }

    /// Whether a session goes on there.
    pub fn goes_on(&self) -> bool
        ensures { result ≡ goes_on self.now }
    {
        self.link.is_some() && self.end.is_none()
    }

    /// What its last step means for others: it changed nothing unless it was a turn; there is nothing to be received while the link keeps
    /// bytes back, or once the session has ended, which then listens nowhere.
    pub fn stir(&self) -> Stir {
        let Stir { at, changed, more } = self.service.stir();
        let open = self.goes_on();
        Stir {
            at: if open { at } else { None },
            changed: if self.turned { changed } else { 0 },
            more: more && open && self.turned && !self.kept,
        }
    }

    /// Whether its link kept bytes back when it was last asked.
    pub fn keeps_back(&self) -> bool {
        self.kept
    }
}
