//! A worker's places, and the links that come to them and go.

ghost use Rattle.std.specs.Prelude.{◌≡◌, ◌+◌, ◌<◌, ◌≤◌, ◌++◌, All, IfErr, IfOk, IfSome, None, Some, false, is_some, length, map, true, vec_capacity, vec_len};
ghost use Rattle.board_links.specs.Doors.{IsNew, IsOut, Shows, one_bot, one_other, sort_of};
ghost use Rattle.link_rounds.specs.Gate.{TakesFresh, takes_bot, takes_other};
ghost use Rattle.link_rounds.specs.Places.{IsFree, Served, Sits, about, seated_bots, seated_others};

use crate::gate::{Gate, Next, Shift};
use crate::place::Place;
use crate::ready::Ready;
use crate::round::serve_round;
use crate::service::Service;
use board_links::{Door, Link, SessionEnd};
use std::alloc::Global;
use std::sync::ledger::{Ledger, Share};
use std::sync::{Mutex, Wait};

/// A worker's places, the numbers of those that are free, of those whose turn is due, and what tells who is ready.
#[derive(Drop)]
pub struct Bench<S: Service, L: Link, W: Ready<L>> {
    places: Vec<Place<S, L>>,
    free: Vec<u32>,
    due: Vec<u32>,
    ready: W,
}

impl<S: Service, L: Link, W: Ready<L>> Bench<S, L, W> {
    /// A bench with a place for each of these services, which fit this hall and have no session. An Err is for want of memory, and hands them back.
    pub fn new(
        alloc: Global,
        _hall: &S::Hall,
        services: Vec<S>,
        ready: W,
    ) -> Result<Bench<S, L, W>, Vec<S>>
        requires few { vec_len services < 4294967296 }
        requires fit { All (S.fits _hall.now) services.items }
        requires rest { All S.rests services.items }
        ensures services { IfOk result (λ b. map (λ p. p.service) b.places.items ≡ services.items) }
        ensures free { IfOk result (λ b. All (λ p. is_some p.link ≡ false) b.places.items) }
        ensures fit { IfOk result (λ b. All (λ p. S.fits _hall.now p.service) b.places.items) }
        ensures sit { IfOk result (λ b. All (Sits S.turn S.leave (about L.answers L.sent L.faults L.stage L.clear L.is_bot) S.rests) b.places.items) }
        ensures err { IfErr result (λ s. s.items ≡ services.items) }
    {
        let Ok(mut places) = Vec::with_capacity(alloc, services.len()) else {
            return Err(services);
        };
        let Ok(mut free) = Vec::with_capacity(alloc, services.len()) else {
            return Err(services);
        };
        let Ok(due) = Vec::with_capacity(alloc, services.len()) else {
            return Err(services);
        };
        for service in services {
            free.push_reserved(places.len() as u32);
            places.push_reserved(Place::new(service));
        }
        Ok(Bench {
            places,
            free,
            due,
            ready,
        })
    }

    /// Its services, in order, behind those of the list, which has room for them.
    pub(crate) fn give_up(self, services: &mut Vec<S>)
        requires room { vec_len services.old + vec_len self.places ≤ vec_capacity services.old }
        ensures services { services.new.items ≡ services.old.items ++ map (λ p. p.service) self.places.items }
        ensures len { vec_len services.new ≡ vec_len services.old + vec_len self.places }
        ensures capacity { vec_capacity services.new ≡ vec_capacity services.old }
    {
        let Bench {
            places,
            free: _,
            due: _,
            ready: _,
        } = self;
        for place in places {
            services.push_reserved(place.into_service());
        }
    }
}

/// Whether no place has a link.
fn are_free<S: Service, D: Door>(places: &[Place<S, D::L>]) -> bool
    ensures free { result ≡ true → All (λ p. is_some p.link ≡ false) places.now }
    ensures others { result ≡ true → seated_others D.has_bots D.L.Link.is_bot places.now ≡ 0 }
    ensures bots { result ≡ true → seated_bots D.has_bots D.L.Link.is_bot places.now ≡ 0 }
{
    for at in 0..places.len() {
        if !places[at].is_free() {
            return false;
        }
    }
    true
}

/// A free place, of those whose numbers are listed. A number whose place isn't free is passed over.
fn free_place<S: Service, L: Link>(places: &[Place<S, L>], free: &mut Vec<u32>) -> Option<u32>
    ensures { IfSome result (λ n. (n < length places.now) × IsFree n places.now) }
{
    while let Some(number) = free.pop() {
        let place = number as usize;
        if place < places.len() && places[place].is_free() {
            return Some(number);
        }
    }
    None
}

/// The next link of the door, if one came.
fn take_link<S: Service, D: Door, J: Shift, B: Ledger, R: Wait>(
    rt: &R,
    gate: &Mutex<Gate<S, D, J, B>>,
    share: &mut Share<J>,
    bots: &mut Share<B>,
) -> Next<D::L>
    requires parts { (share.old.parts ≡ 1) × (bots.old.parts ≡ 1) }
    ensures parts { (share.new.parts ≡ 1) × (bots.new.parts ≡ 1) }
    ensures others { share.new.amount ≡ share.old.amount + takes_other D.has_bots D.L.Link.is_bot result }
    ensures bots { bots.new.amount ≡ bots.old.amount + takes_bot D.has_bots D.L.Link.is_bot result }
    ensures fresh { TakesFresh D.L.Link.faults D.L.Link.finished D.L.Link.answers D.L.Link.sent result }
{
    gate.lock(rt).take(rt, share, bots)
}

/// Gives a link back that this service served, which shows where it stands.
fn give_back<S: Service, D: Door, J: Shift, B: Ledger, R: Wait>(
    rt: &R,
    hall: &S::Hall,
    gate: &Mutex<Gate<S, D, J, B>>,
    service: &mut S,
    share: &mut Share<J>,
    bots: &mut Share<B>,
    link: D::L,
    end: SessionEnd,
)
    requires parts { (share.old.parts ≡ 1) × (bots.old.parts ≡ 1) }
    requires fits { S.fits hall.now service.old }
    requires out { IsOut (sort_of D.has_bots D.L.Link.is_bot link) bots.old.amount share.old.amount }
    requires shows { Shows end (D.L.Link.stage link) (D.L.Link.faults link) (D.L.Link.sent link) }
    requires finished { D.L.Link.finished link ≡ Some end }
    requires served { Served S.turn S.leave (about D.L.Link.answers D.L.Link.sent D.L.Link.faults D.L.Link.stage D.L.Link.clear D.L.Link.is_bot) S.rests service.old end link }
    ensures same { service.new ≡ service.old }
    ensures parts { (share.new.parts ≡ 1) × (bots.new.parts ≡ 1) }
    ensures others { share.new.amount + one_other (sort_of D.has_bots D.L.Link.is_bot link) ≡ share.old.amount }
    ensures bots { bots.new.amount + one_bot (sort_of D.has_bots D.L.Link.is_bot link) ≡ bots.old.amount }
{
    gate.lock(rt)
        .back(rt, hall, service, share, bots, link, end);
}

/// Gives a free place a link.
fn sit<S: Service, D: Door, W: Ready<D::L>>(
    hall: &S::Hall,
    places: &mut [Place<S, D::L>],
    ready: &mut W,
    number: u32,
    link: D::L,
)
    requires there { number < length places.old }
    requires free { IsFree number places.old }
    requires new { IsNew (D.L.Link.answers link) (D.L.Link.sent link) }
    requires fit { All (λ p. S.fits hall.now p.service) places.old }
    requires sit { All (Sits S.turn S.leave (about D.L.Link.answers D.L.Link.sent D.L.Link.faults D.L.Link.stage D.L.Link.clear D.L.Link.is_bot) S.rests) places.old }
    ensures fit { All (λ p. S.fits hall.now p.service) places.new }
    ensures sit { All (Sits S.turn S.leave (about D.L.Link.answers D.L.Link.sent D.L.Link.faults D.L.Link.stage D.L.Link.clear D.L.Link.is_bot) S.rests) places.new }
    ensures numbers { map (λ p. S.number p.service) places.new ≡ map (λ p. S.number p.service) places.old }
    ensures others { seated_others D.has_bots D.L.Link.is_bot places.new ≡ seated_others D.has_bots D.L.Link.is_bot places.old + one_other (sort_of D.has_bots D.L.Link.is_bot link) }
    ensures bots { seated_bots D.has_bots D.L.Link.is_bot places.new ≡ seated_bots D.has_bots D.L.Link.is_bot places.old + one_bot (sort_of D.has_bots D.L.Link.is_bot link) }
{
    let mut link = link;
    ready.watch(number, &mut link);
    places[number as usize].take_in(link);
}

/// Gives free places links, while the door has some; false where none will come any more.
fn admit<S: Service, D: Door, W: Ready<D::L>, J: Shift, B: Ledger, R: Wait>(
    rt: &R,
    hall: &S::Hall,
    gate: &Mutex<Gate<S, D, J, B>>,
    bench: &mut Bench<S, D::L, W>,
    share: &mut Share<J>,
    bots: &mut Share<B>,
) -> bool
    requires fit { All (λ p. S.fits hall.now p.service) bench.old.places.items }
    requires sit { All (Sits S.turn S.leave (about D.L.Link.answers D.L.Link.sent D.L.Link.faults D.L.Link.stage D.L.Link.clear D.L.Link.is_bot) S.rests) bench.old.places.items }
    requires parts { (share.old.parts ≡ 1) × (bots.old.parts ≡ 1) }
    requires others { share.old.amount ≡ seated_others D.has_bots D.L.Link.is_bot bench.old.places.items }
    requires bots { bots.old.amount ≡ seated_bots D.has_bots D.L.Link.is_bot bench.old.places.items }
    ensures fit { All (λ p. S.fits hall.now p.service) bench.new.places.items }
    ensures sit { All (Sits S.turn S.leave (about D.L.Link.answers D.L.Link.sent D.L.Link.faults D.L.Link.stage D.L.Link.clear D.L.Link.is_bot) S.rests) bench.new.places.items }
    ensures numbers { map (λ p. S.number p.service) bench.new.places.items ≡ map (λ p. S.number p.service) bench.old.places.items }
    ensures parts { (share.new.parts ≡ 1) × (bots.new.parts ≡ 1) }
    ensures others { share.new.amount ≡ seated_others D.has_bots D.L.Link.is_bot bench.new.places.items }
    ensures bots { bots.new.amount ≡ seated_bots D.has_bots D.L.Link.is_bot bench.new.places.items }
{
    for _ in rt.forever() {
        if !bench.ready.may_come() {
            return true;
        }
        let Some(number) = free_place(bench.places.as_slice(), &mut bench.free) else {
            return true;
        };
        match take_link(rt, gate, share, bots) {
            Next::Came(link) => sit::<S, D, W>(
                hall,
                bench.places.as_mut_slice(),
                &mut bench.ready,
                number,
                link,
            ),
            Next::Quiet => {
                let _listed = bench.free.push(number);
                bench.ready.none_came();
                return true;
            }
            Next::Over => {
                bench.ready.none_will_come();
                return false;
            }
        }
    }
    unreachable!()
}

/// Gives a link back where its session has ended, and says whether it did.
fn dismiss<S: Service, D: Door, J: Shift, B: Ledger, R: Wait>(
    rt: &R,
    hall: &S::Hall,
    gate: &Mutex<Gate<S, D, J, B>>,
    places: &mut [Place<S, D::L>],
    number: u32,
    free: &mut Vec<u32>,
    share: &mut Share<J>,
    bots: &mut Share<B>,
) -> bool
    requires fit { All (λ p. S.fits hall.now p.service) places.old }
    requires sit { All (Sits S.turn S.leave (about D.L.Link.answers D.L.Link.sent D.L.Link.faults D.L.Link.stage D.L.Link.clear D.L.Link.is_bot) S.rests) places.old }
    requires parts { (share.old.parts ≡ 1) × (bots.old.parts ≡ 1) }
    requires others { share.old.amount ≡ seated_others D.has_bots D.L.Link.is_bot places.old }
    requires bots { bots.old.amount ≡ seated_bots D.has_bots D.L.Link.is_bot places.old }
    ensures fit { All (λ p. S.fits hall.now p.service) places.new }
    ensures sit { All (Sits S.turn S.leave (about D.L.Link.answers D.L.Link.sent D.L.Link.faults D.L.Link.stage D.L.Link.clear D.L.Link.is_bot) S.rests) places.new }
    ensures parts { (share.new.parts ≡ 1) × (bots.new.parts ≡ 1) }
    ensures numbers { map (λ p. S.number p.service) places.new ≡ map (λ p. S.number p.service) places.old }
    ensures others { share.new.amount ≡ seated_others D.has_bots D.L.Link.is_bot places.new }
    ensures bots { bots.new.amount ≡ seated_bots D.has_bots D.L.Link.is_bot places.new }
{
    let place = number as usize;
    if place >= places.len() {
        return false;
    }
    let place = &mut places[place];
    let Some((link, end)) = place.hand_out() else {
        return false;
    };
    give_back(rt, hall, gate, place.service_mut(), share, bots, link, end);
    let _listed = free.push(number);
    true
}

/// Tells what a step of this place came to.
fn tell<S: Service, L: Link, W: Ready<L>>(
    places: &[Place<S, L>],
    ready: &mut W,
    number: u32,
    went_back: bool,
) {
    let place = number as usize;
    if place >= places.len() {
        return;
    }
    ready.note(number, places[place].stir());
    if went_back {
        ready.went_back(number);
    } else if places[place].keeps_back() {
        ready.keeps_back(number);
    }
}

/// Serves links at a bench, until no place has one and none will come any more.
pub(crate) fn work<S: Service, D: Door, W: Ready<D::L>, J: Shift, B: Ledger, R: Wait>(
    rt: &R,
    hall: &S::Hall,
    gate: &Mutex<Gate<S, D, J, B>>,
    bench: &mut Bench<S, D::L, W>,
    share: &mut Share<J>,
    bots: &mut Share<B>,
)
    requires fit { All (λ p. S.fits hall.now p.service) bench.old.places.items }
    requires sit { All (Sits S.turn S.leave (about D.L.Link.answers D.L.Link.sent D.L.Link.faults D.L.Link.stage D.L.Link.clear D.L.Link.is_bot) S.rests) bench.old.places.items }
    requires parts { (share.old.parts ≡ 1) × (bots.old.parts ≡ 1) }
    requires others { share.old.amount ≡ seated_others D.has_bots D.L.Link.is_bot bench.old.places.items }
    requires bots { bots.old.amount ≡ seated_bots D.has_bots D.L.Link.is_bot bench.old.places.items }
    ensures fit { All (λ p. S.fits hall.now p.service) bench.new.places.items }
    ensures sit { All (Sits S.turn S.leave (about D.L.Link.answers D.L.Link.sent D.L.Link.faults D.L.Link.stage D.L.Link.clear D.L.Link.is_bot) S.rests) bench.new.places.items }
    ensures numbers { map (λ p. S.number p.service) bench.new.places.items ≡ map (λ p. S.number p.service) bench.old.places.items }
    ensures parts { (share.new.parts ≡ 1) × (bots.new.parts ≡ 1) }
    ensures free { All (λ p. is_some p.link ≡ false) bench.new.places.items }
    ensures none_out { (share.new.amount ≡ 0) × (bots.new.amount ≡ 0) }
{
    for _ in rt.forever() {
        let open = admit(rt, hall, gate, bench, share, bots);
        if !open && are_free::<S, D>(bench.places.as_slice()) {
            return;
        }
        serve_due(rt, hall, gate, bench, share, bots);
    }
    unreachable!()
}

/// One round: the turns that are due are taken, and what comes after them.
fn serve_due<S: Service, D: Door, W: Ready<D::L>, J: Shift, B: Ledger, R: Wait>(
    rt: &R,
    hall: &S::Hall,
    gate: &Mutex<Gate<S, D, J, B>>,
    bench: &mut Bench<S, D::L, W>,
    share: &mut Share<J>,
    bots: &mut Share<B>,
)
    requires fit { All (λ p. S.fits hall.now p.service) bench.old.places.items }
    requires sit { All (Sits S.turn S.leave (about D.L.Link.answers D.L.Link.sent D.L.Link.faults D.L.Link.stage D.L.Link.clear D.L.Link.is_bot) S.rests) bench.old.places.items }
    requires parts { (share.old.parts ≡ 1) × (bots.old.parts ≡ 1) }
    requires others { share.old.amount ≡ seated_others D.has_bots D.L.Link.is_bot bench.old.places.items }
    requires bots { bots.old.amount ≡ seated_bots D.has_bots D.L.Link.is_bot bench.old.places.items }
    ensures fit { All (λ p. S.fits hall.now p.service) bench.new.places.items }
    ensures sit { All (Sits S.turn S.leave (about D.L.Link.answers D.L.Link.sent D.L.Link.faults D.L.Link.stage D.L.Link.clear D.L.Link.is_bot) S.rests) bench.new.places.items }
    ensures numbers { map (λ p. S.number p.service) bench.new.places.items ≡ map (λ p. S.number p.service) bench.old.places.items }
    ensures parts { (share.new.parts ≡ 1) × (bots.new.parts ≡ 1) }
    ensures others { share.new.amount ≡ seated_others D.has_bots D.L.Link.is_bot bench.new.places.items }
    ensures bots { bots.new.amount ≡ seated_bots D.has_bots D.L.Link.is_bot bench.new.places.items }
{
    let Bench {
        places,
        free,
        due,
        ready,
    } = bench;
    ready.wait(rt, due);
    serve_round(rt, hall, places.as_mut_slice(), due.as_slice());
    for at in 0..due.len() {
        let number = due[at];
        let went_back = dismiss(
            rt,
            hall,
            gate,
            places.as_mut_slice(),
            number,
            free,
            share,
            bots,
        );
        tell(places.as_slice(), ready, number, went_back);
    }
}
