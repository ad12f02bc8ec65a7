//! A round: the places that are ready get a turn, in order.

ghost use Rattle.std.specs.Prelude.{◌≡◌, All, map};
ghost use Rattle.link_rounds.specs.Places.{Round, Sits, about};

use crate::place::Place;
use crate::service::Service;
use board_links::Link;
use std::sync::Wait;

/// Gives a turn to each place whose number stands in the list, in its order, as often as it stands there. A number of no place is passed
/// over.
pub fn serve_round<S: Service, L: Link, R: Wait>(
    rt: &R,
    hall: &S::Hall,
    places: &mut [Place<S, L>],
    numbers: &[u32],
)
    requires fit { All (λ p. S.fits hall.now p.service) places.old }
    requires sit { All (Sits S.turn S.leave (about L.answers L.sent L.faults L.stage L.clear L.is_bot) S.rests) places.old }
    ensures fit { All (λ p. S.fits hall.now p.service) places.new }
    ensures sit { All (Sits S.turn S.leave (about L.answers L.sent L.faults L.stage L.clear L.is_bot) S.rests) places.new }
    ensures numbers { map (λ p. S.number p.service) places.new ≡ map (λ p. S.number p.service) places.old }
    ensures round { Round S.turn S.leave (about L.answers L.sent L.faults L.stage L.clear L.is_bot) numbers.now places.old places.new }
{
    for at in 0..numbers.len() {
        let number = numbers[at] as usize;
        if number < places.len() {
            places[number].step(rt, hall);
        }
    }
}
