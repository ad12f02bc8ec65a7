//! The place at which a phase begins, and the place that comes next.

ghost use Rattle.std.specs.Prelude.{◌≡◌, ◌+◌, ◌%◌, ◌<◌, ◌≤◌, IfSome};
ghost use Rattle.turn_order.specs.Position as position;

use game_sheet::Order;

/// The place of the play order at which a phase, or the match, begins.
///
/// `pos` is the place that was reached before, and `len` the length of the play order that the phase begins with.
pub fn first(order: &Order, at_start: bool, pos: u8, len: u8) -> u8
    requires { 1 ≤ len }
    ensures place { result ≡ position.first order.now at_start pos len }
    ensures inside { result < len }
{
    match order {
        Order::Default if at_start => 0,
        Order::Default => after(pos, len),
        Order::Continue => pos % len,
        Order::Reset | Order::Once | Order::Custom(_) | Order::CustomFrom => 0,
    }
}

/// The place after a place of the play order, which has `len` entries; none where an order that goes round once is through.
pub fn next(order: &Order, pos: u8, len: u8) -> Option<u8>
    requires { pos < len }
    ensures place { result ≡ position.next order.now pos len }
    ensures inside { IfSome result (λ place. place < len) }
{
    match order {
        Order::Once if pos + 1 == len => None,
        Order::Once => Some(pos + 1),
        Order::Default | Order::Reset | Order::Continue | Order::Custom(_) | Order::CustomFrom =>
            Some(after(pos, len)),
    }
}

/// One further, beginning again at the end.
fn after(pos: u8, len: u8) -> u8
    requires { 1 ≤ len }
    ensures place { result ≡ (pos + 1) % len }
    ensures inside { result < len }
{
    ((u16::from(pos) + 1) % u16::from(len)) as u8
}
