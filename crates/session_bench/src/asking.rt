//! Calls on the bench.

ghost use Rattle.std.specs.Prelude.{◌≡◌};
ghost use Rattle.session_bench.specs.Wishing.{Asks};

use bench_wishes::{WishCall, WishReply, Wishes};
use room_desk::{Desk, Pass};
use std::sync::Wait;

/// Makes a call on the bench, by the session's pass there.
pub(crate) fn ask<R: Wait>(
    rt: &R,
    bench: &Desk<Wishes>,
    pass: &mut Pass<Wishes>,
    call: WishCall,
) -> WishReply
    requires own { pass.old.desk ≡ bench.now.desk }
    ensures desk { pass.new.desk ≡ pass.old.desk }
    ensures number { pass.new.number ≡ pass.old.number }
    ensures asks { Asks pass.old call result pass.new }
{
    bench.call(rt, pass, call)
}
