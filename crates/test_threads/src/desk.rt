//! The turn lock, apart from it, so that its own proof stays short: calls, closing, threads, and two desks side by side.

ghost use Rattle.std.specs.Prelude.{◌≡◌, All};

use room_desk::{Desk, Pass, PassesOut};
use room_object::Object;
use std::alloc::Global;
use std::process::Abort;
use std::sync::Wait;
use std::sync::atomic::{AtomicBool, Ordering};
use std::test::*;
use std::thread;
use std::thread::Threads;
use std::time::{Clock, Duration};

/// How often a wait looks before it gives up, a millisecond apart.
const LIMIT: u32 = 10_000;

/// Counts its calls, and replies how many it has had.
#[derive(Drop)]
struct Counter {
    calls: u64,
}

impl Object for Counter {
    ghost use Rattle.std.specs.Prelude.{◌≡◌, ◌+◌, ◌%◌, ◌^◌, false, length};

    type Call = ();

    type Reply = u64;

    ghost number = { λ o. 7 };

    ghost stands_for = { λ o h. o.calls ≡ length h % 2 ^ 64 };

    ghost reply = { λ n h e. (length h + 1) % 2 ^ 64 };

    ghost is_starved = { λ r. false };

    ghost may_starve = { λ c. false };

    fn apply(&mut self, _pass: u32, _call: ()) -> u64 {
        self.calls = self.calls.wrapping_add(1);
        self.calls
    }
}

#[test]
fn a_desk_is_closed_with_all_its_passes(rt: HostRuntime) -> Result<(), Fail> {
    let (desk, mut passes) = Desk::set_up(rt.alloc(), Counter { calls: 0 }, 2)?;
    let mut second = passes.pop().ok_or("two passes")?;
    let mut first = passes.pop().ok_or("two passes")?;
    assert!(rt; first.number() == 0 && second.number() == 1);
    assert_eq!(rt; desk.call(&rt, &mut second, ()), 1);
    assert_eq!(rt; desk.call(&rt, &mut first, ()), 2);
    assert_eq!(rt; desk.call(&rt, &mut second, ()), 3);
    passes.push(second)?;
    let Err(
        PassesOut {
            count,
            desk,
            mut passes,
        },
    ) = desk.close(passes)
    else {
        panic!(rt; "a pass is missing")
    };
    assert!(rt; count == 1 && passes.len() == 1);
    passes.push(first)?;
    let Ok(counter) = desk.close(passes) else {
        panic!(rt; "no pass is missing")
    };
    assert_eq!(rt; counter.calls, 3);
    Ok(())
}

#[test]
fn a_desk_goes_on_from_where_another_was_closed(rt: HostRuntime) -> Result<(), Fail> {
    let (desk, mut passes) = Desk::set_up(rt.alloc(), Counter { calls: 0 }, 1)?;
    let mut only = passes.pop().ok_or("one pass")?;
    assert_eq!(rt; desk.call(&rt, &mut only, ()), 1);
    passes.push(only)?;
    let Ok(counter) = desk.close(passes) else {
        panic!(rt; "no pass is missing")
    };
    let (desk, mut passes) = Desk::set_up(rt.alloc(), counter, 2)?;
    let mut second = passes.pop().ok_or("two passes")?;
    let mut first = passes.pop().ok_or("two passes")?;
    assert_eq!(rt; desk.call(&rt, &mut second, ()), 2);
    assert_eq!(rt; desk.call(&rt, &mut first, ()), 3);
    passes.push(first)?;
    passes.push(second)?;
    let Ok(counter) = desk.close(passes) else {
        panic!(rt; "no pass is missing")
    };
    assert_eq!(rt; counter.calls, 3);
    Ok(())
}

#[test]
fn a_pass_is_shown_to_another(rt: HostRuntime) -> Result<(), Fail> {
    let (desk, mut passes) = Desk::set_up(rt.alloc(), Counter { calls: 0 }, 2)?;
    let witness = passes.pop().ok_or("two passes")?;
    let mut shown = passes.pop().ok_or("two passes")?;
    assert_eq!(rt; desk.call(&rt, &mut shown, ()), 1);
    let mut witness = desk.show(&mut shown, witness);
    assert!(rt; shown.number() == 0 && witness.number() == 1);
    assert_eq!(rt; desk.call(&rt, &mut witness, ()), 2);
    assert_eq!(rt; desk.call(&rt, &mut shown, ()), 3);
    passes.push(witness)?;
    passes.push(shown)?;
    let Ok(counter) = desk.close(passes) else {
        panic!(rt; "no pass is missing")
    };
    assert_eq!(rt; counter.calls, 3);
    Ok(())
}

/// Makes a thousand calls.
fn count<R: Wait>(rt: &R, desk: &Desk<Counter>, pass: &mut Pass<Counter>)
    requires { pass.old.desk ≡ desk.now.desk }
    ensures { pass.new.desk ≡ pass.old.desk }
{
    for _ in 0..1000 {
        desk.call(rt, pass, ());
    }
}

/// Each pass makes a thousand calls, in a thread of its own.
fn count_in_threads<R: Threads + Wait + Sync>(
    rt: &R,
    desk: &Desk<Counter>,
    passes: &mut [Pass<Counter>],
)
    requires { All (λ p. p.desk ≡ desk.now.desk) passes.old }
    ensures { All (λ p. p.desk ≡ desk.now.desk) passes.new }
{
    thread::for_each_mut(
        rt,
        passes,
        8,
        &|_, pass: &mut Pass<Counter>|
            requires { pass.old.desk ≡ desk.now.desk }
            ensures { pass.new.desk ≡ pass.old.desk }
        { count(rt, desk, pass) },
    );
}

#[test]
fn eight_threads_make_eight_thousand_calls(rt: HostRuntime) -> Result<(), Fail> {
    let (desk, mut passes) = Desk::set_up(rt.alloc(), Counter { calls: 0 }, 8)?;
    count_in_threads(&rt, &desk, &mut passes);
    let Ok(counter) = desk.close(passes) else {
        panic!(rt; "all passes came back")
    };
    assert_eq!(rt; counter.calls, 8000);
    Ok(())
}

/// What is asked of a `Room`.
#[derive(Drop)]
enum Asked {
    /// To hold the turn until the other room has answered.
    Hold,
    /// To answer at once.
    Answer,
}

/// What two threads tell each other.
#[derive(Drop)]
struct Flags {
    holds: AtomicBool,
    answered: AtomicBool,
    met: AtomicBool,
}

/// A room whose turn can be held until another room has answered.
#[derive(Drop)]
struct Room<'a, R> {
    clock: &'a R,
    flags: &'a Flags,
}

/// Waits until the flag is up, for no longer than the limit, and tells whether it is.
fn wait_for<R: Clock>(clock: &R, flag: &AtomicBool) -> bool {
    for _ in 0..LIMIT {
        if flag.load(Ordering::SeqCst) {
            return true;
        }
        thread::sleep(clock, Duration::from_millis(1));
    }
    false
}

impl<'a, R: Clock> Object for Room<'a, R> {
    ghost use Rattle.std.specs.Prelude.{false};

    type Call = Asked;

    type Reply = ();

    ghost number = { λ o. 0 };

    ghost stands_for = { λ o h. Unit {0} };

    ghost reply = { λ n h e. tt };

    ghost is_starved = { λ r. false };

    ghost may_starve = { λ c. false };

    fn apply(&mut self, _pass: u32, call: Asked) {
        match call {
            Asked::Hold => {
                self.flags.holds.store(true, Ordering::SeqCst);
                let met = wait_for(self.clock, &self.flags.answered);
                self.flags.met.store(met, Ordering::SeqCst);
            }
            Asked::Answer => {}
        }
    }
}

/// A desk, and a pass of it.
#[derive(Drop)]
struct Side<'a, R: Clock> {
    desk: Desk<Room<'a, R>>,
    pass: Pass<Room<'a, R>>,
    ghost own: { pass.desk ≡ desk.desk },
}

/// One thread holds the turn of the first room until the second room has answered a call of another thread. Tells whether both met in time.
fn meet<R: Threads + Wait + Clock + Sync>(
    rt: &R,
    flags: &Flags,
    first: Side<'_, R>,
    second: Side<'_, R>,
) -> bool {
    let (_, began) = thread::join(
        rt,
        || ask(rt, first, Asked::Hold),
        || {
            let began = wait_for(rt, &flags.holds);
            ask(rt, second, Asked::Answer);
            flags.answered.store(true, Ordering::SeqCst);
            began
        },
    );
    began && flags.met.load(Ordering::SeqCst)
}

/// Asks once.
fn ask<R: Wait + Clock>(rt: &R, side: Side<'_, R>, asked: Asked) {
    let Side { desk, mut pass } = side;
    desk.call(rt, &mut pass, asked);
}

/// A desk over a room, with one pass.
fn alone<'a, R: Clock>(
    alloc: Global,
    clock: &'a R,
    flags: &'a Flags,
) -> Result<Side<'a, R>, &'static str> {
    let room = Room { clock, flags };
    let Ok((desk, mut passes)) = Desk::set_up(alloc, room, 1) else {
        return Err("no memory");
    };
    let pass = passes.pop().ok_or("no pass")?;
    Ok(Side { desk, pass })
}

#[test]
fn a_desk_answers_while_the_turn_of_another_is_held(rt: HostRuntime) -> Result<(), Fail> {
    let flags = Flags {
        holds: AtomicBool::new(false),
        answered: AtomicBool::new(false),
        met: AtomicBool::new(false),
    };
    let clock = &rt;
    let first = alone(rt.alloc(), clock, &flags)?;
    let second = alone(rt.alloc(), clock, &flags)?;
    assert!(rt; meet(clock, &flags, first, second));
    Ok(())
}
