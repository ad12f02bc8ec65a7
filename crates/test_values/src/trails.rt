//! A trail over the adder.

ghost use Rattle.std.specs.Prelude.{◌≡◌, ℕ, ◌≤◌, IfOk};
ghost use Rattle.undo_redo.specs.IsTrail.{IsTrail};

use crate::adder::Adder;
use game_sheet::NoMemory;
use std::alloc::Global;
use std::test::Fail;
use undo_redo::{Machine, Trail};

/// Advances by 1, by 2, and so on to a number; whether each advance was taken.
fn advance_to<M: Machine<State = u64, Act = u32>>(
    trail: &mut Trail<u64, u32>,
    alloc: Global,
    machine: &M,
    most: u32,
) -> Result<bool, NoMemory>
    requires trail { IsTrail (M.stepped machine.now) (M.state_fits machine.now) (M.act_fits machine.now) trail.old }
    requires acts { (act : ℕ) → 1 ≤ act → act ≤ most → M.act_fits machine.now act }
    ensures { IfOk result (λ _. IsTrail (M.stepped machine.now) (M.state_fits machine.now) (M.act_fits machine.now) trail.new) }
{
    for act in 0..most {
        if !trail.advance(alloc, machine, act + 1)? {
            return Ok(false);
        }
    }
    Ok(true)
}

/// Undoes so many times; whether each undo was taken.
fn undo_times<M: Machine<State = u64, Act = u32>>(
    trail: &mut Trail<u64, u32>,
    machine: &M,
    times: u32,
) -> Result<bool, NoMemory>
    requires { IsTrail (M.stepped machine.now) (M.state_fits machine.now) (M.act_fits machine.now) trail.old }
    ensures { IfOk result (λ _. IsTrail (M.stepped machine.now) (M.state_fits machine.now) (M.act_fits machine.now) trail.new) }
{
    for _time in 0..times {
        if !trail.undo(machine)? {
            return Ok(false);
        }
    }
    Ok(true)
}

/// Redoes so many times; whether each redo was taken.
fn redo_times<M: Machine<State = u64, Act = u32>>(
    trail: &mut Trail<u64, u32>,
    machine: &M,
    times: u32,
) -> Result<bool, NoMemory>
    requires { IsTrail (M.stepped machine.now) (M.state_fits machine.now) (M.act_fits machine.now) trail.old }
    ensures { IfOk result (λ _. IsTrail (M.stepped machine.now) (M.state_fits machine.now) (M.act_fits machine.now) trail.new) }
{
    for _time in 0..times {
        if !trail.redo(machine)? {
            return Ok(false);
        }
    }
    Ok(true)
}

#[test]
fn a_trail_of_a_thousand_goes_back_and_forth(rt: HostRuntime) -> Result<(), Fail> {
    let alloc = rt.alloc();
    let adder = Adder::new();
    let mut trail = Trail::new(alloc, 0)?;
    let advanced = advance_to(&mut trail, alloc, &adder, 1000)?;
    assert!(rt; advanced && *trail.now() == 500_500);
    let undone = undo_times(&mut trail, &adder, 1000)?;
    assert!(rt; undone && *trail.now() == 0 && !trail.undo(&adder)?);
    let redone = redo_times(&mut trail, &adder, 1000)?;
    assert!(rt; redone && *trail.now() == 500_500 && !trail.redo(&adder)?);
    assert!(rt; adder.steps() == 1000);
    assert!(rt; trail.undo(&adder)? && trail.advance(alloc, &adder, 7)?);
    assert!(rt; *trail.now() == 499_507 && !trail.redo(&adder)?);
    assert!(rt; adder.steps() == 1001);
    Ok(())
}

#[test]
fn a_copy_has_the_ends_of_both_lists(rt: HostRuntime) -> Result<(), Fail> {
    let alloc = rt.alloc();
    let adder = Adder::new();
    let mut trail = Trail::new(alloc, 0)?;
    assert!(rt; trail.last_done().is_none() && trail.first_undone().is_none());
    let advanced = advance_to(&mut trail, alloc, &adder, 3)?;
    assert!(rt; advanced && trail.undo(&adder)?);
    let copy = trail.copy(alloc)?;
    let ends = (copy.last_done().copied(), copy.first_undone().copied());
    assert_eq!(rt; (*copy.now(), ends), (3, (Some(2), Some(3))));
    Ok(())
}
