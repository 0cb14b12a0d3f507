// A touch of a world that keeps tags, and what holds of the state of a world after its calls.
ghost use Rattle.std.specs.Prelude.{◌<◌, IfOk};
ghost use Rattle.damon_types.specs.Space.{pages_of};
ghost use Rattle.damon_core.specs.Bound.{Bound};
ghost use Rattle.damon_core.specs.State.{State};
ghost use Rattle.damon_world.specs.Stands.{StandsFor};

use crate::fixtures::three_pages;
use damon_world::{World, states_of_worlds_are_bound};
use live_commit::Setup;
use rand_pcg::Lcg64Xsh32;
use std::alloc::{AllocError, Global};
use std::test::Fail;

// A world after a touch and a step stands for a bound state, by the clauses of its calls alone.
fn touched_and_stepped(alloc: Global, setup: &Setup) -> Result<World<Lcg64Xsh32>, AllocError>
    requires { 1 < pages_of setup.now.space }
    ensures { IfOk result (λ w. (s : State) × StandsFor w s × Bound s) }
{
    states_of_worlds_are_bound();
    let mut world = World::new(alloc, setup, Lcg64Xsh32::new(7, 54))?;
    world.touch_page(1);
    world.step();
    Ok(world)
}

#[test]
fn a_page_without_a_clear_has_the_tag_0(rt: HostRuntime) -> Result<(), Fail> {
    let setup = three_pages(rt.alloc())?;
    let mut world = World::new(rt.alloc(), &setup, Lcg64Xsh32::new(7, 54))?;
    assert_eq!(rt; world.monitor().space().pages(), 3);
    assert_eq!(rt; world.touch(1), 0);
    Ok(())
}

#[test]
fn a_step_ends_no_pass(rt: HostRuntime) -> Result<(), Fail> {
    let setup = three_pages(rt.alloc())?;
    assert_eq!(rt; setup.space.pages(), 3);
    let world = touched_and_stepped(rt.alloc(), &setup)?;
    assert_eq!(rt; world.monitor().ticks(), 0);
    Ok(())
}
