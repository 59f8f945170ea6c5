// Pools by example.

use super::processes::{begins_twice, makes_a_name, repeats, stops};
use spi_replay::{Pool, StepFault};
use spi_run::Step;
use spi_term::Msg;
use std::test::Fail;

// How many steps are ready at each of the first three places.
fn ready_at(pool: &Pool<'_>) -> [u64; 3] {
    let mut counts = [0, 0, 0];
    for place in 0..3 {
        if place < pool.places() {
            counts[place as usize] = pool.ready_at(place);
        }
    }
    counts
}

#[test]
fn steps_are_counted_by_their_first_places(rt: HostRuntime) -> Result<(), Fail> {
    let process = begins_twice(rt.alloc())?;
    let opponent = makes_a_name(rt.alloc())?;
    let pool = Pool::start(rt.alloc(), &process, &opponent, 5000)?;
    let none_waits = pool.outs_on(&Msg::Name(0)).is_empty();
    let are_counted = pool.ready() == 2 && ready_at(&pool) == [1, 1, 0];
    assert!(rt; are_counted && none_waits, "a begin beside a new name");
    Ok(())
}

// Takes a step, and gives why it is refused, by the number of its kind and its own number.
fn refused(pool: &mut Pool<'_>, step: Step) -> (u32, u32) {
    if pool.names() > 10 {
        return (0, 0);
    }
    match pool.step(step) {
        Err(StepFault::NoPlace { place }) => (60, place),
        Err(StepFault::NotReady { place }) => (61, place),
        Err(StepFault::TooManyPlaces { places }) => (63, places),
        _ => (0, 0),
    }
}

#[test]
fn places_are_found_by_their_channel(rt: HostRuntime) -> Result<(), Fail> {
    let process = repeats(rt.alloc())?;
    let opponent = stops(rt.alloc())?;
    let mut pool = Pool::start(rt.alloc(), &process, &opponent, 5000)?;
    let is_taken = matches!(refused(&mut pool, Step::Act(0)), (0, 0));
    let is_there = ready_at(&pool) == [0, 0, 1];
    assert!(rt; is_taken && is_there, "an output beside a repeated input");
    let outs = matches!(pool.outs_on(&Msg::Name(0)), [2]);
    let ins = matches!(pool.ins_on(&Msg::Name(0)), [0]);
    let first = matches!(pool.kth(0), Some(Step::Talk(2, 0)));
    assert!(rt; outs && ins && first, "both may talk");
    Ok(())
}

#[test]
fn a_refused_step_leaves_the_pool(rt: HostRuntime) -> Result<(), Fail> {
    let (process, opponent) = (repeats(rt.alloc())?, stops(rt.alloc())?);
    let mut pool = Pool::start(rt.alloc(), &process, &opponent, 2)?;
    let many = matches!(refused(&mut pool, Step::Act(0)), (63, 3));
    let unready = matches!(refused(&mut pool, Step::Talk(0, 1)), (61, 0));
    let none = matches!(refused(&mut pool, Step::Talk(0, 2)), (60, 2));
    assert!(rt; many && unready && none, "two places are the most");
    let is_left = pool.places() == 2 && ready_at(&pool) == [1, 0, 0];
    assert!(rt; is_left, "the pool is as before");
    Ok(())
}
