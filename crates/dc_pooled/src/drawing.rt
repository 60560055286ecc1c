//! Each bundle is given once, and then none.
#![tactic(auto)]

use dc_path::{List, OutOfMemory};
use dc_pool::Draws;
use std::alloc::Global;
use std::test::Fail;

// Whether these were drawn, in this order.
fn are(drawn: &List<Option<u32>>, expected: &[Option<u32>]) -> bool {
    drawn.as_slice() == expected
}

// What one drawer draws of two bundles, and the number to which the word has come then.
fn draw_alone(alloc: Global) -> Result<(List<Option<u32>>, u64), OutOfMemory> {
    let (draws, drawers) = Draws::new(alloc, 2, 1)?;
    let Some(mut drawer) = drawers.into_vec().pop() else {
        return Err(OutOfMemory);
    };
    let mut drawn = List::new(alloc);
    drawn.add(draws.draw(&mut drawer))?;
    drawn.add(draws.draw(&mut drawer))?;
    drawn.add(draws.draw(&mut drawer))?;
    drawn.add(draws.draw(&mut drawer))?;
    Ok((drawn, draws.finish(drawer)))
}

#[test]
fn a_drawer_is_given_each_bundle_once(rt: HostRuntime) -> Result<(), Fail> {
    let (drawn, given) = draw_alone(rt.alloc()).expect(&rt, "memory");
    assert!(rt; are(&drawn, &[Some(0), Some(1), None, None]));
    assert_eq!(rt; given, 3);
    Ok(())
}

// What two drawers draw of one bundle, in turn, and the number to which the word has come then.
fn draw_in_turn(alloc: Global) -> Result<(List<Option<u32>>, u64), OutOfMemory> {
    let (draws, drawers) = Draws::new(alloc, 1, 2)?;
    let mut drawers = drawers.into_vec();
    let (Some(mut one), Some(mut other)) = (drawers.pop(), drawers.pop()) else {
        return Err(OutOfMemory);
    };
    let mut drawn = List::new(alloc);
    drawn.add(draws.draw(&mut one))?;
    drawn.add(draws.draw(&mut other))?;
    drawn.add(draws.draw(&mut one))?;
    draws.put_together(&mut one, other);
    Ok((drawn, draws.finish(one)))
}

#[test]
fn two_drawers_are_not_given_one_bundle(rt: HostRuntime) -> Result<(), Fail> {
    let (drawn, given) = draw_in_turn(rt.alloc()).expect(&rt, "memory");
    assert!(rt; are(&drawn, &[Some(0), None, None]));
    assert_eq!(rt; given, 3);
    Ok(())
}
