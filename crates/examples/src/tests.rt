use crate::turning::Turning;
use floor::floor::Floor;
use map::map::Map;
use plancheck::check;
use routes::refusal::{Reason, Refusal};
use std::test::Fail;
use trays::refusal::Refusal as FloorRefusal;

fn square() -> Result<Map, Fail> {
    let mut map = Map::new(2, 2)?;
    for stop in [0u8, 1, 16, 17] {
        map.mark_stop(stop)?;
    }
    Ok(map)
}

#[test]
fn a_plan_that_turns_is_refused(rt: HostRuntime) -> Result<(), Fail> {
    let map = square()?;
    assert_eq!(rt;
        check(&map, &Turning, &Turning),
        Err(Refusal {
            reason: Reason::NotRising,
            origin: 16,
            destination: 1,
            step: 2,
            held: 64,
            wanted: 1,
        })
    );
    Ok(())
}

#[test]
fn trays_that_turn_stand_in_a_ring(rt: HostRuntime) -> Result<(), Fail> {
    let mut floor = Floor::open(square()?, Turning);
    for (origin, destination) in [(0u8, 17u8), (1, 16), (17, 0), (16, 1)] {
        floor.enter(origin, destination)?;
    }
    for (held, wanted) in [(1u16, 6u16), (6, 71), (71, 64), (64, 1)] {
        assert_eq!(rt;
            floor.advance(held),
            Err(FloorRefusal::WantedTaken(held, wanted))
        );
    }
    Ok(())
}
