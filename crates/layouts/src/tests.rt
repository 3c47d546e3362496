// Meshes against tables that were worked out by hand.
use crate::mesh::Mesh;
use crate::rules::Rules;
use crate::turn::Turn;
use crate::turn::Turn::{Climb, Free, Never};
use crate::turn_rule::TurnRule;
use crate::ways::Ways;
use refusals::refusal::Refusal;
use std::process::Abort;
use std::test::Fail;

// The links of a 3 × 3 mesh that lead into its middle tile, and those that leave it: east, west, north, south.
const INTO_MIDDLE: [u16; 4] = [2, 9, 13, 22];

const FROM_MIDDLE: [u16; 4] = [3, 8, 16, 19];

// Each turn at the middle tile: a row for each direction on the way in, a column for each on the way out.
fn check_middle(rt: &impl Abort, rule: TurnRule, expected: [[Turn; 4]; 4]) -> Result<(), Fail> {
    let mesh = Mesh::new(rule, 3, 3)?;
    for (into, row) in INTO_MIDDLE.iter().zip(&expected) {
        for (from, turn) in FROM_MIDDLE.iter().zip(row) {
            assert_eq!(rt; mesh.turn(*into, *from), *turn);
        }
    }
    Ok(())
}

#[test]
fn turns_at_the_middle(rt: HostRuntime) -> Result<(), Fail> {
    check_middle(
        &rt,
        TurnRule::Xy,
        [
            [Free, Never, Free, Free],
            [Never, Free, Free, Free],
            [Climb, Climb, Free, Never],
            [Climb, Climb, Never, Free],
        ],
    )?;
    check_middle(
        &rt,
        TurnRule::WestFirst,
        [
            [Free, Never, Free, Free],
            [Never, Free, Free, Free],
            [Free, Climb, Free, Never],
            [Free, Climb, Never, Free],
        ],
    )?;
    check_middle(
        &rt,
        TurnRule::NorthLast,
        [
            [Free, Never, Free, Free],
            [Never, Free, Free, Free],
            [Climb, Climb, Free, Never],
            [Free, Free, Never, Free],
        ],
    )?;
    check_middle(
        &rt,
        TurnRule::NegativeFirst,
        [
            [Free, Never, Free, Climb],
            [Never, Free, Free, Free],
            [Free, Climb, Free, Never],
            [Free, Free, Never, Free],
        ],
    )
}

// The start and the end of each link of a 5 × 3 mesh: 12 east, 12 west, 10 north, 10 south.
const ENDS: [(u16, u16); 44] = [
    (0, 1),
    (1, 2),
    (2, 3),
    (3, 4),
    (5, 6),
    (6, 7),
    (7, 8),
    (8, 9),
    (10, 11),
    (11, 12),
    (12, 13),
    (13, 14),
    (1, 0),
    (2, 1),
    (3, 2),
    (4, 3),
    (6, 5),
    (7, 6),
    (8, 7),
    (9, 8),
    (11, 10),
    (12, 11),
    (13, 12),
    (14, 13),
    (0, 5),
    (1, 6),
    (2, 7),
    (3, 8),
    (4, 9),
    (5, 10),
    (6, 11),
    (7, 12),
    (8, 13),
    (9, 14),
    (5, 0),
    (6, 1),
    (7, 2),
    (8, 3),
    (9, 4),
    (10, 5),
    (11, 6),
    (12, 7),
    (13, 8),
    (14, 9),
];

#[test]
fn numbers_of_all_four_blocks(rt: HostRuntime) -> Result<(), Fail> {
    let mesh = Mesh::new(TurnRule::Xy, 5, 3)?;
    assert_eq!(rt; mesh.tiles(), 15);
    assert_eq!(rt; mesh.links(), 44);
    for (k, ends) in (0..44).zip(ENDS) {
        assert_eq!(rt; (mesh.start(k), mesh.end(k)), ends);
    }
    assert_eq!(rt; (mesh.start(44), mesh.end(44)), (255, 255));
    assert_eq!(rt; (mesh.start(65535), mesh.end(65535)), (255, 255));
    assert_eq!(rt; mesh.turn(44, 0), Never);
    assert_eq!(rt; mesh.turn(0, 44), Never);
    Ok(())
}

#[test]
fn sizes_from_two_to_eight(rt: HostRuntime) -> Result<(), Fail> {
    for size in [0, 1, 9, 65535u16] {
        assert_eq!(rt;
            Mesh::new(TurnRule::Xy, size, 2).err(),
            Some(Refusal::MeshSize)
        );
        assert_eq!(rt;
            Mesh::new(TurnRule::Xy, 8, size).err(),
            Some(Refusal::MeshSize)
        );
    }
    let least = Mesh::new(TurnRule::Xy, 2, 2)?;
    assert_eq!(rt; (least.tiles(), least.links()), (4, 8));
    let most = Mesh::new(TurnRule::Xy, 8, 8)?;
    assert_eq!(rt; (most.tiles(), most.links()), (64, 224));
    Ok(())
}
