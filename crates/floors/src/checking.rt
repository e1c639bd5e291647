// The check on floor B's pair, and on pairs that are wrong in one place.
use crate::samples::{ARROWS, LEAVES, ROWS};
use crate::told::told;
use checker::checks::check as check_pair;
use checker::leaves::{Leaf, consult};
use site::tables::Table;

// What the check answers: how many states are covered, or the refusal's number and place.
fn answer(leaves: &[Leaf], replies: &[u8]) -> Result<usize, (usize, usize)> {
    told(check_pair(&Table::new(4, &ROWS, &ARROWS), leaves, replies)).map(|counts| counts.covered)
}

// Floor B's leaves with another leaf at one state.
fn with(s: usize, leaf: Leaf) -> [Leaf; 4] {
    let mut leaves = LEAVES;
    if s < 4 {
        leaves[s] = leaf;
    }
    leaves
}

#[test]
fn accepts_floor_b(rt: HostRuntime) {
    assert!(rt; answer(&LEAVES, &[0u8; 64]) == Ok(3));
    assert!(rt; answer(&LEAVES[0..3], &[0u8; 64]) == Err((9, 4)));
    assert!(rt; answer(&LEAVES, &[0u8; 63]) == Err((9, 64)));
}

#[test]
fn refuses_wrong_numbers(rt: HostRuntime) {
    assert!(rt;
        answer(
            &with(
                2,
                Leaf::Covered {
                    command: 0,
                    rank: 0,
                },
            ),
            &[0u8; 64],
        ) == Err((13, 2))
    );
    assert!(rt;
        answer(
            &with(
                0,
                Leaf::Covered {
                    command: 0,
                    rank: 3,
                },
            ),
            &[0u8; 64],
        ) == Err((11, 0))
    );
    assert!(rt;
        answer(
            &with(
                3,
                Leaf::Open {
                    first: 2,
                    second: 0,
                },
            ),
            &[0u8; 64],
        ) == Err((11, 3))
    );
    assert!(rt;
        answer(
            &with(
                3,
                Leaf::Open {
                    first: 0,
                    second: 2,
                },
            ),
            &[0u8; 64],
        ) == Err((11, 3))
    );
}

#[test]
fn refuses_wrong_moves_and_parts(rt: HostRuntime) {
    assert!(rt;
        answer(
            &with(
                1,
                Leaf::Covered {
                    command: 2,
                    rank: 0,
                },
            ),
            &[0u8; 64],
        ) == Err((10, 1))
    );
    let mut replies = [0u8; 64];
    replies[48] = 1;
    assert!(rt; answer(&LEAVES, &replies) == Err((10, 3)));
    assert!(rt;
        answer(
            &with(
                1,
                Leaf::Open {
                    first: 0,
                    second: 1,
                },
            ),
            &[0u8; 64],
        ) == Err((12, 0))
    );
    assert!(rt;
        answer(
            &with(
                1,
                Leaf::Covered {
                    command: 0,
                    rank: 0,
                },
            ),
            &[0u8; 64],
        ) == Err((13, 1))
    );
    assert!(rt;
        answer(
            &with(
                3,
                Leaf::Covered {
                    command: 0,
                    rank: 1,
                },
            ),
            &[0u8; 64],
        ) == Err((13, 3))
    );
}

#[test]
fn consults_leaves(rt: HostRuntime) {
    assert_eq!(rt; consult(&LEAVES, 1), Some(1));
    assert_eq!(rt; consult(&LEAVES, 3), None);
    assert_eq!(rt; consult(&LEAVES, 4), None);
}
