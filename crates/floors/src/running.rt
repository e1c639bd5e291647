// Placing and rounds on floor B: the worked run, and each refusal in the order of tests.
use crate::samples::{ARROWS, LEAVES, ROWS};
use crate::told::told;
use checker::leaves::Leaf;
use checker::runs::Run;
use site::tables::Table;

#[test]
fn runs_by_the_book(rt: HostRuntime) {
    let site = Table::new(4, &ROWS, &ARROWS);
    let mut run = Run::Blank;
    assert!(rt; told(run.place(&site, 2)) == Ok(2));
    assert!(rt; told(run.book_round(&site, &LEAVES, 1)) == Ok(1));
    assert!(rt; told(run.book_round(&site, &LEAVES, 1)) == Ok(1));
    assert!(rt;
        run == Run::Placed {
            state: 1,
            confirmations: 0,
            doubts: 1,
            row: 2,
        }
    );
    assert!(rt; told(run.book_round(&site, &LEAVES, 0)) == Ok(0));
    assert!(rt;
        run == Run::Placed {
            state: 0,
            confirmations: 1,
            doubts: 0,
            row: 0,
        }
    );
}

#[test]
fn runs_by_the_objection(rt: HostRuntime) {
    let site = Table::new(4, &ROWS, &ARROWS);
    let mut run = Run::Blank;
    assert!(rt; told(run.place(&site, 3)) == Ok(3));
    assert!(rt; told(run.objection_round(&site, &LEAVES, &[0u8; 64], 0)) == Ok(3));
    assert!(rt;
        run == Run::Placed {
            state: 3,
            confirmations: 0,
            doubts: 2,
            row: 0,
        }
    );
}

#[test]
fn counts_stay_at_their_end(rt: HostRuntime) {
    let site = Table::new(4, &ROWS, &ARROWS);
    let mut run = Run::Placed {
        state: 3,
        confirmations: 7,
        doubts: 65535,
        row: 9,
    };
    assert!(rt; told(run.objection_round(&site, &LEAVES, &[0u8; 64], 0)) == Ok(3));
    assert!(rt;
        run == Run::Placed {
            state: 3,
            confirmations: 7,
            doubts: 65535,
            row: 0,
        }
    );
}

#[test]
fn refuses_in_order(rt: HostRuntime) {
    let site = Table::new(4, &ROWS, &ARROWS);
    let mut blank = Run::Blank;
    assert!(rt; told(blank.place(&site, 4)) == Err((15, 4)));
    assert!(rt; told(blank.book_round(&site, &LEAVES[0..3], 9)) == Err((9, 4)));
    assert!(rt; told(blank.book_round(&site, &LEAVES, 9)) == Err((14, 0)));
    assert!(rt; told(blank.objection_round(&site, &LEAVES, &[0u8; 63], 9)) == Err((9, 64)));
    let mut away = Run::Placed {
        state: 4,
        confirmations: 0,
        doubts: 0,
        row: 0,
    };
    assert!(rt; told(away.book_round(&site, &LEAVES, 9)) == Err((15, 4)));
    let mut second = Run::Placed {
        state: 2,
        confirmations: 0,
        doubts: 1,
        row: 0,
    };
    assert!(rt; told(second.objection_round(&site, &LEAVES, &[0u8; 64], 9)) == Err((17, 2)));
    assert!(rt; told(second.book_round(&site, &LEAVES, 2)) == Err((16, 2)));
    let mut wrong = LEAVES;
    wrong[2] = Leaf::Covered {
        command: 5,
        rank: 1,
    };
    assert!(rt; told(second.book_round(&site, &wrong, 0)) == Err((10, 2)));
    assert!(rt;
        second
            == Run::Placed {
                state: 2,
                confirmations: 0,
                doubts: 1,
                row: 0,
            }
    );
}
