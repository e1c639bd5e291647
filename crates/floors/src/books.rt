// Tables and books as bytes: what is written, what is read back, and what is refused where.
use crate::bytes::FLOOR_B;
use crate::samples::{ARROWS, LEAVES, ROWS};
use crate::told::told;
use checker::leaves::Leaf;
use drift::drifts::Drift;
use records::book_reading::read_book;
use records::book_writing::write_book;
use records::writing::write_table;
use site::tables::Table;
use std::test::Fail;
use watch::piles::Watched;
use watch::watches::Watch;

// The book of floor B.
const BOOK: [u8; 22] = [
    0x11, 0, 4, 0x12, 0, 0, 0, 0x12, 1, 0, 0, 0x12, 0, 0, 1, 0x13, 0, 0, 0, 0, 0x14, 0,
];

// What reading these bytes as a book of floor B answers, with room for so many leaves and replies; none where the test
// asks for more room than it has.
fn answer(bytes: &[u8], leaves: usize, replies: usize) -> Option<Result<usize, (usize, usize)>> {
    let mut leaf_sheet = [Leaf::Open {
        first: 9,
        second: 9,
    }; 8];
    let mut reply_sheet = [9u8; 128];
    Some(told(read_book(
        &Table::new(4, &ROWS, &ARROWS),
        bytes,
        leaf_sheet.get_mut(..leaves)?,
        reply_sheet.get_mut(..replies)?,
    )))
}

#[test]
fn writes_tables(rt: HostRuntime) {
    let mut buffer = [7u8; 50];
    assert!(rt; told(write_table(&Table::new(4, &ROWS, &ARROWS), &mut buffer)) == Ok(43));
    assert!(rt; buffer[0..43] == FLOOR_B[0..43] && buffer[43] == 7);
    assert!(rt;
        told(write_table(&Table::new(4, &ROWS, &ARROWS), &mut buffer[0..42])) == Err((9, 43))
    );
}

// A pile of 1,104 states with 12 arrows each: 9 comes before 21, with the 3 + 4 × 1,104 + 3 × 13,248 bytes needed.
#[test]
fn refuses_large_sites(rt: HostRuntime) -> Result<(), Fail> {
    let mut below = Drift::new();
    let mut watch = Watch::new();
    assert!(rt; below.set(1, 7).is_ok() && watch.set(8, [0; 24], [2; 24]).is_ok());
    let site = Watched::new(below, watch);
    let mut buffer = vec![in rt.alloc(); 0u8; 44163]?;
    assert!(rt; told(write_table(&site, buffer.as_mut_slice())) == Err((21, 1104)));
    assert!(rt; told(write_table(&site, &mut [])) == Err((9, 44163)));
    Ok(())
}

#[test]
fn writes_books(rt: HostRuntime) {
    let site = Table::new(4, &ROWS, &ARROWS);
    let mut buffer = [7u8; 30];
    assert!(rt; told(write_book(&site, &LEAVES, &[0u8; 64], &mut buffer)) == Ok(22));
    assert!(rt; buffer[0..22] == BOOK[0..22] && buffer[22] == 7);
    assert!(rt; told(write_book(&site, &LEAVES[0..3], &[0u8; 64], &mut buffer)) == Err((9, 4)));
    assert!(rt; told(write_book(&site, &LEAVES, &[0u8; 63], &mut buffer)) == Err((9, 64)));
    assert!(rt; told(write_book(&site, &LEAVES, &[0u8; 64], &mut buffer[0..21])) == Err((9, 22)));
}

#[test]
fn reads_books(rt: HostRuntime) {
    let mut leaves = [Leaf::Open {
        first: 9,
        second: 9,
    }; 5];
    let mut replies = [9u8; 65];
    assert!(rt;
        told(read_book(
            &Table::new(4, &ROWS, &ARROWS),
            &BOOK,
            &mut leaves,
            &mut replies,
        )) == Ok(4)
    );
    assert!(rt; leaves[2] == LEAVES[2] && leaves[3] == LEAVES[3]);
    assert!(rt;
        leaves[4]
            == Leaf::Open {
                first: 9,
                second: 9,
            }
    );
    assert!(rt; replies[48] == 0 && replies[49] == 9 && replies[0] == 9);
}

#[test]
fn refuses_books(rt: HostRuntime) {
    assert!(rt; answer(&[], 4, 64) == Some(Err((1, 0))));
    assert!(rt; answer(&[0x01, 0, 4], 4, 64) == Some(Err((2, 0))));
    assert!(rt; answer(&[0x11, 0, 3], 4, 64) == Some(Err((3, 0))));
    assert!(rt; answer(&BOOK[0..3], 4, 64) == Some(Err((1, 3))));
    assert!(rt; answer(&BOOK[0..9], 4, 64) == Some(Err((1, 7))));
    assert!(rt; answer(&BOOK[0..20], 4, 64) == Some(Err((1, 20))));
    assert!(rt; answer(&BOOK[0..21], 4, 64) == Some(Err((1, 20))));
    assert!(rt; answer(&BOOK, 3, 64) == Some(Err((9, 4))));
    assert!(rt; answer(&BOOK, 4, 63) == Some(Err((9, 64))));
    assert!(rt; answer(&BOOK[0..20], 0, 0) == Some(Err((1, 20))));
}
