// Reading tables: what is refused, where, and in which order.
use crate::bytes::FLOOR_B;
use crate::told::told;
use records::reading::read_table;
use records::table_size::TableSize;
use site::sheets::Row;
use std::test::Fail;

// What reading answers, with room for so many rows and arrows; none where the test asks for more room than it has.
fn answer(bytes: &[u8], rows: usize, arrows: usize) -> Option<Result<usize, (usize, usize)>> {
    let mut row_sheet = [Row::default(); 8];
    let mut arrow_sheet = [0u16; 32];
    let size = told(read_table(
        bytes,
        row_sheet.get_mut(..rows)?,
        arrow_sheet.get_mut(..arrows)?,
    ));
    Some(size.map(|size| size.states))
}

#[test]
fn reads_floor_b(rt: HostRuntime) -> Result<(), Fail> {
    let mut rows = [Row::default(); 5];
    let mut arrows = [77u16; 9];
    let size = read_table(&FLOOR_B, &mut rows, &mut arrows)?;
    assert_eq!(rt;
        size,
        TableSize {
            states: 4,
            arrows: 8,
        }
    );
    assert!(rt; rows[2].first == 5 && rows[3].first == 7 && rows[4].commands == 0);
    assert!(rt; arrows[1] == 1 && arrows[2] == 2 && arrows[7] == 3 && arrows[8] == 77);
    Ok(())
}

#[test]
fn refuses_cut_and_surplus(rt: HostRuntime) {
    assert!(rt; answer(&FLOOR_B[0..42], 8, 32) == Some(Err((1, 40))));
    assert!(rt; answer(&[], 8, 32) == Some(Err((1, 0))));
    assert!(rt; answer(&[0x01, 0], 8, 32) == Some(Err((1, 0))));
    assert!(rt; answer(&[0x01, 0, 1, 0x02, 2, 1, 1, 0x03, 0, 0, 0], 8, 32) == Some(Err((8, 10))));
}

#[test]
fn refuses_kinds_and_values(rt: HostRuntime) {
    assert!(rt; answer(&[0x02, 0, 1], 8, 32) == Some(Err((2, 0))));
    assert!(rt; answer(&[0x01, 0, 0], 8, 32) == Some(Err((3, 0))));
    assert!(rt; answer(&[0x01, 4, 1], 8, 32) == Some(Err((3, 0))));
    assert!(rt; answer(&[0x01, 0, 1, 0x02, 3, 1, 1], 8, 32) == Some(Err((4, 3))));
    assert!(rt; answer(&[0x01, 0, 1, 0x02, 2, 0, 1], 8, 32) == Some(Err((5, 3))));
    assert!(rt; answer(&[0x01, 0, 1, 0x02, 2, 1, 17], 8, 32) == Some(Err((5, 3))));
    assert!(rt; answer(&[0x01, 0, 1, 0x02, 2, 1, 1, 0x03, 0, 1], 8, 32) == Some(Err((7, 7))));
}

#[test]
fn refuses_short_sheets_last(rt: HostRuntime) {
    assert!(rt; answer(&FLOOR_B, 3, 32) == Some(Err((9, 4))));
    assert!(rt; answer(&FLOOR_B, 4, 7) == Some(Err((9, 8))));
    assert!(rt; answer(&FLOOR_B, 4, 8) == Some(Ok(4)));
    assert!(rt; answer(&FLOOR_B[0..42], 0, 0) == Some(Err((1, 40))));
}

// A table of 65 states with 256 arrows each passes 16,384 at the last row; an input longer than any table has a surplus.
#[test]
fn refuses_too_many_arrows_and_bytes(rt: HostRuntime) -> Result<(), Fail> {
    let mut bytes = Vec::new(rt.alloc());
    bytes.extend_from_slice(&[0x01, 0, 65])?;
    for _ in 0..64 {
        bytes.extend_from_slice(&[0x02, 2, 16, 16])?;
        for _ in 0..256 {
            bytes.extend_from_slice(&[0x03, 0, 0])?;
        }
    }
    bytes.extend_from_slice(&[0x02, 2, 1, 1])?;
    assert!(rt; answer(bytes.as_slice(), 0, 0) == Some(Err((6, 49411))));
    let mut long = Vec::new(rt.alloc());
    long.extend_from_slice(&[0x01, 0, 1, 0x02, 2, 1, 1, 0x03, 0, 0])?;
    for _ in 0..53243 {
        long.push(0)?;
    }
    assert!(rt; long.len() == 53253);
    assert!(rt; answer(long.as_slice(), 8, 32) == Some(Err((8, 10))));
    Ok(())
}
