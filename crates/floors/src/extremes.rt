// The longest table, and bytes drawn at random.
use crate::samples::{ARROWS, ROWS};
use checker::leaves::Leaf;
use records::book_reading::read_book;
use records::reading::read_table;
use records::writing::write_table;
use site::sheets::Row;
use site::tables::Table;
use std::alloc::Global;
use std::test::Fail;

// The next number of a simple generator, of which the tests' inputs are made: they may not change. The benchmark has the
// same.
fn next_random(seed: u64) -> u64 {
    seed.wrapping_mul(6364136223846793005)
        .wrapping_add(1442695040888963407)
}

// The bytes of a table of 1,024 states with 16 arrows each.
fn longest(heap: Global) -> Result<Vec<u8>, Fail> {
    let mut bytes = Vec::new(heap);
    bytes.extend_from_slice(&[0x01, 4, 0])?;
    for s in 0..1024usize {
        bytes.extend_from_slice(&[0x02, (s % 3) as u8, 4, 4])?;
        for i in 0..16usize {
            let aim = (s + i) % 1024;
            let [high, low] = (aim as u16).to_be_bytes();
            bytes.extend_from_slice(&[0x03, high, low])?;
        }
    }
    Ok(bytes)
}

#[test]
fn reads_and_writes_the_longest_table(rt: HostRuntime) -> Result<(), Fail> {
    let bytes = longest(rt.alloc())?;
    assert!(rt; bytes.len() == 53251);
    let mut rows = vec![in rt.alloc(); Row::default(); 1024]?;
    let mut arrows = vec![in rt.alloc(); 0u16; 16384]?;
    let size = read_table(bytes.as_slice(), rows.as_mut_slice(), arrows.as_mut_slice())?;
    assert!(rt; size.states == 1024 && size.arrows == 16384);
    let table = Table::new(size.states, rows.as_slice(), arrows.as_slice());
    let mut buffer = vec![in rt.alloc(); 0u8; 53251]?;
    let written = write_table(&table, buffer.as_mut_slice())?;
    assert!(rt; written == 53251 && buffer.as_slice() == bytes.as_slice());
    Ok(())
}

// Reading answers each of many random byte strings, and refuses by 1 to 8.
#[test]
fn answers_random_bytes(rt: HostRuntime) -> Result<(), Fail> {
    let mut seed = 7u64;
    let mut rows = vec![in rt.alloc(); Row::default(); 1024]?;
    let mut arrows = vec![in rt.alloc(); 0u16; 16384]?;
    for _ in 0..2000usize {
        let mut bytes = [0u8; 24];
        for byte in bytes.iter_mut() {
            seed = next_random(seed);
            *byte = ((seed >> 40) & 3) as u8;
        }
        bytes[0] = 1;
        bytes[1] = 0;
        let number = read_table(&bytes, rows.as_mut_slice(), arrows.as_mut_slice()).map_or_else(
            |fault| fault.number(),
            |_| 1,
        );
        assert!(rt; number >= 1 && number <= 8);
        let mut leaves = [Leaf::Open {
            first: 0,
            second: 0,
        }; 4];
        let mut replies = [0u8; 64];
        bytes[0] = 17;
        let number = read_book(
            &Table::new(4, &ROWS, &ARROWS),
            &bytes,
            &mut leaves,
            &mut replies,
        )
        .map_or_else(|fault| fault.number(), |_| 1);
        assert!(rt; number >= 1 && number <= 8);
    }
    Ok(())
}
