// The listings of the sample floors, byte for byte.
use crate::bytes::{FLOOR_A, FLOOR_B, FLOOR_C, LATE, RESTING};
use checker::leaves::Leaf;
use planner::certifying::certify;
use records::listing::{head_line, state_line};
use records::reading::read_table;
use site::faults::Fault;
use site::grades::Grade;
use site::interface::Site;
use site::sheets::Row;
use site::tables::Table;
use std::alloc::Global;
use std::process::Abort;
use std::test::Fail;

// Adds a line that was written into a buffer.
fn add(
    rt: &impl Abort,
    out: &mut Vec<u8>,
    buffer: &[u8],
    written: Result<usize, Fault>,
) -> Result<(), Fail> {
    let len = written?;
    assert!(rt; len <= buffer.len());
    out.extend_from_slice(&buffer[0..len])?;
    Ok(())
}

// The listing of a floor of at most eight states.
fn listed(rt: &impl Abort, heap: Global, bytes: &[u8]) -> Result<Vec<u8>, Fail> {
    let mut rows = [Row::default(); 8];
    let mut arrows = [0u16; 32];
    let size = read_table(bytes, &mut rows, &mut arrows)?;
    let table = Table::new(size.states, &rows, &arrows);
    let mut leaves = [Leaf::Covered {
        command: 9,
        rank: 9,
    }; 8];
    let mut replies = [9u8; 128];
    let mut work = [9u16; 32];
    let counts = certify(&table, &mut leaves, &mut replies, &mut work)?;
    let mut out = Vec::new(heap);
    let mut buffer = [0u8; 128];
    let written = head_line(table.states(), counts.covered, counts.open, &mut buffer);
    add(rt, &mut out, &buffer, written)?;
    for s in 0..table.states() {
        let mut buffer = [0u8; 128];
        let written = state_line(&table, &leaves, &replies, s, &mut buffer);
        add(rt, &mut out, &buffer, written)?;
    }
    Ok(out)
}

#[test]
fn lists_floor_b(rt: HostRuntime) -> Result<(), Fail> {
    let lines = listed(&rt, rt.alloc(), &FLOOR_B)?;
    assert!(rt;
        lines.as_slice()
            == b"states 4 covered 3 open 1\n0 covered command 0 rank 0\n1 covered command 1 rank 0\n2 covered command 0 rank 1\n3 open pair 0 0 events 0\n".as_slice()
    );
    Ok(())
}

#[test]
fn lists_floor_a(rt: HostRuntime) -> Result<(), Fail> {
    let lines = listed(&rt, rt.alloc(), &FLOOR_A)?;
    assert!(rt;
        lines.as_slice()
            == b"states 3 covered 0 open 3\n0 open pair 1 0 events 0\n1 open pair 0 1 events 1 1\n2 open pair 0 0 events 1\n".as_slice()
    );
    Ok(())
}

#[test]
fn lists_floor_c(rt: HostRuntime) -> Result<(), Fail> {
    let lines = listed(&rt, rt.alloc(), &FLOOR_C)?;
    assert!(rt;
        lines.as_slice()
            == b"states 2 covered 1 open 1\n0 open pair 0 0 events 1 0\n1 covered command 0 rank 0\n".as_slice()
    );
    Ok(())
}

#[test]
fn lists_the_resting_site(rt: HostRuntime) -> Result<(), Fail> {
    let lines = listed(&rt, rt.alloc(), &RESTING)?;
    assert!(rt;
        lines.as_slice() == b"states 1 covered 1 open 0\n0 covered command 0 rank 0\n".as_slice()
    );
    Ok(())
}

#[test]
fn counts_second_numbers_by_stage(rt: HostRuntime) -> Result<(), Fail> {
    let lines = listed(&rt, rt.alloc(), &LATE)?;
    assert!(rt;
        lines.as_slice()
            == b"states 4 covered 0 open 4\n0 open pair 0 0 events 0\n1 open pair 0 1 events 0\n2 open pair 1 0 events 0\n3 open pair 1 2 events 0 0\n".as_slice()
    );
    Ok(())
}

// Sheets that break the rules make the resting site.
#[test]
fn broken_sheets_rest(rt: HostRuntime) {
    let rows = [Row {
        grade: Grade::Doubted,
        commands: 1,
        events: 1,
        first: 0,
    }];
    assert!(rt; Table::new(1, &rows, &[0]).states() == 1);
    assert!(rt; Table::new(1, &rows, &[0]).grade(0) == Grade::Doubted);
    assert!(rt; Table::new(1, &rows, &[1]).grade(0) == Grade::Ordinary);
    assert!(rt; Table::new(2, &rows, &[0]).grade(0) == Grade::Ordinary);
    assert!(rt; Table::new(0, &rows, &[0]).grade(0) == Grade::Ordinary);
    assert!(rt; Table::new(1, &rows, &[]).grade(0) == Grade::Ordinary);
    assert!(rt; Table::new(1, &rows, &[0]).next(0, 1, 0) == 0);
}
