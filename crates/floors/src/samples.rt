// Floor B as sheets, with its pair.
use checker::leaves::Leaf;
use site::grades::Grade;
use site::sheets::Row;

pub(crate) const ROWS: [Row; 4] = [
    Row {
        grade: Grade::Confirmed,
        commands: 1,
        events: 1,
        first: 0,
    },
    Row {
        grade: Grade::Ordinary,
        commands: 2,
        events: 2,
        first: 1,
    },
    Row {
        grade: Grade::Doubted,
        commands: 1,
        events: 2,
        first: 5,
    },
    Row {
        grade: Grade::Doubted,
        commands: 1,
        events: 1,
        first: 7,
    },
];

pub(crate) const ARROWS: [u16; 8] = [1, 1, 2, 0, 1, 0, 1, 3];

pub(crate) const LEAVES: [Leaf; 4] = [
    Leaf::Covered {
        command: 0,
        rank: 0,
    },
    Leaf::Covered {
        command: 1,
        rank: 0,
    },
    Leaf::Covered {
        command: 0,
        rank: 1,
    },
    Leaf::Open {
        first: 0,
        second: 0,
    },
];
