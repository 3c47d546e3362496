// Plans written and loaded again.
use codec::head::Head;
use grid::grid::Grid;
use layouts::mesh::Mesh;
use layouts::turn_rule::TurnRule;
use plan::load::load;
use plan::write::write;
use refusals::refusal::Refusal;
use std::alloc::Global;
use std::process::Abort;
use std::test::Fail;

const TWO_STREAMS: [u8; 24] = [
    1, 1, 3, 3, 1, 2, 100, 2, 0, 0, 4, 30, 2, 0, 52, 1, 0, 8, 20, 4, 0, 4, 56, 68,
];

// The head of that plan.
const HEAD: Head = Head {
    version: 1,
    rule: 1,
    width: 3,
    height: 3,
    lanes: 1,
    depth: 2,
    capacity: 100,
};

// A blank grid that the head fits.
fn blank(heap: Global) -> Result<Grid<Mesh>, Fail> {
    Ok(Grid::blank(heap, Mesh::new(TurnRule::Xy, 3, 3)?, 1, 2, 100)?)
}

#[test]
fn written_back(rt: HostRuntime) -> Result<(), Fail> {
    let mut grid = blank(rt.alloc())?;
    assert_eq!(rt; load(&mut grid, &TWO_STREAMS), Ok(2));
    let mut buffer = [7; 26];
    assert_eq!(rt; write(&grid, &HEAD, &mut buffer), Ok(24));
    assert_eq!(rt; buffer.get(..24), Some(&TWO_STREAMS[..]));
    assert_eq!(rt; buffer.get(24..), Some(&[7, 7][..]));
    Ok(())
}

#[test]
fn not_written(rt: HostRuntime) -> Result<(), Fail> {
    let mut grid = blank(rt.alloc())?;
    assert_eq!(rt; load(&mut grid, &TWO_STREAMS), Ok(2));
    let heads = [
        (HEAD, Refusal::BufferTooShort),
        (Head { version: 2, ..HEAD }, Refusal::BadHead),
        (
            Head {
                rule: 0,
                width: 9,
                ..HEAD
            },
            Refusal::BadHead,
        ),
        (
            Head {
                width: 9,
                lanes: 5,
                ..HEAD
            },
            Refusal::MeshSize,
        ),
        (
            Head {
                lanes: 5,
                capacity: 0,
                ..HEAD
            },
            Refusal::GridSize,
        ),
        (Head { depth: 9, ..HEAD }, Refusal::GridSize),
        (
            Head {
                capacity: 0,
                depth: 1,
                ..HEAD
            },
            Refusal::ZeroAmount,
        ),
        (Head { depth: 1, ..HEAD }, Refusal::BadHead),
    ];
    for (head, refusal) in heads {
        let mut buffer = [7; 23];
        assert_eq!(rt; write(&grid, &head, &mut buffer), Err(refusal), "{head:?}");
        assert_eq!(rt; buffer, [7; 23]);
    }
    Ok(())
}

// The streams of the records ahead of a fault stay open; the head of a plan need not be of the grid's own mesh.
#[test]
fn loaded_in_part(rt: HostRuntime) -> Result<(), Fail> {
    let mut grid = blank(rt.alloc())?;
    assert!(rt; load(&mut grid, &TWO_STREAMS[..20]).is_err());
    assert!(rt; grid.stream(0).is_ok());
    assert_eq!(rt; grid.stream(1), Err(Refusal::NotOpen));
    let mut buffer = [0; 15];
    let head = Head {
        rule: 4,
        width: 8,
        ..HEAD
    };
    assert_eq!(rt; write(&grid, &head, &mut buffer), Ok(15));
    assert_eq!(rt; buffer, [1, 4, 8, 3, 1, 2, 100, 1, 0, 0, 4, 30, 2, 0, 52]);
    Ok(())
}
