// Queries on a small roll, and where their lines are refused.
use crate::Query;
use roll::{Refusal, Row};
use std::test::Fail;

// A place with these numbers in its first three fields, and 0 in the others.
const fn place(taken: u8, age: u8, children: u8) -> Row {
    [taken, age, children, 0, 0, 0, 0, 0, 0, 0, 0, 0, 0, 0, 0, 0]
}

// How the line is refused.
fn refusal(line: &[u8]) -> Option<Refusal> {
    Query::read(line).err()
}

// A count and two tables over five places, one of them empty.
#[test]
fn five_places(rt: HostRuntime) -> Result<(), Fail> {
    let rows = [
        place(1, 40, 2),
        place(1, 55, 0),
        place(0, 0, 0),
        place(1, 38, 1),
        place(1, 61, 3),
    ];
    let cases: [(&[u8], u8, &[usize]); 3] = [
        (&[2, 7, 1, 1, 1, 50], 1, &[2]),
        (&[2, 7, 2, 2, 2, 1, 2, 1, 1, 255], 2, &[1, 1, 2]),
        (&[2, 7, 2, 1, 1, 0, 1, 2, 3], 2, &[0, 3]),
    ];
    for (line, cost, counts) in cases {
        let asked = Query::read(line)?;
        assert!(rt; asked.analyst == 7 && asked.query.cost() == cost);
        assert_eq!(rt; asked.query.true_counts(&rows).as_slice(), counts);
    }
    Ok(())
}

// A table of 63 cuts, the numbers 64 to 126, has 64 cells.
#[test]
fn most_cuts(rt: HostRuntime) -> Result<(), Fail> {
    let line =
        b"\x02\x00\x02\x01\x3f@ABCDEFGHIJKLMNOPQRSTUVWXYZ[\\]^_`abcdefghijklmnopqrstuvwxyz{|}~\x01\x00\x02";
    let rows = [
        place(1, 63, 0),
        place(1, 64, 0),
        place(0, 64, 0),
        place(1, 64, 9),
        place(1, 126, 0),
    ];
    let counts = Query::read(line)?.query.true_counts(&rows);
    let cells = counts.as_slice();
    assert!(rt; cells.len() == 64);
    assert!(rt; cells[0] == 1 && cells[1] == 2 && cells[62] == 0 && cells[63] == 1);
    Ok(())
}

// Each refusal with its place, at the first byte that fails.
#[test]
fn refusals(rt: HostRuntime) -> Result<(), Fail> {
    let cases: [(&[u8], u8, usize); 12] = [
        (&[2, 0, 3, 1], 10, 2),
        (&[2, 0, 2, 16], 11, 3),
        (&[2, 0, 2, 15, 0], 12, 4),
        (&[2, 0, 2, 15, 64], 12, 4),
        (&[2, 0, 2, 1, 3, 5, 5], 13, 6),
        (&[2, 0, 2, 1, 3, 5, 4, 9, 7], 13, 6),
        (&[2, 0, 2, 1, 1, 5, 4], 15, 6),
        (&[2, 0, 1, 1, 16, 3], 16, 4),
        (&[2, 0, 1, 1, 15, 3, 0], 17, 6),
        (&[2, 0, 2, 1, 1, 5, 1, 16], 16, 7),
        (&[2, 0, 2, 1, 1, 5, 1, 15, 3, 3], 17, 9),
        (&[2, 0, 2, 1, 2, 0, 1, 3, 0], 15, 8),
    ];
    for (line, number, place) in cases {
        let Some(e) = refusal(line) else {
            return Err(Fail::new("a line that is read"));
        };
        assert_eq!(rt; e.number(), number);
        assert_eq!(rt; e.place(), place);
    }
    Ok(())
}

// A line that is cut after any of its bytes ends where a byte is due.
#[test]
fn cut_short(rt: HostRuntime) {
    let line = [2, 9, 2, 15, 3, 0, 7, 255, 2, 3, 1, 1, 50, 1, 2, 3];
    for n in 0..line.len() {
        assert_eq!(rt; refusal(&line[0..n]), Some(Refusal::LineEnds(n)));
    }
    assert_eq!(rt; refusal(&line), None);
}
