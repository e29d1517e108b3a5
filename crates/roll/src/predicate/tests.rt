// Predicates on one row, and where their bytes are refused.
use super::Predicate;
use crate::{Refusal, Row};
use std::test::Fail;

// A household with 40 in field 1 and 2 in field 2.
const ROW: Row = [1, 40, 2, 0, 0, 0, 0, 0, 0, 0, 0, 0, 0, 0, 0, 255];

// How the line is refused from the place on.
fn refusal(line: &[u8], start: usize) -> Option<Refusal> {
    Predicate::read(line, start).err()
}

// One token of each kind, and nesting both ways.
#[test]
fn tokens_and_nesting(rt: HostRuntime) -> Result<(), Fail> {
    let cases: [(&[u8], bool); 13] = [
        (&[1, 1, 41], true),
        (&[1, 1, 40], false),
        (&[1, 15, 255], false),
        (&[3, 1, 1, 40], true),
        (&[3, 3, 1, 1, 41], true),
        (&[2, 1, 1, 41, 1, 2, 3], true),
        (&[2, 1, 1, 41, 1, 2, 2], false),
        (&[2, 1, 1, 40, 1, 2, 3], false),
        (&[2, 2, 1, 1, 41, 3, 1, 2, 2, 1, 0, 2], true),
        (&[2, 2, 1, 1, 41, 1, 2, 2, 1, 0, 2], false),
        (&[2, 1, 1, 41, 2, 3, 1, 2, 2, 1, 0, 2], true),
        (&[2, 1, 1, 41, 2, 3, 1, 2, 2, 1, 0, 1], false),
        (&[3, 2, 1, 1, 41, 1, 2, 2], true),
    ];
    for (bytes, passes) in cases {
        assert_eq!(rt; Predicate::read(bytes, 0)?.passes(&ROW), passes);
    }
    Ok(())
}

// A row that passes is counted at a household's place and at no empty one.
#[test]
fn households_alone(rt: HostRuntime) -> Result<(), Fail> {
    let all = Predicate::read(&[1, 1, 255], 0)?;
    let mut row = ROW;
    assert!(rt; all.counts(&row));
    row[0] = 0;
    assert!(rt; all.passes(&row) && !all.counts(&row));
    row[1] = 255;
    row[0] = 1;
    assert!(rt; !all.counts(&row));
    Ok(())
}

// Sixty-four tokens are read, and a sixty-fifth is refused whatever byte it is.
#[test]
fn most_tokens(rt: HostRuntime) {
    let mut line = [3; 67];
    line[64] = 1;
    assert_eq!(rt; refusal(&line, 1), None);
    assert_eq!(rt; refusal(&line, 0), Some(Refusal::TokenCount(64)));
    line[64] = 9;
    assert_eq!(rt; refusal(&line, 0), Some(Refusal::TokenCount(64)));
    assert_eq!(rt; refusal(&line[0..64], 0), Some(Refusal::LineEnds(64)));
}

// Each refusal with its place in the line.
#[test]
fn refusals(rt: HostRuntime) {
    let cases: [(&[u8], Refusal); 6] = [
        (&[2, 0, 1], Refusal::LineEnds(3)),
        (&[2, 0, 1, 1, 16], Refusal::PredicateField(4)),
        (&[2, 0, 1, 3, 4, 7], Refusal::TokenKind(4)),
        (&[2, 0, 1, 0], Refusal::TokenKind(3)),
        (&[2, 0, 1, 1, 15, 7, 0, 3], Refusal::TrailingByte(6)),
        (
            &[2, 0, 1, 2, 1, 1, 5, 3, 1, 16, 5],
            Refusal::PredicateField(9),
        ),
    ];
    for (line, e) in cases {
        assert_eq!(rt; refusal(line, 3), Some(e));
    }
    assert_eq!(rt; refusal(&[1, 1, 5], 7), Some(Refusal::LineEnds(3)));
}

// A predicate that is cut after any of its bytes ends where a byte is due.
#[test]
fn cut_short(rt: HostRuntime) {
    let line = [2, 3, 1, 1, 50, 2, 1, 2, 3, 3, 1, 15, 9];
    for n in 0..line.len() {
        assert_eq!(rt; refusal(&line[0..n], 0), Some(Refusal::LineEnds(n)));
    }
    assert_eq!(rt; refusal(&line, 0), None);
}
