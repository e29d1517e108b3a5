// Openings and edits at their edges.
use crate::{Refusal, Roll};
use std::alloc::{AllocError, Global};
use std::test::Fail;

// What opening a roll of so many places over so many bytes is refused with, where all bytes are 0 but one, which is 2.
fn opening(
    heap: Global,
    places: usize,
    size: usize,
    spoiled: usize,
) -> Result<Option<Refusal>, AllocError> {
    let mut bytes = vec![in heap; 0; size]?;
    if let Some(byte) = bytes.get_mut(spoiled) {
        *byte = 2;
    }
    Ok(Roll::open(places, &mut bytes[..]).err())
}

#[test]
fn openings(rt: HostRuntime) -> Result<(), Fail> {
    let none = usize::MAX;
    let cases = [
        (0, 0, none, Some(Refusal::RollSize)),
        (1, 16, none, None),
        (1, 15, none, Some(Refusal::RollSize)),
        (1, 17, none, Some(Refusal::RollSize)),
        (32_768, 524_288, none, None),
        (32_769, 524_304, none, Some(Refusal::RollSize)),
        (5, 80, 0, Some(Refusal::RowStatus(0))),
        (5, 80, 32, Some(Refusal::RowStatus(2))),
        (5, 80, 64, Some(Refusal::RowStatus(4))),
        (5, 80, 65, None),
    ];
    for (places, size, spoiled, refusal) in cases {
        assert_eq!(rt; opening(rt.alloc(), places, size, spoiled)?, refusal);
    }
    Ok(())
}

#[test]
fn edits(rt: HostRuntime) -> Result<(), Fail> {
    let mut bytes = [0; 48];
    let mut roll = Roll::open(3, &mut bytes)?;
    let mut row = [7; 16];
    row[0] = 1;
    assert_eq!(rt; roll.edit(1, &row), Ok(()));
    assert_eq!(rt; roll.edit(3, &row), Err(Refusal::EditPlace));
    row[0] = 2;
    assert_eq!(rt; roll.edit(0, &row), Err(Refusal::EditStatus));
    assert_eq!(rt; roll.places(), 3);
    row[0] = 1;
    assert!(rt; roll.rows() == &[[0; 16], row, [0; 16]][..]);
    Ok(())
}
