// Runs with their outcomes, and transcripts that no run can give.
use crate::{Accounts, Flaw, Impossible, audit};
use budget::Budgets;
use curator::{Answer, Outcome};
use noise::release_all;
use roll::Refusal;
use std::alloc::Global;
use std::test::Fail;

// A count by analyst 0 and by analyst 1, and a table of three cells by analyst 0, each after its length.
const COUNT: [u8; 8] = [6, 0, 2, 0, 1, 1, 1, 50];

const COUNT_BY_1: [u8; 8] = [6, 0, 2, 1, 1, 1, 1, 50];

const TABLE: [u8; 12] = [10, 0, 2, 0, 2, 2, 2, 1, 2, 1, 1, 255];

// An answer with these numbers: a page of zeros moves no count.
fn answer(analyst: u8, numbers: &[usize], left: u8) -> Result<Outcome, Fail> {
    let Some(released) = release_all(numbers, &[0; 2_048]) else {
        return Err(Fail::new("too many cells"));
    };
    Ok(Outcome::Answered(Answer {
        analyst,
        released,
        left,
    }))
}

// Three units and one, four queries of which the third is refused.
#[test]
fn example_run(rt: HostRuntime) -> Result<(), Fail> {
    let opening = Budgets::open(&[3, 1])?;
    let mut lines = [0; 36];
    lines[0..8].copy_from_slice(&COUNT);
    lines[8..20].copy_from_slice(&TABLE);
    lines[20..28].copy_from_slice(&COUNT);
    lines[28..36].copy_from_slice(&COUNT_BY_1);
    let outcomes = [
        answer(0, &[1], 2)?,
        answer(0, &[1, 2, 65_535], 0)?,
        Outcome::Refused(Refusal::BudgetTooLow),
        answer(1, &[2], 0)?,
    ];
    let account = audit(opening, &lines, &outcomes)?;
    let text = Accounts::of(&opening, &account).to_string(rt.alloc())?;
    assert!(rt; text.as_str() == "accounts: spent 4 of 4, left 0 0");
    Ok(())
}

// A refused line between two answers charges nothing, whichever refusal it is, and neither does an edit.
#[test]
fn between_answers(rt: HostRuntime) -> Result<(), Fail> {
    let mut lines = [0; 22];
    lines[0..8].copy_from_slice(&COUNT);
    lines[8..14].copy_from_slice(&[4, 0, 2, 0, 1, 9]);
    lines[14..22].copy_from_slice(&COUNT_BY_1);
    let between = [
        Outcome::Edited,
        Outcome::Refused(Refusal::LineKind),
        Outcome::Refused(Refusal::EditLength(4)),
        Outcome::Refused(Refusal::EditPlace),
        Outcome::Refused(Refusal::EditStatus),
        Outcome::Refused(Refusal::LineEnds(4)),
        Outcome::Refused(Refusal::QueryKind),
        Outcome::Refused(Refusal::TableField),
        Outcome::Refused(Refusal::CutCount),
        Outcome::Refused(Refusal::CutOrder(6)),
        Outcome::Refused(Refusal::TokenCount(67)),
        Outcome::Refused(Refusal::TokenKind(3)),
        Outcome::Refused(Refusal::PredicateField(4)),
        Outcome::Refused(Refusal::TrailingByte(6)),
        Outcome::Refused(Refusal::NoSuchAnalyst),
        Outcome::Refused(Refusal::BudgetTooLow),
        Outcome::Refused(Refusal::TapeEnds),
    ];
    for outcome in between {
        let outcomes = [answer(0, &[1], 2)?, outcome, answer(1, &[1], 4)?];
        let account = audit(Budgets::open(&[3, 5])?, &lines, &outcomes)?;
        assert_eq!(rt; account.spent(), 2);
        assert_eq!(rt; account.budgets().left(0), Some(2));
        assert_eq!(rt; account.budgets().left(1), Some(4));
    }
    Ok(())
}

// What is found after a count by analyst 0, which leaves two units, with this line and an answer to it.
fn second_line(
    heap: Global,
    line: &[u8],
    analyst: u8,
    numbers: &[usize],
    left: u8,
) -> Result<Option<Impossible>, Fail> {
    let mut lines = COUNT.to_vec(heap)?;
    lines.extend_from_slice(line)?;
    let outcomes = [answer(0, &[1], 2)?, answer(analyst, numbers, left)?];
    Ok(audit(Budgets::open(&[3, 0])?, lines.as_slice(), &outcomes).err())
}

// Each transcript stops being one at its second line, and the last at its first.
#[test]
fn impossible_transcripts(rt: HostRuntime) -> Result<(), Fail> {
    let cases: [(&[u8], u8, &[usize], u8, Flaw); 11] = [
        (&[0, 0], 0, &[1], 1, Flaw::NoQuery),
        (&[1, 0, 1], 0, &[1], 1, Flaw::NoQuery),
        (&[5, 0, 2, 0, 1, 1, 1], 0, &[1], 1, Flaw::NoQuery),
        (&COUNT_BY_1, 0, &[1], 1, Flaw::OtherAnalyst),
        (&COUNT, 0, &[], 1, Flaw::CellCount),
        (&TABLE, 0, &[1, 2], 0, Flaw::CellCount),
        (&[6, 0, 2, 2, 1, 1, 1, 50], 2, &[1], 0, Flaw::NoSuchAnalyst),
        (&COUNT_BY_1, 1, &[1], 0, Flaw::BudgetTooLow),
        (&COUNT, 0, &[1], 2, Flaw::BudgetLeft),
        (&TABLE, 0, &[1, 2, 3], 1, Flaw::BudgetLeft),
        (&[], 0, &[1], 1, Flaw::NoLine),
    ];
    for (line, analyst, numbers, left, flaw) in cases {
        let found = second_line(rt.alloc(), line, analyst, numbers, left)?;
        assert_eq!(rt; found, Some(Impossible { at: 1, flaw }));
    }
    let found = audit(Budgets::open(&[3, 0])?, &COUNT, &[]);
    let flaw = Flaw::NoOutcome;
    assert_eq!(rt; found.err(), Some(Impossible { at: 0, flaw }));
    Ok(())
}
