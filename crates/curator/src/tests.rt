// Runs of lines, each number of the list of refusals among them.
use crate::{Curator, Journal, Outcome, run};
use budget::Budgets;
use roll::{Refusal, Roll, UpTo};
use std::test::Fail;

// The roll of five places, fields 0, 1 and 2: 1 40 2 / 1 55 0 / 0 0 0 / 1 38 1 / 1 61 3.
const ROWS: [u8; 80] = [
    1, 40, 2, 0, 0, 0, 0, 0, 0, 0, 0, 0, 0, 0, 0, 0, 1, 55, 0, 0, 0, 0, 0, 0, 0, 0, 0, 0, 0, 0, 0,
    0, 0, 0, 0, 0, 0, 0, 0, 0, 0, 0, 0, 0, 0, 0, 0, 0, 1, 38, 1, 0, 0, 0, 0, 0, 0, 0, 0, 0, 0, 0,
    0, 0, 1, 61, 3, 0, 0, 0, 0, 0, 0, 0, 0, 0, 0, 0, 0, 0,
];

// Those with field 1 below 50, as analyst 0 asks for them.
const COUNT: [u8; 6] = [2, 0, 1, 1, 1, 50];

// What a test looks at of an outcome: who was answered, the first number, and what is left; or the refusal.
#[derive(Clone, Copy, Debug, Default, PartialEq)]
enum Seen {
    Answer(u8, Option<u16>, u8),
    #[default]
    Edit,
    Refusal(Refusal),
}

fn look(outcome: &Outcome) -> Seen {
    match outcome {
        Outcome::Answered(answer) => Seen::Answer(
            answer.analyst,
            answer.released.as_slice().first().copied().flatten(),
            answer.left,
        ),
        Outcome::Edited => Seen::Edit,
        Outcome::Refused(refusal) => Seen::Refusal(*refusal),
    }
}

// A journal of the first eight outcomes.
#[derive(Drop)]
struct Notes(UpTo<Seen, 8>);

impl Journal for Notes {
    ghost notes = { λ _ _ _. Unit {0} };

    fn note(&mut self, outcome: &Outcome) {
        let _ = self.0.push(look(outcome));
    }
}

// Each refusal once, with others before and after; what is refused changes nothing but that a turn takes its page.
#[test]
fn refusals(rt: HostRuntime) -> Result<(), Fail> {
    let mut rows = ROWS;
    let mut roll = Roll::open(5, &mut rows)?;
    let tape = [0; 3 * 2_048 + 2_047];
    let mut curator = Curator::open(Budgets::open(&[3, 1])?, &tape);
    let edit = [1, 9, 0, 1, 1, 1, 1, 1, 1, 1, 1, 1, 1, 1, 1, 1, 1, 1, 1];
    let status = [1, 4, 0, 2, 1, 1, 1, 1, 1, 1, 1, 1, 1, 1, 1, 1, 1, 1, 1];
    let mut long = [3; 71];
    long[0] = 2;
    long[1] = 0;
    long[2] = 1;
    let lines: [(&[u8], Refusal); 18] = [
        (&[], Refusal::LineKind),
        (&[3, 0, 1, 1, 1, 50], Refusal::LineKind),
        (&edit[0..18], Refusal::EditLength(18)),
        (&edit, Refusal::EditPlace),
        (&status, Refusal::EditStatus),
        (&COUNT[0..5], Refusal::LineEnds(5)),
        (&[2, 0, 3, 1, 1, 50], Refusal::QueryKind),
        (&[2, 0, 2, 16, 1, 5, 1, 1, 50], Refusal::TableField),
        (&[2, 0, 2, 2, 64, 5, 1, 1, 50], Refusal::CutCount),
        (&[2, 0, 2, 2, 2, 5, 5, 1, 1, 50], Refusal::CutOrder(6)),
        (&long, Refusal::TokenCount(67)),
        (&[2, 0, 1, 4, 1, 50], Refusal::TokenKind(3)),
        (&[2, 0, 1, 1, 16, 50], Refusal::PredicateField(4)),
        (&[2, 0, 1, 1, 1, 50, 0], Refusal::TrailingByte(6)),
        (&[2, 2, 1, 1, 1, 50], Refusal::NoSuchAnalyst),
        (&[2, 1, 2, 2, 1, 5, 1, 1, 50], Refusal::BudgetTooLow),
        (&[2, 1, 2, 2, 1, 5, 1, 1, 50], Refusal::BudgetTooLow),
        (&COUNT, Refusal::TapeEnds),
    ];
    for (line, expected) in lines {
        assert_eq!(rt;
            look(&curator.line(&mut roll, line)),
            Seen::Refusal(expected)
        );
        assert_eq!(rt; curator.budgets().total(), 4);
    }
    assert!(rt; roll.rows().len() == 5);
    Ok(())
}

// An answer, an edit and the same query again: the true counts are 2 and 3, the words of the tape draw 0.
#[test]
fn answers(rt: HostRuntime) -> Result<(), Fail> {
    let mut rows = ROWS;
    let mut roll = Roll::open(5, &mut rows)?;
    let tape = [0; 2 * 2_048];
    let mut notes = Notes(UpTo::new());
    let lines = [
        6, 0, 2, 0, 1, 1, 1, 50, 19, 0, 1, 2, 0, 1, 1, 1, 1, 1, 1, 1, 1, 1, 1, 1, 1, 1, 1, 1, 1, 6,
        0, 2, 1, 1, 1, 1, 50, 6, 0, 2, 0, 1, 1, 1, 50, 9,
    ];
    let curator = run(
        &mut roll,
        Budgets::open(&[3, 1])?,
        &lines,
        &tape,
        &mut notes,
    );
    let expected = [
        Seen::Answer(0, Some(2), 2),
        Seen::Edit,
        Seen::Answer(1, Some(3), 0),
        Seen::Refusal(Refusal::TapeEnds),
        Seen::Refusal(Refusal::LineKind),
    ];
    assert_eq!(rt; notes.0.as_slice(), expected.as_slice());
    assert_eq!(rt; curator.budgets().total(), 2);
    Ok(())
}
