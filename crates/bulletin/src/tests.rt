// Numbers as printed at the edges of the rules, the lines of a run, and how far off its numbers may be.
use crate::{Answer, Printed, RefusedLine, RefusedOpening, Tail, tails};
use roll::Refusal;
use std::alloc::Global;
use std::fmt::Display;
use std::process::Abort;
use std::test::Fail;

// Rolls of 5 and of 32,768 places; each place by itself and by its number.
#[test]
fn printed_forms(rt: HostRuntime) {
    let cases: [(usize, u16, u16); 14] = [
        (5, 0, 0),
        (5, 4, 4),
        (5, 5, 5),
        (5, 6, 5),
        (5, 49_151, 5),
        (5, 49_152, 0),
        (5, 65_535, 0),
        (32_768, 0, 0),
        (32_768, 32_767, 32_767),
        (32_768, 32_768, 32_768),
        (32_768, 32_769, 32_768),
        (32_768, 49_151, 32_768),
        (32_768, 49_152, 0),
        (32_768, 65_535, 0),
    ];
    for (places, released, printed) in cases {
        assert_eq!(rt; Printed::of(Some(released), places), Printed(Some(printed)));
        assert_eq!(rt;
            Printed::of(u32::from(released), places),
            Printed(Some(printed))
        );
    }
    assert_eq!(rt; Printed::of(None, 5), Printed(None));
    assert_eq!(rt; Printed::of(None, 32_768), Printed(None));
    assert_eq!(rt; Printed::of(65_536, 5), Printed(None));
    assert_eq!(rt; Printed::of(65_536, 32_768), Printed(None));
    assert_eq!(rt; Printed::of(70_000, 5), Printed(None));
}

// Whether a value is written as this text.
fn shows<D: Display>(rt: &impl Abort, heap: Global, value: &D, text: &str) -> Result<(), Fail> {
    assert!(rt; value.to_string(heap)?.as_str() == text);
    Ok(())
}

#[test]
fn lines_of_a_run(rt: HostRuntime) -> Result<(), Fail> {
    let heap = rt.alloc();
    let answer = Answer {
        analyst: 0,
        released: &[Some(1), Some(2), Some(65_535)],
        left: 0,
        places: 5,
    };
    shows(&rt, heap, &answer, "0 says 1 2 0 left 0")?;
    let answer = Answer {
        analyst: 31,
        released: &[None],
        left: 20,
        places: 5,
    };
    shows(&rt, heap, &answer, "31 says none left 20")?;
    let refused = RefusedLine(Refusal::BudgetTooLow);
    shows(&rt, heap, &refused, "refused 19 at 1")?;
    let refused = RefusedOpening(Refusal::RowStatus(7));
    shows(&rt, heap, &refused, "desk refused 2 at 7")
}

#[test]
fn answers_by_numbers(rt: HostRuntime) -> Result<(), Fail> {
    let heap = rt.alloc();
    let answer: Answer<'_> = Answer {
        analyst: 0,
        released: &[1, 2, 65_535],
        left: 0,
        places: 5,
    };
    shows(&rt, heap, &answer, "0 says 1 2 0 left 0")?;
    let answer = Answer {
        analyst: 31,
        released: &[65_536],
        left: 20,
        places: 5,
    };
    shows(&rt, heap, &answer, "31 says none left 20")?;
    let answer = Answer {
        analyst: 0,
        released: &[1_u32, 65_536, 70_000],
        left: 0,
        places: 5,
    };
    shows(&rt, heap, &answer, "0 says 1 none none left 0")
}

// The shares worked out by hand, and the first count of draws that is rounded up to a hundredth of a per cent.
#[test]
fn how_far_off(rt: HostRuntime) -> Result<(), Fail> {
    let heap = rt.alloc();
    let lines = [
        "more than 5 off: 29.13 % of the draws (2882304023104 of 9895604911578)",
        "more than 10 off: 9.54 % of the draws (944473558142 of 9895604911578)",
        "more than 20 off: 1.02 % of the draws (101412309542 of 9895604911578)",
        "more than 40 off: 0.01 % of the draws (1169462752 of 9895604911578)",
    ];
    for (tail, line) in tails().iter().zip(lines.iter()) {
        shows(&rt, heap, tail, *line)?;
    }
    let cases: [(u64, u64); 4] = [
        (0, 0),
        (494_780_245, 0),
        (494_780_246, 1),
        (9_895_604_911_578, 10_000),
    ];
    for (draws, hundredths) in cases {
        let tail = Tail { places: 0, draws };
        assert_eq!(rt; tail.share().hundredths, hundredths);
    }
    Ok(())
}
