// Openings of run files, whole and cut.
use crate::command::{Command, Files, Options, command_of};
use crate::places::{NotServed, Places};
use crate::run_file::serve_file;
use curator::{Journal, Outcome};
use roll::Refusal;

// A journal that counts what it is told.
#[derive(Drop)]
struct Counter(u32);

impl Journal for Counter {
    ghost notes = { λ _ _ _. Unit {0} };

    fn note(&mut self, _: &Outcome) {
        self.0 = self.0.saturating_add(1);
    }
}

// What the opening of a run file is refused with, if at most so many places are served.
fn refusal(file: &mut [u8], most: usize) -> Option<Refusal> {
    let mut told = Counter(0);
    serve_file(file, most, &[], &mut told).err()
}

// Two places and two analysts with 3 units and 1, and then a line of one byte.
const FILE: [u8; 40] = [
    2, 0, 1, 40, 2, 0, 0, 0, 0, 0, 0, 0, 0, 0, 0, 0, 0, 0, 0, 0, 0, 0, 0, 0, 0, 0, 0, 0, 0, 0, 0,
    0, 0, 0, 2, 3, 1, 1, 0, 9,
];

#[test]
fn openings(rt: HostRuntime) {
    let mut file = FILE;
    assert_eq!(rt; refusal(&mut file, 2), None);
    assert_eq!(rt; refusal(&mut file, 1), Some(Refusal::RollSize));
    file[18] = 2;
    assert_eq!(rt; refusal(&mut file, 2), Some(Refusal::RowStatus(1)));
    file[36] = 18;
    assert_eq!(rt; refusal(&mut file, 2), Some(Refusal::RowStatus(1)));
    file[18] = 0;
    assert_eq!(rt; refusal(&mut file, 2), Some(Refusal::BudgetSum(1)));
    file[34] = 0;
    assert_eq!(rt; refusal(&mut file, 2), Some(Refusal::AnalystCount));
    file[0] = 0;
    assert_eq!(rt; refusal(&mut file, 2), Some(Refusal::RollSize));
}

// A file that ends inside its opening is refused, wherever it ends.
#[test]
fn cut_openings(rt: HostRuntime) {
    for end in 0..40usize {
        let mut file = FILE;
        let expected = if end < 37 {
            Some(Refusal::RollSize)
        } else {
            None
        };
        assert_eq!(rt; refusal(&mut file[0..end], 2), expected);
    }
}

#[test]
fn places(rt: HostRuntime) {
    assert_eq!(rt; Places::try_from(0), Err(NotServed));
    assert_eq!(rt; Places::try_from(1).map(|places| places.get()), Ok(1));
    assert_eq!(rt;
        Places::try_from(32_768).map(|places| places.get()),
        Ok(32_768)
    );
    assert_eq!(rt; Places::try_from(32_769), Err(NotServed));
}

// The words of the command line, options first.
#[test]
fn commands(rt: HostRuntime) -> Result<(), NotServed> {
    let files = Files {
        run: "a",
        tape: "b",
    };
    let usual = Options {
        places: Places::USUAL,
        errors: false,
        audit: false,
    };
    let all = Options {
        places: Places::try_from(32_768)?,
        errors: true,
        audit: true,
    };
    assert_eq!(rt; command_of(&[]), Some(Command::Usage));
    assert_eq!(rt; command_of(&["--help"]), Some(Command::Usage));
    assert_eq!(rt; command_of(&["a", "b"]), Some(Command::Serve(files, usual)));
    assert_eq!(rt;
        command_of(&["--audit", "--places", "32768", "--errors", "a", "b"]),
        Some(Command::Serve(files, all))
    );
    assert_eq!(rt; command_of(&["--places", "0", "a", "b"]), None);
    assert_eq!(rt; command_of(&["--places", "32769", "a", "b"]), None);
    assert_eq!(rt; command_of(&["a"]), None);
    assert_eq!(rt; command_of(&["a", "b", "c"]), None);
    Ok(())
}
