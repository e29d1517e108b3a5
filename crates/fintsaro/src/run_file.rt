// The run file: the opening of the roll and the budgets, and then the lines; and its run.
ghost use Rattle.std.specs.Prelude.{◌≡◌, ◌*◌, ◌<◌, true, false, length, is_ok, IfOk, if◌then◌else◌, Some, None, MatchOption, nat_lt};
ghost use Rattle.roll.specs.Refusals.{refusal_of};
ghost use Rattle.budget.specs.Budget.{budgets_of};
ghost use Rattle.fintsaro.specs.Openings.{place_count, roll_bytes, budget_bytes, line_bytes, whole, desk_refusal};
ghost use Rattle.fintsaro.specs.Runs.{final, ToldOf};

use budget::Budgets;
use curator::{Journal, run};
use roll::{Refusal, Roll, two_bytes};

// The parts of a run file.
#[derive(Drop)]
pub struct Parts<'a> {
    pub places: usize,
    pub roll: &'a mut [u8],
    pub budgets: &'a [u8],
    pub lines: &'a [u8],
}

// How many bytes the rows of so many places have.
fn roll_size(places: usize) -> usize
    requires { places < 65536 }
    ensures { result ≡ 16 * places }
{
    16 * places
}

// The parts of a run file, or none where it ends inside its opening.
pub fn split(file: &mut [u8]) -> Option<Parts<'_>>
    ensures { MatchOption result (whole file.old ≡ false) (λ p. (whole file.old ≡ true) × (p.places ≡ place_count file.old) × (p.roll.now ≡ roll_bytes file.old) × (p.budgets.now ≡ budget_bytes file.old) × (p.lines.now ≡ line_bytes file.old)) }
{
    let (size, rest) = file.split_at_mut_checked(2)?;
    let places = two_bytes(size[0], size[1]);
    let (roll, rest) = rest.split_at_mut_checked(roll_size(places))?;
    let (analysts, rest) = rest.split_first()?;
    let (budgets, lines) = rest.split_at_checked(usize::from(*analysts))?;
    Some(Parts {
        places,
        roll,
        budgets,
        lines,
    })
}

// The number of places that a run file begins with, if it has so many bytes.
pub fn places_in(file: &[u8]) -> Option<usize>
    ensures { result ≡ (if nat_lt (length file.now) 2 then None else Some (place_count file.now)) }
{
    let [low, high, ..] = file else {
        return None;
    };
    Some(two_bytes(*low, *high))
}

// Opens the desk of a run file, of at most so many places, and runs its lines. The journal is told of each outcome; of an opening that is refused it is told
// nothing. Gives the budgets as they are after the last line.
pub fn serve_file<'t, J: Journal>(
    file: &mut [u8],
    most_places: usize,
    tape: &'t [u8],
    journal: &mut J,
) -> Result<Budgets, Refusal>
    ensures verdict { refusal_of result ≡ desk_refusal most_places file.old }
    ensures told { ToldOf J.notes (is_ok result) file.old tape.now journal.old journal.new }
    ensures holds { IfOk result (λ b. budgets_of b ≡ (final file.old tape.now).budgets) }
{
    let Parts {
        places,
        roll,
        budgets,
        lines,
    } = split(file).ok_or(Refusal::RollSize)?;
    if places > most_places {
        return Err(Refusal::RollSize);
    }
    Roll::check(places, roll)?;
    let budgets = Budgets::open(budgets)?;
    let mut roll = Roll::over(roll);
    let curator = run(&mut roll, budgets, lines, tape, journal);
    Ok(curator.budgets())
}
