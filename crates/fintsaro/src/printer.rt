// What is printed of a run.
ghost use Rattle.std.specs.Prelude.{◌≡◌, map};
ghost use Rattle.noise.specs.Release.{released_number};
ghost use Rattle.noise.specs.Released.{numbers_of};

use bulletin::{Answer, RefusedLine, heading, tails};
use curator::{Answer as Given, Journal, Outcome};
use std::io;

// Prints each outcome as it comes, and keeps it where outcomes are kept. Once a line could not be printed, none is tried any more.
#[derive(Drop)]
pub struct Printer<'a> {
    pub rt: &'a HostRuntime,
    pub places: usize,
    pub errors: bool,
    pub kept: Option<Vec<Outcome>>,
    pub printed: io::Result<()>,
}

// The line of an answer from a roll of so many places.
fn line_of(answer: &Given, places: usize) -> Answer<'_, Option<u16>>
    ensures { (result.analyst ≡ answer.now.analyst) × (map released_number result.released.now ≡ numbers_of answer.now.released) × (result.left ≡ answer.now.left) × (result.places ≡ places) }
{
    Answer {
        analyst: answer.analyst,
        released: answer.released.as_slice(),
        left: answer.left,
        places,
    }
}

// The lines under an answer that say how far off its numbers may be.
fn print_errors(rt: &HostRuntime) -> io::Result<()> {
    rt.println(heading())?;
    for tail in tails() {
        rt.println(tail)?;
    }
    Ok(())
}

impl Printer<'_> {
    fn keep(&mut self, outcome: &Outcome) -> io::Result<()> {
        match &mut self.kept {
            Some(kept) => Ok(kept.push(*outcome)?),
            None => Ok(()),
        }
    }

    fn print(&self, outcome: &Outcome) -> io::Result<()> {
        match outcome {
            Outcome::Answered(answer) => {
                self.rt.println(line_of(answer, self.places))?;
                if self.errors {
                    print_errors(self.rt)
                } else {
                    Ok(())
                }
            }
            Outcome::Edited => Ok(()),
            Outcome::Refused(refusal) => self.rt.println(RefusedLine(*refusal)),
        }
    }
}

impl Journal for Printer<'_> {
    // No clause speaks of what is printed.
    ghost notes = { λ _ _ _. Unit {0} };

    fn note(&mut self, outcome: &Outcome) {
        if self.printed.is_ok() {
            self.printed = self.print(outcome);
        }
        if self.printed.is_ok() {
            self.printed = self.keep(outcome);
        }
    }
}
