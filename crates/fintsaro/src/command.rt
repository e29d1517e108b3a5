// What the words of the command line ask for.
ghost use Rattle.std.specs.Prelude.{◌≡◌, ◌≢◌, ◌<◌, ◌↔◌, false, length, Some, MatchOption};
ghost use Rattle.fintsaro.specs.Commands.{Servable, AsksUse, AsksRun};

use crate::places::Places;

// How a run is served: at most so many places, whether it is told how far off the numbers may be, and whether the accounts follow.
#[derive(Clone, Copy, Debug, PartialEq)]
pub struct Options {
    pub places: Places,
    pub errors: bool,
    pub audit: bool,
}

// A run of the desk from two files.
#[derive(Clone, Copy, Debug, PartialEq)]
pub struct Files<'a> {
    pub run: &'a str,
    pub tape: &'a str,
}

// What is asked for: to be told of the usage is a command too, and no lack of one.
#[derive(Clone, Copy, Debug, PartialEq)]
pub enum Command<'a> {
    Usage,
    Serve(Files<'a>, Options),
}

impl Options {
    // Those of a run of which nothing is said.
    const USUAL: Options = Options {
        places: Places::USUAL,
        errors: false,
        audit: false,
    };
}

// The run that the words ask for, after options that stand before them.
fn run_of<'a>(mut options: Options, words: &[&'a str]) -> Option<Command<'a>>
    ensures run { AsksRun options.places.number options.errors options.audit words.now result }
    ensures no_usage { result ≢ Some Command.Usage }
{
    let mut left = words;
    while let [word, rest @ ..] = left {
        match *word {
            "--places" => {
                let [number, rest @ ..] = rest else {
                    return None;
                };
                options.places = number.parse().ok()?;
                left = rest;
            }
            "--errors" => {
                options.errors = true;
                left = rest;
            }
            "--audit" => {
                options.audit = true;
                left = rest;
            }
            run => {
                let (tape, rest) = rest.split_first()?;
                let files = Files { run, tape };
                return rest.is_empty().then_some(Command::Serve(files, options));
            }
        }
    }
    None
}

// The command that the words after the program's name spell, if they spell one.
pub fn command_of<'a>(words: &[&'a str]) -> Option<Command<'a>>
    ensures servable { MatchOption result (0 < length words.now) Servable }
    ensures usage { (result ≡ Some Command.Usage) ↔ AsksUse words.now }
    ensures run { ¬ (AsksUse words.now) → AsksRun 2048 false false words.now result }
{
    match words {
        [] | ["--help"] => Some(Command::Usage),
        _ => run_of(Options::USUAL, words),
    }
}
