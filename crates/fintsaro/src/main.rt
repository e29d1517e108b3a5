// The counting desk: a run from two files.
#![tactic(auto)]

mod command;
mod places;
mod printer;
mod run_file;

use accountant::{Accounts, audit};
use anyhow::{anyhow, ensure};
use budget::Budgets;
use bulletin::RefusedOpening;
use command::{Command, Files, Options, command_of};
use curator::Outcome;
use printer::Printer;
use run_file::{places_in, serve_file, split};
use std::{env, fs};

const USAGE: &str = "usage: fintsaro [--places N] [--errors] [--audit] RUN TAPE
RUN has the opening of a desk and its lines, TAPE its words of chance.
--places N  serve up to N places, 1 to 32768; without it 2048
--errors    say under each answer how far off its numbers may be
--audit     after the run, work out the budgets from public things alone
";

// The bytes of a file; where it cannot be read, that is told.
fn read_file(rt: &HostRuntime, path: &str) -> anyhow::Result<Vec<u8>> {
    fs::read(rt, path).or_else(|e| {
        eprintln!(rt; "fintsaro: cannot read {path}: {e}")?;
        Err(e.into())
    })
}

// Prints the accounts of a run: what the accountant works out from the opening's budgets, the lines and the outcomes. It is what the curator's budgets hold.
fn print_accounts(
    rt: &HostRuntime,
    file: &mut [u8],
    outcomes: &[Outcome],
    left: Budgets,
) -> anyhow::Result<()> {
    let parts = split(file).ok_or_else(|| anyhow!("no accounts without an opening"))?;
    let opening = Budgets::open(parts.budgets).map_err(|_| anyhow!("no accounts without budgets"))?;
    let account = audit(opening, parts.lines, outcomes).map_err(|_| anyhow!(
        "the accountant finds an outcome that no run gives"
    ))?;
    ensure!(
        account.budgets() == left,
        "the accountant and the curator differ"
    );
    Ok(rt.println(Accounts::of(&opening, &account))?)
}

// Runs the desk of two files, and prints what everybody learns.
fn serve(rt: &HostRuntime, files: Files, options: Options) -> anyhow::Result<()> {
    let mut file = read_file(rt, files.run)?;
    let tape = read_file(rt, files.tape)?;
    let mut printer = Printer {
        rt,
        places: places_in(file.as_slice()).unwrap_or(0),
        errors: options.errors,
        kept: options.audit.then(|| Vec::new(rt.alloc())),
        printed: Ok(()),
    };
    let served = serve_file(
        &mut file[..],
        options.places.get(),
        tape.as_slice(),
        &mut printer,
    );
    let Printer { kept, printed, .. } = printer;
    printed?;
    match (served, kept) {
        (Err(refusal), _) => Ok(rt.println(RefusedOpening(refusal))?),
        (Ok(left), Some(outcomes)) => {
            print_accounts(rt, &mut file[..], outcomes.as_slice(), left)
        }
        (Ok(_), None) => Ok(()),
    }
}

fn main(rt: HostRuntime) -> anyhow::Result<()> {
    let args: Vec<String> = env::args(&rt)?.collect(rt.alloc())?;
    let words: Vec<&str> = args
        .iter()
        .skip(1)
        .map(|word| word.as_str())
        .collect(rt.alloc())?;
    match command_of(words.as_slice()) {
        Some(Command::Serve(files, options)) => serve(&rt, files, options),
        Some(Command::Usage) => Ok(rt.print(USAGE)?),
        None => {
            eprint!(rt; "{USAGE}")?;
            Err(anyhow!("no such command"))
        }
    }
}

#[cfg(test)]
mod tests;
