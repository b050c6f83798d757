// Chooses among a festival's offers under two rules: a heaviest choice for every size, and a proof that it is one.
#![tactic(auto)]

use anyhow::anyhow;
use certificate::{choose_and_check, sheet_length};
use report::Report;
use sets::numbers;
use sets::refusal::Refusal;
use std::io::{BufWriter, Write};
use std::process::ExitCode;
use std::{env, fs, io};
use weighted::choose;

mod festival;
mod report;

// Enough lent memory for 600 offers.
const SETS: usize = 45_150;

const NUMBERS: usize = 720_000;

const WORK: usize = 140_000;

const SHEET: usize = 5_805_150;

// How many offers the file says there are.
fn offers(file: &[u8]) -> usize {
    if file.len() < 2 {
        return 0;
    }
    (numbers::read::<2>(file, 0) as usize).min(600)
}

// Says why a file is refused.
fn refuse(rt: &HostRuntime, refusal: Refusal) -> io::Result<bool> {
    println!(rt; "{refusal}")?;
    Ok(false)
}

// Says what is chosen.
fn tell(rt: &HostRuntime, file: &[u8], size: usize, sets: &[u8]) -> io::Result<bool> {
    let report = Report {
        file,
        n: offers(file),
        size,
        sets,
    };
    let mut out = BufWriter::new(rt.alloc(), rt.stdout())?;
    write!(out, "{report}")?;
    out.flush()?;
    Ok(true)
}

// Chooses from a file of offers and says what is chosen. Is the file accepted?
fn answer(rt: &HostRuntime, file: &[u8]) -> anyhow::Result<bool> {
    let mut sets = vec![in rt.alloc(); 0u8; SETS]?;
    let mut numbers = vec![in rt.alloc(); 0u64; NUMBERS]?;
    let mut work = vec![in rt.alloc(); 0u32; WORK]?;
    match choose(
        file,
        sets.as_mut_slice(),
        numbers.as_mut_slice(),
        work.as_mut_slice(),
    ) {
        Ok(answer) => Ok(tell(rt, file, answer.size, sets.as_slice())?),
        Err(refusal) => Ok(refuse(rt, refusal)?),
    }
}

// The same, and the certificate goes to a file.
fn certify(rt: &HostRuntime, file: &[u8], name: &str) -> anyhow::Result<bool> {
    let mut sets = vec![in rt.alloc(); 0u8; SETS]?;
    let mut numbers = vec![in rt.alloc(); 0u64; NUMBERS]?;
    let mut sheet = vec![in rt.alloc(); 0u8; SHEET]?;
    let mut work = vec![in rt.alloc(); 0u32; WORK]?;
    match choose_and_check(
        file,
        sets.as_mut_slice(),
        numbers.as_mut_slice(),
        sheet.as_mut_slice(),
        work.as_mut_slice(),
    ) {
        Ok(size) => {
            sheet.truncate(sheet_length(offers(file).min(600), size.min(600)));
            fs::write(rt, name, sheet.as_slice())?;
            Ok(tell(rt, file, size, sets.as_slice())?)
        }
        Err(refusal) => Ok(refuse(rt, refusal)?),
    }
}

fn help(rt: &HostRuntime) -> io::Result<()> {
    println!(rt;
        "choose OFFERS [SHEET]   choose among the offers of a file under its two rules: the weight of a heaviest"
    )?;
    println!(rt;
        "                        choice of every size, a largest choice, and the set U that proves it largest;"
    )?;
    println!(rt;
        "                        with SHEET the proofs for all sizes are written to that file"
    )?;
    println!(rt; "choose                  choose for a built-in festival of twenty offers")
}

// Goes by the arguments: a file of offers and where to write the proofs, or none for the built-in festival.
fn run(rt: &HostRuntime) -> anyhow::Result<bool> {
    let mut args = env::args(rt)?;
    let _program = args.next();
    let Some(name) = args.next() else {
        return answer(rt, &festival::OFFERS);
    };
    if name.as_str() == "--help" {
        help(rt)?;
        return Ok(true);
    }
    let sheet = args.next();
    if args.next().is_some() {
        return Err(anyhow!("more than two files; see choose --help"));
    }
    let file = fs::read(rt, name.as_str())?;
    match sheet {
        Some(to) => certify(rt, file.as_slice(), to.as_str()),
        None => answer(rt, file.as_slice()),
    }
}

fn main(rt: HostRuntime) -> anyhow::Result<ExitCode> {
    if run(&rt)? {
        Ok(ExitCode::SUCCESS)
    } else {
        Ok(ExitCode::FAILURE)
    }
}
