// Checks a certificate, written by anybody, against a file of offers.
#![tactic(auto)]

use anyhow::anyhow;
use certificate::{check, work_length};
use sets::refusal::{Refusal, Source};
use std::process::ExitCode;
use std::{env, fs, io};

mod example;

// Says why and where it is refused: of a place in bytes the input, too.
fn show(rt: &impl Print, refusal: Refusal) -> io::Result<()> {
    match refusal {
        Refusal::Split(size, _) => println!(rt; "{refusal} size {size}"),
        Refusal::Short(_) | Refusal::Refused(_, _) | Refusal::Dual(_) => println!(rt; "{refusal}"),
        Refusal::Length(input, _) | Refusal::Range(input, _) => println!(rt;
            "{refusal} in {input}"
        ),
        _ => println!(rt; "{refusal} in {}", Source::Offers),
    }
}

// Checks a certificate and says what came of it. Is it accepted?
fn answer(rt: &HostRuntime, file: &[u8], sheet: &[u8]) -> anyhow::Result<bool> {
    let mut work = vec![in rt.alloc(); 0u32; work_length(600)]?;
    match check(file, sheet, work.as_mut_slice()) {
        Ok(_) => {
            println!(rt; "accepted")?;
            Ok(true)
        }
        Err(refusal) => {
            show(rt, refusal)?;
            Ok(false)
        }
    }
}

// Goes by the arguments: a file of offers and a certificate, or none for the built-in example.
fn run(rt: &HostRuntime) -> anyhow::Result<bool> {
    let mut args = env::args(rt)?;
    let _program = args.next();
    let Some(offers) = args.next() else {
        return answer(rt, &example::OFFERS, &example::CERTIFICATE);
    };
    if offers.as_str() == "--help" {
        println!(rt;
            "check OFFERS SHEET    check a certificate against a file of offers\ncheck                 a small built-in example"
        )?;
        return Ok(true);
    }
    let Some(sheet) = args.next() else {
        return Err(anyhow!("no certificate; see check --help"));
    };
    if args.next().is_some() {
        return Err(anyhow!("more than two files; see check --help"));
    }
    let file = fs::read(rt, offers.as_str())?;
    let bytes = fs::read(rt, sheet.as_str())?;
    answer(rt, file.as_slice(), bytes.as_slice())
}

fn main(rt: HostRuntime) -> anyhow::Result<ExitCode> {
    if run(&rt)? {
        Ok(ExitCode::SUCCESS)
    } else {
        Ok(ExitCode::FAILURE)
    }
}
