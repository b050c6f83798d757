// Trials: many small cases, run beside what they should give. Each line counts the cases that came out right and wrong.
#![tactic(auto)]

mod brute;
mod build;
mod cases;
mod choices;
mod kinds;
mod reading;
mod sheets;
mod tally;
mod told;

use std::io;

fn main(rt: HostRuntime) -> io::Result<()> {
    reading::all(&rt)?;
    kinds::all(&rt)?;
    choices::all(&rt)?;
    sheets::all(&rt)
}
