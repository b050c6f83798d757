// Certificates that another writer made by hand, with a dual set and numbers of its own, and each fault at its place.
use crate::build;
use crate::tally::Tally;
use crate::told::{Told, comes_to};
use certificate::check;
use sets::refusal::{Lent, Refusal, Source, Which};
use std::io;

// A certificate for three offers of weights 5, 4 and 3: the largest set 1 2, the dual set 0 1; size 1: offer 0 with the
// parts -7 and 12, -7 and 11, -7 and 10; size 2: offers 1 and 2 with -98 and 103, -98 and 102, -100 and 103.
static SHEET: [u8; 100] = [
    6, 3, 1, 249, 255, 255, 255, 255, 255, 255, 255, 12, 0, 0, 0, 0, 0, 0, 0, 249, 255, 255, 255,
    255, 255, 255, 255, 11, 0, 0, 0, 0, 0, 0, 0, 249, 255, 255, 255, 255, 255, 255, 255, 10, 0, 0,
    0, 0, 0, 0, 0, 6, 158, 255, 255, 255, 255, 255, 255, 255, 103, 0, 0, 0, 0, 0, 0, 0, 158, 255,
    255, 255, 255, 255, 255, 255, 102, 0, 0, 0, 0, 0, 0, 0, 156, 255, 255, 255, 255, 255, 255, 255,
    103, 0, 0, 0, 0, 0, 0, 0,
];

// A byte's place and new value, then the size of the largest choice where the certificate is still accepted, or its refusal
// with its number and place.
static CHANGES: [(usize, u8, Result<usize, Told>); 20] = [
    (0, 3, Err(Told(Refusal::Refused(2, Which::First), 10, 4))),
    (0, 5, Err(Told(Refusal::Refused(2, Which::Second), 10, 5))),
    (
        1,
        8,
        Err(Told(Refusal::Range(Source::Certificate, 1), 5, 1)),
    ),
    (1, 7, Ok(2)),
    (1, 2, Ok(2)),
    (1, 0, Ok(2)),
    (1, 1, Err(Told(Refusal::Dual(0), 11, 0))),
    (2, 2, Err(Told(Refusal::Split(1, 0), 12, 0))),
    (2, 3, Err(Told(Refusal::Refused(1, Which::First), 10, 2))),
    (
        2,
        8,
        Err(Told(Refusal::Range(Source::Certificate, 2), 5, 2)),
    ),
    (51, 3, Err(Told(Refusal::Refused(2, Which::First), 10, 4))),
    (51, 5, Err(Told(Refusal::Refused(2, Which::Second), 10, 5))),
    (51, 7, Err(Told(Refusal::Refused(2, Which::First), 10, 4))),
    (3, 250, Err(Told(Refusal::Split(1, 0), 12, 0))),
    (10, 127, Err(Told(Refusal::Split(1, 0), 12, 0))),
    (11, 13, Err(Told(Refusal::Split(1, 0), 12, 0))),
    (19, 248, Err(Told(Refusal::Split(1, 1), 12, 1))),
    (60, 104, Err(Told(Refusal::Split(2, 0), 12, 0))),
    (76, 101, Err(Told(Refusal::Split(2, 1), 12, 1))),
    (99, 128, Err(Told(Refusal::Split(2, 0), 12, 0))),
];

pub fn all(rt: &HostRuntime) -> io::Result<()> {
    let mut t = Tally::new();
    let mut file = build::offers(rt.alloc(), &[5, 4, 3])?;
    build::limits(&mut file, &[(1, 0b011)])?;
    build::volunteers(&mut file, &[0b101, 0b010])?;
    let mut work = vec![in rt.alloc(); 0u32; 20_000]?;
    t.count(comes_to(check(&file, &SHEET, work.as_mut_slice()), Ok(2)));
    for (at, byte, want) in &CHANGES {
        let mut sheet = SHEET;
        if *at < sheet.len() {
            sheet[*at] = *byte;
        }
        t.count(comes_to(check(&file, &sheet, work.as_mut_slice()), *want));
    }
    let cut = check(&file, &SHEET[0..99], work.as_mut_slice());
    t.count(comes_to(
        cut,
        Err(Told(Refusal::Length(Source::Certificate, 99), 1, 99)),
    ));
    let short = check(&file, &SHEET, &mut []);
    t.count(comes_to(short, Err(Told(Refusal::Short(Lent::Work), 9, 2))));
    t.show(rt, "certificates")
}
