// Files that are refused, each with its refusal, number and place, and files at the edge that are not.
use crate::build;
use crate::tally::Tally;
use crate::told::{Told, comes_to};
use matroid::problem::read;
use sets::refusal::{Refusal, Source};
use std::io;

// Reads a file, and counts whether that comes to what it should: to a problem, or to this refusal.
fn expect(
    rt: &HostRuntime,
    t: &mut Tally,
    name: &str,
    file: &[u8],
    want: Result<(), Told>,
) -> io::Result<()> {
    t.note(rt, name, comes_to(read(file).map(|_| ()), want))
}

// One byte changed in turn: its place and new value, and what that should come to.
fn damaged(
    rt: &HostRuntime,
    t: &mut Tally,
    name: &str,
    file: &[u8],
    table: &[(usize, u8, Result<(), Told>)],
) -> io::Result<()> {
    for (at, byte, want) in table {
        let mut copy = file.to_vec(rt.alloc())?;
        if *at < copy.len() {
            copy[*at] = *byte;
        }
        expect(rt, t, name, &copy, *want)?;
    }
    Ok(())
}

// Every shorter beginning of a well-formed file is refused for its length, and so is one byte more.
fn cuts(rt: &HostRuntime, t: &mut Tally, name: &str, file: &[u8]) -> io::Result<()> {
    expect(rt, t, name, file, Ok(()))?;
    for end in 0..file.len() {
        expect(
            rt,
            t,
            name,
            &file[0..end],
            Err(Told(Refusal::Length(Source::Offers, end), 1, end as u128)),
        )?;
    }
    let mut longer = file.to_vec(rt.alloc())?;
    longer.extend_from_slice(&[0])?;
    expect(
        rt,
        t,
        name,
        &longer,
        Err(Told(
            Refusal::Length(Source::Offers, file.len()),
            1,
            file.len() as u128,
        )),
    )
}

fn three(rt: &HostRuntime) -> io::Result<Vec<u8>> {
    Ok(build::offers(rt.alloc(), &[5, 4, 3])?)
}

// One byte changed in a file of limits and volunteers.
static LIMITS_AND_VOLUNTEERS: [(usize, u8, Result<(), Told>); 25] = [
    (0, 0, Err(Told(Refusal::Offers, 2, 0))),
    (1, 3, Err(Told(Refusal::Offers, 2, 0))),
    (5, 1, Err(Told(Refusal::Weight(2), 3, 2))),
    (9, 255, Err(Told(Refusal::Weight(6), 3, 6))),
    (13, 1, Err(Told(Refusal::Weight(10), 3, 10))),
    (14, 0, Err(Told(Refusal::Kind(14), 4, 14))),
    (14, 5, Err(Told(Refusal::Kind(14), 4, 14))),
    (15, 65, Err(Told(Refusal::Range(Source::Offers, 15), 5, 15))),
    (
        15,
        255,
        Err(Told(Refusal::Range(Source::Offers, 15), 5, 15)),
    ),
    (17, 3, Err(Told(Refusal::Range(Source::Offers, 16), 5, 16))),
    (
        18,
        0b1000,
        Err(Told(Refusal::Range(Source::Offers, 18), 5, 18)),
    ),
    (
        18,
        0b1000_0000,
        Err(Told(Refusal::Range(Source::Offers, 18), 5, 18)),
    ),
    (21, 0b110, Err(Told(Refusal::Overlap(19), 6, 19))),
    (21, 0b1110, Err(Told(Refusal::Overlap(19), 6, 19))),
    (
        21,
        0b1011,
        Err(Told(Refusal::Range(Source::Offers, 21), 5, 21)),
    ),
    (21, 0b011, Ok(())),
    (21, 0b100, Ok(())),
    (21, 0b001, Ok(())),
    (21, 0, Ok(())),
    (
        20,
        255,
        Err(Told(Refusal::Range(Source::Offers, 19), 5, 19)),
    ),
    (22, 7, Err(Told(Refusal::Kind(22), 4, 22))),
    (
        24,
        255,
        Err(Told(Refusal::Range(Source::Offers, 23), 5, 23)),
    ),
    (
        25,
        0b1000,
        Err(Told(Refusal::Range(Source::Offers, 25), 5, 25)),
    ),
    (
        26,
        0b1_0000,
        Err(Told(Refusal::Range(Source::Offers, 26), 5, 26)),
    ),
    (26, 0, Ok(())),
];

fn limits_and_volunteers(rt: &HostRuntime, t: &mut Tally) -> io::Result<()> {
    let mut file = three(rt)?;
    build::limits(&mut file, &[(1, 0b011), (2, 0b111)])?;
    build::volunteers(&mut file, &[0b101, 0b010])?;
    cuts(rt, t, "limits and volunteers, cut", &file)?;
    damaged(
        rt,
        t,
        "limits and volunteers, damaged",
        &file,
        &LIMITS_AND_VOLUNTEERS,
    )
}

fn links_and_rows(rt: &HostRuntime, t: &mut Tally) -> io::Result<()> {
    let mut file = three(rt)?;
    build::links(&mut file, 3, &[(0, 1), (1, 2), (2, 0)])?;
    build::rows(&mut file, 3, 2, &[1, 0, 2, 0, 0, 1])?;
    cuts(rt, t, "links and rows, cut", &file)?;
    damaged(
        rt,
        t,
        "links and rows, damaged",
        &file,
        &[
            (16, 3, Err(Told(Refusal::Range(Source::Offers, 15), 5, 15))),
            (15, 0, Err(Told(Refusal::Town(17), 7, 17))),
            (15, 1, Err(Told(Refusal::Town(19), 7, 19))),
            (17, 3, Err(Told(Refusal::Town(17), 7, 17))),
            (18, 1, Err(Told(Refusal::Town(17), 7, 17))),
            (19, 3, Err(Told(Refusal::Town(19), 7, 19))),
            (27, 3, Err(Told(Refusal::Town(27), 7, 27))),
            (30, 0, Err(Told(Refusal::Row(30), 8, 30))),
            (30, 1, Err(Told(Refusal::Row(30), 8, 30))),
            (30, 9, Err(Told(Refusal::Row(30), 8, 30))),
            (30, 221, Err(Told(Refusal::Row(30), 8, 30))),
            (30, 255, Err(Told(Refusal::Row(30), 8, 30))),
            (30, 252, Err(Told(Refusal::Row(30), 8, 30))),
            (30, 2, Err(Told(Refusal::Row(34), 8, 34))),
            (30, 251, Ok(())),
            (30, 5, Ok(())),
            (31, 0, Err(Told(Refusal::Row(31), 8, 31))),
            (31, 65, Err(Told(Refusal::Row(31), 8, 31))),
            (
                31,
                64,
                Err(Told(Refusal::Length(Source::Offers, 38), 1, 38)),
            ),
            (31, 1, Err(Told(Refusal::Length(Source::Offers, 35), 1, 35))),
            (32, 3, Err(Told(Refusal::Row(32), 8, 32))),
            (37, 200, Err(Told(Refusal::Row(37), 8, 37))),
        ],
    )
}

// Where a kind of rule stands second, and where an earlier fault comes before missing bytes.
fn order(rt: &HostRuntime, t: &mut Tally) -> io::Result<()> {
    let mut file = three(rt)?;
    build::free(&mut file)?;
    build::links(&mut file, 0, &[(0, 0)])?;
    expect(
        rt,
        t,
        "no towns",
        &file,
        Err(Told(Refusal::Town(19), 7, 19)),
    )?;
    let mut heavy = build::offers(rt.alloc(), &[5, 1_000_001, 3])?;
    expect(
        rt,
        t,
        "a weight above, and no rule",
        &heavy,
        Err(Told(Refusal::Weight(6), 3, 6)),
    )?;
    build::free(&mut heavy)?;
    expect(
        rt,
        t,
        "a weight above, and no second rule",
        &heavy,
        Err(Told(Refusal::Weight(6), 3, 6)),
    )?;
    let mut light = build::offers(rt.alloc(), &[1_000_000, 0, 1_000_000])?;
    build::free(&mut light)?;
    build::free(&mut light)?;
    expect(rt, t, "weights at the edge", &light, Ok(()))
}

// The same group so many times: all equal, so nested.
fn many_groups(rt: &HostRuntime, count: u8, limit: u16) -> io::Result<Vec<u8>> {
    let mut file = three(rt)?;
    file.extend_from_slice(&[1, count])?;
    for _ in 0..count {
        build::put_u16(&mut file, limit)?;
        file.extend_from_slice(&[0b111])?;
    }
    build::free(&mut file)?;
    Ok(file)
}

// So many offers with no groups, no volunteers.
fn many_offers(rt: &HostRuntime, n: u16) -> io::Result<Vec<u8>> {
    let mut file = build::equal_offers(rt.alloc(), n, 7)?;
    build::free(&mut file)?;
    build::volunteers(&mut file, &[])?;
    Ok(file)
}

// 600 offers and so many volunteers, each a row of 75 bytes.
fn many_volunteers(rt: &HostRuntime, count: u16) -> io::Result<Vec<u8>> {
    let mut file = build::equal_offers(rt.alloc(), 600, 0)?;
    file.extend_from_slice(&[2])?;
    build::put_u16(&mut file, count)?;
    for _ in 0..count {
        file.extend_from_slice(&[255; 75])?;
    }
    build::free(&mut file)?;
    Ok(file)
}

fn edges(rt: &HostRuntime, t: &mut Tally) -> io::Result<()> {
    expect(rt, t, "64 groups", &many_groups(rt, 64, 600)?, Ok(()))?;
    expect(
        rt,
        t,
        "65 groups",
        &many_groups(rt, 65, 600)?,
        Err(Told(Refusal::Range(Source::Offers, 15), 5, 15)),
    )?;
    expect(
        rt,
        t,
        "limit 601",
        &many_groups(rt, 2, 601)?,
        Err(Told(Refusal::Range(Source::Offers, 16), 5, 16)),
    )?;
    expect(rt, t, "one offer", &many_offers(rt, 1)?, Ok(()))?;
    expect(rt, t, "600 offers", &many_offers(rt, 600)?, Ok(()))?;
    expect(
        rt,
        t,
        "601 offers",
        &many_offers(rt, 601)?,
        Err(Told(Refusal::Offers, 2, 0)),
    )?;
    expect(rt, t, "600 volunteers", &many_volunteers(rt, 600)?, Ok(()))?;
    expect(
        rt,
        t,
        "601 volunteers",
        &many_volunteers(rt, 601)?,
        Err(Told(Refusal::Range(Source::Offers, 2403), 5, 2403)),
    )
}

pub fn all(rt: &HostRuntime) -> io::Result<()> {
    let mut t = Tally::new();
    limits_and_volunteers(rt, &mut t)?;
    links_and_rows(rt, &mut t)?;
    order(rt, &mut t)?;
    edges(rt, &mut t)?;
    t.show(rt, "reading")
}
