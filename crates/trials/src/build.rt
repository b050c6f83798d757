// Files of offers, built byte by byte.
use std::alloc::{AllocError, Global};

// A file that begins with the number of offers and their weights.
pub fn offers(heap: Global, weights: &[u32]) -> Result<Vec<u8>, AllocError> {
    let mut file = Vec::new(heap);
    put_u16(&mut file, (weights.len() & 0xffff) as u16)?;
    for w in weights {
        put_u32(&mut file, *w)?;
    }
    Ok(file)
}

// A file of n offers of one weight.
pub fn equal_offers(heap: Global, n: u16, weight: u32) -> Result<Vec<u8>, AllocError> {
    let mut file = Vec::new(heap);
    put_u16(&mut file, n)?;
    for _ in 0..n {
        put_u32(&mut file, weight)?;
    }
    Ok(file)
}

pub fn put_u16(file: &mut Vec<u8>, x: u16) -> Result<(), AllocError> {
    file.extend_from_slice(&x.to_le_bytes())
}

pub fn put_u32(file: &mut Vec<u8>, x: u32) -> Result<(), AllocError> {
    file.extend_from_slice(&x.to_le_bytes())
}

// Limits over at most eight offers: each group by its limit and its one byte of bits.
pub fn limits(file: &mut Vec<u8>, groups: &[(u16, u8)]) -> Result<(), AllocError> {
    file.extend_from_slice(&[1, (groups.len() & 0xff) as u8])?;
    for (limit, row) in groups {
        put_u16(file, *limit)?;
        file.extend_from_slice(&[*row])?;
    }
    Ok(())
}

// Volunteers over at most eight offers: each by one byte of bits.
pub fn volunteers(file: &mut Vec<u8>, rows: &[u8]) -> Result<(), AllocError> {
    file.extend_from_slice(&[2])?;
    put_u16(file, (rows.len() & 0xffff) as u16)?;
    file.extend_from_slice(rows)
}

// Links: for each offer its two towns.
pub fn links(file: &mut Vec<u8>, towns: u16, ends: &[(u16, u16)]) -> Result<(), AllocError> {
    file.extend_from_slice(&[3])?;
    put_u16(file, towns)?;
    for (from, to) in ends {
        put_u16(file, *from)?;
        put_u16(file, *to)?;
    }
    Ok(())
}

// Rows: the numbers of all offers, one row after the other.
pub fn rows(file: &mut Vec<u8>, prime: u8, length: u8, numbers: &[u8]) -> Result<(), AllocError> {
    file.extend_from_slice(&[4, prime, length])?;
    file.extend_from_slice(numbers)
}

// A rule that allows every set: no groups.
pub fn free(file: &mut Vec<u8>) -> Result<(), AllocError> {
    limits(file, &[])
}
