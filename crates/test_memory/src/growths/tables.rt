//! Tables whose allocations are refused.
use crate::growths::block;
use cidr::Ipv4Cidr;
use cidr_table::LpmTable;
use std::alloc::{AllocError, Global};

/// A table of networks with a number each.
pub type Routes = LpmTable<Ipv4Cidr, u32>;

/// How far the keys of a table are from each other.
const APART: u32 = 256;

/// The address with this number of those that are so far from each other.
fn key(i: u32) -> Ipv4Cidr {
    block(i.wrapping_mul(APART), 32)
}

/// The table of so many addresses that are so far from each other, each with its number.
pub fn hosts(alloc: Global, rows: u32, apart: u32) -> Result<Routes, AllocError> {
    let mut routes = match Routes::with_capacity(alloc, rows as usize) {
        Ok(routes) => routes,
        Err(_) => Routes::with_capacity(alloc, rows as usize)?,
    };
    for i in 0..rows {
        routes.set(block(i.wrapping_mul(apart), 32), i)?;
    }
    Ok(routes)
}

/// Whether a table has this value under a key.
fn has(routes: &Routes, key: &Ipv4Cidr, value: u32) -> bool {
    match routes.get(key) {
        Some(found) => *found == value,
        None => false,
    }
}

/// Inserts a row, once more where it is refused. Whether key and value came back then, and the table was as before.
fn insert_twice(routes: &mut Routes, key: Ipv4Cidr, value: u32) -> Result<bool, AllocError> {
    let rows = routes.len();
    let Err(pair) = routes.insert(key, value) else {
        return Ok(true);
    };
    let same = pair.0 == key && pair.1 == value;
    let same = same && routes.len() == rows && !routes.contains_key(&key);
    routes.set(pair.0, pair.1)?;
    Ok(same)
}

/// Whether 40 rows are inserted in no order, and each is there.
pub fn insert(alloc: Global) -> Result<bool, AllocError> {
    let mut routes = Routes::new(alloc);
    let mut held = true;
    for i in 0_u32..40 {
        let at = i * 7 % 40;
        held &= insert_twice(&mut routes, key(at), i)?;
        held &= has(&routes, &key(at), i);
    }
    // a key that is there needs no memory
    let replaced = matches!(routes.insert(key(0), 40), Ok(Some(0)));
    Ok(held && replaced && routes.len() == 40)
}

/// Makes room for two more rows, once more where that is refused; whether it left three rows and their room then.
fn reserve_twice(routes: &mut Routes) -> Result<bool, AllocError> {
    if routes.reserve(2).is_ok() {
        return Ok(true);
    }
    let same = routes.capacity() == 3 && routes.len() == 3;
    routes.reserve(2)?;
    Ok(same)
}

/// Whether room that was made is enough, and a refused growth leaves it.
pub fn reserve(alloc: Global) -> Result<bool, AllocError> {
    let mut routes = hosts(alloc, 3, APART)?;
    let mut held = reserve_twice(&mut routes)?;
    for i in 3_u32..5 {
        held &= matches!(routes.insert(key(i), i), Ok(None));
    }
    Ok(held && routes.len() == 5)
}

/// Whether a table is cloned.
pub fn clone(alloc: Global) -> Result<bool, AllocError> {
    let routes = hosts(alloc, 40, APART)?;
    let copy = match routes.clone() {
        Ok(copy) => copy,
        Err(_) => routes.clone()?,
    };
    Ok(copy == routes && copy.len() == 40)
}

/// Whether of a hundred rows in no order, two of each key, the last ones are the table, though no room may be left to sort.
pub fn from_rows(alloc: Global) -> Result<bool, AllocError> {
    let mut rows = match Vec::with_capacity(alloc, 100) {
        Ok(rows) => rows,
        Err(_) => Vec::with_capacity(alloc, 100)?,
    };
    for i in 0_u32..100 {
        rows.push((key(i * 7 % 50), i))?;
    }
    let routes = Routes::from_rows(rows);
    let mut same = routes.len() == 50;
    for i in 50_u32..100 {
        same &= has(&routes, &key(i * 7 % 50), i);
    }
    Ok(same)
}
