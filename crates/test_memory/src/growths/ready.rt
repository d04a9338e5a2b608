//! Tables and sets made ready, whose allocations are refused.
use cidr::{Ipv6Addr, Ipv6Cidr};
use cidr_lookup::{ReadySet, ReadyTable, TableError};
use cidr_table::{LpmTable, longest_match};
use std::alloc::{AllocError, Global};

/// A table of IPv6 networks with a number each.
type Routes = LpmTable<Ipv6Cidr, u32>;

/// The host of an address whose first seven bits are a number, and the others unset.
fn host(number: u32) -> Ipv6Cidr {
    Ipv6Cidr::new_host(Ipv6Addr::from_bits(u128::from(number) << 121))
}

/// How many rows there are.
const ROWS: u32 = 40;

/// The table of every second of these hosts, each with its number.
fn second_hosts(alloc: Global) -> Result<Routes, AllocError> {
    let mut routes = match Routes::with_capacity(alloc, ROWS as usize) {
        Ok(routes) => routes,
        Err(_) => Routes::with_capacity(alloc, ROWS as usize)?,
    };
    for i in 0..ROWS {
        routes.set(host(i * 2), i)?;
    }
    Ok(routes)
}

/// The table made ready, once more where that is refused, and whether the table came back as it was then.
fn made_ready(
    alloc: Global,
    routes: Routes,
) -> Result<(ReadyTable<Ipv6Cidr, u32>, bool), AllocError> {
    match ReadyTable::new(alloc, routes) {
        Ok(ready) => Ok((ready, true)),
        Err((routes, error)) => {
            let same = routes.len() == ROWS as usize && matches!(routes.get(&host(78)), Some(39));
            match ReadyTable::new(alloc, routes) {
                Ok(ready) => Ok((ready, same && matches!(error, TableError::NoMemory))),
                Err(_) => Err(AllocError),
            }
        }
    }
}

/// Whether a table of 40 hosts is made ready, and comes back as it was where that is refused. Its look-ups are those of
/// its rows.
pub fn table(alloc: Global) -> Result<bool, AllocError> {
    let (ready, mut held) = made_ready(alloc, second_hosts(alloc)?)?;
    for i in 0..2 * ROWS {
        let asked = host(i);
        held &= ready.find(&asked).is_some() == (i % 2 == 0);
        held &= ready.find(&asked) == longest_match(&mut ready.table().probe(), &asked);
    }
    Ok(held && ready.table().len() == ROWS as usize)
}

/// Networks made ready, once more where that is refused for want of memory.
fn set_made_ready(alloc: Global, networks: &[Ipv6Cidr]) -> Result<ReadySet<Ipv6Cidr>, AllocError> {
    match ReadySet::new(alloc, networks) {
        Ok(ready) => return Ok(ready),
        Err(TableError::NoMemory) => {}
        Err(_) => return Err(AllocError),
    }
    match ReadySet::new(alloc, networks) {
        Ok(ready) => Ok(ready),
        Err(_) => Err(AllocError),
    }
}

/// Whether three hosts in no order, one of them twice, are made ready, and are found, and not those behind them.
pub fn set(alloc: Global) -> Result<bool, AllocError> {
    let ready = set_made_ready(alloc, &[host(4), host(0), host(2), host(0)])?;
    let mut held = true;
    for i in 0..3_u32 {
        held &= ready.contains(&host(i * 2)) && !ready.contains(&host(i * 2 + 1));
    }
    Ok(held)
}
