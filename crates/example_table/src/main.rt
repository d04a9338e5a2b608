//! A routing table: networks with a next hop each, of which the longest that an address is in decides.
#![tactic(auto)]

mod failure;

use cidr::{Ipv4Addr, Ipv4Cidr};
use cidr_table::{LpmTable, longest_match};
use failure::Failure;

type Routes = LpmTable<Ipv4Cidr, Ipv4Addr>;

fn main(rt: HostRuntime) -> Result<(), Failure> {
    let mut routes = Routes::new(rt.alloc());
    routes.set("0.0.0.0/0".parse()?, Ipv4Addr::new(192, 0, 2, 1))?;
    routes.set("10.0.0.0/8".parse()?, Ipv4Addr::new(192, 0, 2, 2))?;
    println!(rt; "{:?}", next_hop(&routes, Ipv4Addr::new(10, 1, 2, 3)))?; // Some(192.0.2.2)
    println!(rt; "{:?}", next_hop(&routes, Ipv4Addr::new(198, 51, 100, 1)))?; // Some(192.0.2.1)

    changes(&rt, routes)?;
    lists(&rt)?;
    refused(&rt)
}

/// Routes that are replaced and removed.
fn changes(rt: &HostRuntime, table: Routes) -> Result<(), Failure> {
    let mut routes = table;
    println!(rt;
        "{:?}",
        routes.insert("10.0.0.0/8".parse()?, Ipv4Addr::new(192, 0, 2, 3))
    )?; // Ok(Some(192.0.2.2))
    println!(rt; "{:?}", routes.get(&"10.0.0.0/8".parse()?))?; // Some(192.0.2.3)
    println!(rt; "{:?}", routes.remove(&"0.0.0.0/0".parse()?))?; // Some(192.0.2.1)
    println!(rt; "{:?}", next_hop(&routes, Ipv4Addr::new(198, 51, 100, 1)))?; // None
    Ok(())
}

/// The value of the longest network that the address is in, or `None` where it is in none.
fn next_hop(routes: &Routes, address: Ipv4Addr) -> Option<Ipv4Addr> {
    let index = longest_match(&mut routes.probe(), &Ipv4Cidr::new_host(address))?;
    let (_network, next_hop) = routes.row(index)?;
    Some(*next_hop)
}

/// Networks that are loaded as a table, with their indices.
fn lists(rt: &HostRuntime) -> Result<(), Failure> {
    // the prefix bytes of 10.0.0.0/9, 10.128.0.0/9 and 192.0.2.0/24
    let bytes = [9, 10, 0, 9, 10, 128, 24, 192, 0, 2];
    let table = LpmTable::<Ipv4Cidr, usize>::load(rt.alloc(), &bytes)?;
    for (network, index) in table.iter() {
        println!(rt; "{network} {index}")?;
    }
    println!(rt; "{:?}", table.inside(&"10.0.0.0/8".parse()?))?; // [(10.0.0.0/9, 0), (10.128.0.0/9, 1)]

    let mut networks = ["0.0.0.0/0".parse::<Ipv4Cidr>()?; 3];
    if table.len() <= networks.len() {
        let count = table.least_cover(&mut networks);
        println!(rt; "{:?}", &networks[..count])?; // [10.0.0.0/8, 192.0.2.0/24]
    }
    Ok(())
}

/// A list that is refused.
fn refused(rt: &HostRuntime) -> Result<(), Failure> {
    // a prefix length of 40
    match LpmTable::<Ipv4Cidr, usize>::load(rt.alloc(), &[8, 10, 40]) {
        Ok(table) => println!(rt; "{} rows", table.len())?,
        Err(error) => println!(rt; "{error}")?,
    }
    Ok(())
}
