//! Lists of prefix bytes, loaded as tables.
use crate::growths::block;
use cidr::Ipv4Cidr;
use cidr_table::{LoadError, LpmTable};
use std::alloc::{AllocError, Global};

/// IPv4 networks, each with its place in the bytes.
type Places = LpmTable<Ipv4Cidr, usize>;

/// What a list is loaded as, where it is loaded once more if memory was refused.
fn loaded(alloc: Global, bytes: &[u8]) -> Result<Places, LoadError> {
    match Places::load(alloc, bytes) {
        Err(LoadError::NoMemory) => Places::load(alloc, bytes),
        loaded => loaded,
    }
}

/// Whether a list is refused for the prefix at this index.
fn is_refused(loaded: Result<Places, LoadError>, index: usize) -> bool {
    match loaded {
        Err(LoadError::Prefix(at, _)) => at == index,
        _ => false,
    }
}

/// Whether lists are loaded as they are to be, and one with a prefix that is too long is refused for that; at once where
/// it is the first one, before any memory is asked for.
pub fn load(alloc: Global) -> Result<bool, AllocError> {
    let (Ok(none), Ok(two)) = (loaded(alloc, &[]), loaded(alloc, &[8, 10, 16, 10, 1, 0])) else {
        return Err(AllocError);
    };
    let third = match two.row(2) {
        Some((network, index)) => *network == block(0x0a01_0000, 16) && *index == 1,
        None => false,
    };
    let wrong = is_refused(loaded(alloc, &[8, 10, 33]), 1);
    let at_once = is_refused(Places::load(alloc, &[33]), 0);
    Ok(none.is_empty() && two.len() == 3 && third && wrong && at_once)
}

/// Whether a list of 80 prefixes is loaded, for which the table grows more than once.
pub fn load_many(alloc: Global) -> Result<bool, AllocError> {
    let mut bytes = [8_u8; 160];
    for i in 0..80_u8 {
        bytes[2 * i as usize + 1] = i;
    }
    match loaded(alloc, &bytes) {
        Ok(places) => Ok(places.len() == 80),
        Err(_) => Err(AllocError),
    }
}
