//! Operations on pairs, and walks.

use crate::answer::Answer;
use crate::tokens::Tokens;
use cidr::errors::InetTupleError;
use cidr::{End, InetAddressIterator, InetIterator, IpAddr, IpCidr, IpInet, IpInetPair, drive};

/// Answers the operation on pairs that has this name.
pub fn answer(name: &str, kind: &str, tokens: &mut Tokens<'_>, answer: &mut Answer) -> Option<()> {
    if kind != "ip" {
        return None;
    }
    match name {
        "new" => {
            let first = tokens.value::<IpInet>()?;
            outcome(IpInetPair::new(first, tokens.value()?), answer);
        }
        "from_addresses" => outcome(made(tokens)?, answer),
        _ => asked(name, made(tokens)?.ok()?, tokens, answer)?,
    }
    Some(())
}

/// A pair stands as its two addresses and its prefix length.
fn made(tokens: &mut Tokens<'_>) -> Option<Result<IpInetPair, InetTupleError>> {
    let (first, second) = (tokens.value::<IpAddr>()?, tokens.value::<IpAddr>()?);
    let len = tokens.value()?;
    Some(IpInetPair::new_from_addresses(first, second, len))
}

/// Appends both hosts of a pair that was made, or the error.
fn outcome(made: Result<IpInetPair, InetTupleError>, answer: &mut Answer) {
    match made {
        Ok(pair) => {
            answer.show(&"ok");
            hosts(&pair, answer);
        }
        Err(e) => answer.error(
            match e {
                InetTupleError::NotInSharedNetwork => "err NotInSharedNetwork",
                InetTupleError::NetworkLengthTooLongError(_) => "err NetworkLengthTooLongError",
            },
            &e,
        ),
    }
}

/// Appends both hosts.
pub fn hosts(pair: &IpInetPair, answer: &mut Answer) {
    answer.show(&pair.first().with_length());
    answer.show(&pair.second().with_length());
}

fn asked(name: &str, pair: IpInetPair, tokens: &mut Tokens<'_>, answer: &mut Answer) -> Option<()> {
    match name {
        "eq" => answer.show(&(pair == made(tokens)?.ok()?)),
        "is" => {
            answer.show(&pair.is_ipv4());
            answer.show(&pair.is_ipv6());
        }
        "show" => {
            hosts(&pair, answer);
            answer.show(&pair.network().with_length());
            answer.show(&pair.network_length());
            answer.debug(&pair.family());
        }
        "text" => {
            let forced = pair.with_length();
            answer.text(&pair.to_text().as_str());
            answer.text(&pair);
            answer.text(&forced.to_text().as_str());
            answer.text(&forced);
        }
        _ => return None,
    }
    Some(())
}

/// Answers the operation on walks that has this name.
pub fn walk(name: &str, kind: &str, tokens: &mut Tokens<'_>, answer: &mut Answer) -> Option<()> {
    if kind != "ip" {
        return None;
    }
    let hosts = match name {
        "" | "hosts" => made(tokens)?.ok()?.iter(),
        _ => tokens.value::<IpCidr>()?.iter(),
    };
    let ends = ends(tokens)?;
    match name {
        "" | "net" => driven(hosts.addresses(), ends.as_slice(), tokens, answer)?,
        _ => stepped(hosts, ends.as_slice(), answer),
    }
    Some(())
}

/// Walks over addresses, by one call for all ends.
fn driven(
    mut walk: InetAddressIterator<IpAddr>,
    ends: &[End],
    tokens: &mut Tokens<'_>,
    answer: &mut Answer,
) -> Option<()> {
    let mut items = vec![in tokens.alloc; None; ends.len()].ok()?;
    drive(&mut walk, ends, items.as_mut_slice());
    for item in items.as_slice() {
        answer.option(item);
    }
    left(walk.size_hint(), walk.count(), answer);
    Some(())
}

/// Walks over hosts, by a call for each end.
fn stepped(mut walk: InetIterator<IpAddr>, ends: &[End], answer: &mut Answer) {
    for end in ends {
        let item = match end {
            End::Front => walk.next(),
            End::Back => walk.next_back(),
        };
        match item {
            Some(host) => answer.show(&host.with_length()),
            None => answer.show(&"none"),
        }
    }
    left(walk.size_hint(), walk.count(), answer);
}

/// Appends how many items are left: the two bounds, and the count.
fn left(bounds: (usize, Option<usize>), count: Option<usize>, answer: &mut Answer) {
    answer.show(&"left");
    answer.show(&bounds.0);
    answer.option(&bounds.1);
    answer.option(&count);
}

/// The ends of the calls: letters `f` and `b`, or `-` for none.
fn ends(tokens: &mut Tokens<'_>) -> Option<Vec<End>> {
    let mut ends = Vec::new(tokens.alloc);
    for letter in tokens.word()?.as_bytes() {
        match letter {
            b'f' => ends.push(End::Front).ok()?,
            b'b' => ends.push(End::Back).ok()?,
            b'-' => {}
            _ => return None,
        }
    }
    Some(ends)
}
