use crate::lists::{numbers, text};
use std::alloc::Global;
use std::test::Fail;
use tf_ports::{Address, Dialer, MemoryDialer, MemoryLink, PortFault, SocketDialer};
use tf_remote::hire;

/// An address that is a path.
pub(crate) fn address_of(alloc: Global, path: &str) -> Result<Address, Fail> {
    let path = text(alloc, path.as_bytes())?;
    Ok(Address::Unix(path))
}

/// So many links that give nothing.
fn links(alloc: Global, count: usize) -> Result<Vec<MemoryLink>, Fail> {
    let mut links = Vec::new(alloc);
    for _ in 0..count {
        links.push(MemoryLink::make(alloc, Vec::new(alloc), 1, Vec::new(alloc)))?;
    }
    Ok(links)
}

/// A dialer of so many links that give nothing, of whose calls the stated ones fail.
fn dialer(alloc: Global, count: usize, failing: &[u64]) -> Result<MemoryDialer<MemoryLink>, Fail> {
    let links = links(alloc, count)?;
    let failing = numbers(alloc, failing)?;
    Ok(MemoryDialer::make(alloc, links, failing))
}

/// Whether an address isn't dialled.
fn fails<D: Dialer>(alloc: Global, dialer: &mut D, address: &Address) -> bool {
    matches!(dialer.dial(alloc, address), Err(PortFault::Failed))
}

/// Whether an address is dialled, and nothing was sent over the link.
fn links_to(alloc: Global, dialer: &mut MemoryDialer<MemoryLink>, address: &Address) -> bool {
    match dialer.dial(alloc, address) {
        Ok(link) => link.sent().is_empty(),
        Err(_) => false,
    }
}

#[test]
fn a_dialer_in_memory_makes_its_links_and_fails_where_it_is_told(
    rt: HostRuntime,
) -> Result<(), Fail> {
    let alloc = rt.alloc();
    let address = address_of(alloc, "w")?;
    let mut dialer = dialer(alloc, 1, &[1])?;
    assert!(rt; fails(alloc, &mut dialer, &address));
    assert!(rt; links_to(alloc, &mut dialer, &address));
    assert!(rt; fails(alloc, &mut dialer, &address));
    Ok(())
}

#[test]
fn an_address_at_which_nobody_waits_is_not_dialled(rt: HostRuntime) -> Result<(), Fail> {
    let alloc = rt.alloc();
    let address = address_of(alloc, "nobody.socket")?;
    let mut dialer = SocketDialer::make(rt, None);
    assert!(rt; fails(alloc, &mut dialer, &address));
    Ok(())
}

/// How many hands are hired for two addresses.
fn hired<D: Dialer>(alloc: Global, dialer: &mut D) -> Result<usize, PortFault> {
    let addresses = [Address::Tcp(7001), Address::Tcp(7002)];
    let hands = hire(alloc, dialer, &addresses)?;
    Ok(hands.len())
}

#[test]
fn one_hand_is_hired_for_each_address(rt: HostRuntime) -> Result<(), Fail> {
    let alloc = rt.alloc();
    let mut whole = dialer(alloc, 2, &[])?;
    assert!(rt; matches!(hired(alloc, &mut whole), Ok(2)));
    let mut failing = dialer(alloc, 2, &[2])?;
    assert!(rt; matches!(hired(alloc, &mut failing), Err(PortFault::Failed)));
    Ok(())
}
