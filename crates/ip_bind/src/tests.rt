use crate::{AddressBook, addresses};
use mn_base::Unbound;
use std::test::Fail;
use topo::{Node, Topology};

/// An Ethernet frame of an IPv4 packet from 10.0.0.1 to 10.9.9.9, whose header has four bytes of options.
const IPV4: [u8; 38] = [
    2, 0, 0, 0, 0, 1, 2, 0, 0, 0, 0, 2, 0x08, 0x00, 0x46, 0, 0, 24, 0, 0, 0, 0, 64, 17, 0, 0, 10,
    0, 0, 1, 10, 9, 9, 9, 1, 1, 1, 0,
];

const SOURCE: u32 = 167_772_161;

const DESTINATION: u32 = 168_364_297;

#[test]
fn ethernet_frames(rt: HostRuntime) -> Result<(), Fail> {
    let bound = Ok((SOURCE, DESTINATION));
    assert_eq!(rt; addresses(1, &IPV4), bound);
    assert_eq!(rt; addresses(1, &IPV4[..34]), bound);
    let short = Err(Unbound::Short);
    assert_eq!(rt; addresses(1, &IPV4[..33]), short);
    assert_eq!(rt; addresses(1, &IPV4[..14]), short);
    assert_eq!(rt; addresses(1, &IPV4[..13]), short);
    Ok(())
}

#[test]
fn other_protocols_on_ethernet(rt: HostRuntime) -> Result<(), Fail> {
    let other = Err(Unbound::NotIpv4);
    let mut arp = [0; 42];
    arp[12] = 0x08;
    arp[13] = 0x06;
    assert_eq!(rt; addresses(1, &arp), other);
    assert_eq!(rt; addresses(1, &arp[..14]), other);
    let mut ipv6 = [0; 60];
    ipv6[12] = 0x86;
    ipv6[13] = 0xdd;
    assert_eq!(rt; addresses(1, &ipv6), other);
    let mut version_6 = IPV4;
    version_6[14] = 0x60;
    assert_eq!(rt; addresses(1, &version_6), other);
    Ok(())
}

#[test]
fn raw_packets(rt: HostRuntime) -> Result<(), Fail> {
    let bound = Ok((SOURCE, DESTINATION));
    assert_eq!(rt; addresses(101, &IPV4[14..]), bound);
    assert_eq!(rt; addresses(228, &IPV4[14..34]), bound);
    assert_eq!(rt; addresses(228, &IPV4[14..33]), Err(Unbound::Short));
    assert_eq!(rt; addresses(101, &[]), Err(Unbound::Short));
    assert_eq!(rt; addresses(101, &IPV4), Err(Unbound::NotIpv4));
    Ok(())
}

#[test]
fn nodes_by_their_addresses(rt: HostRuntime) -> Result<(), Fail> {
    let nodes = vec![in rt.alloc();
        Node {
            id: 7,
            address: Some(DESTINATION)
        },
        Node {
            id: 9,
            address: None
        },
        Node {
            id: 4,
            address: Some(SOURCE)
        },
    ]?;
    assert!(rt; nodes.len() < 10);
    let topology = Topology::new(rt.alloc(), nodes, Vec::new(rt.alloc()), false)?;
    let book = AddressBook::new(rt.alloc(), &topology)?;
    assert_eq!(rt; book.find(DESTINATION), Some(0));
    assert_eq!(rt; book.find(SOURCE), Some(2));
    assert_eq!(rt; book.find(SOURCE + 1), None);
    assert_eq!(rt; book.find(0), None);
    Ok(())
}
