use crate::workload;
use std::test::Fail;

/// The FNV-1a hash of 64 bits, by which texts are compared with those that bench/workload.py makes.
fn fnv(text: &[u8]) -> u64 {
    let mut hash = 0xcbf2_9ce4_8422_2325_u64;
    for byte in text {
        hash = (hash ^ u64::from(*byte)).wrapping_mul(0x0000_0100_0000_01b3);
    }
    hash
}

#[test]
fn two_packets_of_seven(rt: HostRuntime) -> Result<(), Fail> {
    let (gml, trace) = workload(rt.alloc(), 7, 2)?;
    let first = b"graph [\n  node [ id 0 ]\n";
    assert!(rt; gml.as_slice().starts_with(first));
    let last = b"  edge [ source 79 target 15 bandwidth 10000000 latency 755 ]\n]\n";
    assert!(rt; gml.as_slice().ends_with(last));
    let expected = [
        0x4d, 0x3c, 0xb2, 0xa1, 2, 0, 4, 0, 0, 0, 0, 0, 0, 0, 0, 0, 0, 0, 4, 0, 0x65, 0, 0, 0, 0,
        0, 0, 0, 0, 0, 0, 0, 0x14, 0, 0, 0, 0x73, 1, 0, 0, 0x45, 0, 1, 0x73, 0, 0, 0, 0, 0x40,
        0x11, 0, 0, 10, 0, 0, 0x1a, 10, 0, 0, 0x14, 0, 0, 0, 0, 0xda, 0xf4, 2, 0, 0x14, 0, 0, 0,
        0xef, 2, 0, 0, 0x45, 0, 2, 0xef, 0, 0, 0, 0, 0x40, 0x11, 0, 0, 10, 0, 0, 9, 10, 0, 0, 5,
    ];
    assert_eq!(rt; trace.as_slice(), expected.as_slice());
    Ok(())
}

#[test]
fn texts_are_those_of_another_program(rt: HostRuntime) -> Result<(), Fail> {
    let (gml, trace) = workload(rt.alloc(), 7, 20_000)?;
    assert_eq!(rt; gml.as_slice().len(), 8_300);
    assert_eq!(rt; fnv(gml.as_slice()), 0xe5bf_963f_0c4c_5d10);
    assert_eq!(rt; trace.as_slice().len(), 720_024);
    assert_eq!(rt; fnv(trace.as_slice()), 0x1f8e_f201_51cc_ad35);
    Ok(())
}

#[test]
fn texts_of_the_least_and_the_greatest_number(rt: HostRuntime) -> Result<(), Fail> {
    let (gml, trace) = workload(rt.alloc(), 0, 1)?;
    assert_eq!(rt; fnv(gml.as_slice()), 0x9537_435d_dc0a_0e80);
    assert_eq!(rt; fnv(trace.as_slice()), 0x3179_2ec9_34da_f39b);
    let (gml, trace) = workload(rt.alloc(), u64::MAX, 3)?;
    assert_eq!(rt; fnv(gml.as_slice()), 0x4f88_3ec3_baaf_e818);
    assert_eq!(rt; fnv(trace.as_slice()), 0x9fe5_dcfc_0fa1_14c2);
    Ok(())
}
