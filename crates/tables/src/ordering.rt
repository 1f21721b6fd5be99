use acl::header::{Header, WIDTH};
use acl::refusal::Refusal;
use orders::before::is_before;
use orders::fixed::{Plain, Woven};
use orders::order::Order;
use orders::profile::Profile;
use std::array;
use std::process::Abort;

// The bit at each place of the woven order.
const WOVEN: [u16; 104] = [
    0, 32, 1, 33, 2, 34, 3, 35, 4, 36, 5, 37, 6, 38, 7, 39, 8, 40, 9, 41, 10, 42, 11, 43, 12, 44,
    13, 45, 14, 46, 15, 47, 16, 48, 17, 49, 18, 50, 19, 51, 20, 52, 21, 53, 22, 54, 23, 55, 24, 56,
    25, 57, 26, 58, 27, 59, 28, 60, 29, 61, 30, 62, 31, 63, 64, 65, 66, 67, 68, 69, 70, 71, 72, 73,
    74, 75, 76, 77, 78, 79, 80, 81, 82, 83, 84, 85, 86, 87, 88, 89, 90, 91, 92, 93, 94, 95, 96, 97,
    98, 99, 100, 101, 102, 103,
];

// Whether an order has these bits at the places from 0 on, and answers 104 from 104 on.
fn holds<O: Order>(rt: &impl Abort, order: &O, bits: &[u16]) {
    for (place, bit) in bits.iter().enumerate() {
        let bit = usize::from(*bit);
        assert_eq!(rt; order.bit_at(place), bit);
        assert_eq!(rt; order.place_of(bit), place);
    }
    assert_eq!(rt; order.bit_at(WIDTH), WIDTH);
    assert_eq!(rt; order.place_of(WIDTH), WIDTH);
    assert_eq!(rt; order.bit_at(usize::MAX), WIDTH);
    assert_eq!(rt; order.place_of(usize::MAX), WIDTH);
}

// The bits of the plain order.
fn plain_bits() -> [u16; 104] {
    array::from_fn(|place| place as u16)
}

#[test]
fn plain(rt: HostRuntime) {
    holds(&rt, &Plain, &plain_bits());
}

#[test]
fn woven(rt: HostRuntime) {
    holds(&rt, &Woven, &WOVEN);
}

#[test]
fn profiles(rt: HostRuntime) {
    assert_eq!(rt; Profile::check(&WOVEN), Ok(()));
    holds(&rt, &Profile::make(&WOVEN), &WOVEN);
    let backward: [u16; 104] = array::from_fn(|place| 103 - place as u16);
    assert_eq!(rt; Profile::check(&backward), Ok(()));
    holds(&rt, &Profile::make(&backward), &backward);
}

// Whether a list is refused, and makes the plain order.
fn refused(rt: &impl Abort, list: &[u16]) {
    assert_eq!(rt; Profile::check(list), Err(Refusal::BadProfile));
    holds(rt, &Profile::make(list), &plain_bits());
}

#[test]
fn no_profiles(rt: HostRuntime) {
    assert_eq!(rt; Refusal::BadProfile.number(), 2);
    let mut twice = WOVEN;
    twice[0] = 103;
    refused(&rt, &twice);
    let mut high = WOVEN;
    high[103] = 104;
    refused(&rt, &high);
    let mut longer: [u16; 105] = array::from_fn(|place| place as u16);
    refused(&rt, &longer);
    longer[104] = 0;
    refused(&rt, &longer);
    refused(&rt, &longer[0..103]);
    refused(&rt, &[]);
}

#[test]
fn before(rt: HostRuntime) {
    let zero = Header::default();
    let source = Header { source: 1, ..zero };
    let destination = Header {
        destination: 0x8000_0000,
        ..zero
    };
    assert!(rt; is_before(&Plain, zero, source));
    assert!(rt; !is_before(&Plain, source, zero));
    assert!(rt; !is_before(&Plain, source, source));
    assert!(rt; is_before(&Plain, destination, source));
    assert!(rt; is_before(&Woven, source, destination));
    let last = Header {
        destination_port: 1,
        ..zero
    };
    assert!(rt; is_before(&Plain, zero, last));
    assert!(rt; is_before(&Profile::make(&WOVEN), last, source));
}
