use crate::asserts::same;
use std::process::Abort;
use umid::{Umid, UmidFault};

// A basic UMID.
const BYTES: [u8; 32] = [
    0x06, 0x0a, 0x2b, 0x34, 0x01, 0x01, 0x01, 0x05, 0x01, 0x01, 0x0d, 0x20, 0x13, 0x00, 0x00, 0x00,
    0x00, 0x11, 0x22, 0x33, 0x44, 0x55, 0x66, 0x77, 0x88, 0x99, 0xaa, 0xbb, 0xcc, 0xdd, 0xee, 0xff,
];

fn others_are_refused(rt: &impl Abort) {
    let mut long = [0u8; 64];
    same(rt, Umid::from_bytes(&long), Err(UmidFault::Length));
    long[12] = 0x33;
    same(rt, Umid::from_bytes(&long), Err(UmidFault::Extended));
    same(rt, Umid::from_bytes(&BYTES[..31]), Err(UmidFault::Length));
    let mut other = BYTES;
    other[12] = 0x33;
    same(rt, Umid::from_bytes(&other), Err(UmidFault::NotUmid));
}

#[test]
fn bytes_are_read(rt: HostRuntime) {
    let umid = Umid::from_bytes(&BYTES).expect(&rt, "a UMID");
    same(&rt, umid.to_bytes(), BYTES);
    same(&rt, umid.instance(), 0);
    let other = umid.with_instance(0x010203);
    same(&rt, other.instance(), 0x010203);
    same(&rt, other.to_bytes()[14], 2);
    others_are_refused(&rt);
}
