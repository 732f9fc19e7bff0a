//! Bodies written by hand that are no entry, each refused at the field that isn't spelled.
use sm_record::{DecodeRefused, Edition, decode};
use std::alloc::Global;
use std::test::Fail;

/// A format, a body as hexadecimal digits, and the place at which it is refused.
static REFUSED: [(Edition, &'static str, usize); 25] = [
    // a byte behind the entry
    (
        Edition::First,
        "000000006553f10000000000000000000c000000016100",
        22,
    ),
    (
        Edition::Second,
        "02000000006553f1000000000000000000000000000c000000016100",
        27,
    ),
    // the moment past the last
    (
        Edition::First,
        "0000002e90edd00100000000000000000c0000000161",
        0,
    ),
    (
        Edition::Second,
        "020000002e90edd0010000000000000000000000000c0000000161",
        1,
    ),
    // another first byte
    (
        Edition::Second,
        "03000000006553f1000000000000000000000000000c0000000161",
        0,
    ),
    // text that is not UTF-8
    (
        Edition::First,
        "000000006553f10000000000000000000c00000001ff",
        17,
    ),
    (
        Edition::Second,
        "02000000006553f1000000000000000001ff000000000c0000000161",
        13,
    ),
    // a length past the end
    (
        Edition::First,
        "000000006553f10000000000000000000cffffffff61",
        17,
    ),
    // no act
    (
        Edition::First,
        "000000006553f1000000000000000000000000000161",
        16,
    ),
    (
        Edition::First,
        "000000006553f1000000000000000000800000000161",
        16,
    ),
    (
        Edition::First,
        "000000006553f10000000000000000000f000000000000000161",
        16,
    ),
    (
        Edition::First,
        "000000006553f100000000000000000090000000000000000161",
        16,
    ),
    (
        Edition::Second,
        "02000000006553f100000000000000000000000000110000000161",
        21,
    ),
    // a truth value that is 2
    (
        Edition::First,
        "000000006553f10000000000000000000902000000000000000161",
        17,
    ),
    // an option that is 2
    (
        Edition::First,
        "000000006553f1000000000000000000060200000001610000000161",
        17,
    ),
    // more items than there are
    (
        Edition::First,
        "000000006553f10000000000000000000800000001610000000200000000",
        30,
    ),
    // no ARN
    (
        Edition::First,
        "000000006553f1000000000000000010000102030405060708090a0b0c0d0e0f0d0000000161",
        33,
    ),
    // a start with a caller, with an ARN, and with 15 drawn bytes
    (
        Edition::First,
        "000000006553f100000000014100000010000102030405060708090a0b0c0d0e0f0d0000003d61726e3a6177\
            733a736563726574736d616e616765723a75732d656173742d313a3030303030303030303030303a73656372\
            65743a612d424344454647",
        33,
    ),
    (
        Edition::Second,
        "02000000006553f10000000001410000000000000010000102030405060708090a0b0c0d0e0f8d0000003d61\
            726e3a6177733a736563726574736d616e616765723a75732d656173742d313a303030303030303030303030\
            3a7365637265743a612d424344454647",
        38,
    ),
    (
        Edition::Second,
        "02000000006553f10000000000000000014100000010000102030405060708090a0b0c0d0e0f0d0000003d61\
            726e3a6177733a736563726574736d616e616765723a75732d656173742d313a303030303030303030303030\
            3a7365637265743a612d424344454647",
        38,
    ),
    (
        Edition::First,
        "000000006553f100000000000000000f000102030405060708090a0b0c0d0e0d0000003d61726e3a6177733a\
            736563726574736d616e616765723a75732d656173742d313a3030303030303030303030303a736563726574\
            3a612d424344454647",
        31,
    ),
    // a report with drawn bytes, with a caller, and with an ARN
    (
        Edition::First,
        "000000006553f1000000000000000001090e0000003d61726e3a6177733a736563726574736d616e61676572\
            3a75732d656173742d313a3030303030303030303030303a7365637265743a612d4243444546470000002072\
            6f746174696f6e2d746f6b656e2d3030303030303030303030302d79793279030502",
        17,
    ),
    (
        Edition::Second,
        "02000000006553f100000000000000000000000010000102030405060708090a0b0c0d0e0f0e0000003d6172\
            6e3a6177733a736563726574736d616e616765723a75732d656173742d313a3030303030303030303030303a\
            7365637265743a612d42434445464700000020726f746174696f6e2d746f6b656e2d30303030303030303030\
            30302d79793279030502",
        37,
    ),
    (
        Edition::First,
        "000000006553f1000000000141000000008e0000003d61726e3a6177733a736563726574736d616e61676572\
            3a75732d656173742d313a3030303030303030303030303a7365637265743a612d4243444546470000002072\
            6f746174696f6e2d746f6b656e2d3030303030303030303030302d79793279030502",
        17,
    ),
    (
        Edition::Second,
        "02000000006553f100000000000000000141000000000e0000003d61726e3a6177733a736563726574736d61\
            6e616765723a75732d656173742d313a3030303030303030303030303a7365637265743a612d424344454647\
            00000020726f746174696f6e2d746f6b656e2d3030303030303030303030302d79793279030502",
        22,
    ),
];

/// Whether a body is refused at this place.
fn is_refused(alloc: Global, edition: Edition, digits: &str, place: usize) -> bool {
    let Ok(body) = hex::decode(alloc, digits) else {
        return false;
    };
    match decode(alloc, edition, body.as_slice()) {
        Err(DecodeRefused::NoEntry(at)) => at == place,
        Err(DecodeRefused::Memory) | Ok(_) => false,
    }
}

/// The number of the first body that isn't.
fn first_wrong(alloc: Global) -> Option<usize> {
    for (number, (edition, digits, place)) in REFUSED.iter().enumerate() {
        if !is_refused(alloc, *edition, digits, *place) {
            return Some(number);
        }
    }
    None
}

#[test]
fn other_bodies_are_refused(rt: HostRuntime) -> Result<(), Fail> {
    let wrong = first_wrong(rt.alloc());
    assert!(rt; wrong.is_none(), "{wrong:?}");
    Ok(())
}
