// Names of streams.
use crate::*;
use std::test::Fail;

#[test]
fn names_are_added_in_the_order_of_streams(rt: HostRuntime) {
    let mut names = Names::new(rt.alloc());
    assert!(rt; names.is_empty());
    assert_eq!(rt; names.add(0, b"cpu"), Ok(()));
    assert_eq!(rt; names.add(0, b"gpu"), Err(NameRefusal::Order));
    assert_eq!(rt; names.add(7, b""), Err(NameRefusal::Spelling));
    assert_eq!(rt; names.add(7, b"core_7"), Ok(()));
    assert_eq!(rt; names.len(), 2);
    assert_eq!(rt; names.at(1), (7, b"core_7".as_slice()));
    assert_eq!(rt; names.name(0), Some(b"cpu".as_slice()));
    assert_eq!(rt; names.name(1), None);
}

#[test]
fn names_are_spelled_with_small_letters_digits_and_low_lines(rt: HostRuntime) {
    for (name, is_spelled) in [
        (b"a".as_slice(), true),
        (b"z09_".as_slice(), true),
        (b"0123456789abcdef0123456789abcdef".as_slice(), true),
        (b"0123456789abcdef0123456789abcdef0".as_slice(), false),
        (b"".as_slice(), false),
        (b"A".as_slice(), false),
        (b"a-b".as_slice(), false),
        (b"a b".as_slice(), false),
    ] {
        assert_eq!(rt; is_name(name), is_spelled);
    }
}

#[test]
fn only_streams_of_the_setup_have_names(rt: HostRuntime) -> Result<(), Fail> {
    let two_streams = Setup::new(1, 1, 1, 1, 2, 2, &[0, 0])?;
    let mut names = Names::new(rt.alloc());
    assert_eq!(rt; names.add(1, b"cpu"), Ok(()));
    assert!(rt; names.fit(&two_streams));
    assert_eq!(rt; names.add(2, b"gpu"), Ok(()));
    assert!(rt; !names.fit(&two_streams));
    Ok(())
}
