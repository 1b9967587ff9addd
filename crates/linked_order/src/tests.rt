use super::*;
use std::test::Fail;

/// The places of an order, each as a digit, the oldest first.
fn digits(order: &LinkedOrder) -> u64 {
    let mut digits = 0u64;
    for place in order.iter() {
        digits = digits.wrapping_mul(10).wrapping_add(u64::from(place));
    }
    digits
}

#[test]
fn places_are_followed_in_the_order_in_which_they_were_put_last(
    rt: HostRuntime,
) -> Result<(), Fail> {
    let mut order = LinkedOrder::open(rt.alloc(), 8)?;
    assert_eq!(rt; order.first(), None);
    order.add_last(5);
    order.add_last(2);
    order.add_last(7);
    order.add_last(3);
    assert_eq!(rt; order.first(), Some(5));
    assert_eq!(rt; order.next(5), Some(2));
    assert_eq!(rt; order.next(3), None);
    assert_eq!(rt; order.len(), 4);
    assert_eq!(rt; digits(&order), 5273);
    Ok(())
}

#[test]
fn a_place_is_taken_out_wherever_it_stands(rt: HostRuntime) -> Result<(), Fail> {
    let mut order = LinkedOrder::open(rt.alloc(), 8)?;
    order.add_last(1);
    order.add_last(2);
    order.add_last(3);
    order.add_last(4);
    order.add_last(5);
    order.take_out(3);
    assert_eq!(rt; digits(&order), 1245);
    order.take_out(1);
    assert_eq!(rt; digits(&order), 245);
    order.take_out(5);
    assert_eq!(rt; digits(&order), 24);
    order.add_last(3);
    assert_eq!(rt; digits(&order), 243);
    order.take_out(2);
    order.take_out(3);
    order.take_out(4);
    assert_eq!(rt; order.first(), None);
    assert_eq!(rt; order.len(), 0);
    Ok(())
}
