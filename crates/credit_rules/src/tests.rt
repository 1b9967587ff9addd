use super::*;

#[test]
fn two_credits_are_spent_and_no_more(rt: HostRuntime) {
    let mut purse = Purse::new(2);
    assert_eq!(rt; purse.left(), 2);
    assert!(rt; purse.spend());
    assert!(rt; purse.spend());
    assert!(rt; !purse.spend());
    assert_eq!(rt; purse.left(), 0);
}

#[test]
fn a_credit_that_was_earned_is_spent_again(rt: HostRuntime) {
    let mut purse = Purse::new(1);
    assert!(rt; purse.spend());
    purse.earn();
    assert_eq!(rt; purse, Purse::new(1));
    assert!(rt; purse.spend());
    assert!(rt; !purse.spend());
}

#[test]
fn a_purse_of_no_credits_is_empty(rt: HostRuntime) {
    let mut purse = Purse::new(0);
    assert_eq!(rt; purse.left(), 0);
    assert!(rt; !purse.spend());
}
