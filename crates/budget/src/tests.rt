// Budgets at their edges, and as an example spends them.
use crate::Budgets;
use roll::Refusal;
use std::test::Fail;

#[test]
fn openings(rt: HostRuntime) {
    let zeros = [0; 33];
    assert_eq!(rt; Budgets::open(&[]).err(), Some(Refusal::AnalystCount));
    assert_eq!(rt; Budgets::open(&[0]).err(), None);
    assert_eq!(rt; Budgets::open(&zeros[0..32]).err(), None);
    assert_eq!(rt; Budgets::open(&zeros).err(), Some(Refusal::AnalystCount));
    assert_eq!(rt; Budgets::open(&[20]).err(), None);
    assert_eq!(rt; Budgets::open(&[21]).err(), Some(Refusal::BudgetSum(0)));
    assert_eq!(rt; Budgets::open(&[20, 1]).err(), Some(Refusal::BudgetSum(1)));
    assert_eq!(rt;
        Budgets::open(&[7, 0, 13, 1, 1]).err(),
        Some(Refusal::BudgetSum(3))
    );
}

// Three units and one: a count and a table by analyst 0 leave nothing, and a third query is refused.
#[test]
fn example(rt: HostRuntime) -> Result<(), Fail> {
    let budgets = Budgets::open(&[3, 1])?.pay(0, 1)?.pay(0, 2)?;
    assert_eq!(rt; budgets.left(0), Some(0));
    assert_eq!(rt; budgets.total(), 1);
    assert_eq!(rt; budgets.pay(0, 1), Err(Refusal::BudgetTooLow));
    assert_eq!(rt; budgets.pay(2, 0), Err(Refusal::NoSuchAnalyst));
    assert_eq!(rt; budgets.left(1), Some(1));
    let last = budgets.pay(1, 1)?;
    assert_eq!(rt; last.total(), 0);
    Ok(())
}
