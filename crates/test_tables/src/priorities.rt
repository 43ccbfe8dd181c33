//! Tests how priorities grow lists and select columns. `test_cases` covers lists that shrink.

use tabled_priority::{Peaker, Priority, PriorityNone, Steps, is_level};

#[test]
fn the_column_after_the_last_round_is_next(rt: HostRuntime) {
    let mut none = Priority::none();
    let mut list = [6, 7, 6];
    assert_eq!(rt; none.shrink(&[2, 2, 2], &mut list, 8, &mut Steps::new()), 8);
    assert_eq!(rt; none.peak(&[], &[1, 1, 1]), Some(2));
}

#[test]
fn an_index_outside_the_list_is_the_first(rt: HostRuntime) {
    let mut none = PriorityNone::new();
    assert_eq!(rt; none.peak(&[], &[1, 1, 1]), Some(0));
    assert_eq!(rt; none.peak(&[], &[5]), Some(0));
}

#[test]
fn the_widest_column_grows(rt: HostRuntime) {
    let mut list = [3, 5, 5];
    assert_eq!(rt;
        Priority::max(true).grow(&mut list, 2, &mut Steps::new()),
        2
    );
    assert_eq!(rt; list, [3, 5, 7]);
}

#[test]
fn the_right_column_that_has_some_grows(rt: HostRuntime) {
    let mut list = [3, 0];
    assert_eq!(rt; Priority::right().grow(&mut list, 2, &mut Steps::new()), 2);
    assert_eq!(rt; list, [5, 0]);
}

#[test]
fn a_round_grows_by_huge_amounts_in_few_steps(rt: HostRuntime) {
    let mut steps = Steps::new();
    let mut list = [1, 0, 1];
    let added = Priority::none().grow(&mut list, 1_000_000_000_001, &mut steps);
    assert_eq!(rt; added, 1_000_000_000_001);
    assert_eq!(rt; list, [500_000_000_002, 0, 500_000_000_001]);
    assert!(rt; steps.count() <= 128);
}

#[test]
fn the_narrowest_grow_by_huge_amounts_in_few_steps(rt: HostRuntime) {
    let mut steps = Steps::new();
    let mut list = [3, 0, 7, 3];
    let added = Priority::min(true).grow(&mut list, 1_000_000_000_000, &mut steps);
    assert_eq!(rt; added, 1_000_000_000_000);
    assert_eq!(rt;
        list,
        [333_333_333_337, 0, 333_333_333_338, 333_333_333_338]
    );
    assert!(rt; steps.count() <= 200);
}

// Old sizes, minimums, new sizes, and whether they are level.
const LEVELS: [(&[usize], &[usize], &[usize], bool); 7] = [
    (&[7, 3, 7], &[7, 1, 2], &[7, 3, 2], true),
    (&[7, 3, 7], &[7, 1, 2], &[7, 1, 4], false),
    (&[6, 7, 6], &[], &[4, 4, 3], true),
    (&[6, 7, 6], &[], &[5, 4, 3], false),
    (&[6, 7, 6], &[], &[4, 4], false),
    (&[6, 7], &[5, 5], &[4, 5], false),
    (&[1, 9], &[5, 9], &[1, 9], true),
];

#[test]
fn level_lists(rt: HostRuntime) {
    for (old, mins, new, want) in LEVELS {
        assert_eq!(rt; is_level(old, mins, new), want);
    }
}
