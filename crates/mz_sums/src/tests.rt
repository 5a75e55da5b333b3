use crate::best_of;

#[test]
fn the_second_of_these_runs_is_the_best(rt: HostRuntime) {
    assert!(rt; best_of(&[50, 39, 41, 60, 39]) == Some(1));
}

#[test]
fn of_no_runs_none_is_the_best(rt: HostRuntime) {
    assert!(rt; best_of(&[]) == None);
}
