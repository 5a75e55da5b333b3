use crate::{Level, Schedule, Stairs, accepts_on};
use std::test::Fail;

const GREATEST_CHANGE: i128 = 10_000_000_000_000_000_000_000_000;

const GREATEST_TEMPERATURE: u128 = 100_000_000_000_000_000_000_000_000_000;

#[test]
fn changes_are_accepted_by_the_staircase(rt: HostRuntime) -> Result<(), Fail> {
    let stairs = Stairs::make(rt.alloc())?;
    assert!(rt; stairs.accepts(1, 64_000, 4_227_858_431));
    assert!(rt; !stairs.accepts(1, 64_000, 4_227_858_432));
    assert!(rt; !stairs.accepts(22, 1000, 0));
    assert!(rt; stairs.accepts(21, 1000, 0));
    assert!(rt; stairs.accepts(0, 1, 4_294_967_295));
    assert!(rt; stairs.accepts(-1, 1, 4_294_967_295));
    Ok(())
}

#[test]
fn steps_above_a_word_are_counted(rt: HostRuntime) -> Result<(), Fail> {
    let stairs = Stairs::make(rt.alloc())?;
    assert_eq!(rt; stairs.steps_above(4_294_967_295), 1);
    assert_eq!(rt; stairs.steps_above(4_227_858_432), 1);
    assert_eq!(rt; stairs.steps_above(4_227_858_431), 2);
    assert_eq!(rt; stairs.steps_above(0), 1408);
    Ok(())
}

#[test]
fn changes_are_accepted_by_the_steps_above_a_word(rt: HostRuntime) -> Result<(), Fail> {
    assert!(rt; accepts_on(2, 1, 64_000));
    assert!(rt; !accepts_on(1, 1, 64_000));
    assert!(rt; !accepts_on(1408, 22, 1000));
    assert!(rt; accepts_on(1408, 21, 1000));
    assert!(rt; accepts_on(1, 0, 1));
    assert!(rt; accepts_on(1, -1, 1));
    Ok(())
}

#[test]
fn the_greatest_changes_and_temperatures_are_judged(rt: HostRuntime) -> Result<(), Fail> {
    let stairs = Stairs::make(rt.alloc())?;
    // 64000 * 10^25 / 10^29 is 6, and the staircase at 6 is 3907718889.
    assert!(rt; stairs.accepts(GREATEST_CHANGE, GREATEST_TEMPERATURE, 3_907_718_888));
    assert!(rt; !stairs.accepts(GREATEST_CHANGE, GREATEST_TEMPERATURE, 3_907_718_889));
    assert!(rt; !stairs.accepts(GREATEST_CHANGE, 1, 0));
    assert!(rt; stairs.accepts(-GREATEST_CHANGE, 1, 4_294_967_295));
    Ok(())
}

#[test]
fn a_fixed_schedule_halves_over_four_levels(rt: HostRuntime) -> Result<(), Fail> {
    let schedule = Schedule::fixed(rt.alloc(), 5_000_000, 500_000_000, 4, 8)?;
    assert_eq!(rt; schedule.factor(), 500_000_000);
    assert!(rt; schedule.at(0) == 5_000_000);
    assert!(rt; schedule.at(1) == 5_000_000);
    assert!(rt; schedule.at(2) == 2_500_000);
    assert!(rt; schedule.at(3) == 2_500_000);
    assert!(rt; schedule.at(4) == 1_250_000);
    assert!(rt; schedule.at(5) == 1_250_000);
    assert!(rt; schedule.at(6) == 625_000);
    assert!(rt; schedule.at(7) == 625_000);
    Ok(())
}

#[test]
fn a_level_ends_where_the_next_begins(rt: HostRuntime) -> Result<(), Fail> {
    let schedule = Schedule::fixed(rt.alloc(), 5_000_000, 500_000_000, 4, 8)?;
    assert!(rt; schedule.level_at(0).temperature == 5_000_000);
    assert_eq!(rt; schedule.level_at(0).end, 2);
    assert_eq!(rt; schedule.level_at(1).end, 2);
    assert!(rt; schedule.level_at(7).temperature == 625_000);
    assert_eq!(rt; schedule.level_at(7).end, 8);
    assert_eq!(rt; Level::OVER.end, 0);
    Ok(())
}

#[test]
fn more_levels_than_entries_are_passed_over(rt: HostRuntime) -> Result<(), Fail> {
    let schedule = Schedule::fixed(rt.alloc(), 1000, 500_000_000, 8, 4)?;
    assert!(rt; schedule.at(0) == 1000);
    assert!(rt; schedule.at(1) == 250);
    assert!(rt; schedule.at(2) == 62);
    assert!(rt; schedule.at(3) == 15);
    Ok(())
}

#[test]
fn one_level_keeps_its_temperature(rt: HostRuntime) -> Result<(), Fail> {
    let schedule = Schedule::fixed(rt.alloc(), GREATEST_TEMPERATURE, 1_000_000_000, 1, 2)?;
    assert!(rt; schedule.at(0) == GREATEST_TEMPERATURE);
    assert!(rt; schedule.at(1) == GREATEST_TEMPERATURE);
    Ok(())
}

#[test]
fn a_history_without_entries_has_a_schedule(rt: HostRuntime) -> Result<(), Fail> {
    let schedule = Schedule::fixed(rt.alloc(), 1, 0, 1, 0)?;
    assert_eq!(rt; schedule.factor(), 0);
    Ok(())
}

#[test]
fn an_adaptive_schedule_fits_its_changes(rt: HostRuntime) -> Result<(), Fail> {
    let schedule = Schedule::adaptive(rt.alloc(), &[-23, 5, 0, 10], 1, 1)?;
    assert!(rt; schedule.at(0) == 23_000);
    // 23000 * 21782608 / 10^9 is 500, and with the next factor it is 501.
    assert_eq!(rt; schedule.factor(), 21_782_608);
    Ok(())
}

#[test]
fn equal_changes_fall_to_a_tenth(rt: HostRuntime) -> Result<(), Fail> {
    let schedule = Schedule::adaptive(rt.alloc(), &[100_000, 100_000, 100_000], 1, 1)?;
    assert!(rt; schedule.at(0) == 100_000_000);
    assert_eq!(rt; schedule.factor(), 100_000_009);
    Ok(())
}

#[test]
fn changes_of_0_fall_to_1(rt: HostRuntime) -> Result<(), Fail> {
    let schedule = Schedule::adaptive(rt.alloc(), &[0, 0], 1, 1)?;
    assert!(rt; schedule.at(0) == 1000);
    // 1000 * 1999999 / 10^9 is 1, and with the next factor it is 2.
    assert_eq!(rt; schedule.factor(), 1_999_999);
    Ok(())
}

#[test]
fn the_greatest_changes_have_a_schedule(rt: HostRuntime) -> Result<(), Fail> {
    let schedule = Schedule::adaptive(rt.alloc(), &[GREATEST_CHANGE, -GREATEST_CHANGE], 1, 1)?;
    assert!(rt; schedule.at(0) == GREATEST_TEMPERATURE / 10);
    assert_eq!(rt; schedule.factor(), 100_000_000);
    Ok(())
}
