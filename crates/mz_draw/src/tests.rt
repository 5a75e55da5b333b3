use crate::{Draw, Drawer, pick};

const UNITS: [u32; 3] = [0, 1, 2];

const ZONES: [u8; 3] = [2, 2, 2];

#[test]
fn seat_54_has_these_words(rt: HostRuntime) {
    let mut drawer = Drawer::new(42, 0, 54);
    assert_eq!(rt; drawer.word(), 0xA15C_02B7);
    assert_eq!(rt; drawer.word(), 0x7B47_F409);
    assert_eq!(rt; drawer.word(), 0xBA1D_3330);
    assert_eq!(rt; drawer.word(), 0x83D2_F293);
    assert_eq!(rt; drawer.word(), 0xBFA4_784B);
    assert_eq!(rt; drawer.word(), 0xCBED_606E);
}

fn drawn(number: u64, word: u32) -> Draw {
    Draw {
        number,
        unit: 1,
        shift: 1,
        word,
    }
}

#[test]
fn seat_54_draws_these(rt: HostRuntime) {
    let mut drawer = Drawer::new(42, 0, 54);
    let first = drawer.next(&UNITS, &ZONES);
    assert!(rt; first == drawn(0, 0xBA1D_3330));
    let second = drawer.next(&UNITS, &ZONES);
    assert!(rt; second == drawn(1, 0xCBED_606E));
}

#[test]
fn the_draw_after_a_skip_of_two_is_the_third(rt: HostRuntime) {
    let mut drawer = Drawer::new(42, 0, 54);
    let mut skipped = Drawer::new(42, 0, 54);
    skipped.skip(2);
    let _first = drawer.next(&UNITS, &ZONES);
    let _second = drawer.next(&UNITS, &ZONES);
    let third = drawer.next(&UNITS, &ZONES);
    assert_eq!(rt; third.number, 2);
    assert!(rt; skipped.next(&UNITS, &ZONES) == third);
}

#[test]
fn a_word_picks_by_its_size(rt: HostRuntime) {
    for (m, word, picked) in [
        (1, 0xFFFF_FFFF, 0),
        (3, 0, 0),
        (3, 0x5555_5555, 0),
        (3, 0x5555_5556, 1),
        (3, 0xFFFF_FFFF, 2),
        (60, 0x8000_0000, 30),
    ] {
        assert_eq!(rt; pick(m, word), picked);
    }
}
