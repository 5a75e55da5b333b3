use crate::{Filled, Items, Text, push_bytes, push_number, read_digits, round_half, trim};
use std::test::Fail;

#[test]
fn a_half_is_rounded_up(rt: HostRuntime) {
    for (p, q, rounded) in [(1, 2, 1), (1, 3, 0), (5, 3, 2), (0, 7, 0)] {
        assert!(rt; round_half(p, q) == rounded);
    }
}

#[test]
fn blanks_at_the_ends_are_trimmed(rt: HostRuntime) {
    assert!(rt; trim(b" \t a b\t ") == b"a b".as_slice());
    assert!(rt; trim(b" \t").is_empty());
}

#[test]
fn digits_alone_are_a_number(rt: HostRuntime) {
    assert!(rt; read_digits(10, b"0000000060") == Some(60));
    assert!(rt; read_digits(10, b"00000000060").is_none());
    assert!(rt; read_digits(10, b"+1").is_none());
    assert!(rt; read_digits(10, b"").is_none());
}

#[test]
fn items_are_what_they_were_made_of(rt: HostRuntime) -> Result<(), Fail> {
    let items = Items::new(vec![in rt.alloc(); 3u8, 5]?);
    assert_eq!(rt; items.len(), 2);
    assert!(rt; items.as_slice() == [3, 5].as_slice());
    assert!(rt; items.into_vec().as_slice() == [3, 5].as_slice());
    Ok(())
}

#[test]
fn a_text_is_what_it_was_made_of(rt: HostRuntime) -> Result<(), Fail> {
    let text = Text::copy_of(rt.alloc(), "a.dat")?;
    assert!(rt; text.as_str() == "a.dat");
    let again = Text::new(text.into_string());
    assert!(rt; again.as_str() == "a.dat");
    Ok(())
}

#[test]
fn a_filled_list_keeps_its_items(rt: HostRuntime) -> Result<(), Fail> {
    let mut list = Filled::with_room(rt.alloc(), 2)?;
    list.push(3u8);
    list.push(5);
    assert!(rt; list.as_slice() == [3, 5].as_slice());
    list.clear();
    list.push(7);
    assert!(rt; list.into_vec().as_slice() == [7].as_slice());
    Ok(())
}

#[test]
fn pieces_of_a_text_are_appended(rt: HostRuntime) -> Result<(), Fail> {
    let mut text = Vec::new(rt.alloc());
    push_bytes(&mut text, b"seed ")?;
    push_number(&mut text, 18_446_744_073_709_551_615)?;
    assert!(rt; text.as_slice() == b"seed 18446744073709551615".as_slice());
    Ok(())
}
