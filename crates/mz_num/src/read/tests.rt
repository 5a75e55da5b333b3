use super::*;
use crate::write::write_ten4;
use std::test::Fail;

#[test]
fn reads_ten_thousandths(rt: HostRuntime) -> Result<(), Fail> {
    let rows = [
        ("5.00000000000000E-0001", Ok(Ten4(5000))),
        ("0.00005", Ok(Ten4(1))),
        ("0.00004999", Ok(Ten4(0))),
        (".5", Ok(Ten4(5000))),
        ("5.", Ok(Ten4(50_000))),
        ("\t +12.25 ", Ok(Ten4(122_500))),
        ("-0", Ok(Ten4(0))),
        ("-0.0e5", Ok(Ten4(0))),
        ("100000000000000", Ok(Ten4(1_000_000_000_000_000_000))),
        ("1E9999", Err(NumFault::TooLarge)),
        ("0E9999", Ok(Ten4(0))),
        ("1E-9999", Ok(Ten4(0))),
        ("100000000000000.0001", Err(NumFault::TooLarge)),
        ("-1E9999", Err(NumFault::Negative)),
        ("-1", Err(NumFault::Negative)),
        ("   ", Err(NumFault::Empty)),
        ("", Err(NumFault::Empty)),
    ];
    for (text, answer) in rows {
        assert_eq!(rt; read_ten4(text.as_bytes()), answer, "{text}");
    }
    Ok(())
}

#[test]
fn refuses_what_is_no_number(rt: HostRuntime) -> Result<(), Fail> {
    let texts = [
        "1e",
        "1e+",
        ".",
        "e5",
        "1.2.3",
        "1 2",
        "--1",
        "+",
        "1e12345",
        "0x1",
        "1,5",
        "nan",
        "123456789012345678901234567890123456789",
    ];
    for text in texts {
        assert_eq!(rt;
            read_ten4(text.as_bytes()),
            Err(NumFault::NotANumber),
            "{text}"
        );
    }
    Ok(())
}

#[test]
fn reads_millionths(rt: HostRuntime) -> Result<(), Fail> {
    assert_eq!(rt; read_mic6(b"5.00000000000000E-0001"), Ok(Mic6(500_000)));
    assert_eq!(rt; read_mic6(b"0.0000005"), Ok(Mic6(1)));
    assert_eq!(rt; read_mic6(b"1e12"), Ok(Mic6(1_000_000_000_000_000_000)));
    assert_eq!(rt; read_mic6(b"1000000000000.000001"), Err(NumFault::TooLarge));
    Ok(())
}

#[test]
fn reads_whole_numbers(rt: HostRuntime) -> Result<(), Fail> {
    assert_eq!(rt;
        read_whole(b" 2147483647 ", 2_147_483_647),
        Ok(2_147_483_647)
    );
    assert_eq!(rt;
        read_whole(b"2147483648", 2_147_483_647),
        Err(NumFault::TooLarge)
    );
    assert_eq!(rt;
        read_whole(b"99999999999999999999999999999999999999", 60),
        Err(NumFault::TooLarge)
    );
    assert_eq!(rt; read_whole(b"+07", 60), Ok(7));
    assert_eq!(rt; read_whole(b"-0", 60), Ok(0));
    assert_eq!(rt; read_whole(b"-61", 60), Err(NumFault::Negative));
    assert_eq!(rt; read_whole(b"1.0", 60), Err(NumFault::NotANumber));
    assert_eq!(rt; read_whole(b" \t", 60), Err(NumFault::Empty));
    Ok(())
}

#[test]
fn reads_signed_numbers(rt: HostRuntime) -> Result<(), Fail> {
    assert_eq!(rt; read_signed(b"-2147483648"), Ok(-2_147_483_648));
    assert_eq!(rt; read_signed(b"-2147483649"), Err(NumFault::TooLarge));
    assert_eq!(rt; read_signed(b"2147483647"), Ok(2_147_483_647));
    assert_eq!(rt; read_signed(b"2147483648"), Err(NumFault::TooLarge));
    assert_eq!(rt; read_signed(b"-0"), Ok(0));
    assert_eq!(rt; read_signed(b"-"), Err(NumFault::NotANumber));
    assert_eq!(rt; read_signed(b""), Err(NumFault::Empty));
    Ok(())
}

#[test]
fn writes_four_decimals(rt: HostRuntime) -> Result<(), Fail> {
    let mut out = Vec::new(rt.alloc());
    write_ten4(rt.alloc(), 390_000, &mut out)?;
    assert_eq!(rt; out.as_slice(), b"39.0000".as_slice());
    Ok(())
}
