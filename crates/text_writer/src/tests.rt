use super::*;
use std::process::Abort;
use std::test::Fail;

#[test]
fn a_text_grows(rt: HostRuntime) -> Result<(), Fail> {
    let mut text = Text::new(rt.alloc());
    text.put(b"hex ")?;
    text.hex(&[0, 0xaf, 0x10])?;
    text.number_after(b" number ", 18_446_744_073_709_551_615)?;
    text.put(b" ")?;
    text.number(0)?;
    text.id_after(b" id ", Id(0xff))?;
    text.put(b"\n")?;
    let frame = text.into_frame();
    let expected =
        b"hex 00af10 number 18446744073709551615 0 id 000000000000000000000000000000ff\n";
    assert_eq!(rt; frame.as_slice(), expected.as_slice());
    Ok(())
}
