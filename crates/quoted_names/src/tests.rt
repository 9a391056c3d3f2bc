//! Names as the session format wants them, by hand.
use crate::put_name;
use layout_io::Bytes;
use std::rt::HostRuntime;
use std::test::Fail;

#[test]
fn a_name_is_bare_or_between_quotes(rt: HostRuntime) -> Result<(), Fail> {
    let rows = [
        ("GND", "GND"),
        ("Net_1.a/b:c+d*e@f[0]~g", "Net_1.a/b:c+d*e@f[0]~g"),
        ("U1-1", "\"U1-1\""),
        ("two words", "\"two words\""),
        ("(", "\"(\""),
        ("", "\"\""),
    ];
    for (name, want) in rows {
        let mut out = Bytes::new(rt.alloc());
        put_name(&mut out, name.as_bytes())?;
        assert_eq!(rt; out.as_slice(), want.as_bytes(), "{name}");
    }
    Ok(())
}
