//! Names as units. Expected values were worked out by hand, from the table in the Java Virtual Machine Specification, section 4.4.7.

use crate::expecting::{equal, equal_at};
use hprof_text::{encode_units, is_modified, units};
use std::alloc::Global;
use std::process::Abort;
use std::test::Fail;

// That these units have this form, in hexadecimal, and it these units.
fn has_form(rt: &impl Abort, alloc: Global, text_units: &[u16], form: &str) -> Result<(), Fail> {
    let bytes = encode_units(alloc, text_units)?;
    equal(rt, hex::encode(alloc, bytes.as_slice())?.as_str(), form);
    equal(rt, units(alloc, &bytes)?, Some(text_units.to_vec(alloc)?));
    Ok(())
}

// That of the fronts of these bytes only the whole is a form.
fn has_no_front(rt: &impl Abort, alloc: Global, form: &str) -> Result<(), Fail> {
    let bytes = hex::decode(alloc, form)?;
    for len in 1..=bytes.len() {
        let is_whole = len == bytes.len();
        equal_at(rt, (form, len), is_modified(&bytes[..len]), is_whole);
    }
    Ok(())
}

// That these bytes are no form.
fn refuses(rt: &impl Abort, alloc: Global, bytes: &[u8]) -> Result<(), Fail> {
    let found = (is_modified(bytes), units(alloc, bytes)?);
    equal_at(rt, bytes, found, (false, None));
    Ok(())
}

#[test]
fn forms_of_units(rt: HostRuntime) -> Result<(), Fail> {
    for (unit, form) in [
        (0, "c080"),
        (0x01, "01"),
        (0x7f, "7f"),
        (0x80, "c280"),
        (0x7ff, "dfbf"),
        (0x800, "e0a080"),
        (0xd7ff, "ed9fbf"),
        (0xd800, "eda080"),
        (0xdfff, "edbfbf"),
        (0xe000, "ee8080"),
        (0xffff, "efbfbf"),
    ] {
        has_form(&rt, rt.alloc(), &[unit], form)?;
        has_no_front(&rt, rt.alloc(), form)?;
    }
    has_form(&rt, rt.alloc(), &[0, 0xd800], "c080eda080")?;
    has_form(&rt, rt.alloc(), &[], "")?;
    for form in [
        "00", "c081", "c181", "c1bf", "e08080", "e08181", "e09fbf", "c280ff", "c27f", "c2c0",
        "e0a07f", "e07f80", "e0a0c0", "f0808080", "f09f9880", "ff", "fe", "4100", "41c3",
    ] {
        let bytes = hex::decode(rt.alloc(), form)?;
        refuses(&rt, rt.alloc(), &bytes)?;
    }
    for byte in 0x80..=0xbf {
        refuses(&rt, rt.alloc(), &[byte])?;
    }
    Ok(())
}
