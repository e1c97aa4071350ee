//! Two slices, opened twice.

use crate::parts::Parts;
use crate::slices::Slices;
use hprof_devices::Source;
use std::test::*;

#[test]
fn opened_again(rt: HostRuntime) {
    let slices: [&[u8]; 2] = [b"first", b"second"];
    let parts = Slices::new(&slices);
    assert!(rt; parts.count() == 2);
    for _ in 0..2 {
        let mut reader = parts.open(1, 3);
        let mut piece = [0u8; 8];
        assert!(rt; matches!(reader.pull(&mut piece), Ok(3)));
        assert!(rt; piece.starts_with(b"ond"));
        assert!(rt; matches!(reader.pull(&mut piece), Ok(0)));
    }
    let mut behind = parts.open(0, 6);
    let mut piece = [0u8; 8];
    assert!(rt; matches!(behind.pull(&mut piece), Ok(0)));
}
