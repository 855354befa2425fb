//! That entries of a log are written and read back, each with what is behind it.

use log_text::{put_entry, read_entry};

#[test]
fn entries_are_read_back(rt: HostRuntime) {
    let items: [&[u8]; 4] = [b"", b"abc", &[0, 245, 246, 247, 248], b"z"];
    let mut log = Vec::new(rt.alloc());
    for item in items {
        put_entry(&mut log, item).expect(&rt, "room");
    }
    let text: &[u8] = b"\xf7abc\xf7\xf5\xf6\x01\xf6\x02\xf6\x03\xf8\xf7z\xf7";
    assert!(rt; log.as_slice() == text);
    let mut rest = log.as_slice();
    let mut item = Vec::new(rt.alloc());
    for wanted in items {
        let count = read_entry(rest, &mut item)
            .expect(&rt, "room")
            .expect(&rt, "an entry");
        assert!(rt; item.as_slice() == wanted);
        rest = &rest[count..];
    }
    assert!(rt; read_entry(rest, &mut item).expect(&rt, "room").is_none());
}
