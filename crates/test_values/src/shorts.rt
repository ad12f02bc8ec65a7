//! Short texts at their edges.

use game_sheet::Short;

/// Bytes, and whether they are a short text.
const ROWS: [(&[u8], bool); 10] = [
    (b"", true),
    (b" ", true),
    (b"\x1f", false),
    (b"a\n", false),
    (b"\x7f", true),
    (b"\xc3\xa9", true),
    (b"\xc3", false),
    (b"\xff", false),
    (
        b"0123456789abcdef0123456789abcdef0123456789abcdef0123456789abcdef",
        true,
    ),
    (
        b"0123456789abcdef0123456789abcdef0123456789abcdef0123456789abcdefg",
        false,
    ),
];

#[test]
fn a_short_text_is_utf8_of_64_bytes_and_none_below_32(rt: HostRuntime) {
    for (bytes, is_short) in ROWS {
        let length = Short::of(bytes).map(|text| text.as_str().len());
        assert!(rt; length.is_some() == is_short && length.unwrap_or(bytes.len()) == bytes.len());
    }
}
