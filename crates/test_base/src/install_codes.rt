//! Published install codes.
ghost use Rattle.std.specs.Prelude.{◌≤◌, length};

use zb_base::Key;
use zb_install::{CodeError, InstallCode};

// The key that a text gives, or why it isn't a code.
fn key_of(text: &str) -> Result<Key, CodeError>
    requires { length text.now ≤ 100 }
{
    let code = InstallCode::from_hex(text)?;
    Ok(code.link_key())
}

const LONG_KEY: Key = Key([
    0x66, 0xb6, 0x90, 0x09, 0x81, 0xe1, 0xee, 0x3c, 0xa4, 0x20, 0x6b, 0x6b, 0x86, 0x1c, 0x02, 0xbb,
]);

const SHORT_KEY: Key = Key([
    0xcd, 0x4f, 0xa0, 0x64, 0x77, 0x3f, 0x46, 0x94, 0x1e, 0xc9, 0x86, 0xc0, 0x99, 0x63, 0xd1, 0xa8,
]);

// Texts, and the key of each.
const CODES: [(&str, Key); 3] = [
    ("83FED3407A939723A5C639B26916D505C3B5", LONG_KEY),
    ("83fed3407a939723a5c639b26916d505c3b5", LONG_KEY),
    ("83FED3407A932B70", SHORT_KEY),
];

#[test]
fn published_codes(rt: HostRuntime) {
    for (text, key) in CODES {
        assert!(rt; text.len() <= 100 && key_of(text) == Ok(key), "at {text}");
    }
}
