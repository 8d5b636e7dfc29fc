use cookie::Key;

// Its bytes are in the tests `roundtrip` of the crate `cookie`.
const TEST_KEY: [u8; 64] = [
    89, 202, 200, 125, 230, 90, 197, 245, 166, 249, 34, 169, 135, 31, 20, 197, 94, 154, 254, 79,
    60, 26, 8, 143, 254, 24, 116, 138, 92, 225, 159, 60, 157, 41, 135, 129, 31, 226, 196, 16, 198,
    168, 134, 4, 42, 1, 196, 24, 57, 103, 241, 147, 201, 185, 233, 10, 180, 170, 187, 89, 252, 137,
    110, 107,
];

/// The key of the rows on signed and private values.
pub fn test_key() -> Key {
    Key::from(&TEST_KEY)
}

/// The key of that name: `test`, or a number that each of its 64 bytes is.
pub fn key_of(name: &str) -> Option<Key> {
    if name == "test" {
        return Some(test_key());
    }
    let byte = name.parse().ok()?;
    Some(Key::from(&[byte; 64]))
}
