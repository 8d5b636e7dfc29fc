/// Numbers from a seed, by the shifts of a xorshift generator (Marsaglia, 2003).
#[derive(Drop)]
pub struct Draws(u64);

impl Draws {
    pub fn new() -> Draws {
        Draws(0x9E37_79B9_7F4A_7C15)
    }

    fn next(&mut self) -> u64 {
        self.0 ^= self.0 << 13;
        self.0 ^= self.0 >> 7;
        self.0 ^= self.0 << 17;
        self.0
    }

    /// A number below the bound.
    pub fn below(&mut self, bound: u64) -> usize {
        self.next().checked_rem(bound).unwrap_or(0) as usize
    }

    /// One of the texts, which have bars between them. A text that is listed twice is drawn twice as often.
    pub fn text(&mut self, texts: &'static str) -> &'static str {
        let place = self.below(texts.split('|').count() as u64);
        texts.split('|').nth(place).unwrap_or("")
    }
}

/// The FNV-1a hash of the bytes.
pub fn code(bytes: &[u8]) -> u64 {
    let mut code = 0xcbf2_9ce4_8422_2325u64;
    for byte in bytes {
        code = (code ^ u64::from(*byte)).wrapping_mul(0x100_0000_01b3);
    }
    code
}
