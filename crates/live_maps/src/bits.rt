//! Bits of cells, 32 in a word.

ghost use Rattle.std.specs.Prelude.{◌≡◌, ◌*◌, ◌<◌, length};
ghost use Rattle.live_maps.specs.Live.{bit_words, is_marked};

/// How many words have a bit for each cell of a map with these sides, which are at most 4,096.
pub fn words_for(width: u32, height: u32) -> usize
    requires width { width < 4097 }
    requires height { height < 4097 }
    ensures { result ≡ bit_words width height }
{
    ((width * height + 31) / 32) as usize
}

/// Whether the bit of a place is set.
#[inline(always)]
pub fn is_marked(bits: &[u32], place: usize) -> bool
    requires { place < 32 * length bits.now }
    ensures { result ≡ is_marked bits.now place }
{
    (bits[place / 32] >> (place % 32)) & 1 == 1
}
