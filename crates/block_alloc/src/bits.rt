//! A tree of words. The bits of all words are numbered through, and bit b stands for word b + 1 if there is one.

ghost use Rattle.std.specs.Prelude.{◌≡◌, ◌≢◌, ℕ, ◌+◌, ◌*◌, ◌/◌, ◌^◌, ◌<◌, ◌≤◌, Bool, true, false, length, slice_index};
ghost use Rattle.block_alloc.specs.Bits.{is_set, has_bits, first_bit};

/// Makes a bit what it is to be, and each bit above it whether its word has bits.
pub(crate) fn write_path(words: &mut [u64], leaf: usize, bit: usize, value: bool)
    requires within { bit / 64 < length words.old }
    requires below { leaf ≤ bit × (bit < 64 * (leaf + 1)) }
    requires kept { (b : ℕ) → b < leaf → is_set words.old b ≡ has_bits words.old (b + 1) }
    ensures kept { (b : ℕ) → b < leaf → is_set words.new b ≡ has_bits words.new (b + 1) }
    ensures here { is_set words.new bit ≡ value }
    ensures others { (b : ℕ) → leaf ≤ b → b ≢ bit → is_set words.new b ≡ is_set words.old b }
{
    write_bit(words, bit, value);
    let mut at = bit;
    while 64 <= at {
        let word = at / 64;
        let some = words[word] != 0;
        at = word - 1;
        write_bit(words, at, some);
    }
}

/// Makes a bit what it is to be.
fn write_bit(words: &mut [u64], bit: usize, value: bool)
    requires { bit / 64 < length words.old }
    ensures here { is_set words.new bit ≡ value }
    ensures others { (b : ℕ) → b ≢ bit → is_set words.new b ≡ is_set words.old b }
    ensures words { (i : ℕ) → i ≢ bit / 64 → slice_index words.new i ≡ slice_index words.old i }
{
    let word = bit / 64;
    let mask = 1 << (bit % 64);
    if value {
        words[word] |= mask;
    } else {
        words[word] &= !mask;
    }
}

/// Whether a bit is set.
pub(crate) fn has_bit(words: &[u64], bit: usize) -> bool
    requires { bit / 64 < length words.now }
    ensures { result ≡ is_set words.now bit }
{
    words[bit / 64] >> (bit % 64) & 1 == 1
}

/// The lowest bit that is set among those so far below the first word.
pub(crate) fn lowest_leaf(words: &[u64], depth: u32) -> usize
    requires some { has_bits words.now 0 ≡ true }
    requires kept { (b : ℕ) → b < first_bit depth → is_set words.now b ≡ has_bits words.now (b + 1) }
    requires small { first_bit depth < 2 ^ 34 }
    ensures low { first_bit depth ≤ result }
    ensures set { is_set words.now result ≡ true }
    ensures lowest { (b : ℕ) → first_bit depth ≤ b → b < result → is_set words.now b ≡ false }
{
    let mut bit = lowest_bit(words, 0);
    for _level in 0..depth {
        bit = lowest_bit(words, bit + 1);
    }
    bit
}

/// The lowest bit of a word that has bits.
fn lowest_bit(words: &[u64], word: usize) -> usize
    requires within { word < length words.now }
    requires small { word < 2 ^ 35 }
    requires some { has_bits words.now word ≡ true }
    ensures low { 64 * word ≤ result }
    ensures high { result < 64 * (word + 1) }
    ensures set { is_set words.now result ≡ true }
    ensures lowest { (b : ℕ) → 64 * word ≤ b → b < result → is_set words.now b ≡ false }
{
    64 * word + words[word].trailing_zeros() as usize
}
