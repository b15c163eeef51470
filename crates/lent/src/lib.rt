// Bits of words that a caller lends.
#![tactic(auto)]

ghost use Rattle.std.specs.Prelude.{◌≡◌, ℕ, ◌-◌, ◌*◌, ◌^◌, ◌<◌, ◌≤◌, min, max, length, if◌then◌else◌, Decides, ◌==◌, ◌≢◌, nat_eq, slice_index, unwrap_or, IfSome};
ghost use Rattle.lent.specs.Bits.{bit_at, bits_set, FirstDifference, Agree};

// Whether bit `p` is set; past the end it isn't.
pub fn has_bit(words: &[u32], p: usize) -> bool
    ensures { result ≡ (bit_at words.now p == 1) }
{
    words
        .get(p / 32)
        .is_some_and(|word| (word >> (p % 32)) & 1 == 1)
}

// Sets bit `p`.
pub fn set_bit(words: &mut [u32], p: usize)
    requires { p < 32 * length words.old }
    ensures { (q : ℕ) → bit_at words.new q ≡ (if nat_eq q p then 1 else bit_at words.old q) }
{
    words[p / 32] |= 1 << (p % 32);
}

// Writes a value into each word.
pub fn fill(words: &mut [u32], value: u32)
    ensures { (k : ℕ) → k < length words.new → slice_index words.new k ≡ value }
{
    words.fill(value);
}

// Clears all bits.
pub fn clear(words: &mut [u32])
    ensures { (q : ℕ) → bit_at words.new q ≡ 0 }
{
    words.fill(0);
}

// The first bit in which two rows of the same length differ.
pub fn first_difference(xs: &[u32], ys: &[u32]) -> Option<usize>
    requires same { length xs.now ≡ length ys.now }
    requires fits { 32 * length xs.now < 2 ^ 64 }
    ensures first { FirstDifference xs.now ys.now (unwrap_or result (32 * length xs.now)) }
    ensures within { IfSome result (λ j. j < 32 * length xs.now) }
{
    let i = xs.iter().zip(ys).position(|(x, y)| x != y)?;
    Some(32 * i + (xs[i] ^ ys[i]).trailing_zeros() as usize)
}

// The first word that is not 0, or as many as there are words.
// Kept: a number in place of an Option, here and below, since it is where a range begins or ends.
pub fn first_nonzero(words: &[u32]) -> usize
    ensures within { result ≤ length words.now }
    ensures before { (k : ℕ) → k < result → slice_index words.now k ≡ 0 }
    ensures here { result < length words.now → slice_index words.now result ≢ 0 }
{
    words
        .iter()
        .position(|word| *word != 0)
        .unwrap_or(words.len())
}

// One past the last word that is not 0, or 0 if there is none.
pub fn nonzero_end(words: &[u32]) -> usize
    ensures within { result ≤ length words.now }
    ensures after { (k : ℕ) → result ≤ k → slice_index words.now k ≡ 0 }
    ensures here { 0 < result → slice_index words.now (result - 1) ≢ 0 }
{
    words
        .iter()
        .rposition(|word| *word != 0)
        .map_or(0, |last| last + 1)
}

// Words of which those before `from` and those from `to` on are 0.
#[derive(Clone, Copy)]
pub struct Mask<'a> {
    pub words: &'a [u32],
    pub from: usize,
    pub to: usize,
    ghost within: { to ≤ length words.now },
    ghost before: { (k : ℕ) → k < from → slice_index words.now k ≡ 0 },
    ghost after: { (k : ℕ) → to ≤ k → slice_index words.now k ≡ 0 },
}

impl Mask<'_> {
    // All of the words, with the 0s at either end left out.
    pub fn of(words: &[u32]) -> Mask<'_>
        ensures { result.words.now ≡ words.now }
    {
        Mask {
            words,
            from: first_nonzero(words),
            to: nonzero_end(words),
        }
    }
}

// Whether two rows have the same bits where the mask has one. All have the same length.
pub fn agree_within(xs: &[u32], ys: &[u32], mask: Mask) -> bool
    requires xs { length xs.now ≡ length mask.words.now }
    requires ys { length ys.now ≡ length mask.words.now }
    ensures { Decides result (Agree xs.now ys.now mask.entry.words.now) }
{
    // Kept: the index. A zip goes through the words before `from` too, and slices ask for `from` to be at most `to`, which it isn't where the mask has no bit.
    (mask.from..mask.to).all(|i| (xs[i] ^ ys[i]) & mask.words[i] == 0)
}

// Whether two rows have the same bits where the mask has one. All have the same length.
// Kept: one call of the function above, for who asks once and makes no Mask.
pub fn agree(xs: &[u32], ys: &[u32], mask: &[u32]) -> bool
    requires xs { length xs.now ≡ length mask.now }
    requires ys { length ys.now ≡ length mask.now }
    ensures { Decides result (Agree xs.now ys.now mask.now) }
{
    let whole = Mask {
        words: mask,
        from: 0,
        to: mask.len(),
    };
    agree_within(xs, ys, whole)
}

// How many bits are set.
pub fn count_bits(words: &[u32]) -> usize
    requires { 32 * length words.now < 2 ^ 64 }
    ensures { result ≡ bits_set words.now (32 * length words.now) }
{
    words.iter().map(|word| word.count_ones() as usize).sum()
}

// Sets the bits that the mask has. Both have the same length.
pub fn unite(words: &mut [u32], mask: &[u32])
    requires { length words.old ≡ length mask.now }
    ensures { (q : ℕ) → bit_at words.new q ≡ max (bit_at words.old q) (bit_at mask.now q) }
{
    // Kept: the index, since after a zip over `iter_mut` a proof knows nothing of the words.
    for (i, word) in words.iter_mut().enumerate() {
        *word |= mask[i];
    }
}

// Sets the bits that the mask has and the row lacks. All have the same length.
// Kept: the shape of `unite`. A function of both would take what is joined as a closure.
pub fn unite_lacking(words: &mut [u32], mask: &[u32], row: &[u32])
    requires words { length words.old ≡ length mask.now }
    requires row { length row.now ≡ length mask.now }
    ensures { (q : ℕ) → bit_at words.new q ≡ max (bit_at words.old q) (min (bit_at mask.now q) (1 - bit_at row.now q)) }
{
    // Kept: the index, since after a zip over `iter_mut` a proof knows nothing of the words.
    for (i, word) in words.iter_mut().enumerate() {
        *word |= mask[i] & (mask[i] ^ row[i]);
    }
}
