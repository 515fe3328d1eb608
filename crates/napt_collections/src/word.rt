//! Operations on the bits of words.

ghost use Rattle.std.specs.Prelude.{◌≡◌, ◌≢◌, ℕ, true, false, ◌*◌, ◌^◌, ◌<◌, ◌≤◌, length};
ghost use Rattle.napt_collections.specs.BitSets.{has_bit, has, IsFirstAbsent, MarksFullWords};

/// Returns the first clear bit of the word from bit `from` on.
pub(crate) fn first_clear(word: u64, from: u32) -> Option<u32>
    requires { from < 64 }
    ensures { IsFirstAbsent (has_bit word) from 64 result }
{
    let filled = word | ((1 << from) - 1);
    if filled == u64::MAX {
        None
    } else {
        Some(filled.trailing_ones())
    }
}

/// Returns the first clear bit from bit `from` on, counted over all words.
pub(crate) fn first_clear_of(words: &[u64], from: usize) -> Option<usize>
    requires { length words.now ≤ 1024 }
    ensures { IsFirstAbsent (has words.now) from (64 * length words.now) result }
{
    let start = from / 64;
    if start >= words.len() {
        return None;
    }
    if let Some(k) = first_clear(words[start], (from % 64) as u32) {
        return Some(64 * start + k as usize);
    }
    for i in start + 1..words.len() {
        if let Some(k) = first_clear(words[i], 0) {
            return Some(64 * i + k as usize);
        }
    }
    None
}

/// Returns the first clear bit of 1024 words from bit `from` on, counted over all words. Each set
/// bit of `full` marks a full word, so that full words after the first one are skipped.
pub(crate) fn first_clear_over(words: &[u64], full: &[u64], from: usize) -> Option<usize>
    requires marked { MarksFullWords words.now full.now }
    requires within { from < 65536 }
    ensures { IsFirstAbsent (has words.now) from 65536 result }
{
    let word = from / 64;
    if let Some(k) = first_clear(words[word], (from % 64) as u32) {
        return Some(64 * word + k as usize);
    }
    let next = first_clear_of(full, word + 1)?;
    Some(64 * next + words[next].trailing_ones() as usize)
}

/// Returns whether bit `k` is set.
pub(crate) fn has_bit(word: u64, k: u32) -> bool
    requires { k < 64 }
    ensures { result ≡ has_bit word k }
{
    (word >> k) & 1 == 1
}

/// Returns the word with bit `k` set.
pub(crate) fn with_bit(word: u64, k: u32) -> u64
    requires { k < 64 }
    ensures set { has_bit result k ≡ true }
    ensures others { (i : ℕ) → i ≢ k → has_bit result i ≡ has_bit word i }
{
    word | (1 << k)
}

/// Returns the word with bit `k` clear.
pub(crate) fn without_bit(word: u64, k: u32) -> u64
    requires { k < 64 }
    ensures clear { has_bit result k ≡ false }
    ensures others { (i : ℕ) → i < 64 → i ≢ k → has_bit result i ≡ has_bit word i }
{
    word & !(1 << k)
}

/// Returns the word with bit `k` set if `is_set`, else clear.
pub(crate) fn with_mark(word: u64, k: u32, is_set: bool) -> u64
    requires { k < 64 }
    ensures here { has_bit result k ≡ is_set }
    ensures others { (i : ℕ) → i < 64 → i ≢ k → has_bit result i ≡ has_bit word i }
{
    if is_set {
        with_bit(word, k)
    } else {
        without_bit(word, k)
    }
}
