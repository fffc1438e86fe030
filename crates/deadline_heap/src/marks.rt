//! The map of bits that names the slots with a visit: slot i is bit `i % 64` of word `i / 64`.
ghost use Rattle.std.specs.Prelude.{◌≡◌, ◌≢◌, ◌<◌, ◌≤◌, ◌*◌, ◌/◌, ◌%◌, ℕ, length, MatchOption, if◌then◌else◌};
ghost use Rattle.std.specs.Int.{bit_at};
ghost use Rattle.deadline_heap.specs.declared.wheel.TheConstants.{SLOTS};
ghost use Rattle.deadline_heap.specs.Bits.{bit_of, IsClear, IsFirstSet};

/// Words of 64 bits: one bit for each slot.
pub(crate) const WORDS: usize = 16;

/// The first bit of a word from `from` on that is set.
fn first_bit(word: u64, from: usize) -> Option<usize>
    requires { from < 64 }
    ensures { MatchOption result (IsClear (bit_at word) from 64) (IsFirstSet (bit_at word) from 64) }
{
    let rest = word >> from;
    if rest == 0 {
        return None;
    }
    Some(from + rest.trailing_zeros() as usize)
}

/// The first bit of the words from bit 0 of the word `from` on that is set.
fn first_in_words(words: &[u64], from: usize) -> Option<usize>
    requires len { length words.now ≡ WORDS }
    requires from { from ≤ WORDS }
    ensures { MatchOption result (IsClear (bit_of words.now) (64 * from) (SLOTS)) (IsFirstSet (bit_of words.now) (64 * from) (SLOTS)) }
{
    for at in from..WORDS {
        if let Some(bit) = first_bit(words[at], 0) {
            return Some(64 * at + bit);
        }
    }
    None
}

/// The first slot from `from` on whose bit is set.
pub(crate) fn first_mark(words: &[u64], from: usize) -> Option<usize>
    requires len { length words.now ≡ WORDS }
    requires from { from < SLOTS }
    ensures { MatchOption result (IsClear (bit_of words.now) from (SLOTS)) (IsFirstSet (bit_of words.now) from (SLOTS)) }
{
    let at = from / 64;
    match first_bit(words[at], from % 64) {
        Some(bit) => Some(64 * at + bit),
        None => first_in_words(words, at + 1),
    }
}

/// Sets the bit of a slot.
pub(crate) fn set_mark(words: &mut [u64], slot: usize)
    requires len { length words.old ≡ WORDS }
    requires slot { slot < SLOTS }
    ensures here { bit_of words.new slot ≡ 1 }
    ensures others { (other : ℕ) → other ≢ slot → bit_of words.new other ≡ bit_of words.old other }
{
    words[slot / 64] |= 1 << (slot % 64);
}

/// Clears the bit of a slot.
fn clear_mark(words: &mut [u64], slot: usize)
    requires len { length words.old ≡ WORDS }
    requires slot { slot < SLOTS }
    ensures here { bit_of words.new slot ≡ 0 }
    ensures others { (other : ℕ) → other ≢ slot → bit_of words.new other ≡ bit_of words.old other }
{
    words[slot / 64] &= !(1 << (slot % 64));
}

/// Clears the bit of a slot that is empty.
pub(crate) fn unmark(words: &mut [u64], slot: usize, is_empty: bool)
    requires len { length words.old ≡ WORDS }
    requires slot { slot < SLOTS }
    ensures here { bit_of words.new slot ≡ (if is_empty then 0 else bit_of words.old slot) }
    ensures others { (other : ℕ) → other ≢ slot → bit_of words.new other ≡ bit_of words.old other }
{
    if is_empty {
        clear_mark(words, slot);
    }
}
