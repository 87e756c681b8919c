// One bit of a word: tested, set and cleared by a mask; and the lowest bit that is set.
#![tactic(auto)]

ghost use Rattle.std.specs.Prelude.{◌≡◌, ◌%◌};
ghost use Rattle.wal_types.specs.Memory.{bit_at};
ghost use Rattle.word_bits.specs.Bit.{set_bit, clear_bit, Lowest};

// Bit i of the word, 0 or 1. Here and below i counts on over the words of a row, and its bit is the remainder by 64.
#[tactic(auto, using(std::proofs::lemmas::Nat::Bits::shr_and_one), unfolding(wal_types::specs::Memory::bit_at))]
pub fn bit(word: u64, i: usize) -> u64
    ensures { result ≡ bit_at word (i % 64) }
{
    (word >> (i % 64)) & 1
}

// The word with bit i set.
pub fn with_bit(word: u64, i: usize) -> u64
    ensures { result ≡ set_bit word (i % 64) }
{
    word | (1u64 << (i % 64))
}

// The word with bit i cleared.
pub fn without_bit(word: u64, i: usize) -> u64
    ensures { result ≡ clear_bit word (i % 64) }
{
    word & !(1u64 << (i % 64))
}

// The least bit that is set, 64 where none is.
pub fn lowest_bit(word: u64) -> u32
    ensures { Lowest word result }
{
    word.trailing_zeros()
}
