ghost use Rattle.std.specs.Prelude.{◌≡◌};
ghost use Rattle.rand_chacha.specs.ChaCha.{of_seed, word_at};
ghost use Rattle.loss_words.specs.Word.{early_word, loss_word, seed_bytes};

use rand_chacha::ChaCha8Rng;
use rand_core::SeedableRng;
use rand_core::utils::NextWord;
use std::marker::Model;

/// The stream of the early words of pipe 0. The loss words of pipes have the streams below.
pub(crate) const EARLY_STREAMS: u64 = 1 << 32;

/// The loss words of a seed, one for each pipe and place.
///
/// A word is that of ChaCha with 8 rounds (the crate `rand_chacha`), whose key is the seed as eight
/// little-endian bytes and then 24 zero bytes, in the stream of the pipe's number, at a place of that
/// stream. Contracts see a `Words` as its seed.
#[derive(Drop)]
pub struct Words {
    seed: u64,
    generator: ChaCha8Rng,
}

impl Model for Words {
    ghost use Rattle.std.specs.Prelude.{ℕ, ◌≡◌};
    ghost use Rattle.loss_words.specs.Word.{key_of_seed};

    ghost Value = { ℕ };

    ghost view = { λ w. w.seed };

    ghost invariant = { λ w. w.generator.key ≡ key_of_seed w.seed };
}

impl Words {
    /// The words of a seed. Takes no memory.
    pub fn new(seed: u64) -> Words
        ensures { result ≡ seed }
    {
        Words {
            seed,
            generator: generator_of(seed),
        }
    }

    /// The word of a pipe at a place, whatever was asked before. Each call computes a block anew: `PipeWords` doesn't.
    #[tactic(auto, unfolding(crate::specs::Word::loss_word))]
    pub fn word(&mut self, pipe: u32, place: u32) -> u32
        ensures word { result ≡ loss_word self.old pipe place }
        ensures same { self.new ≡ self.old }
    {
        word_of_stream(&mut self.generator, u64::from(pipe), place)
    }

    /// The early word of a pipe at a place, whatever was asked before: the word by which a queue that drops early decides. Its
    /// stream is after those of all pipes' loss words. Each call computes a block anew: `EarlyWords` doesn't.
    #[tactic(auto, unfolding(crate::specs::Word::early_word))]
    pub fn early_word(&mut self, pipe: u32, place: u32) -> u32
        ensures word { result ≡ early_word self.old pipe place }
        ensures same { self.new ≡ self.old }
    {
        word_of_stream(&mut self.generator, EARLY_STREAMS + u64::from(pipe), place)
    }
}

/// The word at a place of a stream.
fn word_of_stream(generator: &mut ChaCha8Rng, stream: u64, place: u32) -> u32
    ensures word { result ≡ word_at 4 generator.old.key stream place }
    ensures key { generator.new.key ≡ generator.old.key }
{
    // Stream and place stand where the word before left them, so both are set. At place 0 the change of stream computes
    // nothing.
    generator.set_word_pos(0);
    generator.set_stream(stream);
    generator.set_word_pos(u128::from(place));
    generator.next_word()
}

/// The generator of a seed, at the start of stream 0.
pub(crate) fn generator_of(seed: u64) -> ChaCha8Rng
    ensures { result ≡ of_seed (seed_bytes seed) }
{
    let mut key = [0; 32];
    key[..8].copy_from_slice(&seed.to_le_bytes());
    ChaCha8Rng::from_seed(key)
}
