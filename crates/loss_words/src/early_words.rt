ghost use Rattle.std.specs.Prelude.{◌≡◌};
ghost use Rattle.loss_words.specs.Word.{early_word};

use crate::pipe_words::go_to;
use crate::words::{EARLY_STREAMS, generator_of};
use rand_chacha::ChaCha8Rng;
use rand_core::utils::NextWord;
use std::marker::Model;

/// The early words of one pipe, with those in hand that were computed last.
///
/// They are to early words what `PipeWords` is to loss words: where places rise by small steps, one block serves many visits.
#[derive(Drop)]
pub struct EarlyWords {
    seed: u64,
    pipe: u32,
    generator: ChaCha8Rng,
}

impl Model for EarlyWords {
    ghost use Rattle.loss_words.specs.PipeWordsView.{PipeWordsView};

    ghost Value = { PipeWordsView };

    ghost view = { λ w. record { seed = w.seed; pipe = w.pipe } };

    ghost use Rattle.std.specs.Prelude.{◌≡◌, ◌+◌, ◌^◌};
    ghost use Rattle.loss_words.specs.Word.{key_of_seed};

    ghost invariant = { λ w. (w.generator.key ≡ key_of_seed w.seed) × (w.generator.stream ≡ 2 ^ 32 + w.pipe) };
}

impl EarlyWords {
    /// The early words of a pipe. Takes no memory.
    pub fn new(seed: u64, pipe: u32) -> EarlyWords
        ensures { result ≡ record { seed = seed; pipe = pipe } }
    {
        let mut generator = generator_of(seed);
        generator.set_stream(EARLY_STREAMS + u64::from(pipe));
        EarlyWords {
            seed,
            pipe,
            generator,
        }
    }

    /// The word at a place, whatever was asked before.
    #[tactic(auto, unfolding(crate::specs::Word::early_word))]
    pub fn word(&mut self, place: u32) -> u32
        ensures word { result ≡ early_word self.old.seed self.old.pipe place }
        ensures same { self.new ≡ self.old }
    {
        go_to(&mut self.generator, u128::from(place));
        self.generator.next_word()
    }
}
