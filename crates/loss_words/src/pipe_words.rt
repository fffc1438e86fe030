ghost use Rattle.std.specs.Prelude.{◌≡◌, ◌^◌, ◌<◌};
ghost use Rattle.loss_words.specs.Word.{loss_word};

use crate::words::generator_of;
use rand_chacha::ChaCha8Rng;
use rand_core::utils::NextWord;
use std::marker::Model;

/// The words that the generator computes at once: four blocks of sixteen.
const WORDS_AT_ONCE: u128 = 64;

/// The loss words of one pipe, with those in hand that were computed last.
///
/// Where places rise by steps that are small beside the 64 words that are computed at once, a block serves as many visits as
/// it has such places: sixteen visits at consecutive places cost one block. It holds some 320 bytes.
#[derive(Drop)]
pub struct PipeWords {
    seed: u64,
    pipe: u32,
    generator: ChaCha8Rng,
}

impl Model for PipeWords {
    ghost use Rattle.loss_words.specs.PipeWordsView.{PipeWordsView};

    ghost Value = { PipeWordsView };

    ghost view = { λ w. record { seed = w.seed; pipe = w.pipe } };

    ghost use Rattle.std.specs.Prelude.{◌≡◌};
    ghost use Rattle.loss_words.specs.Word.{key_of_seed};

    ghost invariant = { λ w. (w.generator.key ≡ key_of_seed w.seed) × (w.generator.stream ≡ w.pipe) };
}

impl PipeWords {
    /// The words of a pipe. Takes no memory.
    pub fn new(seed: u64, pipe: u32) -> PipeWords
        ensures { result ≡ record { seed = seed; pipe = pipe } }
    {
        let mut generator = generator_of(seed);
        generator.set_stream(u64::from(pipe));
        PipeWords {
            seed,
            pipe,
            generator,
        }
    }

    /// The word at a place, whatever was asked before.
    #[tactic(auto, unfolding(crate::specs::Word::loss_word))]
    pub fn word(&mut self, place: u32) -> u32
        ensures word { result ≡ loss_word self.old.seed self.old.pipe place }
        ensures same { self.new ≡ self.old }
    {
        go_to(&mut self.generator, u128::from(place));
        self.generator.next_word()
    }
}

/// Brings the generator to a place of its stream: past words in hand where the place is near, and else anew.
pub(crate) fn go_to(generator: &mut ChaCha8Rng, place: u128)
    requires { place < 2 ^ 32 }
    ensures { generator.new ≡ record generator.old { word_pos = place } }
{
    let next = generator.get_word_pos();
    if place < next || next + WORDS_AT_ONCE <= place {
        generator.set_word_pos(place);
        return;
    }
    for _ in next..place {
        let _ = generator.next_word();
    }
}
