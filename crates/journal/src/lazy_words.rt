ghost use Rattle.std.specs.Prelude.{◌≡◌, IfOk};
ghost use Rattle.loss_words.specs.Word.{loss_word};

use loss_words::PipeWords;
use mn_base::NoMemory;
use std::alloc::Global;
use std::marker::Model;

/// The loss words of a pipe. They take no memory until the first is asked for.
#[derive(Drop)]
pub(crate) struct LazyWords {
    seed: u64,
    pipe: u32,
    words: Option<Box<PipeWords>>,
}

impl Model for LazyWords {
    ghost use Rattle.loss_words.specs.PipeWordsView.{PipeWordsView};

    ghost Value = { PipeWordsView };

    ghost view = { λ w. record { seed = w.seed; pipe = w.pipe } };

    ghost use Rattle.journal.specs.LazyWords.{AreOfPipe};

    ghost invariant = { AreOfPipe };
}

impl LazyWords {
    pub(crate) fn new(seed: u64, pipe: u32) -> LazyWords
        ensures { result ≡ record { seed = seed; pipe = pipe } }
    {
        LazyWords {
            seed,
            pipe,
            words: None,
        }
    }

    /// The word at a place, whatever was asked before.
    pub(crate) fn word(&mut self, alloc: Global, place: u32) -> Result<u32, NoMemory>
        ensures word { IfOk result (λ word. word ≡ loss_word self.old.seed self.old.pipe place) }
        ensures same { self.new ≡ self.old }
    {
        if let Some(words) = &mut self.words {
            return Ok(words.word(place));
        }
        let mut words = PipeWords::new(self.seed, self.pipe);
        let word = words.word(place);
        self.words = Some(Box::new(alloc, words)?);
        Ok(word)
    }
}
