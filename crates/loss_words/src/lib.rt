//! The numbered words by which packets are lost: one for each seed, pipe and place.
//! It depends on the kit's rand_chacha, called through the traits of rand_core.
//! Its contracts speak of `loss_word` and `early_word` (specs/Word.antt).
#![tactic(auto)]

mod early_words;
mod pipe_words;
mod words;

pub use early_words::EarlyWords;
pub use pipe_words::PipeWords;
pub use words::Words;

#[cfg(test)]
mod tests;
