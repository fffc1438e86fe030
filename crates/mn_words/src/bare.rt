ghost use Rattle.std.specs.Prelude.{◌≡◌, ◌≤◌, List, ℕ, Option, length, All, None, Some, IfOk, IfErr, IfSome};
ghost use Rattle.mn_base.specs.Refused.{IfFault};
ghost use Rattle.mn_words.specs.Form.{bare_words};
ghost use Rattle.mn_words.specs.Items.{items_of};
ghost use Rattle.mn_words.specs.Pipes.{few_of};

use crate::opt::{Opt, WordsFault};
use crate::rest::Rest;
use mn_base::Refusal;
use std::alloc::Global;

/// What a bare word says.
pub trait BareWord: Copy {
    /// What a word says, where it says something.
    ghost said: { List ℕ → Option Self };

    /// What is so of all that words say.
    ghost is_in_range: { Self → Type 0 };

    /// What a word says.
    fn said_by(word: &str) -> Option<Self>
        ensures value { result ≡ said word.now }
        ensures range { IfSome result is_in_range };
}

/// What the bare words among these words say, of which there are at most `most`.
///
/// # Errors
///
/// `Value` of this option where one of them says nothing, or there are more.
pub fn bare_in<T: BareWord>(
    alloc: Global,
    mut words: Rest,
    most: usize,
    opt: Opt,
) -> Result<Vec<T>, Refusal<WordsFault>>
    ensures said { IfOk result (λ all. few_of most T.said (bare_words (items_of words.entry)) ≡ Some all.items) }
    ensures ranges { IfOk result (λ all. All T.is_in_range all.items) }
    ensures count { IfOk result (λ all. length all.items ≡ length (bare_words (items_of words.entry))) }
    ensures most { IfOk result (λ all. length all.items ≤ most) }
    ensures fault { IfErr result (λ e. IfFault e (λ fault.
        (fault ≡ WordsFault.Value opt) × (few_of most T.said (bare_words (items_of words.entry)) ≡ None))) }
{
    let mut all = Vec::new(alloc);
    'words: while let Some(word) = words.next_bare() {
        if all.len() >= most {
            return Err(Refusal::Fault(WordsFault::Value(opt)));
        }
        let Some(one) = T::said_by(word) else {
            return Err(Refusal::Fault(WordsFault::Value(opt)));
        };
        all.push(one)?;
    }
    Ok(all)
}
