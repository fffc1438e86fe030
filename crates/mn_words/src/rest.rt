ghost use Rattle.std.specs.Prelude.{◌≡◌, [], ◌∷◌, ◌<◌, length, map, MatchOption};
ghost use Rattle.mn_words.specs.Items.{TakesFirstItem, items_of};
ghost use Rattle.mn_words.specs.Form.{bare_words};

use std::marker::Model;

/// The words of a command line that are still to be read, which contracts see as a list of texts.
#[derive(Drop)]
pub struct Rest<'a, 'w> {
    words: &'a [&'w str],
}

/// An option with its value, or a bare word, which has no name.
#[derive(Drop)]
pub struct Item<'w> {
    pub name: Option<&'w str>,
    pub value: &'w str,
}

/// The last word is an option without a value.
#[derive(Clone, Copy, Debug, PartialEq, Eq)]
pub struct Cut;

impl<'a, 'w> Model for Rest<'a, 'w> {
    ghost use Rattle.std.specs.Prelude.{List, ℕ, map};

    ghost Value = { List (List ℕ) };

    ghost view = { λ rest. map (λ word. word.now) rest.words.now };
}

impl<'w> Model for Item<'w> {
    ghost use Rattle.std.specs.Prelude.{option_copied};
    ghost use Rattle.mn_words.specs.Items.{Item};

    ghost Value = { Item };

    ghost view = { λ item. record { name = option_copied item.name; value = item.value.now } };
}

impl<'w> Item<'w> {
    ghost use Rattle.mn_words.specs.Form.{has_this_name};

    /// Whether this is an option of that name.
    #[tactic(auto, unfolding(crate::specs::Form::has_this_name))]
    pub fn has_this_name(&self, name: &str) -> bool
        ensures { result ≡ has_this_name name.now self.now.name }
    {
        match self.name {
            Some(other) => other == name,
            None => false,
        }
    }
}

impl<'a, 'w> Rest<'a, 'w> {
    /// All words are still to be read.
    pub fn of(words: &'a [&'w str]) -> Rest<'a, 'w>
        ensures { result ≡ map (λ word. word.now) words.now }
    {
        Rest { words }
    }

    /// The same words.
    pub fn again(&self) -> Rest<'a, 'w>
        ensures { result ≡ self.now }
    {
        Rest { words: self.words }
    }

    /// Takes the first word. None where no word is left.
    pub fn next(&mut self) -> Option<&'w str>
        ensures { MatchOption result ((self.old ≡ []) × (self.new ≡ [])) (λ word. self.old ≡ word.now ∷ self.new) }
    {
        let (first, words) = self.words.split_first()?;
        *self = Rest { words };
        Some(*first)
    }

    /// Takes the first item: an option with its value, in one word or in two, or a bare word. None where no word is left.
    pub fn next_item(&mut self) -> Result<Option<Item<'w>>, Cut>
        ensures { TakesFirstItem self.old self.new result }
    {
        let Some(word) = self.next() else {
            return Ok(None);
        };
        if !word.as_bytes().starts_with(b"--") {
            return Ok(Some(Item {
                name: None,
                value: word,
            }));
        }
        if let Some((name, value)) = word.split_once('=') {
            return Ok(Some(Item {
                name: Some(name),
                value,
            }));
        }
        let Some(value) = self.next() else {
            return Err(Cut);
        };
        Ok(Some(Item {
            name: Some(word),
            value,
        }))
    }

    /// Takes the items up to the first bare word and that word, which it gives. None where no bare word is left.
    pub fn next_bare(&mut self) -> Option<&'w str>
        ensures { MatchOption result (bare_words (items_of self.old) ≡ [])
            (λ word. (bare_words (items_of self.old) ≡ word.now ∷ bare_words (items_of self.new)) × (length self.new < length self.old)) }
    {
        'items: loop {
            let Ok(next) = self.next_item() else {
                return None;
            };
            let Some(item) = next else {
                return None;
            };
            if item.name.is_none() {
                return Some(item.value);
            }
        }
    }
}
