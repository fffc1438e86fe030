ghost use Rattle.std.specs.Prelude.{◌≡◌, ◌&&◌, not, option_copied, is_some, bytes_eq, Some, None};
ghost use Rattle.std.specs.List.{list_any, list_all};
ghost use Rattle.mn_words.specs.Items.{items_of, is_cut};
ghost use Rattle.mn_words.specs.Form.{value_of, takes, fits_before, fit, has_needed, has_bare, has_form};

use crate::rest::{Item, Rest};
use std::marker::Model;

/// The form of a command: the names of the options that are required, those of the options that may stand, too, and whether
/// there are PIPEs or MOVEs.
#[derive(Drop)]
pub struct Form {
    pub needs: &'static [&'static str],
    pub may_have: &'static [&'static str],
    pub takes_bare: bool,
}

impl Model for Form {
    ghost use Rattle.std.specs.Prelude.{map};
    ghost use Rattle.mn_words.specs.Form.{Form};

    ghost Value = { Form };

    ghost view = { λ form. record {
      needs = map (λ name. name.now) form.needs.now;
      may_have = map (λ name. name.now) form.may_have.now;
      takes_bare = form.takes_bare;
    } };
}

impl Form {
    /// Whether words are of this form.
    #[tactic(auto, unfolding(crate::specs::Form::has_form))]
    pub fn has_form(&self, words: Rest) -> bool
        ensures { result ≡ has_form self.now words.entry }
    {
        self.fit(words.again()) && self.has_needed(words.again()) && self.has_bare(words)
    }

    /// Whether no value is missing at the end, each item is one of the form, and no option stands twice.
    fn fit(&self, words: Rest) -> bool
        ensures { result ≡ (not (is_cut words.entry) && fit self.now (items_of words.entry)) }
    {
        let mut rest = words;
        'items: loop {
            let Ok(next) = rest.next_item() else {
                return false;
            };
            let Some(item) = next else {
                return true;
            };
            if !self.fits(&item, rest.again()) {
                return false;
            }
        }
    }

    /// Whether the form has such an item, and no option of its name stands in the words after it.
    fn fits(&self, item: &Item, after: Rest) -> bool
        ensures { result ≡ fits_before self.now item.now (items_of after.entry) }
    {
        match item.name {
            None => self.takes_bare,
            Some(name) => self.takes_option(name) && !has_option(after, name),
        }
    }

    /// Whether the form has an option of this name.
    fn takes_option(&self, name: &str) -> bool
        ensures { result ≡ takes self.now (Some name.now) }
    {
        let is_needed = has_name(name, self.needs);
        let is_optional = has_name(name, self.may_have);
        is_needed || is_optional
    }

    /// Whether no required option is missing.
    fn has_needed(&self, words: Rest) -> bool
        ensures { result ≡ has_needed self.now (items_of words.entry) }
    {
        has_options(words, self.needs)
    }

    /// Whether a PIPE or MOVE stands where the form has them.
    #[tactic(auto, unfolding(crate::specs::Form::has_bare))]
    fn has_bare(&self, mut words: Rest) -> bool
        ensures { result ≡ has_bare self.now (items_of words.entry) }
    {
        !self.takes_bare || words.next_bare().is_some()
    }
}

/// Whether this name is among those.
fn has_name(name: &str, names: &[&str]) -> bool
    ensures { result ≡ list_any (λ other. bytes_eq name.now other.now) names.now }
{
    names.iter().any(|other| name == *other)
}

/// Whether an option of each of these names stands.
fn has_options(words: Rest, names: &[&str]) -> bool
    ensures { result ≡ list_all (λ name. is_some (value_of name.now (items_of words.entry))) names.now }
{
    names.iter().all(|name| has_option(words.again(), name))
}

/// Whether an option of this name stands.
fn has_option(words: Rest, name: &str) -> bool
    ensures { result ≡ is_some (value_of name.now (items_of words.entry)) }
{
    value_of(words, name).is_some()
}

/// The value of the first option of this name.
pub fn value_of<'w>(words: Rest<'_, 'w>, name: &str) -> Option<&'w str>
    ensures { option_copied result ≡ value_of name.now (items_of words.entry) }
{
    let mut rest = words;
    'items: loop {
        let Ok(next) = rest.next_item() else {
            return None;
        };
        let Some(item) = next else {
            return None;
        };
        if item.has_this_name(name) {
            return Some(item.value);
        }
    }
}
