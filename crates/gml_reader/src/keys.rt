ghost use Rattle.std.specs.Prelude.{◌≡◌, length};
ghost use Rattle.topo.specs.Keys.{key_name};
ghost use Rattle.gml_reader.specs.Grammar.{Pairs, spelled};
ghost use Rattle.gml_reader.specs.Values.{pairs, number_in, value_at};
ghost use Rattle.gml_reader.specs.Values as tree;
ghost use Rattle.gml_reader.specs.Walk.{IsListIn, IsValueOf, IsFound};
ghost use Rattle.gml_reader.specs.ReadKeys.{IsRequired, IsOptional, IsAddress};

use crate::bytes::{address_of, bytes_of, content_of, is_named, small_number, without_plus};
use crate::faults::{GmlFault, Item};
use crate::walk::{FirstPair, ValueTokens};
use gml_lex::{Token, TokenKind};
use topo::Key;

/// The value of the first pair with a key.
pub(crate) fn value_at<'t>(text: &[u8], tokens: &'t [Token], name: &[u8]) -> Option<ValueTokens<'t>>
    ensures { (t : Pairs) → IsListIn (length text.now) t → tokens.now ≡ spelled t
        → IsFound (length text.now) (value_at text.now name.now (pairs t)) result }
{
    let mut rest = tokens;
    while let Some(pair) = FirstPair::of(rest) {
        if is_named(text, pair.key, name) {
            return Some(pair.value);
        }
        rest = pair.rest;
    }
    None
}

/// The number that a value writes, if it does.
#[tactic(auto, unfolding(crate::specs::Values::number_in))]
pub(crate) fn number_in(text: &[u8], value: ValueTokens) -> Option<u64>
    ensures { (v : tree.ValueTree) → IsValueOf (length text.now) v value.entry
        → result ≡ number_in text.now v }
{
    let ValueTokens::Leaf(token) = value else {
        return None;
    };
    match token.kind {
        TokenKind::Integer => small_number(without_plus(bytes_of(text, token))),
        TokenKind::Text => small_number(content_of(text, token)),
        _ => None,
    }
}

/// The number of a key that has to be there.
pub(crate) fn required(text: &[u8], tokens: &[Token], item: Item, key: Key) -> Result<u64, GmlFault>
    ensures { (t : Pairs) → IsListIn (length text.now) t → tokens.now ≡ spelled t
        → IsRequired text.now item key (value_at text.now (key_name key) (pairs t)) result }
{
    let Some(value) = value_at(text, tokens, key.name().as_bytes()) else {
        return Err(GmlFault::Missing { item, key });
    };
    number_in(text, value).ok_or(GmlFault::Kind { item, key })
}

/// The number of a key that may be there.
pub(crate) fn optional(
    text: &[u8],
    tokens: &[Token],
    item: Item,
    key: Key,
    default: u64,
) -> Result<u64, GmlFault>
    ensures { (t : Pairs) → IsListIn (length text.now) t → tokens.now ≡ spelled t
        → IsOptional text.now item key default (value_at text.now (key_name key) (pairs t)) result }
{
    let Some(value) = value_at(text, tokens, key.name().as_bytes()) else {
        return Ok(default);
    };
    number_in(text, value).ok_or(GmlFault::Kind { item, key })
}

/// The address of a node, if it has one.
pub(crate) fn address(text: &[u8], tokens: &[Token], node: u32) -> Result<Option<u32>, GmlFault>
    ensures { (t : Pairs) → IsListIn (length text.now) t → tokens.now ≡ spelled t
        → IsAddress text.now node (value_at text.now (key_name Key.Address) (pairs t)) result }
{
    let Some(value) = value_at(text, tokens, Key::Address.name().as_bytes()) else {
        return Ok(None);
    };
    match value {
        ValueTokens::Leaf(token) if token.kind == TokenKind::Text => {
            let Some(address) = address_of(content_of(text, token)) else {
                return Err(GmlFault::BadAddress { node });
            };
            Ok(Some(address))
        }
        _ => Err(GmlFault::Kind {
            item: Item::Node(node),
            key: Key::Address,
        }),
    }
}
