ghost use Rattle.std.specs.Prelude.{◌≡◌, ◌<◌, ◌≤◌, length, All, None, Some, IfOk, IfErr, IfSome, true};
ghost use Rattle.std.specs.List.Sorted.{IsNonDecreasingBy};
ghost use Rattle.mn_base.specs.Refused.{IfFault};
ghost use Rattle.mn_words.specs.Form.{bare_words};
ghost use Rattle.mn_words.specs.Items.{items_of};
ghost use Rattle.mn_words.specs.Moves.{can_be_made, move_spec_of, moves_of};
ghost use Rattle.mn_words.specs.Order.{IsMove};

use crate::bare::{BareWord, bare_in};
use crate::opt::{Opt, WordsFault};
use crate::order::MoveSpec;
use crate::parts::first_part;
use crate::rest::Rest;
use crate::values::number_within;
use mn_base::limits::{CORES_MAX, MOVES_MAX, PIPES_MAX};
use mn_base::{Refusal, read_u64};
use std::alloc::Global;

/// A MOVE `A:Q:C`: three plain decimals.
///
/// `9:0:1` moves pipe 0 to core 1 before window 9.
impl BareWord for MoveSpec {
    ghost use Rattle.mn_base.specs.declared.limits.TheConstants.{CORES_MAX};
    ghost use Rattle.mn_words.specs.Moves.{move_spec_of};
    ghost use Rattle.mn_words.specs.Order.{IsMove};

    ghost said = { move_spec_of };

    ghost is_in_range = { IsMove CORES_MAX };

    #[tactic(auto, unfolding(crate::specs::Moves::move_spec_of, crate::specs::Moves::move_of_parts), using(crate::proofs::ColonParts::move_counts))]
    fn said_by(word: &str) -> Option<MoveSpec>
        ensures value { result ≡ move_spec_of word.now }
        ensures range { IfSome result (IsMove CORES_MAX) }
    {
        let (window, rest) = first_part(word)?;
        let (pipe, core) = first_part(rest)?;
        if first_part(core).is_some() {
            return None;
        }
        let window = read_u64(window.as_bytes())?;
        let pipe = number_within(pipe, 0, PIPES_MAX as u64 - 1)?;
        let core = number_within(core, 0, u64::from(CORES_MAX) - 1)?;
        Some(MoveSpec {
            window,
            pipe: pipe as u32,
            core: core as u32,
        })
    }
}

/// Whether of so many cores each move names one, and no window is before that of an earlier move.
fn can_be_made(moves: &[MoveSpec], cores: u32) -> bool
    ensures { result ≡ can_be_made cores 0 moves.now }
{
    let mut left = moves;
    let mut window = 0;
    'moves: while let Some((first, others)) = left.split_first() {
        if first.window < window || first.core >= cores {
            return false;
        }
        window = first.window;
        left = others;
    }
    true
}

/// The moves of the MOVEs among these words, to so many cores.
///
/// # Errors
///
/// `Value(Move)` where a MOVE isn't three numbers in their ranges, the windows fall, or there are more than `MOVES_MAX`.
#[tactic(auto, unfolding(crate::specs::Moves::moves_of))]
pub fn moves_in(
    alloc: Global,
    words: Rest,
    cores: u32,
) -> Result<Vec<MoveSpec>, Refusal<WordsFault>>
    ensures moves { IfOk result (λ moves. moves_of cores (bare_words (items_of words.entry)) ≡ Some moves.items) }
    ensures ranges { IfOk result (λ moves. All (IsMove cores) moves.items) }
    ensures windows { IfOk result (λ moves. IsNonDecreasingBy (λ one. one.window) moves.items) }
    ensures count { IfOk result (λ moves. length moves.items ≡ length (bare_words (items_of words.entry))) }
    ensures most { IfOk result (λ moves. length moves.items ≤ MOVES_MAX) }
    ensures fault { IfErr result (λ e. IfFault e (λ fault.
        (fault ≡ WordsFault.Value Opt.Move) × (moves_of cores (bare_words (items_of words.entry)) ≡ None))) }
{
    let moves = bare_in(alloc, words, MOVES_MAX, Opt::Move)?;
    if !can_be_made(moves.as_slice(), cores) {
        return Err(Refusal::Fault(WordsFault::Value(Opt::Move)));
    }
    Ok(moves)
}
