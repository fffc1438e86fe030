ghost use Rattle.std.specs.Prelude.{◌≡◌, ◌⊎◌, ◌<◌, ◌≤◌, length, map, All, IsSomeAnd, IfOk, IfErr, IfSome, IfNone};
ghost use Rattle.std.specs.List.Sorted.{IsNonDecreasingBy};
ghost use Rattle.mn_base.specs.declared.limits.TheConstants.{MOVES_MAX};
ghost use Rattle.pcap_io.specs.Writing.{pcap_text};
ghost use Rattle.mn_words.specs.Order.{IsMigrateOrder};
ghost use Rattle.modelnet.specs.declared.status.Status.TheVariants as answer;
ghost use Rattle.modelnet.specs.Moving.{move_of, IsFirstBadMove, RefusesMoves, TellsMoves, IsMovedRun};
ghost use Rattle.modelnet.specs.Running.{IsRunnable, IsRunOf};

use crate::run_outputs::Texts;
use crate::running::outcome_texts;
use crate::status::Status;
use core_loop::stock;
use migrate::{Move, run_moves};
use mn_base::NoMemory;
use mn_words::{MigrateOrder, MoveSpec};
use plan::Planned;
use report::print_moves;
use std::alloc::Global;

/// What a run of a plan writes while pipes move, or the first move that names no pipe of the plan.
pub fn moved_texts(alloc: Global, order: &MigrateOrder, planned: Planned) -> Result<Texts, Status>
    requires order { IsMigrateOrder order.now }
    requires cores { planned.setup.cores ≡ order.now.cores }
    requires runnable { IsRunnable planned }
    ensures run { IfOk result (λ texts.
        IsSomeAnd texts.screen (λ screen. IsMovedRun order.now planned (pcap_text texts.out) texts.report screen)) }
    ensures refusal { IfErr result (λ status. (status ≡ answer.NoMemory) ⊎ RefusesMoves order.now.moves (length planned.setup.pipes) status) }
{
    let pipes = planned.setup.parts().pipes.len();
    if let Some(number) = first_bad_move(&order.moves, pipes) {
        return Err(Status::BadMove(number));
    }
    let Ok(texts) = run_moved(alloc, &order.moves, planned) else {
        return Err(Status::NoMemory);
    };
    Ok(texts)
}

/// The number, from 0, of the first move whose pipe isn't one of so many.
fn first_bad_move(moves: &[MoveSpec], pipes: usize) -> Option<u32>
    requires { length moves.now ≤ MOVES_MAX }
    ensures bad { IfSome result (IsFirstBadMove moves.now pipes) }
    ensures good { IfNone result (All (λ m. m.pipe < pipes) moves.now) }
{
    for (number, word) in moves.iter().enumerate() {
        if word.pipe as usize >= pipes {
            return Some(number as u32);
        }
    }
    None
}

/// Runs a plan while pipes move. Each move names a pipe and a core, and its window isn't below that of the move before.
fn run_moved(alloc: Global, moves: &[MoveSpec], planned: Planned) -> Result<Texts, NoMemory>
    requires runnable { IsRunnable planned }
    requires windows { IsNonDecreasingBy (λ m. m.window) moves.now }
    requires pipes { All (λ m. m.pipe < length planned.setup.pipes) moves.now }
    requires cores { All (λ m. m.core < planned.setup.cores) moves.now }
    ensures run { IfOk result (λ texts. IsRunOf planned (pcap_text texts.out) texts.report) }
    ensures moves { IfOk result (λ texts. IsSomeAnd texts.screen (TellsMoves planned.setup moves.now)) }
{
    let Planned {
        setup,
        bytes,
        unbounds,
    } = planned;
    let moves = moves_of(alloc, moves)?;
    let stores = stock(alloc, &setup, bytes)?;
    let ran = run_moves(alloc, &setup, stores, &moves)?;
    let screen = print_moves(alloc, ran.windows, ran.moved, &ran.visits)?;
    let texts = outcome_texts(alloc, &setup, &unbounds, ran.outcome, Some(screen))?;
    Ok(texts)
}

/// The moves of these words.
fn moves_of(alloc: Global, words: &[MoveSpec]) -> Result<Vec<Move>, NoMemory>
    ensures { IfOk result (λ moves. moves.items ≡ map move_of words.now) }
{
    let moves = words
        .iter()
        .map(|word| Move {
            window: word.window,
            pipe: word.pipe,
            core: word.core,
        })
        .collect(alloc)?;
    Ok(moves)
}
