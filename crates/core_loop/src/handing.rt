//! What comes of notes: what a core takes in, and what it hands out between two windows.

ghost use Rattle.std.specs.Prelude.{◌≡◌, ◌≢◌, ℕ, ◌+◌, ◌-◌, ◌^◌, ◌<◌, [], List, length, map, filter, slice_index_or, All, AllPairs, IfOk, OnOk, OnErr};
ghost use Rattle.parcel.specs.Parcels.{note_packet};
ghost use Rattle.core_loop.specs.WorldState.{CoreStands};
ghost use Rattle.core_loop.specs.Trading.{IsLeastBy};
ghost use Rattle.core_loop.specs.Handing.{TakesNote, TakesNotes, CanTake, CanTakeAll, SameButHeap, earlier_of, is_told_arrival, is_told_settle, IsToldTick, notes_for, sent_with, IsToHandOut, IsToSettle, parts_view, SameWindows, SameNumbers, AreHanded};

use crate::entrants::Entrants;
use crate::peer::Peer;
use crate::told::Told;
use crate::work::Work;
use mn_base::{Due, NoMemory};
use parcel::{Note, Parcel};
use std::alloc::Global;
use std::mem;

/// Takes in a note for this core: what arrives is due, and what is settled is settled.
fn take_note(work: &mut Work, entrants: &mut Entrants, note: Note) -> Result<(), NoMemory>
    requires { CanTake note work.old.heap entrants.old }
    ensures taken { OnOk result (TakesNote note work.old.heap entrants.old work.new.heap entrants.new) }
    ensures same { SameButHeap work.old work.new }
{
    match note {
        Note::Arrive { packet, hop, tick } => work.insert(Due { tick, packet, hop }),
        Note::Settle { packet, fate } => {
            entrants.settle(packet, fate);
            Ok(())
        }
    }
}

/// Takes in notes for this core, in turn.
pub(crate) fn take_notes(
    work: &mut Work,
    entrants: &mut Entrants,
    notes: &[Note],
) -> Result<(), NoMemory>
    requires { CanTakeAll notes.now work.old.heap entrants.old }
    ensures taken { OnOk result (TakesNotes notes.now work.old.heap entrants.old work.new.heap entrants.new) }
    ensures same { SameButHeap work.old work.new }
{
    for note in notes {
        take_note(work, entrants, *note)?;
    }
    Ok(())
}

/// Hands out what is told: settles what is for this core, and makes the parcels of the round for the others.
pub(crate) fn hand_out(
    alloc: Global,
    work: &mut Work,
    entrants: &mut Entrants,
    peers: &mut Vec<Peer>,
) -> Result<(), NoMemory>
    requires ready { IsToHandOut work.old peers.old.items }
    requires settled { (bytes : List (List ℕ)) × IsToSettle bytes work.old entrants.old }
    ensures stands { OnOk result ((bytes : List (List ℕ)) → IsToSettle bytes work.old entrants.old
        → CoreStands bytes (parts_view work.new entrants.new peers.new.items)) }
    ensures none_told { OnOk result (work.new.told ≡ []) }
    ensures same { SameWindows work.old work.new }
    ensures numbers { SameNumbers peers.old.items peers.new.items }
{
    let number = work.number();
    let told = work.take_told(alloc);
    let mut notes = sort_out(alloc, peers.len(), &told)?;
    let sent = sum_up(&told, number);
    work.reuse(told);
    work.count_sent(sent.arrivals, sent.settles);
    let least = earlier(work.least(), sent.least);
    let own = mem::replace(&mut notes[number as usize], Vec::new(alloc));
    take_notes(work, entrants, &own)?;
    make_parcels(alloc, peers, number, notes, least);
    Ok(())
}

/// The notes for each core, a list for each.
fn sort_out(alloc: Global, cores: usize, told: &[Told]) -> Result<Vec<Vec<Note>>, NoMemory>
    requires { All (λ t. t.receiver < cores) told.now }
    ensures count { IfOk result (λ lists. length lists.items ≡ cores) }
    ensures each { IfOk result (λ lists. (core : ℕ) → core < cores
        → slice_index_or (map (λ list. list.items) lists.items) core [] ≡ notes_for told.now core) }
{
    let mut notes = no_notes(alloc, cores)?;
    for each in told {
        notes[each.receiver as usize].push(each.note)?;
    }
    Ok(notes)
}

/// A list without a note for each core.
fn no_notes(alloc: Global, cores: usize) -> Result<Vec<Vec<Note>>, NoMemory>
    ensures count { IfOk result (λ lists. length lists.items ≡ cores) }
    ensures empty { IfOk result (λ lists. (core : ℕ) → slice_index_or (map (λ list. list.items) lists.items) core [] ≡ []) }
{
    let mut notes = Vec::with_capacity(alloc, cores)?;
    for _core in 0..cores {
        notes.push(Vec::new(alloc))?;
    }
    Ok(notes)
}

/// What notes to other cores come to.
#[derive(Clone, Copy)]
pub(crate) struct Sent {
    pub arrivals: u64,
    pub settles: u64,
    /// The least tick of a visit of which they tell.
    pub least: Option<u64>,
}

impl Sent {
    /// The same with one more note.
    fn and(self, note: Note) -> Sent
        requires arrivals { self.arrivals < 2 ^ 64 - 1 }
        requires settles { self.settles < 2 ^ 64 - 1 }
        ensures { result ≡ sent_with self note }
    {
        let mut sent = self;
        match note {
            Note::Arrive { tick, .. } => {
                sent.arrivals += 1;
                sent.least = earlier(sent.least, Some(tick));
            }
            Note::Settle { .. } => sent.settles += 1,
        }
        sent
    }
}

/// What the notes to other cores come to.
fn sum_up(told: &[Told], number: u32) -> Sent
    ensures arrivals { result.arrivals ≡ length (filter (is_told_arrival number) told.now) }
    ensures settles { result.settles ≡ length (filter (is_told_settle number) told.now) }
    ensures least { IsLeastBy (IsToldTick number told.now) result.least }
{
    let mut sent = Sent {
        arrivals: 0,
        settles: 0,
        least: None,
    };
    for each in told {
        if each.receiver != number {
            sent = sent.and(each.note);
        }
    }
    sent
}

/// Makes the parcels of the round of these notes, a list for each core.
fn make_parcels(
    alloc: Global,
    peers: &mut Vec<Peer>,
    number: u32,
    notes: Vec<Vec<Note>>,
    least: Option<u64>,
)
    requires count { length notes.items ≡ length peers.old.items }
    requires apart { (other : ℕ) → other < length peers.old.items → other ≢ number
        → AllPairs (λ a b. a ≢ b) (map note_packet (slice_index_or (map (λ list. list.items) notes.items) other [])) }
    ensures { AreHanded number (map (λ list. list.items) notes.items) least peers.old.items peers.new.items }
{
    let mut notes = notes;
    for other in 0..peers.len() {
        let list = mem::replace(&mut notes[other], Vec::new(alloc));
        if other == number as usize {
            peers[other].least = least;
        } else {
            peers[other].owed = Some(Parcel::in_order(list, least));
        }
    }
}

/// The earlier of two ticks, of which each may be none.
pub(crate) fn earlier(a: Option<u64>, b: Option<u64>) -> Option<u64>
    ensures { result ≡ earlier_of a b }
{
    match (a, b) {
        (Some(a), Some(b)) => Some(a.min(b)),
        (Some(a), None) => Some(a),
        (None, b) => b,
    }
}
