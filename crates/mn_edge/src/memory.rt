// A host in memory, whose failures are chosen.
ghost use Rattle.std.specs.Prelude.{◌≡◌, ◌≢◌, ◌<◌, ◌≤◌, ◌↔◌, ◌⊎◌, ◌-◌, true, false, if◌then◌else◌, length, min, take, IsErr, IfOk, MatchResult};
ghost use Rattle.std.specs.Io.KnownBytes.{IsAtEnd};
ghost use Rattle.mn_edge.specs.declared.role.Role.{Role};
ghost use Rattle.mn_edge.specs.Part.{Part, Fails, Begins, Takes, Adds, Finishes};
ghost use Rattle.mn_edge.specs.Role.{is_input};
ghost use Rattle.mn_edge.specs.MemoryHostView.{MemoryHostView, stream_of, given_bytes, NamesNext, read_size, write_size, Touches};
ghost use Rattle.mn_edge.specs.StreamView.{told_part, unused_stream, IsFull, after_begin, after_read, after_write, after_finish};

use crate::fail::{Fail, Op, is_named};
use crate::host::{Failed, Host};
use crate::role::Role;
use crate::stream::{NAME_MAX, Stream};
use mn_base::NoMemory;
use std::alloc::Global;
use std::marker::Model;

/// A host in memory. It tells all its bytes, and a call fails exactly where the list names it, where a name has more
/// than 4,096 bytes, or where a role has no room for a byte that is to be written.
///
/// Topology, Trace, Directory and Journal have bytes to read and no room; the other roles have room and nothing to read.
/// It takes all its memory when it is made and when it is given a journal.
#[derive(Drop)]
pub struct MemoryHost {
    fails: Vec<Fail>,
    piece: usize,
    streams: [Stream; Role::COUNT],
}

impl Model for MemoryHost {
    ghost use Rattle.std.specs.Prelude.{◌≤◌};
    ghost use Rattle.mn_edge.specs.MemoryHostView.{MemoryHostView};

    ghost Value = { MemoryHostView };

    ghost view = { λ m. record { fails = m.fails.items; piece = m.piece; streams = m.streams } };

    ghost invariant = { λ m. 1 ≤ m.piece };
}

impl MemoryHost {
    /// A host that has these bytes to read, and room for `room` written bytes of each of Out, Report and Screen. One call
    /// moves at most `piece` bytes. The calls that `fails` names will fail.
    pub fn new(
        alloc: Global,
        topology: &[u8],
        trace: &[u8],
        directory: &[u8],
        fails: &[Fail],
        piece: usize,
        room: usize,
    ) -> Result<MemoryHost, NoMemory>
        requires { 1 ≤ piece }
        ensures roles { IfOk result (λ host. (role : Role) →
            stream_of host role
            ≡ unused_stream (given_bytes topology.now trace.now directory.now role) (if is_input role then 0 else room)) }
        ensures inactive { IfOk result (λ host. (role : Role) → (stream_of host role).active ≡ false) }
        ensures fails { IfOk result (λ host. host.fails ≡ fails.now) }
        ensures piece { IfOk result (λ host. host.piece ≡ piece) }
    {
        let fails = Vec::from_slice(alloc, fails)?;
        let topology = Stream::new(alloc, topology, 0)?;
        let trace = Stream::new(alloc, trace, 0)?;
        let directory = Stream::new(alloc, directory, 0)?;
        let journal = Stream::new(alloc, &[], 0)?;
        let out = Stream::new(alloc, &[], room)?;
        let report = Stream::new(alloc, &[], room)?;
        let screen = Stream::new(alloc, &[], room)?;
        Ok(MemoryHost {
            fails,
            piece,
            streams: [topology, trace, directory, journal, out, report, screen],
        })
    }

    /// The host with these bytes to read of Journal, which has none otherwise. All else of it is as it was.
    pub fn with_journal(mut self, alloc: Global, journal: &[u8]) -> Result<MemoryHost, NoMemory>
        ensures own { IfOk result (λ host. stream_of host Role.Journal ≡ record (stream_of self Role.Journal) { left = journal.now }) }
        ensures touched { IfOk result (λ host. Touches Role.Journal self host) }
    {
        let stream = &mut self.streams[Role::Journal.index()];
        stream.refill(alloc, journal)?;
        Ok(self)
    }

    /// The bytes that were written to a role.
    pub fn written_bytes(&self, role: Role) -> &[u8]
        ensures lent { result.now ≡ (stream_of self.now role).written }
    {
        self.streams[role.index()].written()
    }
}

impl Host for MemoryHost {
    ghost use Rattle.mn_edge.specs.MemoryHostView.{stream_of};
    ghost use Rattle.mn_edge.specs.StreamView.{told_part};

    ghost part = { λ host role. told_part (stream_of host role) };

    fn begin(&mut self, role: Role, name: &str) -> Result<(), Failed>
        requires { (told_part (stream_of self.old role)).active ≡ false }
        ensures own { MatchResult result
            (λ _. Begins name.now (told_part (stream_of self.old role)) (told_part (stream_of self.new role)))
            (λ _. Fails (told_part (stream_of self.old role)) (told_part (stream_of self.new role))) }
        ensures others { (other : Role) → other ≢ role → told_part (stream_of self.new other) ≡ told_part (stream_of self.old other) }
        ensures exact { IsErr result ↔ (NamesNext self.old role Op.Begin ⊎ NAME_MAX < length name.now) }
        ensures after { stream_of self.new role ≡ after_begin name.now (stream_of self.old role) result }
        ensures touched { Touches role self.old self.new }
    {
        let stream = &mut self.streams[role.index()];
        let named = is_named(&self.fails, role, Op::Begin, stream.begins());
        stream.begin(named, name)
    }

    fn read(&mut self, role: Role, buffer: &mut [u8]) -> Result<usize, Failed>
        requires active { (told_part (stream_of self.old role)).active ≡ true }
        requires room { 0 < length buffer.old }
        ensures within { IfOk result (λ n. n ≤ length buffer.new) }
        ensures own { MatchResult result
            (λ n. Takes (take n buffer.new) (told_part (stream_of self.old role)) (told_part (stream_of self.new role)))
            (λ _. Fails (told_part (stream_of self.old role)) (told_part (stream_of self.new role))) }
        ensures end { IfOk result (λ n. n ≡ 0 → IsAtEnd (told_part (stream_of self.new role)).left) }
        ensures others { (other : Role) → other ≢ role → told_part (stream_of self.new other) ≡ told_part (stream_of self.old other) }
        ensures exact { IsErr result ↔ NamesNext self.old role Op.Read }
        ensures size { IfOk result (λ n. n ≡ read_size self.old role (length buffer.old)) }
        ensures after { stream_of self.new role ≡ after_read (stream_of self.old role) result }
        ensures touched { Touches role self.old self.new }
    {
        let stream = &mut self.streams[role.index()];
        let named = is_named(&self.fails, role, Op::Read, stream.reads());
        stream.read(named, self.piece, buffer)
    }

    fn write(&mut self, role: Role, piece: &[u8]) -> Result<usize, Failed>
        requires active { (told_part (stream_of self.old role)).active ≡ true }
        requires some { 0 < length piece.now }
        ensures within { IfOk result (λ n. (1 ≤ n) × (n ≤ length piece.now)) }
        ensures own { MatchResult result
            (λ n. Adds (take n piece.now) (told_part (stream_of self.old role)) (told_part (stream_of self.new role)))
            (λ _. Fails (told_part (stream_of self.old role)) (told_part (stream_of self.new role))) }
        ensures others { (other : Role) → other ≢ role → told_part (stream_of self.new other) ≡ told_part (stream_of self.old other) }
        ensures exact { IsErr result ↔ (NamesNext self.old role Op.Write ⊎ IsFull (stream_of self.old role)) }
        ensures size { IfOk result (λ n. n ≡ write_size self.old role (length piece.now)) }
        ensures after { stream_of self.new role ≡ after_write piece.now (stream_of self.old role) result }
        ensures touched { Touches role self.old self.new }
    {
        let stream = &mut self.streams[role.index()];
        let named = is_named(&self.fails, role, Op::Write, stream.writes());
        stream.write(named, self.piece, piece)
    }

    fn finish(&mut self, role: Role) -> Result<(), Failed>
        requires { (told_part (stream_of self.old role)).active ≡ true }
        ensures own { MatchResult result
            (λ _. Finishes (told_part (stream_of self.old role)) (told_part (stream_of self.new role)))
            (λ _. Fails (told_part (stream_of self.old role)) (told_part (stream_of self.new role))) }
        ensures others { (other : Role) → other ≢ role → told_part (stream_of self.new other) ≡ told_part (stream_of self.old other) }
        ensures exact { IsErr result ↔ NamesNext self.old role Op.Finish }
        ensures after { stream_of self.new role ≡ after_finish (stream_of self.old role) result }
        ensures touched { Touches role self.old self.new }
    {
        let stream = &mut self.streams[role.index()];
        let named = is_named(&self.fails, role, Op::Finish, stream.finishes());
        stream.finish(named)
    }
}
