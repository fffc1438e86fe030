// One role of a host in memory.
ghost use Rattle.std.specs.Prelude.{◌≡◌, ◌<◌, ◌≤◌, ◌↔◌, ◌⊎◌, ◌-◌, length, min, take, IsErr, IsTrue, IfOk};
ghost use Rattle.mn_edge.specs.StreamView.{unused_stream, IsFull, after_begin, after_read, after_write, after_finish};

use crate::host::Failed;
use mn_base::NoMemory;
use std::alloc::Global;
use std::marker::Model;

/// The longest name that a host in memory takes, in bytes.
pub const NAME_MAX: usize = 4_096;

/// The bytes to read with how many were taken, the bytes that were written with how many fit, the name, and the counts:
/// of faults, of begins that went well, and of the calls of each kind.
#[derive(Drop)]
pub struct Stream {
    input: Vec<u8>,
    taken: usize,
    output: Vec<u8>,
    room: usize,
    name: Vec<u8>,
    has_name: bool,
    active: bool,
    faults: u64,
    begun: u64,
    begins: u64,
    reads: u64,
    writes: u64,
    finishes: u64,
}

impl Model for Stream {
    ghost use Rattle.std.specs.Prelude.{◌≤◌, vec_len, vec_capacity, drop, if◌then◌else◌, Some, None};
    ghost use Rattle.mn_edge.specs.declared.stream.TheConstants.{NAME_MAX};
    ghost use Rattle.mn_edge.specs.StreamView.{StreamView};

    ghost Value = { StreamView };

    ghost view = { λ s. record {
      left = drop s.taken s.input.items;
      written = s.output.items;
      room = s.room;
      name = (if s.has_name then Some s.name.items else None);
      active = s.active;
      faults = s.faults;
      begins = s.begun;
      calls = record { begins = s.begins; reads = s.reads; writes = s.writes; finishes = s.finishes };
    } };

    ghost invariant = { λ s. (s.taken ≤ vec_len s.input)
        × (vec_len s.output ≤ s.room)
        × (s.room ≤ vec_capacity s.output)
        × (NAME_MAX ≤ vec_capacity s.name) };
}

impl Stream {
    /// All the memory that the role will need.
    pub fn new(alloc: Global, input: &[u8], room: usize) -> Result<Stream, NoMemory>
        ensures unused { IfOk result (λ stream. stream ≡ unused_stream input.now room) }
    {
        Ok(Stream {
            input: Vec::from_slice(alloc, input)?,
            taken: 0,
            output: Vec::with_capacity(alloc, room)?,
            room,
            name: Vec::with_capacity(alloc, NAME_MAX)?,
            has_name: false,
            active: false,
            faults: 0,
            begun: 0,
            begins: 0,
            reads: 0,
            writes: 0,
            finishes: 0,
        })
    }

    /// The role has these bytes to read, in place of those that were left.
    pub fn refill(&mut self, alloc: Global, input: &[u8]) -> Result<(), NoMemory>
        ensures filled { IfOk result (λ _. self.new ≡ record self.old { left = input.now }) }
    {
        self.input = Vec::from_slice(alloc, input)?;
        self.taken = 0;
        Ok(())
    }

    pub fn written(&self) -> &[u8]
        ensures lent { result.now ≡ self.now.written }
    {
        self.output.as_slice()
    }

    pub fn begins(&self) -> u64
        ensures count { result ≡ self.now.calls.begins }
    {
        self.begins
    }

    pub fn reads(&self) -> u64
        ensures count { result ≡ self.now.calls.reads }
    {
        self.reads
    }

    pub fn writes(&self) -> u64
        ensures count { result ≡ self.now.calls.writes }
    {
        self.writes
    }

    pub fn finishes(&self) -> u64
        ensures count { result ≡ self.now.calls.finishes }
    {
        self.finishes
    }

    pub fn begin(&mut self, named: bool, name: &str) -> Result<(), Failed>
        ensures exact { IsErr result ↔ (IsTrue named ⊎ NAME_MAX < length name.now) }
        ensures after { self.new ≡ after_begin name.now self.old result }
        ensures later { self.old.faults ≤ self.new.faults }
    {
        self.begins = self.begins.saturating_add(1);
        if named || name.len() > NAME_MAX {
            self.faults = self.faults.saturating_add(1);
            return Err(Failed);
        }
        self.name.clear();
        self.name.extend_from_slice(name.as_bytes()).unwrap();
        self.has_name = true;
        self.active = true;
        self.begun = self.begun.saturating_add(1);
        Ok(())
    }

    pub fn read(&mut self, named: bool, piece: usize, buffer: &mut [u8]) -> Result<usize, Failed>
        ensures exact { IsErr result ↔ IsTrue named }
        ensures size { IfOk result (λ n. n ≡ min (min piece (length buffer.old)) (length self.old.left)) }
        ensures bytes { IfOk result (λ n. take n buffer.new ≡ take n self.old.left) }
        ensures after { self.new ≡ after_read self.old result }
        ensures later { self.old.faults ≤ self.new.faults }
    {
        self.reads = self.reads.saturating_add(1);
        if named {
            self.faults = self.faults.saturating_add(1);
            return Err(Failed);
        }
        let left = self.input.split_at(self.taken).1;
        let count = piece.min(buffer.len()).min(left.len());
        buffer[..count].copy_from_slice(left.split_at(count).0);
        self.taken += count;
        Ok(count)
    }

    pub fn write(&mut self, named: bool, piece: usize, bytes: &[u8]) -> Result<usize, Failed>
        ensures exact { IsErr result ↔ (IsTrue named ⊎ IsFull self.old) }
        ensures size { IfOk result (λ n. n ≡ min (min piece (length bytes.now)) (self.old.room - length self.old.written)) }
        ensures after { self.new ≡ after_write bytes.now self.old result }
        ensures later { self.old.faults ≤ self.new.faults }
    {
        self.writes = self.writes.saturating_add(1);
        let free = self.room - self.output.len();
        if named || free == 0 {
            self.faults = self.faults.saturating_add(1);
            return Err(Failed);
        }
        let count = piece.min(bytes.len()).min(free);
        self.output
            .extend_from_slice(bytes.split_at(count).0)
            .unwrap();
        Ok(count)
    }

    pub fn finish(&mut self, named: bool) -> Result<(), Failed>
        ensures exact { IsErr result ↔ IsTrue named }
        ensures after { self.new ≡ after_finish self.old result }
        ensures later { self.old.faults ≤ self.new.faults }
    {
        self.finishes = self.finishes.saturating_add(1);
        if named {
            self.faults = self.faults.saturating_add(1);
            return Err(Failed);
        }
        self.active = false;
        Ok(())
    }
}
