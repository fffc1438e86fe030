ghost use Rattle.std.specs.Prelude.{◌≡◌, ◌≢◌, ◌<◌, ◌≤◌, true, false, length, take, IfOk, MatchResult};
ghost use Rattle.std.specs.Io.KnownBytes.{IsAtEnd};
ghost use Rattle.mn_edge.specs.declared.role.Role.{Role};
ghost use Rattle.mn_edge.specs.Part.{Part, Fails, Begins, Takes, Adds, Finishes};

use crate::Role;

/// A call of a host that did nothing. The role's count of faults rose in it.
#[derive(Clone, Copy, Debug, PartialEq, Eq)]
pub struct Failed;

/// Bytes were not written whole, since a call of the host failed.
#[derive(Clone, Copy, Debug, PartialEq, Eq)]
pub struct WriteFault;

/// Where a command reads its inputs and writes its outputs, a role at a time.
///
/// A role is begun under a name, then read or written piece by piece, then finished. A call touches only the part of
/// its own role. A count of faults never falls, and the begins that went well are counted; both stop at 2^64 - 1.
pub trait Host {
    /// The part of each role.
    ghost part: { Self → Role → Part };

    /// Makes a role active under a name.
    fn begin(&mut self, role: Role, name: &str) -> Result<(), Failed>
        requires { (part self.old role).active ≡ false }
        ensures own { MatchResult result
            (λ _. Begins name.now (part self.old role) (part self.new role))
            (λ _. Fails (part self.old role) (part self.new role)) }
        ensures others { (other : Role) → other ≢ role → part self.new other ≡ part self.old other };

    /// Moves the next bytes that are left into the front of a buffer, and says how many. 0 means that none is left.
    fn read(&mut self, role: Role, buffer: &mut [u8]) -> Result<usize, Failed>
        requires active { (part self.old role).active ≡ true }
        requires room { 0 < length buffer.old }
        ensures within { IfOk result (λ n. n ≤ length buffer.new) }
        ensures own { MatchResult result
            (λ n. Takes (take n buffer.new) (part self.old role) (part self.new role))
            (λ _. Fails (part self.old role) (part self.new role)) }
        ensures end { IfOk result (λ n. n ≡ 0 → IsAtEnd (part self.new role).left) }
        ensures others { (other : Role) → other ≢ role → part self.new other ≡ part self.old other };

    /// Writes at least one byte of the front of a piece, and says how many it wrote.
    fn write(&mut self, role: Role, piece: &[u8]) -> Result<usize, Failed>
        requires active { (part self.old role).active ≡ true }
        requires some { 0 < length piece.now }
        ensures within { IfOk result (λ n. (1 ≤ n) × (n ≤ length piece.now)) }
        ensures own { MatchResult result
            (λ n. Adds (take n piece.now) (part self.old role) (part self.new role))
            (λ _. Fails (part self.old role) (part self.new role)) }
        ensures others { (other : Role) → other ≢ role → part self.new other ≡ part self.old other };

    /// Makes a role inactive. A role whose finish failed is still active.
    fn finish(&mut self, role: Role) -> Result<(), Failed>
        requires { (part self.old role).active ≡ true }
        ensures own { MatchResult result
            (λ _. Finishes (part self.old role) (part self.new role))
            (λ _. Fails (part self.old role) (part self.new role)) }
        ensures others { (other : Role) → other ≢ role → part self.new other ≡ part self.old other };
}
