ghost use Rattle.std.specs.Prelude.{ℕ, ◌↔◌, IsTrue};
ghost use Rattle.mn_edge.specs.Fail.{IsNamed};

use crate::role::Role;

/// A kind of call of a host.
#[derive(Clone, Copy, Debug, PartialEq, Eq)]
pub enum Op {
    Begin,
    Read,
    Write,
    Finish,
}

/// Names one call that is to fail: the k-th, from 0, of a kind on a role.
///
/// Every call counts, those that fail too. A call after the first 2^32 of its kind and role has no such number.
#[derive(Clone, Copy, Debug, PartialEq, Eq)]
pub struct Fail {
    pub role: Role,
    pub op: Op,
    pub k: u32,
}

/// Whether the list names this call.
pub fn is_named(fails: &[Fail], role: Role, op: Op, k: u64) -> bool
    ensures { IsTrue result ↔ IsNamed fails.now role op k }
{
    for fail in fails {
        if fail.role == role && fail.op == op && u64::from(fail.k) == k {
            return true;
        }
    }
    false
}
