//! Desks, on which temporaries are filled before they land.
#![tactic(auto)]

ghost use Rattle.std.specs.Prelude.{◌≡◌, ℕ, ◌+◌, ◌≤◌, Bool, true, List, [], length, Option, Some, None, IsSome, IfOk, IfErr, OnOk, OnErr, IsErrOf};
ghost use Rattle.dc_fs.specs.Causes.{raised, HasCause, steady_at};
ghost use Rattle.dc_fs.specs.Temporaries.{told_if, more, AppendStops};
ghost use Rattle.dc_fs.specs.Digests.{IsDigestAtWork};

use crate::DeskError;
use std::alloc::Global;

/// A sealed temporary: bytes that have not landed yet.
pub trait Held: Send + Drop {
    /// The bytes, where they are told.
    ghost content: { Self → Option (List ℕ) };

    /// How many bytes, told or not.
    ghost size: { Self → ℕ };
}

/// A place where one temporary at a time is filled and sealed.
///
/// A desk may tell its bytes to contracts, or tell nothing; it never changes which. It counts its failures in `faults` and
/// the temporaries that it created in `made`. Neither falls, and both stand still at the last value of 64 bits.
pub trait Desk: Send + Sync + Drop {
    /// A temporary that was sealed here. It tells its bytes where the desk does.
    type Temp: Held;

    /// Whether the desk tells the bytes of its temporaries.
    ghost tells: { Self → Bool };

    /// The temporary at work, if there is one, with its bytes where they are told.
    ghost current: { Self → Option (Option (List ℕ)) };

    /// How many bytes the temporary at work has, told or not.
    ghost size: { Self → ℕ };

    /// How many temporaries were created.
    ghost made: { Self → ℕ };

    /// How often the desk has failed.
    ghost faults: { Self → ℕ };

    /// Whether no call fails, now and from now on.
    ghost steady: { Self → Bool };

    /// Begins an empty temporary. One that was at work is abandoned, and stays counted. After a refusal nothing is at work.
    fn create(&mut self, alloc: Global) -> Result<(), DeskError>
        ensures tells { tells self.new ≡ tells self.old }
        ensures begun { OnOk result (current self.new ≡ Some (told_if (tells self.old) [])) }
        ensures empty { OnOk result (size self.new ≡ 0) }
        ensures none { OnErr result (current self.new ≡ None) }
        ensures counted { OnOk result (made self.new ≡ raised (made self.old)) }
        ensures later { made self.old ≤ made self.new }
        ensures uncounted { OnErr result (made self.new ≡ made self.old) }
        ensures cause { HasCause (faults self.old) (faults self.new) result DeskError.Fault }
        ensures calm { steady_at (steady self.new) (faults self.new) ≡ steady_at (steady self.old) (faults self.old) }
        ensures never { steady self.old ≡ true → IsErrOf result DeskError.Fault → ⊥ };

    /// Adds bytes at the end of the temporary at work. After a fault it holds a front of them; after want of memory it is
    /// as before.
    fn append(&mut self, alloc: Global, bytes: &[u8]) -> Result<(), DeskError>
        requires { IsSome (current self.old) }
        ensures tells { tells self.new ≡ tells self.old }
        ensures added { OnOk result (current self.new ≡ more bytes.now (current self.old)) }
        ensures longer { OnOk result (size self.new ≡ size self.old + length bytes.now) }
        ensures stopped { IfErr result (AppendStops bytes.now (current self.old) (size self.old) (current self.new) (size self.new)) }
        ensures made { made self.new ≡ made self.old }
        ensures cause { HasCause (faults self.old) (faults self.new) result DeskError.Fault }
        ensures calm { steady_at (steady self.new) (faults self.new) ≡ steady_at (steady self.old) (faults self.old) }
        ensures never { steady self.old ≡ true → IsErrOf result DeskError.Fault → ⊥ };

    /// The MD5 digest of the temporary at work, which stays as it is.
    fn digest(&mut self, alloc: Global) -> Result<[u8; 16], DeskError>
        requires { IsSome (current self.old) }
        ensures tells { tells self.new ≡ tells self.old }
        ensures same { current self.new ≡ current self.old }
        ensures size { size self.new ≡ size self.old }
        ensures value { IfOk result (IsDigestAtWork (current self.old)) }
        ensures made { made self.new ≡ made self.old }
        ensures cause { HasCause (faults self.old) (faults self.new) result DeskError.Fault }
        ensures calm { steady_at (steady self.new) (faults self.new) ≡ steady_at (steady self.old) (faults self.old) }
        ensures never { steady self.old ≡ true → IsErrOf result DeskError.Fault → ⊥ };

    /// Hands the temporary at work out. Then nothing is at work, after a refusal too.
    fn seal(&mut self, alloc: Global) -> Result<Self::Temp, DeskError>
        requires { IsSome (current self.old) }
        ensures tells { tells self.new ≡ tells self.old }
        ensures content { IfOk result (λ temp. Some (Self.Temp.content temp) ≡ current self.old) }
        ensures size { IfOk result (λ temp. Self.Temp.size temp ≡ size self.old) }
        ensures none { current self.new ≡ None }
        ensures made { made self.new ≡ made self.old }
        ensures cause { HasCause (faults self.old) (faults self.new) result DeskError.Fault }
        ensures calm { steady_at (steady self.new) (faults self.new) ≡ steady_at (steady self.old) (faults self.old) }
        ensures never { steady self.old ≡ true → IsErrOf result DeskError.Fault → ⊥ };
}
