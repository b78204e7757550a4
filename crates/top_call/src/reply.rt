ghost use Rattle.std.specs.Prelude.{◌≡◌, ◌≢◌, ℕ, List};
ghost use Rattle.pc_common.specs.Writes.{Writes};
ghost use Rattle.pc_common.specs.declared.status.Status.{Status as AnyStatus};
ghost use Rattle.pc_common.specs.declared.status.Status.TheVariants.{WriteFault};

use pc_common::{Failed, Sink, Status};

/// What a command returns, decided before anything is written.
pub(crate) trait Reply: Drop {
    /// Its text.
    ghost text: { Self → List ℕ };

    /// The status that it ends with, where its text is written.
    ghost ends_with: { Self → AnyStatus };

    /// It can be written.
    ghost writable: { Self → Type 0 };

    /// Writes its text. Takes no memory.
    fn write<K: Sink>(&self, out: &mut K) -> Result<(), Failed>
        requires { writable self.now }
        ensures { Writes K.view out.old out.new result (text self.now) };

    /// The status that it ends with: never that of a write which failed.
    fn status(&self) -> Status
        ensures is { result ≡ ends_with self.now }
        ensures own { result ≢ WriteFault };
}
