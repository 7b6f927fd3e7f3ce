ghost use Rattle.std.specs.Prelude.{◌≡◌, ℕ, List, Option, Some, map, string_bytes, OnErr, IfOk};
ghost use Rattle.std.specs.List.{IsDistinct};
ghost use Rattle.std.specs.Str.{bytes_eq};
ghost use Rattle.sk_ports.specs.Causes.{HasFolderCause};
ghost use Rattle.sk_ports.specs.Files.{Files, IsListed, ListsTold, ReadsTold};

use crate::fault::FolderFault;
use std::alloc::Global;

/// Where scripts and journals are read.
pub trait Folder {
    /// Its files, where it tells them; no call changes them.
    ghost held: { Self → Option Files };

    /// The names that it listed last, if it did.
    ghost listed: { Self → Option (List (List ℕ)) };

    /// How often it failed.
    ghost faults: { Self → ℕ };

    /// The names of its files, each once.
    fn names(&mut self, alloc: Global) -> Result<Vec<String>, FolderFault>
        ensures told { IfOk result (λ names. ListsTold (held self.old) (map string_bytes names.items)) }
        ensures once { IfOk result (λ names. IsDistinct bytes_eq (map string_bytes names.items)) }
        ensures listed { IfOk result (λ names. listed self.new ≡ Some (map string_bytes names.items)) }
        ensures err { OnErr result (listed self.new ≡ listed self.old) }
        ensures held { held self.new ≡ held self.old }
        ensures cause { HasFolderCause (faults self.old) (faults self.new) result };

    /// The bytes of a file that was listed.
    fn read(&mut self, alloc: Global, name: &str) -> Result<Vec<u8>, FolderFault>
        requires { IsListed (listed self.old) name.now }
        ensures told { IfOk result (λ bytes. ReadsTold (held self.old) name.now bytes.items) }
        ensures listed { listed self.new ≡ listed self.old }
        ensures held { held self.new ≡ held self.old }
        ensures cause { HasFolderCause (faults self.old) (faults self.new) result };
}
