ghost use Rattle.std.specs.Prelude.{◌≤◌, IfSome, vec_len};
ghost use Rattle.pc_front.specs.declared.limits.TheConstants.{MAX_FILE};

use pc_front::MAX_FILE;
use std::fs::File;
use std::io::Read;

/// The bytes of the file at the path, or None where they can't be had or are too many.
pub fn named_text(rt: &HostRuntime, path: &str) -> Option<Vec<u8>>
    ensures { IfSome result (λ bytes. vec_len bytes ≤ MAX_FILE) }
{
    let file = File::open(rt, path).ok()?;
    let mut bytes = Vec::new(rt.alloc());
    file.take(MAX_FILE as u64 + 1).read_to_end(&mut bytes).ok()?;
    if bytes.len() > MAX_FILE {
        return None;
    }
    Some(bytes)
}
