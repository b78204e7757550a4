ghost use Rattle.std.specs.Prelude.{◌≡◌, codes, Some};

use std::env;

/// What to do with a model file.
#[derive(Clone, Copy)]
pub enum Work {
    Parse,
    Read,
}

/// What the words say to do, and the path of the file, or None where they are others or can't be had.
pub fn work_and_path(rt: &HostRuntime) -> Option<(Work, String)> {
    let mut words = env::args(rt).ok()?.skip(1);
    let first = words.next()?;
    let path = words.next()?;
    if words.next().is_some() {
        return None;
    }
    Some((work_of(&first)?, path))
}

fn work_of(word: &str) -> Option<Work>
    ensures parse { word.now ≡ codes "parse" → result ≡ Some Work.Parse }
    ensures read { word.now ≡ codes "read" → result ≡ Some Work.Read }
{
    match word {
        "parse" => Some(Work::Parse),
        "read" => Some(Work::Read),
        _ => None,
    }
}
