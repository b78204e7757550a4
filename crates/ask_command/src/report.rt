ghost use Rattle.std.specs.Prelude.{◌≡◌};
ghost use Rattle.pc_common.specs.Writes.{Writes};
ghost use Rattle.ask_command.specs.AskTexts.{head_text};
ghost use Rattle.ask_command.specs.FoundAsks.{found_text, IsAskWritable};

use super::command::FoundAsk;
use super::outcome::AskWord;
use super::telling::word;
use pc_common::{Failed, Sink, write_all};
use verdicts::write_verdict;

/// The line of the word, and the one after it.
fn head(word: AskWord) -> &'static [u8]
    ensures { result.now ≡ head_text word }
{
    match word {
        AskWord::Always => b"ask always\nwith\n",
        AskWord::Never => b"ask never\nwith\n",
        AskWord::Sometimes => b"ask sometimes\nwith\n",
        AskWord::Vacuous => b"ask vacuous\nwith\n",
    }
}

/// Writes the word with the two certificates. Takes no memory.
pub fn write_ask<K: Sink>(out: &mut K, found: &FoundAsk) -> Result<(), Failed>
    requires { IsAskWritable found.now }
    ensures { Writes K.view out.old out.new result (found_text found.now) }
{
    let told = word(&found.added.found, &found.against.found);
    write_all(out, head(told))?;
    write_verdict(out, &found.added)?;
    write_all(out, b"against\n")?;
    write_verdict(out, &found.against)?;
    write_all(out, b"end\n")
}
