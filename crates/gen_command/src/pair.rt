ghost use Rattle.std.specs.Prelude.{◌≡◌, ◌≤◌, IfOk};
ghost use Rattle.gen_command.specs.Ring.{ring_model as ring_model_text, ring_test as ring_test_text};

use super::litmus::ring_test;
use super::model::ring_model;
use pc_common::Memory;
use std::alloc::Global;

/// The bytes of the ring's model and test, for `n` cores, 2 to 16.
///
/// Each text takes memory once. `Memory` where it is refused.
pub fn gen_texts(alloc: Global, n: u8) -> Result<(Vec<u8>, Vec<u8>), Memory>
    requires { 2 ≤ n × n ≤ 16 }
    ensures { IfOk result (λ texts. (texts.0.items ≡ ring_model_text) × (texts.1.items ≡ ring_test_text n)) }
{
    let model = ring_model(alloc)?;
    let test = ring_test(alloc, n)?;
    Ok((model, test))
}
