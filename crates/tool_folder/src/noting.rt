// The names that a folder was asked for.
ghost use Rattle.std.specs.Prelude.{◌≡◌, ◌++◌, ◌∷◌, [], OnOk, OnErr};
ghost use Rattle.tool_folder.specs.Noting.{names_in};

use std::alloc::Global;
use sts_base::{NoMemory, Seq};

/// Notes a name behind those before. After `NoMemory` they are unchanged.
pub fn note(alloc: Global, asked: &mut Seq<String>, name: &str) -> Result<(), NoMemory>
    ensures noted { OnOk result (names_in asked.new ≡ names_in asked.old ++ name.now ∷ []) }
    ensures unchanged { OnErr result (asked.new ≡ asked.old) }
{
    match String::from_str(alloc, name) {
        Ok(name) => asked.push(name),
        Err(_) => Err(NoMemory),
    }
}
