//! What is lost between the boards of a class, found by its moment.
ghost use Rattle.std.specs.Prelude.{◌≡◌, ◌+◌, ◌*◌, ◌<◌, length, take, IfOk};
ghost use Rattle.class_radio.specs.Losses.{lost_by};
ghost use Rattle.class_radio.specs.Index.{loss_key, HasKeys};

use class_file::Loss;
use std::alloc::Global;
use std::marker::Model;
use sts_base::{NoMemory, Seq};

/// What is lost, with an index: a loss is found in about as many steps as their number has binary digits.
#[derive(Drop)]
pub struct Losses {
    list: Seq<Loss>,
    /// the numbers of all losses, which rise
    keys: Vec<u128>,
}

impl Model for Losses {
    ghost use Rattle.std.specs.Prelude.{List};
    ghost use Rattle.class_file.specs.declared.class.Loss.{Loss};
    ghost use Rattle.class_radio.specs.Index.{IsIndex};

    ghost Value = { List Loss };

    ghost view = { λ losses. losses.list };

    ghost invariant = { λ losses. IsIndex losses.list losses.keys.items };
}

/// The number that stands for a moment and two boards.
fn key(at: u32, from: u32, to: u32) -> u128
    ensures { result ≡ loss_key at from to }
{
    (at as u128 * 4294967296 + from as u128) * 4294967296 + to as u128
}

/// That of a loss.
fn key_of_loss(loss: Loss) -> u128
    ensures key { result ≡ loss_key loss.at loss.from loss.to }
    ensures from { loss.from < 4294967296 }
    ensures to { loss.to < 4294967296 }
{
    key(loss.at, loss.from, loss.to)
}

/// The numbers of all losses, in the order of these.
fn keys(alloc: Global, list: &[Loss]) -> Result<Vec<u128>, NoMemory>
    ensures { IfOk result (λ keys. HasKeys list.now keys.items) }
{
    let mut keys = Vec::new(alloc);
    for loss in list {
        match keys.push(key_of_loss(*loss)) {
            Ok(()) => {}
            Err(_) => return Err(NoMemory),
        }
    }
    Ok(keys)
}

impl Losses {
    /// These losses, with their index.
    pub fn new(alloc: Global, list: Seq<Loss>) -> Result<Losses, NoMemory>
        ensures { IfOk result (λ losses. losses ≡ list) }
    {
        let mut keys = keys(alloc, list.as_slice())?;
        keys.sort_unstable();
        Ok(Losses { list, keys })
    }

    /// Whether what a board sends at a moment is lost for another one.
    pub fn lost(&self, at: u32, from: usize, to: usize) -> bool
        ensures { result ≡ lost_by self.now at from to }
    {
        let keys = self.keys.as_slice();
        if from > 4294967295 {
            return false;
        }
        if to > 4294967295 {
            return false;
        }
        keys.binary_search(&key(at, from as u32, to as u32)).is_ok()
    }
}
