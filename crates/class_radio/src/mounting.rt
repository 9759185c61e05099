//! Mounting all boards of a class.
ghost use Rattle.std.specs.Prelude.{◌≡◌, ◌≤◌, All, IfOk, vec_len};
ghost use Rattle.thumb_code.specs.Map.{flash_end};
ghost use Rattle.event_script.specs.Sound.{IsSound};
ghost use Rattle.class_radio.specs.Outcome.{setups_of};
ghost use Rattle.class_radio.specs.Stepped.{begun_pasts, EachBoard, IsAtMoment};

use crate::player::Player;
use event_script::Script;
use std::alloc::Global;
use sts_base::NoMemory;

/// Mounts a board for each image and script, numbered from 0 in their order. All memory of their runs is taken here.
pub fn mount_all(
    alloc: Global,
    images: Vec<Vec<u8>>,
    scripts: Vec<Script>,
    budget: u32,
) -> Result<Vec<Player>, NoMemory>
    requires few { vec_len images ≤ 8 }
    requires each { All (λ image. vec_len image ≤ flash_end) images.items }
    requires scripts { vec_len scripts ≡ vec_len images }
    requires sound { All IsSound scripts.items }
    requires most { budget ≤ 2147483648 }
    ensures mounted { IfOk result (λ players.
        EachBoard (IsAtMoment budget 0) 0 (begun_pasts (setups_of images.items scripts.items)) players.items) }
{
    let mut players = Vec::new(alloc);
    for (image, script) in images.into_iter().zip(scripts) {
        let number = players.len() as u8;
        let player = Player::mount(alloc, number, image, script, budget)?;
        if players.push(player).is_err() {
            return Err(NoMemory);
        }
    }
    Ok(players)
}
