// Which bytes are a class, and why others are none.
ghost use Rattle.std.specs.Prelude.{◌≡◌, ◌≢◌, Ok, Err, IfOk, All};
ghost use Rattle.serde_json.specs.Data.{Data};
ghost use Rattle.event_script.specs.Json.{IsTree};
ghost use Rattle.class_file.specs.Verdict.{miscounts, Tells};
ghost use Rattle.class_file.specs.Within.{AreTexts, IsWithinForm};

use crate::form::class_of;
use crate::{BOARD_LIMIT, ClassCode, ClassFile, ClassRefused, LOSS_LIMIT};
use event_script::{TreeRefused, tree_of};
use std::alloc::Global;

/// Whether there are no boards, too many, or too many losses.
fn miscounts(class: &ClassFile) -> bool
    ensures { result ≡ miscounts class.now }
{
    let boards = class.boards.len();
    boards == 0 || boards > BOARD_LIMIT || class.lose.len() > LOSS_LIMIT
}

/// Reads a class. The bytes are refused by the first rule that they break, in the order of the codes: they are JSON by
/// `serde_json`; the tree has a class's form; there are 1 to `BOARD_LIMIT` boards and at most `LOSS_LIMIT` losses. Which files the
/// boards name, and whether these are there, isn't asked.
pub fn read_class(alloc: Global, bytes: &[u8]) -> Result<ClassFile, ClassRefused>
    ensures ok { IfOk result (λ c. Tells bytes.now (Ok c)) }
    ensures within_form { IfOk result IsWithinForm }
    ensures names { IfOk result (λ c. All AreTexts c.boards) }
    ensures not_json { result ≡ Err (ClassRefused.Class ClassCode.NotJson) → (tree : Data) → ¬ IsTree bytes.now tree }
    ensures not_class { result ≡ Err (ClassRefused.Class ClassCode.NotClass)
        → Tells bytes.now (Err ClassCode.NotClass) }
    ensures bad_count { result ≡ Err (ClassRefused.Class ClassCode.BadCount)
        → Tells bytes.now (Err ClassCode.BadCount) }
    ensures end_differs { result ≢ Err (ClassRefused.Class ClassCode.EndDiffers) }
{
    let tree = match tree_of(alloc, bytes) {
        Ok(tree) => tree,
        Err(TreeRefused::NotJson) => return Err(ClassRefused::Class(ClassCode::NotJson)),
        Err(TreeRefused::NoMemory) => return Err(ClassRefused::NoMemory),
    };
    match class_of(alloc, &tree) {
        Err(_) => Err(ClassRefused::NoMemory),
        Ok(None) => Err(ClassRefused::Class(ClassCode::NotClass)),
        Ok(Some(class)) => if miscounts(&class) {
            Err(ClassRefused::Class(ClassCode::BadCount))
        } else {
            Ok(class)
        },
    }
}
