// The top call.
ghost use Rattle.std.specs.Prelude.{◌≡◌, ◌⊎◌, ◌≤◌, List, ℕ, Some, None, map, string_bytes, IsSomeAnd};
ghost use Rattle.std.specs.declared.option.Option.{Option};
ghost use Rattle.sts_base.specs.Faults.{Rose};
ghost use Rattle.run_tool.specs.declared.ending.Ending.{Ending};
ghost use Rattle.sts_words.specs.Words.{IsAskedBy};
ghost use Rattle.run_tool.specs.Answers.{Concludes, IsFailureTold, ending_number, of_devices, of_sink};
ghost use Rattle.run_tool.specs.Orders.{CompletesCommand, IsOfImage, NamesScript, lead_of, MayAnswer};
ghost use Rattle.run_tool.specs.inner.{FoundNoMemory, ToldUsage};
ghost use Rattle.run_tool.specs.Headline.{Headline};
ghost use Rattle.run_tool.specs.Laws.{IsComplete};
ghost use Rattle.sts_words.specs.Orders.{Asked, IsInRange, order_view};
ghost use Rattle.run_tool.specs.RunAt.{HeadlineAt};
ghost use Rattle.run_tool.specs.Class.{HeadlineClass};
ghost use Rattle.run_tool.specs.Wanted.{HasAsked, Wants};
ghost use Rattle.run_tool.specs.Files.{told_by};

use crate::big::big;
use crate::build::build;
use crate::check::check;
use crate::class::class;
use crate::ending::{Ending, Status};
use crate::run::{AskedBehind, AskedRun, RunOptions, run};
use crate::run_at::{AskedRunAt, Outside, run_at};
use crate::run_hex::{AskedImageRun, run_hex};
use crate::said::say;
use board_ports::Device;
use command_line::read_command_line;
use std::alloc::Global;
use sts_base::NoMemory;
use sts_words::Order;
use tool_folder::Folder;
use tool_io::Sink;
use typed_program::one_answer;

/// Does what an order asks for.
fn perform_order<F: Folder, K: Sink, D: Device>(
    alloc: Global,
    order: Order<'_>,
    folder: &mut F,
    out: &mut K,
    places: &mut Vec<Option<D>>,
) -> Ending
    requires { IsInRange order }
    ensures answer { Concludes (of_sink K.taken K.faults out.old out.new)
        (of_devices D.account places.old.items places.new.items)
        (lead_of (Some (order_view order.entry)))
        (MayAnswer (told_by F.holds F.faults folder.old folder.new) (Some (order_view order.entry))) result }
    ensures asked { HasAsked F.asked folder.old folder.new
        (Wants (told_by F.holds F.faults folder.old folder.new) (FoundNoMemory result)
        (Some (order_view order.entry))) }
    ensures folder_later { F.faults folder.old ≤ F.faults folder.new }
    ensures failure { IsFailureTold (F.faults folder.old) (F.faults folder.new) result }
{
    match order {
        Order::Check(name) => check(alloc, name, folder, out),
        Order::Build(name) => build(alloc, name, folder, out),
        Order::Run {
            program,
            script,
            budget,
            stats,
            image,
        } => {
            let behind = AskedBehind { stats, image };
            let options = RunOptions { budget, behind };
            let asked = AskedRun { script, options };
            run(alloc, program, asked, folder, out, places)
        }
        Order::RunHex {
            image,
            script,
            budget,
        } => {
            let asked = AskedImageRun { script, budget };
            run_hex(alloc, image, asked, folder, out, places)
        }
        Order::RunAt {
            program,
            script,
            arrivals,
            budget,
        } => {
            let outside = Outside { script, arrivals };
            let asked = AskedRunAt { outside, budget };
            run_at(alloc, program, asked, folder, out, places)
        }
        Order::Class { name, budget } => class(alloc, name, budget, folder, out),
        Order::Big {
            size,
            budget,
            stats,
        } => big(alloc, size, budget, stats, out, places),
    }
}

/// Does what the words ask for.
fn perform<F: Folder, K: Sink, D: Device>(
    alloc: Global,
    words: &[String],
    folder: &mut F,
    out: &mut K,
    places: &mut Vec<Option<D>>,
) -> Ending
    ensures answer { (asked : Option Asked) → IsAskedBy (map string_bytes words.now) asked
        → Concludes (of_sink K.taken K.faults out.old out.new)
        (of_devices D.account places.old.items places.new.items)
        (lead_of asked) (MayAnswer (told_by F.holds F.faults folder.old folder.new) asked) result }
    ensures asked { (asked : Option Asked) → IsAskedBy (map string_bytes words.now) asked
        → HasAsked F.asked folder.old folder.new
        (Wants (told_by F.holds F.faults folder.old folder.new) (FoundNoMemory result) asked) }
    ensures folder_later { F.faults folder.old ≤ F.faults folder.new }
    ensures failure { IsFailureTold (F.faults folder.old) (F.faults folder.new) result }
    ensures untouched { IsAskedBy (map string_bytes words.now) None → folder.new ≡ folder.old }
    ensures usage { IsAskedBy (map string_bytes words.now) None → ToldUsage result }
{
    match read_command_line(alloc, words) {
        Ok(None) => say(out, Status::Usage, b"usage\n"),
        Ok(Some(order)) => perform_order(alloc, order, folder, out, places),
        Err(NoMemory) => Ending::NoMemory,
    }
}

/// Does what the words, those behind the program's name, ask for:
///
/// - `check P` writes `accepted` where the program of the file of that name in the folder is accepted;
/// - `build P` builds that program, and writes its image as HEX;
/// - `run P S` builds that program, runs its image over the devices on the script that the file S stands for, and writes the transcript; without S the script has no
///   entries and ends at 1000 ms. `--stats` writes the line of statistics behind the transcript, and `--image` beside it the line `instructions I`, with the number of
///   instructions executed, and then the image that ran as HEX;
/// - `run-hex H S` reads the image that the HEX file H spells, and runs it so;
/// - `run-at P S A` builds the program P and runs its image so on the script S, while what the file A tells arrives between its instructions;
/// - `class C` reads the class that the file C stands for, builds the program of each of its boards and reads its script, in their order, and runs them together: each hears what the others send by radio. Each line
///   stands behind its board's number, and the board's own lines of refusals too;
/// - `big N`, with N from 1 to 200, makes and builds the program of that size, writes the line `big N`, and runs it as `run` does, without a script's name.
///
/// With the last five, `--budget M` or `--budget=M` runs the image, or each board's, for at most M instructions, one to ten decimal digits with a value from 1 to 2147483648; without it the
/// budget is 50000000. The program or the image is read, and a program built, before the script is fetched, and that is read before arrivals are. Of a class's boards each is read so before the next one's program is
/// fetched.
///
/// Answers the status; "exactly" and "surely" hold where each file was fetched, the sink took all, and there was memory:
///
/// - 0 where the command was done and the whole output was taken; of a run, where it ended quiet or by the script; of a class, where each of its runs did;
/// - 2, `usage`, exactly where the words aren't taken; nothing is asked of the folder then, and no memory is wanting;
/// - 3, the transcript that `panic T C` closes; by `run-hex` exactly where the run panics within the budget, by `run`, `run-at` and `big` only where the source's run panics so,
///   and surely where it does within M / 512 counted steps; by `class` exactly where the whole text was written and some board panicked;
/// - 4, the transcript that `budget T` closes; by `run-hex` exactly where the run hasn't ended after the budget, by `run`, `run-at` and `big` only where the source's run doesn't
///   end within M / 512 counted steps; by `class` the text that `B budget T` closes, only where the run of board B's source doesn't;
/// - 10, `refused C L K`, by `check`, `build`, `run`, `run-at` and `big` alone, exactly where the program isn't accepted, with the code of its first failure, and the line and the
///   column of that; and `B refused C L K`, by `class` alone, where that of board B isn't;
/// - 11, `script refused C`, only where the words name a script, and its file stands for none, with the code of the rule that it breaks first; and `arrivals refused C`, by
///   `run-at` alone, where the file A stands for none; by `class` alone `B script refused C` of board B's script, and `class refused C`, where the file C stands for no class, or by code 4 where a board's script has
///   another end than the class;
/// - 12, `image refused C`, by `run-hex` exactly where the file spells no image, with the code of the rule that it breaks first;
/// - 13, the transcript that `fault T K A` closes, by `run-hex` exactly where the run faults within the budget, and by no other
///   command;
/// - 20, `folder failed`, only where the folder's count of faults rose in this call; and where that changed, the status is 20, or 22;
/// - 21, `missing`, where the folder has no file of that name;
/// - 22 only where the sink's count of faults rose in this call; a prefix of the output was taken, and of a run one cut of what it met is where
///   the output and the devices stand;
/// - 23, `too long`, where the file has more than 1,048,576 bytes;
/// - 30 for want of memory, before anything was written, or behind the line `big N` alone.
///
/// Where each file that the words name is told and is what the command wants, and no count of faults rises, `check` and `build` end with 0, `run`, `run-at`, `class` and `big` with 0, 3 or 4, and `run-hex` with 0, 3, 4
/// or 13; or with 30.
///
/// The devices are as the run left them, and stay as they are with every other answer, and with `class`.
pub fn sts_main<F: Folder, K: Sink>(
    alloc: Global,
    words: &[String],
    folder: &mut F,
    out: &mut K,
    plugs: &mut Vec<Option<Box<dyn Device>>>,
) -> u8
    ensures headline { (asked : Option Asked) → IsAskedBy (map string_bytes words.now) asked
        → Headline (told_by F.holds F.faults folder.old folder.new) (of_sink K.taken K.faults out.old out.new)
        (of_devices ⟦<Box<dyn Device> as Device>⟧.account plugs.old.items plugs.new.items) asked result }
    ensures ends { (asked : Option Asked) → IsAskedBy (map string_bytes words.now) asked
        → (ending : Ending) × (result ≡ ending_number ending)
        × Concludes (of_sink K.taken K.faults out.old out.new)
        (of_devices ⟦<Box<dyn Device> as Device>⟧.account plugs.old.items plugs.new.items)
        (lead_of asked) (MayAnswer (told_by F.holds F.faults folder.old folder.new) asked) ending }
    ensures completes { (asked : Option Asked) → IsAskedBy (map string_bytes words.now) asked
        → CompletesCommand (told_by F.holds F.faults folder.old folder.new)
        (of_sink K.taken K.faults out.old out.new) asked result }
    ensures complete { (asked : Option Asked) → IsAskedBy (map string_bytes words.now) asked
        → IsComplete (told_by F.holds F.faults folder.old folder.new)
        (of_sink K.taken K.faults out.old out.new) asked result }
    ensures headline_at { (asked : Option Asked) → IsAskedBy (map string_bytes words.now) asked
        → HeadlineAt (told_by F.holds F.faults folder.old folder.new) (of_sink K.taken K.faults out.old out.new)
        (of_devices ⟦<Box<dyn Device> as Device>⟧.account plugs.old.items plugs.new.items) asked result }
    ensures headline_class { (asked : Option Asked) → IsAskedBy (map string_bytes words.now) asked
        → HeadlineClass (told_by F.holds F.faults folder.old folder.new) (of_sink K.taken K.faults out.old out.new)
        (of_devices ⟦<Box<dyn Device> as Device>⟧.account plugs.old.items plugs.new.items) asked result }
    ensures refused { (asked : Option Asked) → IsAskedBy (map string_bytes words.now) asked
        → result ≡ 10 → IsSomeAnd asked (λ order. ¬ IsOfImage order) }
    ensures script_refused { (asked : Option Asked) → IsAskedBy (map string_bytes words.now) asked
        → result ≡ 11 → IsSomeAnd asked NamesScript }
    ensures image_refused { (asked : Option Asked) → IsAskedBy (map string_bytes words.now) asked
        → result ≡ 12 → IsSomeAnd asked IsOfImage }
    ensures faulted { (asked : Option Asked) → IsAskedBy (map string_bytes words.now) asked
        → result ≡ 13 → IsSomeAnd asked IsOfImage }
    ensures folder_failed { result ≡ 20 → Rose (F.faults folder.old) (F.faults folder.new) }
    ensures failure_told { (F.faults folder.new ≡ F.faults folder.old) ⊎ ((result ≡ 20) ⊎ (result ≡ 22)) }
    ensures sink_failed { result ≡ 22 → Rose (K.faults out.old) (K.faults out.new) }
    ensures untouched { IsAskedBy (map string_bytes words.now) None → folder.new ≡ folder.old }
    ensures usage { IsAskedBy (map string_bytes words.now) None → (result ≡ 2) ⊎ (result ≡ 22) }
    ensures asked { (asked : Option Asked) → IsAskedBy (map string_bytes words.now) asked
        → HasAsked F.asked folder.old folder.new
        (Wants (told_by F.holds F.faults folder.old folder.new) (result ≡ 30) asked) }
{
    one_answer();
    perform(alloc, words, folder, out, plugs).number()
}
