// What runs that the page asks for are answered with.
ghost use Rattle.std.specs.Prelude.{◌≡◌, [], OnOk, Some};
ghost use Rattle.std.specs.Option.{option_map};
ghost use Rattle.play.specs.Answers.{TellsRun};

use board_ports::{Device, SureDevice};
use bytes::BufMut;
use explained_view::view_explained;
use growing_sink::GrowingSink;
use http_server::Rope;
use play_answers::Runs;
use play_requests::Budget;
use run_tool::run_posted;
use std::alloc::{AllocError, Global};

/// The most bytes of a transcript, and of its view.
const MOST: usize = 8 * 1024 * 1024;

/// The columns of a view.
const WIDTH: usize = 76;

/// Runs a program's text as `sts run` does.
#[derive(Clone, Copy, Drop)]
pub struct PostedRuns;

impl Runs for PostedRuns {
    ghost tells = { TellsRun ⟦<SureDevice as Device>⟧.account };

    /// The status of a run and how many bytes it wrote, these, and the view of them.
    fn run(
        &self,
        alloc: Global,
        text: &[u8],
        script: Option<&[u8]>,
        budget: Budget,
        body: &mut Rope,
    ) -> Result<(), AllocError> {
        let mut out = GrowingSink::new(alloc, MOST);
        let status = run_posted(alloc, text, script, budget.instructions(), &mut out);
        let mut view = GrowingSink::new(alloc, MOST);
        // (a view for which there is no memory is left out)
        let _ = view_explained(alloc, text, out.taken(), WIDTH, &mut view);
        let head = format!(in alloc; "{} {}\n", status, out.taken().len())?;
        body.put_slice(head.as_bytes())?;
        body.put_slice(out.taken())?;
        body.put_slice(view.taken())
    }
}
