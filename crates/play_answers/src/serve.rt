// A connection's requests, and what they are answered with.
ghost use Rattle.std.specs.Prelude.{◌≡◌, OnOk};
ghost use Rattle.std.specs.List.{AllByRecursion};
ghost use Rattle.std.specs.Io.KnownBytes.{Appends, Consumes};
ghost use Rattle.http_server.specs.Connection.{config_of, history};
ghost use Rattle.http_server.specs.History.{IsDone, IsServed, new_history};
ghost use Rattle.play_answers.specs.Answers.{AnswersRequest};

use crate::answer::{Play, Runs};
use http_server::{Connection, serve};
use std::io;
use std::io::{Read, Write};

/// Answers the requests of a connection, in their order.
#[tactic(auto, using(http_server::proofs::Theorems::always_served))]
pub fn answer_all<T: Runs + Drop, R: Read, W: Write>(
    connection: &mut Connection,
    play: &mut Play<T>,
    reader: &mut R,
    writer: &mut W,
) -> io::Result<()>
    requires { history connection.old ≡ new_history }
    ensures read { Consumes (R.remaining reader.old) (R.remaining reader.new) (history connection.new).received }
    ensures written { Appends (W.contents writer.old) (W.contents writer.new) (history connection.new).sent }
    ensures served { ∥ IsServed (config_of connection.new) (history connection.new) ∥₁ }
    ensures answered { AllByRecursion (λ call. AnswersRequest T.tells play.old.site call.0 call.1) (history connection.new).calls }
    ensures config { config_of connection.new ≡ config_of connection.old }
    ensures done { OnOk result (IsDone (history connection.new)) }
{
    serve(connection, play, reader, writer)
}
