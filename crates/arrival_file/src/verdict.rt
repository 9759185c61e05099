// Which bytes are arrivals, and why others are none.
ghost use Rattle.std.specs.Prelude.{◌≡◌, Ok, Err, IfOk};
ghost use Rattle.serde_json.specs.Data.{Data};
ghost use Rattle.event_script.specs.Json.{IsTree};
ghost use Rattle.arrival_file.specs.Verdict.{judged, Tells};
ghost use Rattle.arrival_file.specs.Sound.{IsSound, IsWithinForm};

use crate::form::arrivals_of;
use crate::{ARRIVAL_LIMIT, Arrival, ArrivalCode, ArrivalRefused};
use event_script::{TreeRefused, falls, tree_of};
use std::alloc::Global;
use sts_base::Seq;

/// The rules over the whole list, in the order of their codes.
fn judge(arrivals: Seq<Arrival>) -> Result<Seq<Arrival>, ArrivalCode>
    ensures { result ≡ judged arrivals }
{
    if falls(arrivals.as_slice()) {
        return Err(ArrivalCode::OutOfOrder);
    }
    if arrivals.len() > ARRIVAL_LIMIT {
        return Err(ArrivalCode::TooMany);
    }
    Ok(arrivals)
}

/// Reads arrivals. The bytes are refused by the first rule that they break, in the order of the codes: they are JSON by
/// `serde_json`; the tree has the form of arrivals; their numbers don't fall; there are at most `ARRIVAL_LIMIT`.
pub fn read_arrivals(alloc: Global, bytes: &[u8]) -> Result<Seq<Arrival>, ArrivalRefused>
    ensures ok { IfOk result (λ arrivals. Tells bytes.now (Ok arrivals)) }
    ensures sound { IfOk result IsSound }
    ensures within_form { IfOk result IsWithinForm }
    ensures not_json { result ≡ Err (ArrivalRefused.Arrivals ArrivalCode.NotJson) → (tree : Data)
        → ¬ IsTree bytes.now tree }
    ensures not_arrivals { result ≡ Err (ArrivalRefused.Arrivals ArrivalCode.NotArrivals)
        → Tells bytes.now (Err ArrivalCode.NotArrivals) }
    ensures out_of_order { result ≡ Err (ArrivalRefused.Arrivals ArrivalCode.OutOfOrder)
        → Tells bytes.now (Err ArrivalCode.OutOfOrder) }
    ensures too_many { result ≡ Err (ArrivalRefused.Arrivals ArrivalCode.TooMany)
        → Tells bytes.now (Err ArrivalCode.TooMany) }
{
    let tree = match tree_of(alloc, bytes) {
        Ok(tree) => tree,
        Err(TreeRefused::NotJson) => return Err(ArrivalRefused::Arrivals(ArrivalCode::NotJson)),
        Err(TreeRefused::NoMemory) => return Err(ArrivalRefused::NoMemory),
    };
    match arrivals_of(alloc, &tree) {
        Err(_) => Err(ArrivalRefused::NoMemory),
        Ok(None) => Err(ArrivalRefused::Arrivals(ArrivalCode::NotArrivals)),
        Ok(Some(arrivals)) => match judge(arrivals) {
            Ok(arrivals) => Ok(arrivals),
            Err(code) => Err(ArrivalRefused::Arrivals(code)),
        },
    }
}
