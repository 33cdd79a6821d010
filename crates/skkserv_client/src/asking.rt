ghost use Rattle.std.specs.Prelude.{◌≡◌, ◌≤◌, ◌⊎◌, true, IsErrOf, OnOk, OnErr};
ghost use Rattle.std.specs.Io.KnownBytes.{Appends};
ghost use Rattle.skk_outside.specs.Faults.{Rose};
ghost use Rattle.skk_outside.specs.Written.{AppendsPrefix};
ghost use Rattle.skkserv_client.specs.Hearing.{HearsReply};
ghost use Rattle.skkserv_client.specs.Questions.{are_askable, bytes_asked, request_of};

use crate::hearing::{hear_line, without_return};
use crate::question::Ask;
use crate::reply::told_by_line;
use crate::told::{AskFault, Told};
use skk_outside::{Link, write_all};
use std::alloc::Global;

/// Asks a server, and tells what it says: what the first line of all that it sends tells, however that comes in pieces.
/// Where the link fails or memory is out, a part of the request may have been sent.
pub fn ask<K: Link>(alloc: Global, link: &mut K, what: &Ask) -> Result<Told, AskFault>
    requires { are_askable (bytes_asked what.now) ≡ true }
    ensures told { HearsReply (K.left link.old) what.now result }
    ensures sent { OnOk result (Appends (K.written link.old) (K.written link.new) (request_of what.now)) }
    ensures begun { OnErr result (AppendsPrefix (K.written link.old) (K.written link.new) (request_of what.now)) }
    ensures failed { IsErrOf result AskFault.LinkFault → Rose (K.faults link.old) (K.faults link.new) }
    ensures counted { K.faults link.old ≤ K.faults link.new }
{
    send_request(alloc, link, what)?;
    let line = hear_line(alloc, link)?;
    told_by_line(alloc, what, without_return(line.as_slice()))
}

// Sends a request, and hands it on.
fn send_request<K: Link>(alloc: Global, link: &mut K, what: &Ask) -> Result<(), AskFault>
    ensures sent { OnOk result (Appends (K.written link.old) (K.written link.new) (request_of what.now)) }
    ensures begun { OnErr result (AppendsPrefix (K.written link.old) (K.written link.new) (request_of what.now)) }
    ensures left { K.left link.new ≡ K.left link.old }
    ensures only { OnErr result (IsErrOf result AskFault.LinkFault ⊎ IsErrOf result AskFault.Memory) }
    ensures failed { IsErrOf result AskFault.LinkFault → Rose (K.faults link.old) (K.faults link.new) }
    ensures counted { K.faults link.old ≤ K.faults link.new }
{
    let request = what.request(alloc)?;
    write_all(link, request.as_slice())?;
    link.flush()?;
    Ok(())
}
