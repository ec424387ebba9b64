ghost use Rattle.std.specs.Prelude.{IfOk};
ghost use Rattle.http_wire.specs.Wire.{request_of};
ghost use Rattle.request_calls.specs.Calls.{IsAccepted, IsCall, OnChange, call_of};

use http_wire::Wire;
use request_calls::{Call, read_call};
use request_routes::RouteTable;
use search_base::NoMemory;
use std::alloc::Global;

/// Reads the call of a request, as `read_call` does, and lets the request go, with its body. Its error is want of
/// memory.
pub fn ask(alloc: Global, table: &RouteTable, wire: Wire) -> Result<Call, NoMemory>
    ensures call { IfOk result (λ call. IsCall call (call_of (request_of wire))) }
    ensures accepted { IfOk result (λ call. OnChange IsAccepted call) }
{
    read_call(alloc, table, &wire)
}
