//! One node that is served: each line of the input is answered.

ghost use Rattle.std.specs.Prelude.{◌≡◌, ◌≤◌, Some, None, IfSome};
ghost use Rattle.outside.specs.Rose.{Rose};
ghost use Rattle.pastry.specs.Faults.{status_of, IsServingFault};
ghost use Rattle.pastry.specs.Serving.{HasServed};

use crate::outcome::{Outcome, TopFault};
use node_service::{ServiceFault, serve_node};
use outside::{Sink, Source};
use std::alloc::Global;

/// Serves a node: lines come from a source, and their answers go to a sink before more is read.
pub(crate) fn serve_read<S: Source, K: Sink>(alloc: Global, source: &mut S, sink: &mut K) -> Outcome
    ensures status { result.status ≡ status_of result.fault }
    ensures kind { IfSome result.fault IsServingFault }
    ensures none { result.played ≡ None }
    ensures served { HasServed S.gives S.left K.takes K.taken source.old sink.old result.fault source.new sink.new }
    ensures unread { result.fault ≡ Some TopFault.Read → Rose (S.faults source.old) (S.faults source.new) }
    ensures unwritten { result.fault ≡ Some TopFault.Write → Rose (K.faults sink.old) (K.faults sink.new) }
    ensures source_count { S.faults source.old ≤ S.faults source.new }
    ensures sink_count { K.faults sink.old ≤ K.faults sink.new }
{
    match serve_node(alloc, source, sink) {
        Ok(()) => Outcome::over(),
        Err(ServiceFault::Read) => Outcome::refused(TopFault::Read),
        Err(ServiceFault::Write) => Outcome::refused(TopFault::Write),
        Err(ServiceFault::OutOfMemory) => Outcome::refused(TopFault::OutOfMemory),
    }
}
