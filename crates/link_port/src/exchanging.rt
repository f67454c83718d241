ghost use Rattle.std.specs.Prelude.{◌≡◌, ◌<◌, length, IfOk, OnErr, OnOk};
ghost use Rattle.desk.specs.History.{log_of, told_of};
ghost use Rattle.desk.specs.Serving.{GivesUp, IsServed};
ghost use Rattle.link_port.specs.Exchanging.{IsSound, left_by, reply_on};
ghost use Rattle.link_port.specs.Spelled as spelled;

use crate::spelled::{outcome_at, tells};
use agent_terms::ReplyOutcome;
use desk::Desk;
use std::alloc::AllocError;
use tree_view::View;

// The outcome of a reply that the renderer was just given, where it leaves more of the log to be told.
fn left_in<V: View + Drop>(desk: &Desk<V>, renderer: u16, reply: &[u8]) -> Option<ReplyOutcome>
    ensures { result ≡ spelled.left_in reply.now (told_of desk.now.history renderer) (length (log_of desk.now.history)) }
{
    if tells(reply) && desk.told(renderer) < desk.log().len() {
        Some(outcome_at(reply))
    } else {
        None
    }
}

/// Has the coordinator answer a request. The outcome is given where the reply leaves more to be told.
pub(crate) fn exchange<V: View + Drop>(
    desk: &mut Desk<V>,
    renderer: u16,
    request: &[u8],
    reply: &mut Vec<u8>,
) -> Result<Option<ReplyOutcome>, AllocError>
    requires seat { renderer < desk.old.rules.renderers }
    ensures ok { OnOk result (IsServed renderer request.now desk.old reply.new.items desk.new) }
    ensures err { OnErr result (GivesUp desk.old desk.new) }
    ensures rules { desk.new.rules ≡ desk.old.rules }
    ensures sound { OnOk result (IsSound renderer request.now desk.old) }
    ensures left { IfOk result (λ left. left ≡ left_by (reply_on renderer request.now desk.old)) }
{
    // What is known of the log before and after is what the coordinator says as it shows it.
    let _before = desk.log().len();
    let _told = desk.told(renderer);
    desk.serve(renderer, request, reply)?;
    let _after = desk.log().len();
    Ok(left_in(desk, renderer, reply))
}
