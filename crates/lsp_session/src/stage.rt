//! How far a session is.
ghost use Rattle.std.specs.Prelude.{◌≡◌};
ghost use Rattle.lsp_session.specs.declared.message.Message.TheVariants as message;
ghost use Rattle.lsp_session.specs.Stages.{refusal_at, stage_after, stage_called, stage_left};

use crate::{Call, Notice, Refusal};

/// How far a session is.
#[derive(Clone, Copy, Debug, PartialEq, Eq)]
pub enum Stage {
    /// The client has not asked to begin.
    Fresh,
    /// It works.
    Running,
    /// The client asked it to end soon.
    Down,
    /// It ended, in good order or not.
    Gone { in_order: bool },
}

/// Why a request is refused at a stage, if it is.
pub(crate) fn refusal_at(stage: Stage, call: &Call) -> Option<Refusal>
    ensures { result ≡ refusal_at stage call.now }
{
    match (stage, call) {
        (Stage::Fresh, Call::Initialize { .. } | Call::ConfigRefused { .. }) => None,
        (Stage::Fresh, _) => Some(Refusal::NotInitialized),
        (Stage::Running, Call::Initialize { .. } | Call::ConfigRefused { .. }) => Some(
            Refusal::BadRequest,
        ),
        (Stage::Running, Call::Misread) => Some(Refusal::BadParams),
        (Stage::Running, Call::Unknown) => Some(Refusal::NoMethod),
        (Stage::Running, _) => None,
        (Stage::Down | Stage::Gone { .. }, _) => Some(Refusal::BadRequest),
    }
}

/// The stage after a request.
pub(crate) fn stage_called(stage: Stage, call: &Call) -> Stage
    ensures { result ≡ stage_called stage call.now }
{
    match (stage, call) {
        (Stage::Fresh, Call::Initialize { .. }) => Stage::Running,
        (Stage::Running, Call::Shutdown) => Stage::Down,
        _ => stage,
    }
}

/// The stage after the notification that the session is to end.
fn stage_left(stage: Stage) -> Stage
    ensures { result ≡ stage_left stage }
{
    match stage {
        Stage::Down => Stage::Gone { in_order: true },
        Stage::Fresh | Stage::Running => Stage::Gone { in_order: false },
        Stage::Gone { .. } => stage,
    }
}

/// The stage after a notification.
pub(crate) fn stage_heard(stage: Stage, notice: &Notice) -> Stage
    ensures { result ≡ stage_after stage (message.Notice notice.now) }
{
    match notice {
        Notice::Exit => stage_left(stage),
        Notice::Opened { .. } | Notice::Changed { .. } | Notice::Closed { .. } | Notice::Other =>
            stage,
    }
}
