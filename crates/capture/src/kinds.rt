// The kinds of body, and of which a string of octets is.
ghost use Rattle.std.specs.Prelude.{◌≡◌};
ghost use Rattle.capture.specs.Kinds.{kind_of};

use crate::layout;

/// The kinds of body: a call of either mode, with its stamps and its message, or a tick.
#[derive(Clone, Copy, Debug, PartialEq, Eq, Hash)]
pub enum Kind {
    OneStep,
    TwoStep,
    Tick,
}

/// The kind of a body, where the octets are one.
#[inline(always)]
#[tactic(auto, unfolding(crate::specs::Layout::is_body))]
pub fn classify(body: &[u8]) -> Option<Kind>
    ensures { result ≡ kind_of body.now }
{
    match octets::read8(body, layout::KIND) {
        layout::ONE_STEP if layout::MESSAGE <= body.len() => Some(Kind::OneStep),
        layout::TWO_STEP if layout::MESSAGE <= body.len() => Some(Kind::TwoStep),
        layout::TICK if body.len() == layout::TICK_SIZE => Some(Kind::Tick),
        _ => None,
    }
}
