// The hops of a path that is planned, and what the plan of it says (document 02, W-212): definitions
// and theorems. The functions are in `planner`.
#![tactic(auto)]

/// A hop: its mode, and the residence of the Sync there, in pad units. C hands in this struct, and any
/// number for a mode is answered, so that the mode is no enum.
#[repr(C)]
#[derive(Clone, Copy)]
pub struct Hop {
    pub mode: u8,
    pub residence: u64,
}

// The modes; any other is refused.
pub const ONE_STEP: u8 = 1;

pub const TWO_STEP: u8 = 2;

/// The most hops that are planned.
pub const MOST: usize = 255;

/// What a path starts with: the Sync's pad and S, and the pad of its Follow_Up, which counts only where
/// S is set. C hands the pad in beside S, so that it is no Option.
#[derive(Clone, Copy)]
pub struct Start {
    pub sync_pad: i64,
    pub follow_up_pad: i64,
    pub two_step: bool,
}

/// What it ends with: the pads, S, and whether there is a Follow_Up. Where there is none its pad is 0
/// (`NoneIsZero`). C is told the two apart, so that the pad is no Option.
#[derive(Clone, Copy)]
pub struct End {
    pub sync_pad: i64,
    pub follow_up_pad: i64,
    pub two_step: bool,
    pub exists: bool,
}
