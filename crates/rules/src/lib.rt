// What a node does with a message (document 01, What a node does), as definitions, and the two
// theorems of demand 3 over them: the sum of the pads over a path, and that the order of calls at
// a node does not matter. The calls themselves are the crate `node`.
#![tactic(auto)]

/// What a node did with a message that it did not refuse.
#[derive(Clone, Copy, Debug, PartialEq, Eq, Hash)]
pub enum Handled {
    /// The residence was added to the message's own pad.
    Updated,
    /// The message passes as it came.
    Passed,
    /// S was set, and the Follow_Up written.
    Created,
    /// The residence waits in the table for a second message.
    Waiting,
    /// The residence that waited was added to the message's pad.
    Added,
}
