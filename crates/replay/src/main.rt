// Runs a capture of standard input again, and prints the report on its calls (document 02, W-209).
//
// The recorded one: a Sync that waits, two ticks, and its Follow_Up in time; a second Sync, three ticks,
// and its Follow_Up too late; a Delay_Req and its Delay_Resp; a Sync with S clear; at a one-step node a
// Sync and a Follow_Up; a Sync without its last octet.
#![tactic(auto)]

fn main(rt: HostRuntime) {
    line::replay(&rt);
}
