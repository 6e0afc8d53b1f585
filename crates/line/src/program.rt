// What the programs have in common.
ghost use Rattle.std.specs.Prelude.{◌≡◌, ◌≤◌, length};
ghost use Rattle.std.specs.Fn.{FnReturnsAt};

// Reads standard input until room is full or the input ends, prints what was read by `print`, and
// answers how many octets that was. `printed` says that `print` told something of so many octets, which
// only a call of it shows.
pub(crate) fn run<F: Fn(&[u8]) -> usize>(rt: &impl Input, room: &mut [u8], print: F) -> usize
    requires { F.IsAlwaysCallable print }
    ensures upper_bound { result ≤ length room.old }
    ensures printed { (input : _) × (told : _) × (length input ≡ result) × FnReturnsAt F.Fn print input told }
{
    let n = input::fill(rt, room);
    print(&room[..n]);
    n
}
