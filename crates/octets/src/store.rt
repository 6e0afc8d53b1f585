// Octets stored into a slice.
ghost use Rattle.std.specs.Prelude.{◌≡◌};
ghost use Rattle.octets.specs.Octets.{put};

/// Stores all of src from `at` on, where it fits; else the slice stays as it came.
pub fn put(out: &mut [u8], at: usize, src: &[u8])
    ensures { out.new ≡ put out.old at src.now }
{
    if at <= out.len() && src.len() <= out.len() - at {
        out[at..at + src.len()].copy_from_slice(src);
    }
}
