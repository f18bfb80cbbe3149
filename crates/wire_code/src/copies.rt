// Bytes of one slice into another.
ghost use Rattle.std.specs.Prelude.{◌≡◌, ℕ, ◌+◌, ◌≤◌, length, drop};
ghost use Rattle.std.proofs.Math.Seq.{paste};

// n bytes of s from `from` on go into dst at `at`; every other byte of dst stays. Two places and one length, so that no caller cuts two
// slices alike. A `for` and not the library's copy: with that, packets of 512 bytes take 1.35 times plain C's instructions, over their limit
// of 1.00 (bench/measure/limits.awk).
pub fn copy_in(dst: &mut [u8], at: usize, s: &[u8], from: usize, n: usize)
    requires { (at + n ≤ length dst.old) × (from + n ≤ length s.now) }
    ensures { dst.new ≡ paste dst.old at (drop from s.now) n }
{
    for j in 0..n {
        dst[at + j] = s[from + j];
    }
}
