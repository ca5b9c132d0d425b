ghost use Rattle.std.specs.Prelude.{◌≡◌, take};
ghost use Rattle.rules.specs.Records.{padded};

// A buffer of the first of some items, as many as it holds, and zero ones behind them.
pub fn filled<T: Copy, const N: usize>(used: &[T], zero: T) -> [T; N]
    ensures { result ≡ padded (take N used.now) zero N }
{
    let mut buffer = [zero; N];
    let n = used.len().min(N);
    buffer[..n].copy_from_slice(&used[..n]);
    buffer
}
