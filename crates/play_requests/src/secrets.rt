// What is compared and not to be guessed.
ghost use Rattle.std.specs.Prelude.{◌≡◌, ◌&&◌};
ghost use Rattle.std.specs.Str.{bytes_eq};

/// Whether two of one length are the same. It looks at each byte, wherever they differ.
pub fn same_secret(first: &[u8], second: &[u8]) -> bool
    ensures { result ≡ bytes_eq first.now second.now }
{
    if first.len() != second.len() {
        return false;
    }
    let mut same = true;
    for at in 0..first.len() {
        same = same & (first[at] == second[at]);
    }
    same
}
