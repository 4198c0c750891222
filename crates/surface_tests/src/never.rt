//! What never happens.

ghost use Rattle.std.specs.Prelude.{◌≡◌, false};

/// No call stands here: what is behind it is compiled, and does not run.
pub(crate) fn never() -> bool
    ensures { result ≡ false }
{
    false
}
