//! A reason for a refusal.

ghost use Rattle.std.specs.Prelude.{◌≡◌, ◌+◌, OnOk, vec_len};

use std::alloc::AllocError;

/// A reason for a refusal.
#[derive(Drop)]
pub struct Reason {
    /// The title of the reason, such as `why`, `format` or `advice`. It is empty if the text
    /// continues that of the reason before.
    pub title: &'static str,
    pub text: String,
}

/// Adds a reason to others. Fails only if the text could not be made or memory is refused.
pub fn add(
    reasons: &mut Vec<Reason>,
    title: &'static str,
    text: Result<String, AllocError>,
) -> Result<(), AllocError>
    ensures { OnOk result (vec_len reasons.new ≡ vec_len reasons.old + 1) }
{
    let text = text?;
    reasons.push(Reason { title, text })?;
    Ok(())
}
