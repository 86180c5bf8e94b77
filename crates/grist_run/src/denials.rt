//! Which replies tell that a rule denied a bundle.
ghost use Rattle.std.specs.Prelude.{◌≡◌};
ghost use Rattle.grist_run.specs.Denials.{begins, behind_comma, tells_denial};

// What stands behind the first comma.
fn behind_comma(text: &str) -> &str
    ensures { result.now ≡ behind_comma text.now }
{
    match text.split_once(',') {
        Some((_, behind)) => behind,
        None => "",
    }
}

/// Whether a line is the reply to a bundle that an access rule denied.
pub(crate) fn tells_denial(line: &str) -> bool
    ensures { result ≡ tells_denial line.now }
{
    begins("{\"error\":{\"action\":", line) && begins("\"code\":20,\"memo\":", behind_comma(line))
}

// Whether the text begins so.
fn begins(front: &str, text: &str) -> bool
    ensures { result ≡ begins front.now text.now }
{
    text.starts_with(front)
}
