//! What the words behind `serve` ask for. No memory is taken.
ghost use Rattle.std.specs.Prelude.{◌≡◌, map, option_map, string_bytes};
ghost use Rattle.run_words.specs.ServeWords.{complete, serve_of};
ghost use Rattle.run_words.specs.OptionViews.{found_of, plan_in};

use crate::option_words::{Options, ServeWords};
use crate::options::options_said;

// Lanes, port and connections are all said, and no port is past the last one.
fn complete<'a>(found: Options<'a>) -> Option<ServeWords<'a>>
    ensures { option_map plan_in result ≡ complete (found_of found.entry) }
{
    match (found.lanes, found.port, found.conns) {
        (Some(lanes), Some(port), Some(conns)) if port as u64 + lanes as u64 <= 65_536 => {
            Some(ServeWords {
                lanes,
                port,
                conns,
                doc: found.doc,
                watch: found.watch,
            })
        }
        _ => None,
    }
}

/// What `serve` is asked for by the words behind it.
pub(crate) fn serve_words<'a>(options: &'a [String]) -> Option<ServeWords<'a>>
    ensures { option_map plan_in result ≡ serve_of (map string_bytes options.entry.now) }
{
    match options_said(true, options) {
        Some(found) => complete(found),
        None => None,
    }
}
