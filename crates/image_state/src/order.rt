//! The order in which the lines of a state stand.
ghost use Rattle.std.specs.Prelude.{◌≡◌, option_copied};
ghost use Rattle.image_state.specs.Order.{follows, follows_last};

use image_lines::Line;

/// Whether a line may stand behind the last one before it, if there is one.
pub(crate) fn follows_last(last: Option<&Line>, line: &Line) -> bool
    ensures { result ≡ follows_last (option_copied last.entry) line.now }
{
    match last {
        Some(before) => follows(before, line),
        None => true,
    }
}

// First the channels, then the references, then what was printed, then the threads.
fn follows(before: &Line, line: &Line) -> bool
    ensures { result ≡ follows before.now line.now }
{
    match (before, line) {
        (Line::Chan(c), Line::Chan(d)) => c.0 < d.0,
        (Line::Ref(r, _), Line::Ref(s, _)) => r.0 < s.0,
        (Line::Thread(t, _, _), Line::Thread(u, _, _)) => t.0 < u.0,
        (Line::Chan(_), _) => true,
        (Line::Ref(_, _), Line::Chan(_)) => false,
        (Line::Ref(_, _), _) => true,
        (Line::Out(_), Line::Chan(_) | Line::Ref(_, _)) => false,
        (Line::Out(_), _) => true,
        (Line::Thread(_, _, _) | Line::End, _) => false,
    }
}
