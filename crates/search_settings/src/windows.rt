// The window of hits that a search asks for.
ghost use Rattle.std.specs.Prelude.{◌≡◌, ◌^◌, ◌+◌, ◌-◌, min};
ghost use Rattle.search_call.specs.Windows.{offset_of, limit_of};

use search_call::Window;

/// The place of the first hit that a search asks for; the greatest number where it is greater.
pub fn window_start(window: Window) -> u64
    ensures { result ≡ min (offset_of window) (2 ^ 64 - 1) }
{
    match window {
        Window::Slice { offset, .. } => offset,
        Window::Page { page, per } => page.saturating_sub(1).saturating_mul(per),
    }
}

/// The place of the first hit that a search does not ask for, where no more than `most` are handed out.
pub fn window_end(most: u64, window: Window) -> u64
    ensures { result ≡ min (offset_of window + limit_of window) most }
{
    window_start(window)
        .saturating_add(window_len(window))
        .min(most)
}

// How many hits a search asks for at most.
fn window_len(window: Window) -> u64
    ensures { result ≡ limit_of window }
{
    match window {
        Window::Slice { limit, .. } => limit,
        Window::Page { page: 0, .. } => 0,
        Window::Page { per, .. } => per,
    }
}
