//! Numbers of calls, and those that are to fail.
ghost use Rattle.std.specs.Prelude.{◌≡◌, ◌↔◌, IsTrue};
ghost use Rattle.layout_io.specs.Calls.{next_number, IsListed};

// Counts a call, and tells whether it is to fail.
pub(crate) fn is_due(calls: &mut u64, failing: &[u64]) -> bool
    ensures due { IsTrue result ↔ IsListed failing.now calls.old }
    ensures number { calls.new ≡ next_number calls.old }
{
    *calls = calls.saturating_add(1);
    failing.contains(calls)
}
