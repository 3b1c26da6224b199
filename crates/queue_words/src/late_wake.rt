// That the bar is needed.
ghost use Rattle.queue_words.specs.LateWake.{BarIsNeeded};

// Carries the fact as its promise.
pub fn bar_is_needed()
    ensures { BarIsNeeded }
{}
