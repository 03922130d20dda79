//! Laws of requests. Each function does nothing; its contract is the law.
ghost use Rattle.feature_graph_c.specs.requests.Written.{ReadsChecks, ReadsViews, ReadsWalks};

/// Each request for a view is read from the numbers that are written for it.
pub fn views_are_read()
    ensures { ReadsViews }
{}

/// Each request for a walk is read from the numbers that are written for it.
pub fn walks_are_read()
    ensures { ReadsWalks }
{}

/// Each request for a check is read from the numbers that are written for it.
pub fn checks_are_read()
    ensures { ReadsChecks }
{}
