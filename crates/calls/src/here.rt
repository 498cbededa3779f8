// Extends the path of a received element by the link from the transmitter to this point.
ghost use Rattle.std.specs.Prelude.{◌≡◌, ◌<◌, ◌≤◌};
ghost use Rattle.rules.specs.Learn.{hops_here, max_metric, metric_here, max_hops};

use counters::{HopCount, Metric};
use element::PathInfo;
use rules::Arrival;

// Returns received metric + link metric.
pub fn metric_here(a: Arrival, p: PathInfo) -> Metric
    requires { (metric_here a p).0 ≤ max_metric }
    ensures { result ≡ metric_here a p }
{
    Metric(p.metric.0 + a.link.0)
}

// Returns received hop count + 1.
pub fn hops_here(p: PathInfo) -> HopCount
    requires { p.hops.0 < max_hops }
    ensures { result ≡ hops_here p }
{
    HopCount(p.hops.0 + 1)
}
