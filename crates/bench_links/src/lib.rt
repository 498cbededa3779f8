// The bench's link metrics: one for every pair of points, equal both ways.
#![tactic(auto)]

ghost use Rattle.std.specs.Prelude.{◌≡◌, ◌<◌};
ghost use Rattle.bench_links.specs.Links.{linked, metric_of, no_links};

// The link metric from each of 16 points to each. 0 is no link.
pub type Metrics = [[u32; 16]; 16];

// Returns link metrics without any link.
pub fn none() -> Metrics
    ensures { result ≡ no_links }
{
    [[0u32; 16]; 16]
}

// Sets the link metric of points p and q both ways, because a frame can pass over a link in either direction. Here and
// below, p and q are below 16 by a clause. A type for them is no plainer: callers know the bound from their bench, and would make
// a value of the type for these calls alone.
pub fn set_both_ways(links: &mut Metrics, p: usize, q: usize, metric: u32)
    requires { (p < 16) × (q < 16) }
    ensures { links.new ≡ linked links.old p q metric }
{
    links[p][q] = metric;
    links[q][p] = metric;
}

// Returns the link metric from point p to point q. 0 is no link.
pub fn metric_between(links: &Metrics, p: usize, q: usize) -> u32
    requires { (p < 16) × (q < 16) }
    ensures { result ≡ metric_of links.now p q }
{
    links[p][q]
}
