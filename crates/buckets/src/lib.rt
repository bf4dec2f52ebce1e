// A chained bucket index in one array: for each bucket its greatest entry, and behind these, for each entry, the greatest entry of its bucket below it; 0 is none.
// It knows nothing of what the entries are: the nodes of a table by a hash, the packages by their earliest compulsory item.
#![tactic(auto)]

ghost use Rattle.std.specs.Prelude.{◌≡◌, ◌+◌, ◌<◌, length};
ghost use Rattle.buckets.specs.Chain.{inserted};

// Entry k, the greatest so far, goes in front of what bucket b has.
pub fn insert(index: &mut [u16], buckets: usize, b: usize, k: u16)
    requires { (b < buckets) × (buckets + k < length index.old) }
    ensures { index.new ≡ inserted buckets b k index.old }
{
    let at = buckets + k as usize;
    index[at] = index[b];
    index[b] = k;
}
