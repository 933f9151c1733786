// Rule 8 for one module, by fading scores: score and return count.
ghost use Rattle.std.specs.Prelude.{◌≡◌, cond};
ghost use Rattle.accounts.specs.Fading.{faded};
ghost use Rattle.accounts.specs.Range.{CountRange};

use crate::Account;
use words::bits::pick;

// x where b holds, else y.
fn choose(b: bool, x: f64, y: f64) -> f64
    ensures { result ≡ cond b x y }
{
    if b {
        return x;
    }
    y
}

impl Account {
    // In the view, health 0 adds 1.0 to the score and health 1 multiplies it by the factor, and at the limit the module leaves. Out of the view the
    // score stays; health 1: the return count grows, and at q the module returns, with score 0.0; health 0: the count begins anew. No branch.
    pub(crate) fn faded(self, factor: f64, limit: f64, q: u32, healthy: bool) -> Account
        requires { CountRange q self }
        ensures { result ≡ faded factor limit q healthy self }
    {
        let next = choose(healthy, self.score * factor, self.score + 1.0);
        let waits = !self.present & healthy;
        let longer = self.returns + 1;
        let returned = waits & (longer == q);
        Account {
            present: (self.present & (next < limit)) | returned,
            penalty: 0,
            reward: 0,
            score: choose(self.present, next, choose(returned, 0.0, self.score)),
            returns: pick(waits & (longer < q), longer, 0),
        }
    }
}
