// Rule 8 for one module, by counts: penalty, reward and return count.
ghost use Rattle.std.specs.Prelude.{◌≡◌};
ghost use Rattle.accounts.specs.Account.{accounted};
ghost use Rattle.accounts.specs.Range.{InRange};

use crate::Account;
use words::bits::{flag, pick};

impl Account {
    // In the view, health 0: the penalty grows, the reward becomes 0, and above p the module leaves; health 1: with a penalty the reward grows, and at
    // r both become 0. Out of the view, health 1: the return count grows, and at q the module returns, with penalty p; health 0: the count begins
    // anew. No branch, so that modules are taken four at a time.
    pub(crate) fn accounted(
        self,
        p: u32,
        r: u32,
        q: u32,
        criticality: u32,
        healthy: bool,
    ) -> Account
        requires { InRange p q criticality self }
        ensures { result ≡ accounted p r q criticality healthy self }
    {
        let rewarded = (self.present & healthy) & (self.penalty != 0);
        let more = self.reward + flag(rewarded);
        let cleared = rewarded & (r <= more);
        let charged = self.present & !healthy;
        let waits = !self.present & healthy;
        let longer = self.returns + 1;
        let returned = waits & (longer == q);
        let grown = self.penalty + pick(charged, criticality, 0);
        let penalty = pick(returned, p, pick(cleared, 0, grown));
        Account {
            present: penalty <= p,
            penalty,
            reward: pick((cleared | charged) | returned, 0, more),
            score: 0.0,
            returns: pick(waits & (longer < q), longer, 0),
        }
    }
}
