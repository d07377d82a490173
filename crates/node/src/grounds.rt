// Why a node sends what it sends, or nothing, at a close (specification, 3.6 Ground of a close).
ghost use Rattle.std.specs.Prelude.{◌≡◌};
ghost use Rattle.node.specs.Grounds.{rule_number, first_rule, missing_of, ground_of};
ghost use Rattle.node.specs.Core.{bare};

use crate::close::{verdict_of, versions_rule};
use crate::{Core, Ground, Rule, Verdict};

impl From<Rule> for u8 {
    ghost from_gives = { λ r n. n ≡ rule_number r };

    fn from(r: Rule) -> u8 {
        r as u8 + 1
    }
}

impl Core {
    // The first rule that applies, where a missing request goes before the count. That none is missing is known, so no list is gone over.
    fn first_told(self, missing: u8) -> Rule
        requires { missing ≡ missing_of (bare self) }
        ensures { result ≡ first_rule (bare self) }
    {
        let r = self.round;
        if 0 < missing {
            return Rule::RequestMissing;
        }
        if !self.setup.config.is_enough(r.merged) {
            return Rule::NoMajority;
        }
        versions_rule(self.version, r.lowest, r.highest)
    }

    // The ground of a close, of the node before it.
    pub fn ground(self) -> Ground
        ensures { result ≡ ground_of (bare self) }
    {
        let r = self.round;
        let missing = membership::requests::lowest_missing(r.merged, r.known);
        let first = self.first_told(missing);
        let rule = if self.is_due(verdict_of(first) == Verdict::Determines) {
            Rule::NewSent
        } else if self.updated {
            Rule::NotDue
        } else {
            first
        };
        Ground { rule, missing }
    }
}
