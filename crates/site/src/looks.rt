// What the answers look at of a site beside its members.
ghost use Rattle.std.specs.Prelude.{◌≡◌};
ghost use Rattle.site.specs.Answers.{is_full, is_packet};
ghost use Rattle.site.specs.Counts.{packets};
ghost use Rattle.site.specs.Members.{outside};

use crate::SiteHeader;

impl SiteHeader {
    // Whether j is none of the N nodes' numbers.
    pub fn outside(self, j: u32) -> bool
        ensures { result ≡ outside self.config j }
    {
        let f = self.config;
        !((1 <= j) & ((j <= f.nodes) & (j <= 32)))
    }

    // Whether node j has sent its packets of this phase.
    pub fn is_full(self, j: u32) -> bool
        ensures { result ≡ is_full self j }
    {
        SiteHeader::SENT <= membership::requests::entry_of(self.sent, j)
    }

    // The packets of this phase, all nodes together.
    pub fn packets(self) -> u32
        ensures { result ≡ packets self.sent }
    {
        let sent = self.sent;
        let mut n = 0;
        for x in &sent {
            n += u32::from(*x);
        }
        n
    }

    // Whether p is the number of a packet of this phase.
    pub fn is_packet(self, p: u32) -> bool
        ensures { result ≡ is_packet self p }
    {
        (1 <= p) & (p <= self.packets())
    }
}
